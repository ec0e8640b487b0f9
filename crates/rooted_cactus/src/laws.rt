//! Laws of normal cactuses. Each function does nothing, and its contract is a law.

ghost use Rattle.rooted_cactus.specs.Formula.{LawOfFormula};
ghost use Rattle.rooted_cactus.specs.NormalLaws.{LawOfCount, LawOfFewNodes};

/// A normal cactus over n vertices that has a block has at most 2n - 2 nodes.
pub fn few_nodes()
    ensures { LawOfFewNodes }
{}

/// The number of the different sides of a normal cactus. Each bridge counts 1 and each cycle of k
/// nodes k (k - 1) / 2, less the number of the empty nodes between two cycles.
pub fn number_of_sides()
    ensures { LawOfCount }
{}

/// The number of the different sides of a normal cactus, by three sums: the bridges and, for each
/// cycle of k nodes, k (k - 1) / 2, less the empty nodes that lie in exactly two blocks, both
/// cycles.
pub fn number_by_blocks()
    ensures { LawOfFormula }
{}
