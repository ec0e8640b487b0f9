//! Laws of cuts. Each function does nothing, and its contract is a law.

ghost use Rattle.cut_definitions.specs.Laws.{LawOfBothAndEither, LawOfChain, LawOfChainAcross, LawOfContraction, LawOfCover, LawOfCrossing, LawOfDifferences, LawOfIntervals, LawOfJoinedIntervals, LawOfMembers, LawOfMinimumSides, LawOfNeighbours, LawOfNesting, LawOfSubintervals};

/// How the weights of two sets compare with those of their intersection and union.
pub fn both_and_either()
    ensures { LawOfBothAndEither }
{}

/// How the weights of two sets compare with those of their differences.
pub fn differences()
    ensures { LawOfDifferences }
{}

/// Two minimum cuts that cross.
pub fn crossing()
    ensures { LawOfCrossing }
{}

/// Minimum cuts across an edge are nested.
pub fn nesting()
    ensures { LawOfNesting }
{}

/// The minimum cuts across an edge are a chain.
pub fn chain_across()
    ensures { LawOfChainAcross }
{}

/// Minimum cuts as sets, and as sides.
pub fn minimum_sides()
    ensures { LawOfMinimumSides }
{}

/// A minimum cut that meets two parts of a chain.
pub fn intervals()
    ensures { LawOfIntervals }
{}

/// Where the minimum cuts outside a chain lie.
pub fn cover()
    ensures { LawOfCover }
{}

/// Intervals inside one that is a minimum cut.
pub fn subintervals()
    ensures { LawOfSubintervals }
{}

/// Two intervals that share a part.
pub fn joined_intervals()
    ensures { LawOfJoinedIntervals }
{}

/// Which intervals of inner parts are minimum cuts, by pairs of neighbours.
pub fn neighbours()
    ensures { LawOfNeighbours }
{}

/// Contraction of classes that no minimum cut separates.
pub fn contraction()
    ensures { LawOfContraction }
{}

/// The sets of a chain as lists.
pub fn members()
    ensures { LawOfMembers }
{}

/// The chain as the list of the sets of its first parts.
pub fn chain()
    ensures { LawOfChain }
{}
