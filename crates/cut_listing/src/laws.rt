//! Laws of listings. Each function does nothing, and its contract is a law.

ghost use Rattle.cut_listing.specs.Laws.{LawOfCount, LawOfMinimumCuts, LawOfNumber, LawOfOneListing, LawOfSides};

/// A set of sides has just one listing.
pub fn one_listing()
    ensures { LawOfOneListing }
{}

/// Sides that ascend are in the order that they have among all sides.
pub fn sides_in_order()
    ensures { LawOfSides }
{}

/// A listing of a cactus whose sides are the minimum cuts of a graph is the list of these cuts.
pub fn minimum_cuts_in_order()
    ensures { LawOfMinimumCuts }
{}

/// The number of different sides of a cactus whose sides are the minimum cuts of a graph.
pub fn count_of_minimum_cuts()
    ensures { LawOfCount }
{}

/// The number of different sides of a cactus whose sides are the minimum cuts of a graph, as
/// counted from its tree.
pub fn number_of_minimum_cuts()
    ensures { LawOfNumber }
{}
