//! Laws of the machine. Each function does nothing, and its contract is a law.

ghost use Rattle.scan_core.specs.Laws.{LawOfSteps, LawOfKeeping, LawOfWinners, LawOfMarkers, LawOfFalling};

/// After every list of steps by any number of seats, from an opening state with a fair bound,
/// these facts hold.
///
/// The bound is fair and at most the opening one, and what a live seat saw is at least the bound.
/// Every mark is safe for the bound. Every edge in the set of a live seat is marked, and every
/// marked edge is in the set of some live seat. Every vertex that a live seat won or knows is
/// taken, and each taken vertex was won by one live seat, once. A seat that has ended has marked
/// nothing and won nothing.
pub fn steps()
    ensures { LawOfSteps }
{}

/// Each allowed step keeps these facts, from any state that meets them.
pub fn keeping()
    ensures { LawOfKeeping }
{}

/// If the facts hold, each taken vertex was won once by one live seat, and by no other seat.
pub fn winners()
    ensures { LawOfWinners }
{}

/// If the facts hold, each marked edge is in the set of some live seat.
pub fn markers()
    ensures { LawOfMarkers }
{}

/// The bound never rises.
pub fn falling()
    ensures { LawOfFalling }
{}
