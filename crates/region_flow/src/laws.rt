//! Laws of flows with regions. Each function does nothing, and its contract is a law.

ghost use Rattle.region_flow.specs.Laws.{LawOfClosed, LawOfFeed};

/// Which sets around a vertex weigh just what the vertex is fed.
pub fn closed()
    ensures { LawOfClosed }
{}

/// What a vertex is fed against the weights of the sets around it.
pub fn feed()
    ensures { LawOfFeed }
{}
