//! The laws of the made graph. The functions do nothing; their contracts are the laws.

ghost use Rattle.graph_maker.specs.Made.{LawOfConnectedMaking, LawOfMaking};

/// The made graph has five edges for each ring: four in it, and one to the next ring.
pub fn making()
    ensures { LawOfMaking }
{}

/// The made graph is connected: each cut weighs at least 1.
pub fn connected_making()
    ensures { LawOfConnectedMaking }
{}
