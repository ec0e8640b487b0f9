//! What the solver finds out about a graph.

use crate::cactus::Cactus;

/// The value of a graph, and a normal cactus whose sides are exactly its minimum cuts.
#[derive(Drop)]
pub struct Solved {
    pub value: u64,
    pub cactus: Cactus,
}
