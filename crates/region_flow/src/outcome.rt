//! What a run answers.

/// The least weight of a cut between two vertices, or that it is not below the stop.
#[derive(Clone, Copy, Debug, PartialEq, Eq)]
pub enum Outcome {
    /// Every cut between the two vertices weighs at least the stop.
    AtLeast,
    /// The least weight of a cut between the two vertices. It is below the stop.
    Best(u64),
}

/// A run that answered `Best`: from where, to where, and the least weight of a cut
/// between these two vertices.
#[derive(Clone, Copy, Debug, PartialEq, Eq)]
pub struct BestRun {
    pub s: u32,
    pub t: u32,
    pub amount: u64,
}
