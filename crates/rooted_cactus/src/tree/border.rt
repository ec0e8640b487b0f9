//! A border of a block.

/// A border of a block. The side of each cut of the block has the vertices from one border to a
/// later one.
#[derive(Clone, Copy)]
pub struct Border {
    /// The place in the list of all vertices, counted from 0.
    pub place: usize,
    /// How many borders of the same block follow.
    pub following: usize,
}
