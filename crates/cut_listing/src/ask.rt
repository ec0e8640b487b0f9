//! What is asked of a side.

use cut_definitions::VertexWeights;

/// Which sides are selected.
#[derive(Clone, Copy)]
pub enum Ask<'a> {
    /// Every side.
    All,
    /// The sides that have exactly one of two vertices; a number that is no vertex is in no side.
    Parting(u32, u32),
    /// The sides whose balance by the masses is at least a number. The balance is the lesser of
    /// the mass of the side and that of all other vertices.
    Least(u64, &'a VertexWeights),
}
