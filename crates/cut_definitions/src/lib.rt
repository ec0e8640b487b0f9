//! Graphs, cuts and their weights: the definitions that the contracts of the repository use, and
//! their laws.
//!
//! Contracts see an edge list as a `Graph`: its number of vertices and its ascending list of
//! edges. A set of vertices is a test, and its weight is a sum over that list. A side is a list of
//! vertices, seen as such a test.
#![tactic(auto)]

mod edge_list;
pub mod laws;
mod limits;
mod vertex_weights;

pub use edge_list::{Edge, EdgeList};
pub use limits::{MOST_EDGES, MOST_VERTICES, MOST_WEIGHT, MOST_WORKERS};
pub use vertex_weights::VertexWeights;

/// The error of a call that ran out of memory.
pub type NoMemory = std::alloc::AllocError;
