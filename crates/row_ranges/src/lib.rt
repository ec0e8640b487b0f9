//! The rows of a large graph, filled by several workers: each has the rows of a range of vertices.
#![tactic(auto)]

mod distance;
mod filling;
pub mod graphs;
mod halves;
mod range;

pub use distance::most_lead_far;
pub use graphs::graph_of_list;
