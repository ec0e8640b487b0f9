//! Local tests that show an edge safe to contract: no minimum cut below a bound separates its
//! ends.
//!
//! Contracts see a graph as its number of vertices and its list of edges. The limit of a test is
//! bound plus slack. Slack 0 keeps the value; slack 1 keeps all minimum cuts if the bound is the
//! weight of some cut.
//!
//! The tests are those of Padberg and Rinaldi (1990), in a strict form with conditions on the
//! degrees. Each goes along the shorter row of the edge's two ends. So all edges together cost at
//! most the sum of the lesser lengths, times the logarithm of the greater.
#![tactic(auto)]

mod closing;
mod heavy;
mod rows;
mod shared;

pub use closing::triangle;
pub use heavy::{heavy_edge, heavy_vertex};
pub use shared::shared_neighbours;
