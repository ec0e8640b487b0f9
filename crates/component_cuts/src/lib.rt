//! The minimum cuts of a graph with several components.
//!
//! The value of such a graph is 0. A set of vertices has weight 0 exactly if it is a union of
//! components. So the minimum cuts are the nonempty unions of the components without vertex 1.
//! Contracts see n and the components as lists of vertices, in the order of their least vertices.
#![tactic(auto)]

mod best_refusal;
mod components;
mod edge_classes;
pub mod laws;
mod numbers;
mod sums;
mod unions;

pub use best_refusal::BestRefusal;
pub use components::Components;
pub use edge_classes::count_components;
