//! The graph of a list of edges, with its vertices in an order in which neighbours are near each
//! other.
//!
//! A graph whose vertices are numbered at random is slow to traverse, since what a search reads
//! next can be anywhere in memory. In the order of a breadth-first search neighbours are near
//! (Cuthill and McKee, 1969), unless the graph is an expander. Each vertex gets a label of its
//! own, so the value and all minimum cuts are kept.
#![tactic(auto)]

mod finding;
mod order;
mod renumbering;

pub use renumbering::{NearGraph, near_graph};
