//! Capped scans of a graph, which take in each turn a vertex with the greatest rank. The rank is
//! the smaller of a cap and the weight to the vertices before. A scan shows lower bounds of cuts,
//! and returns the weight of each set that it scanned.
//!
//! Without a cap the order is a maximum adjacency order. The scan is CAPFOREST of Nagamochi, Ono
//! and Ibaraki (1994), with ranks up to a cap.
#![tactic(auto)]

mod capped;
mod maxima;
mod raising;

pub use capped::{Scan, Scanned};
