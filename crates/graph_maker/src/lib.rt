//! Makes a graph of any size whose minimum cuts are known beforehand.
//!
//! The graph for a number N has K rings of four vertices, with K a fourth of N, rounded down. Each
//! ring is linked to the next one, and the last to the first; each edge weighs 2. A cut of two
//! links weighs 4, and so does one with just the second or the fourth vertex of a ring. No cut
//! weighs less.
//!
//! Contracts see it as `made_graph`, the list of its edges ring by ring. `laws::making` says that
//! these are the edges that the rule names, and no others. `laws::connected_making` says that the
//! graph is connected.
#![tactic(auto)]

pub mod laws;
mod rings;

pub use rings::make;
