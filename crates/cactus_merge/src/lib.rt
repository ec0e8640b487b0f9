//! Beside the program: the assembly of a cactus from a chain of parts.
//!
//! A chain of cuts divides the vertices into a row of parts, and some runs of parts have the cuts
//! of all their intervals. `join` makes one tree of the nodes of the parts. Bridges join
//! neighbours outside the runs, and each run is drawn as a cycle with its two outer neighbours.
//! The way in which cycles show such runs is due to Dinitz, Karzanov and Lomonosov (1976). The
//! assembly part by part follows Fleischer (1999). Contracts read a tree by its `part`: what it
//! has below it, and its cuts as sets.
#![tactic(auto)]

mod assembly;
mod node;
mod part;

pub use assembly::join;
pub use part::{PartCactus, assemble};
