//! The minimum cuts of a graph for callers in C: each export takes and fills plain arrays.
//!
//! Nothing is asked of the arrays but that they are there:
//! what is no graph is answered by a status.
#![tactic(auto)]

mod augments;
mod balances;
mod below;
mod cactuses;
mod canonical;
mod components;
mod counts;
mod filling;
mod light_cuts;
mod listings;
mod masses;
mod one_cut;
mod rows;
mod sides;
mod solving;
mod status;
mod values;
mod weighed;
