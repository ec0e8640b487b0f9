//! Sets of the vertices 1 to n of a graph.
//!
//! A `Side` keeps one bit for each vertex, 64 to a word. Contracts see n and the ascending list of
//! the members, and state which vertices are members after each change. Only `Side::empty` takes
//! memory. Unions, differences, complements and counts go word by word, so each takes n/64 steps.
#![tactic(auto)]

mod side;
mod words;

pub use side::Side;
