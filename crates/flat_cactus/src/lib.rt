//! The flat cactus: a cactus whose nodes are numbered, with its bridges and cycles by these
//! numbers.
//!
//! `flatten` numbers the nodes of a rooted cactus in the order of entering, in loops. The cuts of
//! a `FlatCactus` remove one bridge or two edges of a cycle, and cut off what node 0 then no
//! longer reaches. They have the sides of the tree (`laws::flat_sides`). It is well formed and in
//! order (`laws::flat_form`, `laws::flat_order`).
#![tactic(auto)]

mod flat;
mod flattening;
pub mod laws;

pub use flat::FlatCactus;
pub use flattening::flatten;
