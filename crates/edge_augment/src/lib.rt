//! Augmentation: the fewest edges of weight 1 that raise the value of a graph, and the sets that
//! show that fewer do not.
//!
//! `augment` makes a `Plan` of a normal cactus that has a block. Contracts see it as pairs and
//! lists. `IsAugmentation` says which edges and sets these are. `IsLeast` says that every side has
//! exactly one end of some edge, and that fewer pairs of vertices do not do that.
//! `laws::augmentation` says that this raises the value, if the sides are the minimum cuts.
//!
//! The sets are those of the end nodes, which lie in exactly one block. They share no vertex, each
//! is a side of a minimum cut or the complement of one, and every minimum cut has one of them on
//! each of its sides. So each of them needs the end of a new edge. As an edge has two ends, at
//! least half as many edges as sets are needed, rounded up. This many are enough. In the order in
//! which the tree is entered, each end node of the first half is joined with the one half of their
//! number further on. That this bound is reached is due to Eswaran and Tarjan (1976) for bridges,
//! and to Naor, Gusfield and Martel (1997), who use the cactus, for any value.
#![tactic(auto)]

mod augmenting;
mod ends;
pub mod laws;
mod plan;

pub use augmenting::augment;
pub use plan::Plan;
