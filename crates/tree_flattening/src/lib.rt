//! The flat canonical cactus of a tree in arrays, without a tree of nodes in memory.
//!
//! `canonical_flat` takes the tree that a solver leaves: for each node the one above it, whether
//! it follows the node before it in a cycle, and the node of each vertex. `Groups` is a counting
//! sort, of vertices by their nodes and of the first nodes of blocks by the nodes above
//! (`arranging`). The least vertex at or under each node and below each block (`leasts`)
//! determines the order of the blocks and the direction of the cycles (`arrangement`). Then nodes
//! are numbered in the order in which the tree is entered (`walking`). The canonical cactus is
//! that of `canonical_cactus`, and its flat form that of `flat_cactus`.
//!
//! `count_of_tree` counts the minimum cuts by such a tree (`counting`).
#![tactic(auto)]

mod arrangement;
mod arranging;
mod counting;
mod groups;
mod leasts;
mod making;
mod walking;

pub use counting::count_of_tree;
pub use making::canonical_flat;
