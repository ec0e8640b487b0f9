//! A tree of nodes for the minimum cuts of a graph, and the cactus that it makes.
//!
//! Each node has vertices, and hangs from another by a bridge or follows the one before it in a
//! cycle. `FlatTree` has the nodes in arrays, `HomedTree` the node of each vertex too, and `Homes`
//! the node of each region that is still to be parted. `hang_parts` gives nodes to the parts of a
//! region, as what lies between them tells. `tree_of_branches` reads the tree off a graph that is
//! a tree itself. `cactus_of_tree` makes the cactus whose sides are those of the tree, and
//! `normal_form` the normal one with the same sides.
#![tactic(auto)]

mod branches;
mod homed_tree;
mod homes;
mod into_cactus;
mod kind;
mod part_nodes;
mod tree;

pub use branches::tree_of_branches;
pub use homed_tree::HomedTree;
pub use homes::Homes;
pub use into_cactus::{MadeCactus, cactus_of_tree, normal_form};
pub use part_nodes::hang_parts;
pub use tree::{FlatTree, grafted_at};
