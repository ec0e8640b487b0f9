//! The rooted cactus: its tree, the lists that it is built from, its sides, its normal form, and
//! the number of its sides.
//!
//! A `Cactus` over n vertices is a tree of nodes that are joined by bridges and cycles. Each of
//! the vertices 1 to n is in exactly one node, and vertex 1 is in the root. Contracts see a cactus
//! as n and its root, and read the tree by a few words: `entered`, `cuts`, `sides_of`, `widths`.
//! `cactus_tree` says what these mean. It exports this crate together with `cactus_walk` and
//! `flat_cactus`, which are built on this one side by side.
//!
//! For these two crates there are lists in the order in which the tree is entered. `in_order`
//! lists the vertices, with the place at which each node begins. `outline_of` says of each node
//! how many nodes are right below it and in its block, and `sizes_along` how many there are from
//! it down.
//!
//! To make a tree anew, it is taken apart into entries (`entries_of`), and put together from the
//! last entry to the first (`put_together`). A `Maker` decides what becomes of the nodes and
//! blocks. One keeps the tree as it was, for other names of the vertices. One leaves out the nodes
//! and bridges that can be spared (`hung`, `trimmed`). That of `canonical_cactus` has an order of
//! its own.
//!
//! `Solved` has the value of a graph, and a cactus of all its minimum cuts. The solver makes it,
//! and what prints it needs nothing else of the solver.
#![tactic(auto)]

mod cactus;
pub mod laws;
mod solved;
mod tree;
mod vertex_list;

pub use cactus::Cactus;
pub use solved::Solved;
pub use tree::{
    Block, Blocks, Border, Children, InOrder, Joint, Maker, Node, NodeOutline, ShedNode, bare_node,
    entries_of, hung, in_order, leaf_bridge, outline_of, put_together, rename_node, sizes_along,
    stack_blocks, stack_inner, subtree_sizes, trimmed, vertices_by_class, vertices_in_order,
};
pub use vertex_list::VertexList;
