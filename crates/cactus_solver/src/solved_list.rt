//! What is found of a list of edges.

use cut_definitions::EdgeList;
use node_tree::HomedTree;

/// The minimum cuts of a graph.
#[derive(Drop)]
pub enum Cuts<T> {
    /// The number of components, which is two or more:
    /// the minimum cuts weigh 0, and are the unions of components.
    Apart(u32),
    /// What is known of the minimum cuts of a connected graph.
    Joined(T),
}

/// The minimum cuts of a graph, and its list of edges, given back.
#[derive(Drop)]
pub struct SolvedList<T> {
    pub list: EdgeList,
    pub cuts: Cuts<T>,
}

/// The value of a connected graph, and the tree of its minimum cuts in arrays.
#[derive(Drop)]
pub struct SolvedTree {
    pub value: u64,
    pub tree: HomedTree,
}
