//! What a search is to do.

use weighted_graph::Graph;

/// What a search is to do: in which graph, inside which regions,
/// and how much its root is to be fed.
#[derive(Clone, Copy)]
pub struct Task<'a> {
    pub graph: &'a Graph,
    pub labels: &'a [u32],
    pub stop: u64,
}

/// What a search is to do that never comes to one vertex: the task, that vertex, and how many arcs
/// the rows may have, added up, before it ends.
#[derive(Clone, Copy)]
pub struct Detour<'a> {
    pub task: Task<'a>,
    pub past: u32,
    pub most: usize,
}
