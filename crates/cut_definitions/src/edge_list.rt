//! The list of edges of a graph.

ghost use Rattle.std.specs.Prelude.{◌≡◌, ◌↔◌, ◌<◌, ◌≤◌, [], length, IsTrue, OnOk, OnErr, slice_get, slice_index_or};
ghost use Rattle.cut_definitions.specs.Graph.{IsEdgeList, with_edge};

use crate::NoMemory;
use std::alloc::Global;
use std::marker::Model;

/// An edge of integer weight `w` between the vertices `u` and `v`, which are counted from 1.
#[derive(Clone, Copy, Debug, PartialEq, Eq)]
pub struct Edge {
    pub u: u32,
    pub v: u32,
    pub w: u64,
}

/// A graph on the vertices 1 to n, as the ascending list of its edges.
///
/// Each edge has `1 <= u < v <= n` and `w >= 1`, the edges ascend by (u, v), and no pair occurs
/// twice. There are at most 4,194,304 vertices and 16,777,216 edges, and the weights add up to at
/// most 2^61.
#[derive(Drop)]
pub struct EdgeList {
    n: u32,
    edges: Vec<Edge>,
}

impl Model for EdgeList {
    ghost use Rattle.cut_definitions.specs.Graph.{Graph, IsEdgeList};

    ghost Value = { Graph };

    ghost view = { λ l. record { vertices = l.n; edges = l.edges.items } };

    ghost invariant = { λ l. IsEdgeList (record { vertices = l.n; edges = l.edges.items }) };
}

impl EdgeList {
    /// A graph with no edges. It takes no memory.
    pub fn new(alloc: Global, n: u32) -> EdgeList
        requires { n ≤ 4194304 }
        ensures { result ≡ record { vertices = n; edges = [] } }
    {
        EdgeList {
            n,
            edges: Vec::new(alloc),
        }
    }

    /// The graph of a finished list of edges, which it takes over. It takes no memory.
    pub fn from_edges(n: u32, edges: Vec<Edge>) -> EdgeList
        requires { IsEdgeList (record { vertices = n; edges = edges.items }) }
        ensures { result ≡ record { vertices = n; edges = edges.items } }
    {
        EdgeList { n, edges }
    }

    /// Appends an edge, which must come after all others. If it runs out of memory, the list is
    /// unchanged.
    pub fn push(&mut self, edge: Edge) -> Result<(), NoMemory>
        requires { IsEdgeList (with_edge self.old edge) }
        ensures ok { OnOk result (self.new ≡ with_edge self.old edge) }
        ensures err { OnErr result (self.new ≡ self.old) }
    {
        self.edges.push(edge)?;
        Ok(())
    }

    /// The number of vertices.
    pub fn n(&self) -> u32
        ensures value { result ≡ self.now.vertices }
        ensures edge_list { IsEdgeList self.now }
    {
        self.n
    }

    /// The number of edges.
    pub fn len(&self) -> usize
        ensures { result ≡ length self.now.edges }
    {
        self.edges.len()
    }

    /// Whether there is no edge.
    pub fn is_empty(&self) -> bool
        ensures { IsTrue result ↔ (self.now.edges ≡ []) }
    {
        self.edges.is_empty()
    }

    /// The edge at a place of the list, counted from 0.
    pub fn edge(&self, i: usize) -> Edge
        requires { i < length self.now.edges }
        ensures value { slice_get self.now.edges i ≡ Some result }
        ensures by_index { result ≡ slice_index_or self.now.edges i result }
    {
        self.edges[i]
    }

    /// All edges, as a borrowed slice.
    pub fn edges(&self) -> &[Edge]
        ensures value { result.now ≡ self.now.edges }
        ensures edge_list { IsEdgeList self.now }
    {
        &self.edges
    }
}
