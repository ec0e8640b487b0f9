//! A graph with the edges at each vertex in one row.
//!
//! The vertices are 1 to n, edges are counted from 0 in the order of the list,
//! and weights add up to at most 2^61.

ghost use Rattle.std.specs.Prelude.{◌≡◌, ◌↔◌, ◌+◌, ◌<◌, ◌≤◌, IfOk, length, slice_get, slice_index_or};
ghost use Rattle.std.specs.List.{AllPairs};
ghost use Rattle.cut_definitions.specs.Graph.{IsEdgeList};
ghost use Rattle.cut_definitions.specs.Weight.{VertexSet, weight, between};
ghost use Rattle.cut_definitions.specs.Cuts.{has};
ghost use Rattle.cut_definitions.specs.Components.{HasComponents};
ghost use Rattle.cut_definitions.specs.Contraction.{relabel};
ghost use Rattle.cut_definitions.specs.Degrees.{IsLeastDegree};
ghost use Rattle.cut_definitions.specs.Safe.{IsFair};
ghost use Rattle.cut_definitions.specs.Scan.{single};
ghost use Rattle.vertex_classes.specs.Classes.{no_vertex, Respects};
ghost use Rattle.weighted_graph.specs.declared.graph.Arc.{Arc};
ghost use Rattle.weighted_graph.specs.Rows.{row_of, weight_in, IsIndexed};

use crate::components::join_ends;
use crate::labels::Labels;
use crate::relabel::relabel_list;
use crate::row_index::RowIndex;
use cut_definitions::{Edge, EdgeList, NoMemory};
use std::alloc::Global;
use std::marker::Model;
use vertex_classes::Classes;
use vertex_set::Side;

/// One direction of an edge: its other end, its place in the list of edges, and its weight.
#[derive(Clone, Copy, Debug, PartialEq, Eq)]
pub struct Arc {
    pub to: u32,
    pub edge: u32,
    pub weight: u64,
}

/// The weight of the arc to a vertex in an ascending row, or 0 if the row has no such arc. Binary
/// search: O(log of the row's length).
pub fn weight_to(row: &[Arc], v: u32) -> u64
    requires { AllPairs (λ (a b : Arc). a.to < b.to) row.now }
    ensures { result ≡ weight_in row.now v }
{
    match row.binary_search_by_key(&v, |arc| arc.to) {
        Ok(place) => row[place].weight,
        Err(_) => 0,
    }
}

/// A graph: its edges, and the edges at each vertex in one row.
/// Contracts see the number of vertices and the list.
///
/// An edge takes 48 bytes of memory, a vertex 16.
#[derive(Drop)]
pub struct Graph {
    list: EdgeList,
    rows: RowIndex,
}

impl Model for Graph {
    ghost use Rattle.cut_definitions.specs.Graph.{Graph as EdgeGraph};
    ghost use Rattle.weighted_graph.specs.Rows.{IsIndexed};

    ghost Value = { EdgeGraph };

    ghost view = { λ g. g.list };

    ghost invariant = { λ g. IsIndexed g.list g.rows.starts.items g.rows.arcs.items g.rows.degrees.items };
}

impl Graph {
    /// The graph of a list of edges, in O(n + m). It fails only if it runs out of memory.
    ///
    /// While it is built it takes 8 bytes more a vertex, before the edges are copied. If the edges
    /// of a large graph lead far apart, it also takes 1.5 bytes more an edge.
    pub fn build(alloc: Global, list: &EdgeList) -> Result<Graph, NoMemory>
        ensures { IfOk result (λ g. g ≡ list.now) }
    {
        let rows = RowIndex::build(alloc, list)?;
        let edges = Vec::from_slice(alloc, list.edges())?;
        let list = EdgeList::from_edges(list.n(), edges);
        Ok(Graph { list, rows })
    }

    /// The graph of a list of edges, as from `build`. The list is taken over and not copied, which
    /// saves 16 bytes an edge. If memory runs out, the list is dropped.
    pub fn from_list(alloc: Global, list: EdgeList) -> Result<Graph, NoMemory>
        ensures { IfOk result (λ g. g ≡ list) }
    {
        let rows = RowIndex::build(alloc, &list)?;
        Ok(Graph::from_rows(list, rows))
    }

    /// The graph of a list of edges and of its rows, which the caller has made. Both are taken
    /// over.
    pub fn from_rows(list: EdgeList, rows: RowIndex) -> Graph
        requires { IsIndexed list rows.starts.items rows.arcs.items rows.degrees.items }
        ensures { result ≡ list }
    {
        Graph { list, rows }
    }

    /// The number of vertices.
    pub fn n(&self) -> u32
        ensures value { result ≡ self.now.vertices }
        ensures edge_list { IsEdgeList self.now }
    {
        self.list.n()
    }

    /// The number of edges.
    pub fn edges(&self) -> usize
        ensures { result ≡ length self.now.edges }
    {
        self.list.len()
    }

    /// The edge at a place of the list, 0 to m - 1.
    pub fn edge(&self, i: usize) -> Edge
        requires { i < length self.now.edges }
        ensures value { slice_get self.now.edges i ≡ Some result }
        ensures by_index { result ≡ slice_index_or self.now.edges i result }
    {
        self.list.edge(i)
    }

    /// All edges, ascending by their ends, as a borrowed slice.
    pub fn edge_list(&self) -> &[Edge]
        ensures value { result.now ≡ self.now.edges }
        ensures edge_list { IsEdgeList self.now }
    {
        self.list.edges()
    }

    /// The list of edges of which the graph was made, borrowed.
    pub fn list(&self) -> &EdgeList
        ensures { result.now ≡ self.now }
    {
        &self.list
    }

    /// Returns the list of edges of which the graph was made, and drops the rows. It takes no
    /// memory.
    pub fn into_list(self) -> EdgeList
        ensures { result ≡ self }
    {
        self.list
    }

    /// The edges at a vertex, ascending by the other end, as a borrowed slice. The row of 0 is
    /// empty.
    pub fn row(&self, v: u32) -> &[Arc]
        requires { v ≤ self.now.vertices }
        ensures value { result.now ≡ row_of self.now v }
        ensures edge_list { IsEdgeList self.now }
    {
        let start = self.rows.starts[v as usize];
        let end = self.rows.starts[v as usize + 1];
        let arcs = self.rows.arcs.as_slice();
        &arcs[start..end]
    }

    /// The sum of the weights of the edges at a vertex, which is stored: O(1).
    pub fn degree(&self, v: u32) -> u64
        requires { v ≤ self.now.vertices }
        ensures { result ≡ weight self.now (single v) }
    {
        self.rows.degrees[v as usize]
    }

    /// The least degree of a vertex, which is the weight of some cut. O(n).
    pub fn least_degree(&self) -> u64
        requires { 2 ≤ self.now.vertices }
        ensures least { IsLeastDegree self.now result }
        ensures fair { IsFair self.now result }
    {
        let mut least = self.degree(1);
        for v in 1..self.n() + 1 {
            least = least.min(self.degree(v));
        }
        least
    }

    /// The weight of the edge between two vertices, or 0 if there is no such edge. Binary search
    /// in the shorter row: O(log of its length).
    pub fn weight(&self, u: u32, v: u32) -> u64
        requires { u ≤ self.now.vertices }
        ensures { result ≡ between self.now (single u) (single v) }
    {
        let row = self.row(u);
        if v <= self.n() {
            let other = self.row(v);
            if other.len() < row.len() {
                return weight_to(other, u);
            }
        }
        weight_to(row, v)
    }

    /// The weight of a set of vertices over the same n: the sum of the weights of the edges with
    /// exactly one end in it. O(m).
    pub fn weight_of(&self, side: &Side) -> u64
        requires { side.now.vertices ≡ self.now.vertices }
        ensures { result ≡ weight self.now (has side.now.members) }
    {
        let mut total = 0;
        for edge in self.edge_list() {
            let u_in = side.has(edge.u);
            let v_in = side.has(edge.v);
            if u_in != v_in {
                total += edge.w;
            }
        }
        total
    }

    /// The components as classes of the vertices. The ends of each edge are joined by union-find
    /// (Galler and Fischer, 1964), in O(m log(n) + n) steps.
    ///
    /// The sets with all or none of each class are exactly those of weight 0. It takes 4 bytes a
    /// vertex, and fails only if it runs out of memory.
    pub fn component_classes(&self, alloc: Global) -> Result<Classes, NoMemory>
        ensures long { IfOk result (λ c. length c ≡ self.now.vertices + 1) }
        ensures joined { IfOk result (λ c. (s : VertexSet) → Respects c s ↔ (weight self.now s ≡ 0)) }
        ensures apart { IfOk result (λ c. Respects c no_vertex) }
    {
        let mut classes = Classes::new(alloc, self.n())?;
        join_ends(self, &mut classes);
        Ok(classes)
    }

    /// The number of components; 0 exactly if there is no vertex. It counts the classes of
    /// `component_classes`, at the same cost, and fails only if it runs out of memory.
    pub fn components(&self, alloc: Global) -> Result<u32, NoMemory>
        ensures counted { IfOk result (λ count. HasComponents self.now count) }
        ensures none { IfOk result (λ count. (count ≡ 0) ↔ (self.now.vertices ≡ 0)) }
    {
        let classes = self.component_classes(alloc)?;
        Ok(classes.count())
    }

    /// The graph on the classes of labels, of which there is one for each vertex. The weight
    /// between two classes is the sum over the edges between their vertices; edges inside a class
    /// are dropped.
    ///
    /// The edges between classes are sorted once, in O(m log m). It fails only if it runs out of
    /// memory.
    pub fn relabel(&self, alloc: Global, labels: &Labels) -> Result<Graph, NoMemory>
        requires { length labels.now ≡ self.now.vertices }
        ensures { IfOk result (λ g. g ≡ relabel self.now labels.now) }
    {
        let merged = relabel_list(alloc, &self.list, labels)?;
        Graph::from_list(alloc, merged)
    }
}
