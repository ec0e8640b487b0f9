//! Classes of vertices that lean on one another, by local tests on the list of edges alone.
//!
//! An edge with more than half of the weight at one of its ends is in no minimum cut but that of
//! this end alone, since any other would be lighter with the end moved over. So it is with an edge
//! that has more than half of the weight at both ends together with the edges from these to a
//! common neighbour (Padberg and Rinaldi, 1990). The only neighbour that is tried is the one of
//! greatest degree, where it is the same for both ends.

ghost use Rattle.std.specs.Prelude.{◌≡◌, ◌+◌, ◌≤◌, ◌^◌, ◌⊎◌, IfOk, IsTrue, length};
ghost use Rattle.cut_definitions.specs.Graph.{Graph};
ghost use Rattle.cut_definitions.specs.Weight.{weight};
ghost use Rattle.edge_certificates.specs.Certificates.{edge_weight, IsHeavyVertex, IsTriangle};
ghost use Rattle.weighted_graph.specs.ContractionLaws.{ClassesAreSafe};
ghost use Rattle.vertex_classes.specs.Classes.{no_vertex, Respects};
ghost use Rattle.forest_contraction.specs.Leaning.{AreHubs, AreSafe};

use cut_definitions::{Edge, EdgeList, NoMemory};
use least_cut::degrees_of;
use std::alloc::Global;
use vertex_classes::Classes;
use weighted_graph::Labels;

/// The degree of each vertex, its neighbour of greatest degree, or 0 where none was seen yet, and
/// what the edge to that weighs.
#[derive(Drop)]
pub(crate) struct Hubs {
    degrees: Vec<u64>,
    hubs: Vec<u32>,
    weights: Vec<u64>,
}

impl Hubs {
    /// No neighbour seen yet.
    fn new(alloc: Global, list: &EdgeList) -> Result<Hubs, NoMemory>
        ensures { IfOk result (AreHubs list.now) }
    {
        // known by this call: it is an edge list
        let places = list.n() as usize + 1;
        let degrees = degrees_of(alloc, list)?;
        let hubs = vec![in alloc; 0u32; places]?;
        let weights = vec![in alloc; 0u64; places]?;
        Ok(Hubs {
            degrees,
            hubs,
            weights,
        })
    }

    /// Takes a neighbour as the hub of a vertex, where its degree is greater
    /// than that of the one so far.
    fn see(&mut self, v: u32, neighbour: u32, weight: u64)
        requires hubs { (g : Graph) × AreHubs g self.old × (v ≤ g.vertices) × (neighbour ≤ g.vertices) }
        ensures { (g : Graph) → AreHubs g self.old → v ≤ g.vertices → neighbour ≤ g.vertices → 1 ≤ weight → weight ≤ 2 ^ 61 → weight ≤ edge_weight g v neighbour → AreHubs g self.new }
    {
        let hub = self.hubs[v as usize];
        if self.degrees[neighbour as usize] > self.degrees[hub as usize] {
            self.hubs[v as usize] = neighbour;
            self.weights[v as usize] = weight;
        }
    }

    /// The neighbours of greatest degree.
    fn of(alloc: Global, list: &EdgeList) -> Result<Hubs, NoMemory>
        ensures { IfOk result (AreHubs list.now) }
    {
        let mut hubs = Hubs::new(alloc, list)?;
        for edge in list.edges() {
            hubs.see(edge.u, edge.v, edge.w);
            hubs.see(edge.v, edge.u, edge.w);
        }
        Ok(hubs)
    }

    /// Whether the ends of an edge lean on one another: both have a degree of the bound or
    /// more, and the edge is more than half of one of these, or together with those to a common
    /// hub more than half of both.
    fn lean(&self, edge: Edge, bound: u64) -> bool
        requires hubs { (g : Graph) × AreHubs g self.now × (edge.u ≤ g.vertices) × (edge.v ≤ g.vertices) }
        requires light { edge.w ≤ 2 ^ 61 }
        ensures { IsTrue result → (g : Graph) → AreHubs g self.now → IsHeavyVertex g edge bound ⊎ IsTriangle g edge bound }
    {
        let (u, v) = (edge.u as usize, edge.v as usize);
        let (near, far) = (self.degrees[u], self.degrees[v]);
        if near < bound || far < bound {
            return false;
        }
        let twice = 2 * edge.w;
        if near < twice || far < twice {
            return true;
        }
        let hub = self.hubs[u];
        if hub == 0 || hub != self.hubs[v] {
            return false;
        }
        near < twice + 2 * self.weights[u] && far < twice + 2 * self.weights[v]
    }
}

/// Makes the ends of each edge one that lean on one another.
fn join_leaning(hubs: &Hubs, classes: &mut Classes, list: &EdgeList, bound: u64)
    requires hubs { AreHubs list.now hubs.now }
    requires long { length classes.old ≡ list.now.vertices + 1 }
    requires safe { AreSafe list.now bound classes.old }
    requires apart { Respects classes.old no_vertex }
    ensures long { length classes.new ≡ length classes.old }
    ensures apart { Respects classes.new no_vertex }
    ensures safe { AreSafe list.now bound classes.new }
{
    for edge in list.edges() {
        if hubs.lean(*edge, bound) {
            classes.join(edge.u, edge.v);
        }
    }
}

/// Classes of the vertices that no minimum cut parts which weighs less than a bound.
///
/// Which vertices are made one is free: the ends of the edges that lean on one another. It goes
/// twice over the list of edges, in O(m log(n) + n) steps, and takes 28 bytes of memory for each
/// vertex. It is refused only where memory is wanting.
pub(crate) fn leaning_classes(
    alloc: Global,
    list: &EdgeList,
    bound: u64,
) -> Result<Labels, NoMemory>
    ensures long { IfOk result (λ labels. length labels ≡ list.now.vertices) }
    ensures safe { IfOk result (λ labels. ClassesAreSafe list.now labels bound 0) }
{
    let n = list.n();
    let hubs = Hubs::of(alloc, list)?;
    let mut classes = Classes::new(alloc, n)?;
    join_leaning(&hubs, &mut classes, list, bound);
    let labels = Labels::of_classes(alloc, &classes)?;
    Ok(labels)
}
