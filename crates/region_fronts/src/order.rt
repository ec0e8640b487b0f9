//! The order in which the vertices beside the source enter it.

ghost use Rattle.std.specs.Prelude.{◌≡◌, ◌↔◌, IsTrue};
ghost use Rattle.region_fronts.specs.Entering.{HasBusyVertex, IsSparse, MostLeadFar, SuitsOldest, WeightsDiffer};

use row_ranges::most_lead_far;
use weighted_graph::Graph;

/// With this many edges for each vertex or more, flows look at fewer arcs if the newest vertices
/// enter first.
const EDGES_FOR_EACH_VERTEX: usize = 16;

/// The ends of an edge are far from each other if their numbers differ by at least a sixteenth of
/// the number of vertices, and by at least this.
const FAR: u32 = 4_096;

/// Which of the vertices beside the source is the next to enter it. The results are right for each
/// order.
#[derive(Clone, Copy)]
pub enum Order {
    /// The vertex that was put last, as in a depth-first search. The arcs that a flow into it
    /// needs are mostly near.
    Newest,

    /// The vertex that was put first, as in a breadth-first search.
    Oldest,
}

/// Whether one edge weighs more than another.
fn weights_differ(graph: &Graph) -> bool
    ensures { IsTrue result ↔ WeightsDiffer graph.now.edges }
{
    let edges = graph.edge_list();
    for edge in edges {
        if edge.w != edges[0].w {
            return true;
        }
    }
    false
}

/// Whether a vertex has over four times as many edges as a vertex has on average. The average
/// counts one vertex more than the graph has, and the bound is rounded down.
fn has_busy_vertex(graph: &Graph) -> bool
    ensures { IsTrue result ↔ HasBusyVertex graph.now }
{
    let n = graph.n();
    let long = graph.edges() * 8 / (n as usize + 1);
    for v in 0..n {
        if graph.row(v + 1).len() > long {
            return true;
        }
    }
    false
}

/// Whether a graph has fewer than 16 edges for each vertex.
fn is_sparse(graph: &Graph) -> bool
    ensures { IsTrue result ↔ IsSparse graph.now }
{
    graph.edges() / EDGES_FOR_EACH_VERTEX < graph.n() as usize
}

/// Whether the ends of more than half of the edges are far from each other.
fn leads_far(graph: &Graph) -> bool
    ensures { IsTrue result ↔ MostLeadFar graph.now }
{
    let far = FAR.max(graph.n() / 16);
    most_lead_far(graph.edge_list(), far)
}

/// Whether the flows into all vertices of a graph probably look at fewer arcs if the oldest enter
/// first. This is so if the graph is sparse, most edges lead far, and degrees or weights are
/// uneven.
fn suits_oldest(graph: &Graph) -> bool
    ensures { IsTrue result ↔ SuitsOldest graph.now }
{
    if !is_sparse(graph) || !leads_far(graph) {
        return false;
    }
    weights_differ(graph) || has_busy_vertex(graph)
}

/// The order in which the vertices of a graph should enter the source, for the fewest steps. It is
/// an estimate from a pass over the edges.
///
/// It is `Oldest` for a sparse graph most of whose edges lead far, if its weights differ or it has
/// a busy vertex, and `Newest` otherwise. A sparse graph has fewer than 16 edges for each vertex.
/// An edge leads far if its ends differ by at least 4,096 and a sixteenth of all vertices. A
/// vertex is busy if it has over four times as many edges as on average. O(n + m).
pub fn order_of_entering(graph: &Graph) -> Order
    ensures { (result ≡ Order.Oldest) ↔ SuitsOldest graph.now }
{
    if suits_oldest(graph) {
        Order::Oldest
    } else {
        Order::Newest
    }
}
