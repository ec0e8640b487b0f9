//! The components of a graph, as classes that its edges join.

ghost use Rattle.std.specs.Prelude.{◌≡◌, ◌↔◌, ◌+◌, length};
ghost use Rattle.cut_definitions.specs.Weight.{VertexSet, weight};
ghost use Rattle.vertex_classes.specs.Classes.{Respects};

use crate::graph::Graph;
use vertex_classes::Classes;

/// Joins the ends of each edge, starting from classes in which each vertex is alone.
pub(crate) fn join_ends(graph: &Graph, classes: &mut Classes)
    requires long { length classes.old ≡ graph.now.vertices + 1 }
    requires alone { (s : VertexSet) → Respects classes.old s }
    ensures long { length classes.new ≡ length classes.old }
    ensures joined { (s : VertexSet) → Respects classes.new s ↔ (weight graph.now s ≡ 0) }
{
    // known by this call: the graph is an edge list
    let _n = graph.n();
    for edge in graph.edge_list() {
        classes.join(edge.u, edge.v);
    }
}
