//! The classes of vertices that marked edges join.

ghost use Rattle.std.specs.Prelude.{◌≡◌, ◌↔◌, ◌+◌, IfOk, length};
ghost use Rattle.cut_definitions.specs.Graph.{IsEdgeList};
ghost use Rattle.cut_definitions.specs.Cuts.{has};
ghost use Rattle.cut_definitions.specs.Weight.{VertexSet};
ghost use Rattle.weighted_graph.specs.Marks.{PartsNoMark};
ghost use Rattle.vertex_classes.specs.Classes.{Respects};
ghost use Rattle.round_contract.specs.Classes.{AreClassesOfMarks};

use cut_definitions::NoMemory;
use mark_board::Marks;
use std::alloc::Global;
use vertex_classes::Classes;
use weighted_graph::{Graph, Labels};

/// Joins the classes of the ends of each marked edge, after each vertex was alone in its class.
fn join_marked(graph: &Graph, marks: &Marks, classes: &mut Classes)
    requires marks { marks.now.edges ≡ length graph.now.edges }
    requires long { length classes.old ≡ graph.now.vertices + 1 }
    requires alone { (s : VertexSet) → Respects classes.old s }
    ensures long { length classes.new ≡ length classes.old }
    ensures joined { (s : VertexSet) → Respects classes.new s ↔ PartsNoMark graph.now (has marks.now.marked) s }
{
    // known by this call: the graph is an edge list
    let _n = graph.n();
    for i in 0..graph.edges() {
        if marks.has(i) {
            let edge = graph.edge(i);
            classes.join(edge.u, edge.v);
        }
    }
}

/// The labels of a graph's vertices by the classes that marked edges join, in one step or several.
/// Classes are numbered by their least vertex. The marks are over this graph's edges.
///
/// It takes O(m log n + n) steps and 8 bytes of memory for each vertex, and fails only if it runs
/// out of memory.
pub fn classes_of_marks(alloc: Global, graph: &Graph, marks: &Marks) -> Result<Labels, NoMemory>
    requires { marks.now.edges ≡ length graph.now.edges }
    ensures vertices { IfOk result (λ l. length l ≡ graph.now.vertices) }
    ensures classes { IfOk result (λ l. AreClassesOfMarks graph.now (has marks.now.marked) l) }
    ensures edge_list { IsEdgeList graph.now }
{
    let n = graph.n();
    let mut classes = Classes::new(alloc, n)?;
    join_marked(graph, marks, &mut classes);
    let labels = Labels::of_classes(alloc, &classes)?;
    Ok(labels)
}
