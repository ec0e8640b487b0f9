//! Graphs, their rows, components and classes.

ghost use Rattle.std.specs.Prelude.{◌≡◌, ◌∷◌, [], IfOk, length};

use crate::graphs::{graph_of, triangle_list, uneven_triangle};
use cut_definitions::{Edge, EdgeList, NoMemory};
use std::alloc::Global;
use vertex_set::Side;
use weighted_graph::{Arc, Graph, Labels, relabel_list};

/// Whether it is the triangle by its counts, the row, the degree and an edge of vertex 2,
/// and the weight of another edge.
fn is_triangle(graph: &Graph) -> bool
    requires { graph.now.vertices ≡ 3 }
{
    let row = [
        Arc {
            to: 1,
            edge: 0,
            weight: 5,
        },
        Arc {
            to: 3,
            edge: 2,
            weight: 4,
        },
    ];
    let counts = (graph.n(), graph.edges(), graph.edge_list().len());
    counts == (3, 3, 3)
        && graph.row(2) == row.as_slice()
        && graph.degree(2) == 9
        && graph.weight(1, 3) == 1
}

/// Whether vertex 3 alone weighs this.
fn third_weighs(alloc: Global, graph: &Graph, weight: u64) -> bool
    requires { graph.now.vertices ≡ 3 }
{
    let Ok(mut side) = Side::empty(alloc, 3) else {
        return false;
    };
    side.insert(3);
    graph.weight_of(&side) == weight
}

#[test]
fn a_triangle_is_built(rt: HostRuntime) -> Result<(), NoMemory> {
    let list = triangle_list(rt.alloc())?;
    let graph = Graph::build(rt.alloc(), &list)?;
    let weighs = third_weighs(rt.alloc(), &graph, 5);
    assert!(rt; weighs && is_triangle(&graph) && graph.components(rt.alloc()) == Ok(1));
    Ok(())
}

/// Whether the graph of two pairs has two components, and nothing between them.
fn are_apart(alloc: Global) -> bool {
    let Some(graph) = graph_of(alloc, "4 2\n2\n1\n4\n3\n") else {
        return false;
    };
    graph.n() == 4 && graph.components(alloc) == Ok(2) && graph.weight(2, 3) == 0
}

#[test]
fn two_components(rt: HostRuntime) {
    assert!(rt; are_apart(rt.alloc()));
}

/// Vertices 1 and 2 in class 1, vertex 3 in class 2.
fn one_one_two(alloc: Global) -> Result<Labels, NoMemory>
    ensures { IfOk result (λ l. l ≡ 1 ∷ 1 ∷ 2 ∷ []) }
{
    let list = vec![in alloc; 1, 1, 2]?;
    Ok(Labels::from_list(list))
}

/// Two vertices in one class.
fn one_one(alloc: Global) -> Result<Labels, NoMemory>
    ensures { IfOk result (λ l. l ≡ 1 ∷ 1 ∷ []) }
{
    let list = vec![in alloc; 1, 1]?;
    Ok(Labels::from_list(list))
}

/// Whether two vertices are left, and one edge of weight 5.
fn has_one_edge(list: &EdgeList) -> bool {
    let edge = Edge { u: 1, v: 2, w: 5 };
    list.n() == 2 && list.len() == 1 && list.edge(0) == edge
}

/// Whether these labels make of the triangle one edge of weight 5, with rows or as a list.
fn is_relabelled(alloc: Global, graph: &Graph, labels: &Labels) -> bool
    requires { length labels.now ≡ graph.now.vertices }
{
    let small = match graph.relabel(alloc, labels) {
        Ok(small) => has_one_edge(small.list()),
        Err(_) => false,
    };
    let list = match relabel_list(alloc, graph.list(), labels) {
        Ok(list) => has_one_edge(&list),
        Err(_) => false,
    };
    small && list
}

#[test]
fn two_vertices_become_one(rt: HostRuntime) -> Result<(), NoMemory> {
    let graph = uneven_triangle(rt.alloc())?;
    let labels = one_one_two(rt.alloc())?;
    assert!(rt; is_relabelled(rt.alloc(), &graph, &labels));
    Ok(())
}

/// Whether they label three vertices with this number of classes, and the third with this one.
fn has_labels(labels: &Labels, classes: u32, third: u32) -> bool {
    labels.n() == 3 && labels.classes() == classes && labels.label(3) == third
}

/// Whether all three vertices are in one class, once the two classes are.
fn are_composed(alloc: Global, labels: &Labels) -> bool
    requires { labels.now ≡ 1 ∷ 1 ∷ 2 ∷ [] }
{
    let Ok(next) = one_one(alloc) else {
        return false;
    };
    match labels.compose(alloc, &next) {
        Ok(composed) => has_labels(&composed, 1, 1),
        Err(_) => false,
    }
}

/// Whether it has vertex 3 of three alone.
fn is_third(side: &Side) -> bool {
    side.n() == 3 && side.len() == 1 && side.has(3)
}

/// Whether the second of two classes has vertex 3 alone.
fn is_lifted(alloc: Global, labels: &Labels) -> bool
    requires { labels.now ≡ 1 ∷ 1 ∷ 2 ∷ [] }
{
    let Ok(mut two) = Side::empty(alloc, 2) else {
        return false;
    };
    two.insert(2);
    match labels.lift(alloc, &two) {
        Ok(lifted) => is_third(&lifted),
        Err(_) => false,
    }
}

#[test]
fn labels_of_three_vertices(rt: HostRuntime) -> Result<(), NoMemory> {
    let labels = one_one_two(rt.alloc())?;
    let composed = are_composed(rt.alloc(), &labels);
    let lifted = is_lifted(rt.alloc(), &labels);
    assert!(rt; has_labels(&labels, 2, 2) && composed && lifted);
    Ok(())
}
