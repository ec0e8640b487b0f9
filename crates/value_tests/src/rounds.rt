//! Marks, contraction by them, and rounds that mark.

ghost use Rattle.std.specs.Prelude.{◌≡◌, ◌≤◌, length};
ghost use Rattle.cut_definitions.specs.Safe.{IsFair};

use crate::certificates::none_is_certified;
use crate::graphs::{graph_of, uneven_triangle};
use cut_definitions::{Edge, NoMemory};
use mark_board::Marks;
use outside::OpenGate;
use round_contract::contract;
use round_workers::round;
use std::alloc::Global;
use std::thread::Threads;
use weighted_graph::{Graph, Labels};

/// The degree of a vertex, which is the weight of a cut.
pub(crate) fn degree_of(graph: &Graph, v: u32) -> u64
    requires enough { 2 ≤ graph.now.vertices }
    requires from_one { 1 ≤ v }
    requires to_n { v ≤ graph.now.vertices }
    ensures { IsFair graph.now result }
{
    // known by this call: the graph is an edge list
    let _n = graph.n();
    graph.degree(v)
}

#[test]
fn a_marked_edge_stays_marked(rt: HostRuntime) -> Result<(), NoMemory> {
    let mut marks = Marks::none(rt.alloc(), 3)?;
    let none = marks.is_empty();
    marks.set(1);
    marks.set(1);
    let one = marks.has(1) && !marks.has(0) && !marks.has(2);
    assert!(rt; none && one && !marks.is_empty());
    Ok(())
}

/// Whether this is the triangle with vertices 1 and 2 in one class.
fn is_contracted(graph: &Graph, labels: &Labels) -> bool {
    labels.as_slice() == [1, 1, 2].as_slice()
        && graph.n() == 2
        && graph.edge_list() == [Edge { u: 1, v: 2, w: 5 }].as_slice()
}

/// Whether contraction joins the ends of the first of three edges only, if only that edge is
/// marked.
fn first_is_contracted<R: Threads + Sync>(
    rt: &R,
    alloc: Global,
    graph: &Graph,
) -> Result<bool, NoMemory>
    requires { length graph.now.edges ≡ 3 }
{
    let mut marks = Marks::none(alloc, 3)?;
    marks.set(0);
    let (contracted, labels) = contract(rt, alloc, graph, &marks, 1)?;
    Ok(is_contracted(&contracted, &labels))
}

#[test]
fn the_first_edge_of_a_triangle_is_contracted(rt: HostRuntime) -> Result<(), NoMemory> {
    let graph = uneven_triangle(rt.alloc())?;
    assert!(rt; first_is_contracted(&rt, rt.alloc(), &graph) == Ok(true));
    Ok(())
}

/// A graph, the vertex whose degree opens the bound, the slack, the bound that is returned, and
/// for each edge whether it is marked.
struct Forced {
    text: &'static str,
    opener: u32,
    slack: u64,
    bound: u64,
    marked: &'static [bool],
}

const UNEVEN: &str = "3 3 1\n2 5 3 1\n1 5 3 4\n1 1 2 4\n";

// The bound is the value, and each edge is certified, or a minimum cut separates its ends. In the
// triangle edge 0 is certified, and the cut around vertex 3 separates the ends of both others. In
// the other graph an edge of weight 2 joins vertex 1 to six vertices that edges of weight 3 join.
const FORCED: [Forced; 2] = [
    Forced {
        text: UNEVEN,
        opener: 3,
        slack: 1,
        bound: 5,
        marked: &[true, false, false],
    },
    Forced {
        text: "7 16 1\n2 2\n1 2 3 3 4 3 5 3 6 3 7 3\n2 3 4 3 5 3 6 3 7 3\n2 3 3 3 5 3 6 3 7 3\n\
            2 3 3 3 4 3 6 3 7 3\n2 3 3 3 4 3 5 3 7 3\n2 3 3 3 4 3 5 3 6 3\n",
        opener: 1,
        slack: 1,
        bound: 2,
        marked: &[
            false, true, true, true, true, true, true, true, true, true, true, true, true, true,
            true, true,
        ],
    },
];

/// Whether exactly these edges are marked.
fn are_marked(graph: &Graph, marks: &Marks, marked: &[bool]) -> bool
    requires { marks.now.edges ≡ length graph.now.edges }
{
    for i in 0..graph.edges() {
        if i >= marked.len() || marks.has(i) != marked[i] {
            return false;
        }
    }
    graph.edges() == marked.len()
}

/// Whether a round by this many workers returns the bound and the marks.
fn is_forced<R: Threads + Sync>(rt: &R, alloc: Global, forced: &Forced, workers: u32) -> bool
    requires { (1 ≤ workers) × (workers ≤ 64) }
{
    let Some(graph) = graph_of(alloc, forced.text) else {
        return false;
    };
    if forced.opener == 0 || forced.opener > graph.n() || graph.n() < 2 || forced.slack > 1 {
        return false;
    }
    let opening = degree_of(&graph, forced.opener);
    let Ok(answer) = round(rt, alloc, &graph, opening, forced.slack, workers, &OpenGate) else {
        return false;
    };
    let (bound, marks) = answer;
    bound == forced.bound && are_marked(&graph, &marks, forced.marked)
}

/// The second graph has sixteen edges, so that four workers are not too many.
#[test]
fn certified_edges_are_marked_and_no_others(rt: HostRuntime) {
    for forced in &FORCED {
        for workers in 1..5 {
            assert!(rt; is_forced(&rt, rt.alloc(), forced, workers));
        }
    }
}

/// The bound that is returned by a round with slack 0 that opens with the degree of vertex 1.
fn bound_after<R: Threads + Sync>(rt: &R, alloc: Global, text: &str, workers: u32) -> Option<u64>
    requires { (1 ≤ workers) × (workers ≤ 64) }
{
    let graph = graph_of(alloc, text)?;
    if graph.n() < 2 {
        return None;
    }
    let opening = degree_of(&graph, 1);
    match round(rt, alloc, &graph, opening, 0, workers, &OpenGate) {
        Ok((bound, _)) => Some(bound),
        Err(_) => None,
    }
}

/// Vertex 1 weighs 6, and a scan from any vertex passes a set that weighs 5.
#[test]
fn the_bound_falls_to_a_prefix(rt: HostRuntime) {
    for workers in 1..5 {
        assert!(rt; bound_after(&rt, rt.alloc(), UNEVEN, workers) == Some(5));
    }
}

// Each of 1, 2, 3 joined to each of 4, 5, 6.
const THREE_BY_THREE: &str = "6 9\n4 5 6\n4 5 6\n4 5 6\n1 2 3\n1 2 3\n1 2 3\n";

/// Whether no edge passes a certificate at 3, and yet a round that opens with the degree of vertex
/// 1 keeps this bound, 3. One worker has to mark an edge. Of several workers, each may scan so
/// little before the others take the rest that no link reaches the bound.
fn marks_by_links<R: Threads + Sync>(rt: &R, alloc: Global, workers: u32) -> bool
    requires { (1 ≤ workers) × (workers ≤ 64) }
{
    let Some(graph) = graph_of(alloc, THREE_BY_THREE) else {
        return false;
    };
    if graph.n() < 2 || !none_is_certified(&graph, 3, 0) {
        return false;
    }
    let opening = degree_of(&graph, 1);
    match round(rt, alloc, &graph, opening, 0, workers, &OpenGate) {
        Ok((bound, marks)) => bound == 3 && (workers > 1 || !marks.is_empty()),
        Err(_) => false,
    }
}

#[test]
fn a_link_marks_where_no_certificate_holds(rt: HostRuntime) {
    for workers in 1..5 {
        assert!(rt; marks_by_links(&rt, rt.alloc(), workers));
    }
}
