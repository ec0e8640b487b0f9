//! The value by phases of scans, by a sweep of flows, and by all means together.

ghost use Rattle.std.specs.Prelude.{◌≤◌};

use crate::graphs::{edges_of, graph_of, triangle_list, uneven_triangle};
use cut_definitions::{EdgeList, NoMemory};
use least_cut::{
    Swept, least_degree, least_weight, least_weight_below, least_weight_within, value_of_dense,
};
use min_value::{value, value_of_list};
use outside::OpenGate;
use scan_forest::{LastPair, last_pair, plain_value};
use std::alloc::Global;
use std::thread::Threads;
use weighted_graph::Graph;
use worker_team::Crew;

#[test]
fn the_last_pair_of_a_triangle(rt: HostRuntime) -> Result<(), NoMemory> {
    let list = triangle_list(rt.alloc())?;
    let pair = LastPair {
        before: 2,
        last: 3,
        weight: 5,
    };
    assert!(rt; last_pair(rt.alloc(), &list) == Ok(pair));
    Ok(())
}

#[test]
fn values_of_a_triangle(rt: HostRuntime) -> Result<(), NoMemory> {
    let graph = uneven_triangle(rt.alloc())?;
    let least = least_weight(rt.alloc(), &graph) == Ok(5);
    let below = least_weight_below(rt.alloc(), &graph, 3) == Ok(3);
    let by_one = value(&Crew::new(&rt, rt.alloc(), 1, &OpenGate), &graph) == Ok(5);
    let by_four = value(&Crew::new(&rt, rt.alloc(), 4, &OpenGate), &graph) == Ok(5);
    assert!(rt; least && below && by_one && by_four);
    Ok(())
}

// The complete graph of four vertices, all edges of weight 1.
const FOUR: &str = "4 6\n2 3 4\n1 3 4\n1 2 4\n1 2 3\n";

// The complete graph of four vertices with one edge of weight 2, so that the least degree is not
// known at once to be the value.
const UNEVEN_FOUR: &str = "4 6 1\n2 2 3 1 4 1\n1 2 3 1 4 1\n1 1 2 1 4 1\n1 1 2 1 3 1\n";

// Two vertices with no edge.
const APART: &str = "2 0\n\n\n";

// Two vertices with an edge of weight 7.
const PAIR: &str = "2 1 1\n2 7\n1 7\n";

/// Whether a sweep is whole within 1,000 arcs, and returns this within none.
fn keeps_its_limit(alloc: Global, text: &str, within_none: Swept) -> bool {
    let Some(graph) = graph_of(alloc, text) else {
        return false;
    };
    if graph.n() < 2 {
        return false;
    }
    let many = least_weight_within(alloc, &graph, 9, 1000);
    let none = least_weight_within(alloc, &graph, 9, 0);
    many == Ok(Swept::Whole(3)) && none == Ok(within_none)
}

/// A dense graph needs no sweep.
#[test]
fn a_sweep_is_cut_short(rt: HostRuntime) {
    assert!(rt; keeps_its_limit(rt.alloc(), UNEVEN_FOUR, Swept::Part(3)));
    assert!(rt; keeps_its_limit(rt.alloc(), FOUR, Swept::Whole(3)));
}

// Files, what `value_of_dense` returns for their graphs, and the least degrees. The first is the
// complete graph of five vertices. Then come three complete graphs of four. In the first of these
// vertex 4 has the least degree, 12, and four times the heaviest edge is twice that. The second is
// the same with an edge of weight 7. In the third an edge of weight 2 is too heavy for the least
// degree, 3. The last are a ring of eight, and two vertices with an edge and without one.
const DENSE: [(&str, Option<u64>, u64); 7] = [
    (
        "5 10\n2 3 4 5\n1 3 4 5\n1 2 4 5\n1 2 3 5\n1 2 3 4\n",
        Some(4),
        4,
    ),
    (
        "4 6 1\n2 6 3 6 4 4\n1 6 3 6 4 4\n1 6 2 6 4 4\n1 4 2 4 3 4\n",
        Some(12),
        12,
    ),
    (
        "4 6 1\n2 7 3 6 4 4\n1 7 3 6 4 4\n1 6 2 6 4 4\n1 4 2 4 3 4\n",
        None,
        12,
    ),
    (UNEVEN_FOUR, None, 3),
    ("8 8\n2 8\n1 3\n2 4\n3 5\n4 6\n5 7\n6 8\n1 7\n", None, 2),
    (PAIR, Some(7), 7),
    (APART, Some(0), 0),
];

/// Whether this is found from a list of edges alone, and this is the least degree.
fn is_told(alloc: Global, text: &str, known: Option<u64>, degree: u64) -> bool {
    let Some(list) = edges_of(alloc, text) else {
        return false;
    };
    if list.n() < 2 {
        return false;
    }
    let found = value_of_dense(alloc, &list);
    let least = least_degree(alloc, &list);
    found == Ok(known) && least == Ok(degree)
}

#[test]
fn values_of_dense_graphs(rt: HostRuntime) {
    for (text, known, degree) in &DENSE {
        assert!(rt; is_told(rt.alloc(), text, *known, *degree));
    }
}

// Files of two to six vertices, one of them with a vertex that has no edge, and the values of
// their graphs.
const FILES: [(&str, u64); 9] = [
    ("3 3\n2 3\n1 3\n1 2\n", 2),
    ("3 3 1\n2 5 3 1\n1 5 3 4\n1 1 2 4\n", 5),
    ("3 1\n2\n1\n\n", 0),
    ("3 2 1\n2 5\n1 5 3 5\n2 5\n", 5),
    ("4 4\n2 4\n1 3\n2 4\n1 3\n", 2),
    (FOUR, 3),
    (PAIR, 7),
    (APART, 0),
    (
        "6 8 1\n2 2 4 1 6 1\n1 2 3 2\n2 2 4 1 6 1\n1 1 3 1 5 2\n4 2 6 2\n1 1 3 1 5 2\n",
        4,
    ),
];

/// Whether the value by phases, by a sweep, and by all means is the known one.
fn is_value<R: Threads + Sync>(crew: &Crew<R, OpenGate>, list: &EdgeList, known: u64) -> bool
    requires { 2 ≤ list.now.vertices }
{
    let alloc = crew.threads.alloc;
    let Ok(graph) = Graph::build(alloc, list) else {
        return false;
    };
    let phases = plain_value(alloc, list) == Ok(known);
    let sweep = least_weight(alloc, &graph) == Ok(known);
    phases && sweep && value(crew, &graph) == Ok(known)
}

/// Whether the value of a file is the known one, also by all means from a list that is taken over.
fn has_value<R: Threads + Sync>(crew: &Crew<R, OpenGate>, text: &str, known: u64) -> bool {
    let Some(list) = edges_of(crew.threads.alloc, text) else {
        return false;
    };
    if list.n() < 2 || !is_value(crew, &list, known) {
        return false;
    }
    value_of_list(crew, list) == Ok(known)
}

#[test]
fn values_of_files(rt: HostRuntime) {
    let crew = Crew::new(&rt, rt.alloc(), 1, &OpenGate);
    for (text, known) in &FILES {
        assert!(rt; has_value(&crew, text, *known));
    }
}
