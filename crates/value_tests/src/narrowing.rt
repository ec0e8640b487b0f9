//! A smaller graph that comes with the value.

ghost use Rattle.std.specs.Prelude.{◌≤◌, ◌<◌};

use crate::graphs::{edges_in, feed_line, feed_number};
use cut_definitions::EdgeList;
use metis_reader::Reader;
use min_value::{Kernel, ValueWithKernel, value_with_kernel};
use std::alloc::Global;
use std::thread::Threads;
use weighted_graph::Graph;
use worker_team::{Alone, Team, Threaded};

// Two halves, with this many vertices each.
const HALF: u32 = 40;

/// The weight of the edge between two vertices, counted from 0, or 0 if there is none.
fn weight_between(u: u32, v: u32) -> u32
    requires u { u < 80 }
    requires v { v < 80 }
    ensures { result ≤ 101 }
{
    let sum = u + v;
    if (u < HALF) != (v < HALF) {
        return u32::from(sum % 5 == 0);
    }
    if sum % 2 == 1 { 1 + sum * 37 % 101 } else { 0 }
}

/// Feeds the row of a vertex, counted from 0.
fn feed_row(reader: &mut Reader, vertex: u32)
    requires { vertex < 80 }
{
    for other in 0..2 * HALF {
        let weight = weight_between(vertex, other);
        if weight > 0 {
            feed_number(reader, other + 1);
            feed_number(reader, weight);
        }
    }
    feed_line(reader, &[]);
}

/// The edges of two halves. The only minimum cut is between them: 320 edges of weight 1.
fn two_halves(alloc: Global) -> Option<EdgeList> {
    let mut reader = Reader::new(alloc);
    let _ok = reader.feed(b"80 1120 1\n").is_ok();
    for vertex in 0..2 * HALF {
        feed_row(&mut reader, vertex);
    }
    edges_in(reader)
}

/// Whether a kernel has the value 320 and fewer vertices, and the halves are apart in it.
fn parts_halves(kernel: Option<Kernel>) -> bool {
    let Some(kernel) = kernel else {
        return false;
    };
    let labels = kernel.labels.as_slice();
    kernel.value == 320 && kernel.graph.n() < 2 * HALF && labels.first() != labels.last()
}

/// Whether a team finds the value 320 of a graph, and a kernel that separates the halves.
fn comes_with_kernel<T: Team>(team: &T, graph: &Graph) -> bool
    requires ready { T.ready team.now }
    requires enough { 2 ≤ graph.now.vertices }
{
    match value_with_kernel(team, graph) {
        Ok(ValueWithKernel { value, kernel }) => value == 320 && parts_halves(kernel),
        Err(_) => false,
    }
}

/// Whether one worker and four find them.
fn has_kernel<R: Threads + Sync>(rt: &R, alloc: Global) -> bool {
    let Some(list) = two_halves(alloc) else {
        return false;
    };
    let Ok(graph) = Graph::from_list(alloc, list) else {
        return false;
    };
    if graph.n() < 2 {
        return false;
    }
    let four = Threaded {
        rt,
        alloc,
        workers: 4,
    };
    let by_one = comes_with_kernel(&Alone { alloc }, &graph);
    by_one && comes_with_kernel(&four, &graph)
}

/// On a dense graph with weights flows read many arcs, so scans contract it.
#[test]
fn a_value_comes_with_a_kernel(rt: HostRuntime) {
    assert!(rt; has_kernel(&rt, rt.alloc()));
}
