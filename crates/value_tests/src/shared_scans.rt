//! Two workers who scan a graph at the same time, each a part that the other does not reach.

ghost use Rattle.std.specs.Prelude.{◌≡◌, ◌<◌, length};

use crate::graphs::edges_of;
use crate::rounds::degree_of;
use cut_definitions::{EdgeList, NoMemory};
use mark_board::Marks;
use outside::Gate;
use round_workers::{Threshold, scan_round};
use std::alloc::Global;
use std::sync::atomic::{AtomicU64, Ordering};
use std::test::Fail;
use std::thread::Threads;
use weighted_graph::Graph;

// For this many turns a worker waits for the other.
const TURNS: u32 = 1_000_000_000;

// The vertices of a block, which are joined to each other.
const SIZE: u32 = 24;

// The vertices of the graph: four blocks, with an edge between the first two, and another one
// between the last two.
const VERTICES: u32 = 96;

// A gate that holds each of two workers until both are there, and counts those who saw the other.
#[derive(Drop)]
struct PairGate {
    came: AtomicU64,
    met: AtomicU64,
}

impl Gate for PairGate {
    fn pass(&self, _worker: u32) {
        self.came.fetch_add(1, Ordering::SeqCst);
        for _ in 0..TURNS {
            if self.came.load(Ordering::SeqCst) == 2 {
                self.met.fetch_add(1, Ordering::SeqCst);
                return;
            }
        }
    }
}

/// Puts the row of a vertex, counted from 0.
fn put_row(alloc: Global, text: &mut String, vertex: u32) -> Result<(), NoMemory>
    requires { vertex < 96 }
{
    let first = vertex / SIZE * SIZE;
    if vertex == SIZE || vertex == 3 * SIZE {
        text.push_str(&format!(in alloc; "{vertex} ")?)?;
    }
    for other in first..first + SIZE {
        let name = other + 1;
        if other != vertex {
            text.push_str(&format!(in alloc; "{name} ")?)?;
        }
    }
    let next = vertex + 2;
    if vertex + 1 == SIZE || vertex + 1 == 3 * SIZE {
        text.push_str(&format!(in alloc; "{next} ")?)?;
    }
    text.push_str("\n")
}

/// A file with the four blocks.
fn two_pairs_of_blocks(alloc: Global) -> Result<String, NoMemory> {
    let mut text = format!(in alloc; "96 1106\n")?;
    for vertex in 0..VERTICES {
        put_row(alloc, &mut text, vertex)?;
    }
    Ok(text)
}

/// Whether an edge is marked whose ends have numbers above `after`, and at most `until`.
fn marks_between(graph: &Graph, marks: &Marks, after: u32, until: u32) -> bool
    requires { marks.now.edges ≡ length graph.now.edges }
{
    for i in 0..graph.edges() {
        let edge = graph.edge(i);
        if edge.u > after && edge.v <= until && marks.has(i) {
            return true;
        }
    }
    false
}

/// Whether two workers scan at the same time, and an edge is marked in each pair of blocks.
/// Neither reaches the pair of the other, so both have marked an edge.
fn marks_both_pairs<R: Threads + Sync>(
    rt: &R,
    alloc: Global,
    list: &EdgeList,
) -> Result<bool, NoMemory> {
    if list.n() < 2 {
        return Ok(false);
    }
    let graph = Graph::build(alloc, list)?;
    let opening = Threshold {
        bound: degree_of(&graph, 1),
        slack: 1,
    };
    let gate = PairGate {
        came: AtomicU64::new(0),
        met: AtomicU64::new(0),
    };
    let (bound, marks) = scan_round(rt, alloc, &graph, opening, 2, &gate)?;
    let met = gate.met.load(Ordering::SeqCst) == 2;
    let first = marks_between(&graph, &marks, 0, 2 * SIZE);
    let second = marks_between(&graph, &marks, 2 * SIZE, VERTICES);
    Ok(met && bound == 0 && first && second)
}

#[test]
fn both_workers_mark(rt: HostRuntime) -> Result<(), Fail> {
    let text = two_pairs_of_blocks(rt.alloc())?;
    let Some(list) = edges_of(rt.alloc(), &text) else {
        return Err(Fail::from("no graph"));
    };
    assert!(rt; list.len() == 1106 && marks_both_pairs(&rt, rt.alloc(), &list)?);
    Ok(())
}
