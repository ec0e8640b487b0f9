//! Workers that scan a large graph in parallel.

ghost use Rattle.std.specs.Prelude.{◌≡◌, ◌≤◌, length, IfSome};

use crate::graphs::{edges_in, feed_line, feed_number};
use crate::rounds::degree_of;
use cut_definitions::EdgeList;
use mark_board::Marks;
use metis_reader::Reader;
use min_value::{reduce, value};
use outside::{Gate, OpenGate};
use round_workers::{Threshold, scan_round};
use row_ranges::graph_of_list;
use std::alloc::Global;
use std::sync::atomic::{AtomicU64, Ordering};
use std::test::Fail;
use std::thread::Threads;
use weighted_graph::Graph;
use worker_team::Crew;

// For this many turns worker 0 waits for worker 1.
const TURNS: u32 = 1_000_000_000;

// A gate that holds worker 0 until worker 1 has passed, and keeps whether it came.
#[derive(Drop)]
struct MeetingGate {
    second: AtomicU64,
    met: AtomicU64,
}

impl Gate for MeetingGate {
    fn pass(&self, worker: u32) {
        if worker == 1 {
            self.second.store(1, Ordering::SeqCst);
        }
        if worker != 0 {
            return;
        }
        for _ in 0..TURNS {
            if self.second.load(Ordering::SeqCst) == 1 {
                self.met.store(1, Ordering::SeqCst);
                return;
            }
        }
    }
}

fn meeting_gate() -> MeetingGate {
    MeetingGate {
        second: AtomicU64::new(0),
        met: AtomicU64::new(0),
    }
}

/// Feeds the row of a vertex, counted from 0, which is joined to all others of its block. The last
/// vertex of a block is joined to the first of the next one.
fn feed_row(reader: &mut Reader, vertex: u32, blocks: u32, size: u32)
    requires vertex { vertex ≤ 100000 }
    requires blocks { blocks ≤ 1000 }
    requires size { (1 ≤ size) × (size ≤ 1000) }
{
    let first = vertex / size * size;
    if vertex == first && vertex > 0 {
        feed_number(reader, vertex);
    }
    for other in first..first + size {
        if other != vertex {
            feed_number(reader, other + 1);
        }
    }
    let next = vertex + 2;
    if vertex - first + 1 == size && next <= blocks * size {
        feed_number(reader, next);
    }
    feed_line(reader, &[]);
}

/// A chain of complete blocks, each joined to the next by one edge: its value is 1.
fn chain_of_blocks(alloc: Global, blocks: u32, size: u32) -> Option<EdgeList>
    requires blocks { (1 ≤ blocks) × (blocks ≤ 100) }
    requires size { (2 ≤ size) × (size ≤ 400) }
{
    let mut reader = Reader::new(alloc);
    let vertices = blocks * size;
    let edges = blocks * (size * (size - 1) / 2) + blocks - 1;
    feed_line(&mut reader, &[vertices, edges]);
    for vertex in 0..vertices {
        feed_row(&mut reader, vertex, blocks, size);
    }
    edges_in(reader)
}

/// In how many blocks of eight vertices an edge is marked.
fn marked_blocks(graph: &Graph, marks: &Marks) -> u32
    requires { marks.now.edges ≡ length graph.now.edges }
{
    let mut count = 0u32;
    let mut next = 0u32;
    for i in 0..graph.edges() {
        let edge = graph.edge(i);
        let block = edge.u.saturating_sub(1) / 8;
        if block >= next && edge.v.saturating_sub(1) / 8 == block && marks.has(i) {
            count = count.saturating_add(1);
            next = block.saturating_add(1);
        }
    }
    count
}

/// Whether two workers run at the same time, lower the bound to 2 at most, and mark an edge in
/// each of the 64 blocks. One of them scans a block, or at least half of it once the bound has
/// fallen.
fn marks_each_block<R: Threads + Sync>(rt: &R, alloc: Global, graph: &Graph) -> bool
    requires { 2 ≤ graph.now.vertices }
{
    let opening = Threshold {
        bound: degree_of(graph, 1),
        slack: 0,
    };
    let gate = meeting_gate();
    let Ok(answer) = scan_round(rt, alloc, graph, opening, 2, &gate) else {
        return false;
    };
    let (bound, marks) = answer;
    let met = gate.met.load(Ordering::SeqCst) == 1;
    met && opening.bound == 7 && bound <= 2 && marked_blocks(graph, &marks) == 64
}

/// Whether two workers reduce a chain of 100 blocks to one vertex for each.
fn is_reduced_by_two<R: Threads + Sync>(rt: &R, alloc: Global, graph: &Graph) -> bool
    requires { 2 ≤ graph.now.vertices }
{
    let crew = Crew::new(rt, alloc, 2, &OpenGate);
    let Ok(weight) = value(&crew, graph) else {
        return false;
    };
    let reduced = match reduce(&crew, graph, weight) {
        Ok(Some(kernel)) => kernel.graph.n() == 100,
        _ => false,
    };
    reduced && weight == 1
}

/// The graph of a list with this many edges.
fn long_graph(alloc: Global, list: Option<EdgeList>, edges: usize) -> Option<Graph>
    ensures { IfSome result (λ g. 2 ≤ g.vertices) }
{
    let list = list?;
    if list.n() < 2 || list.len() != edges {
        return None;
    }
    match Graph::from_list(alloc, list) {
        Ok(graph) => Some(graph),
        Err(_) => None,
    }
}

#[test]
fn two_workers_scan_a_large_graph(rt: HostRuntime) -> Result<(), Fail> {
    let list = chain_of_blocks(rt.alloc(), 64, 8);
    let Some(graph) = long_graph(rt.alloc(), list, 1855) else {
        return Err(Fail::from("no graph"));
    };
    assert!(rt; marks_each_block(&rt, rt.alloc(), &graph));
    Ok(())
}

#[test]
fn two_workers_reduce_a_large_graph(rt: HostRuntime) -> Result<(), Fail> {
    let list = chain_of_blocks(rt.alloc(), 100, 38);
    let Some(graph) = long_graph(rt.alloc(), list, 70399) else {
        return Err(Fail::from("no graph"));
    };
    assert!(rt; is_reduced_by_two(&rt, rt.alloc(), &graph));
    Ok(())
}

/// Whether two graphs have the same rows and degrees.
fn have_same_rows(a: &Graph, b: &Graph) -> bool {
    if a.n() != b.n() {
        return false;
    }
    for v in 0..a.n() {
        if a.row(v) != b.row(v) || a.degree(v) != b.degree(v) {
            return false;
        }
    }
    a.row(a.n()) == b.row(b.n())
}

#[test]
fn workers_fill_the_rows_that_one_fills(rt: HostRuntime) -> Result<(), Fail> {
    let blocks = chain_of_blocks(rt.alloc(), 16, 364);
    let Some(one) = long_graph(rt.alloc(), blocks, 1057071) else {
        return Err(Fail::from("no graph"));
    };
    for workers in [2, 5] {
        let list = EdgeList::from_edges(one.n(), Vec::from_slice(rt.alloc(), one.edge_list())?);
        let several = graph_of_list(&rt, rt.alloc(), list, workers)?;
        assert!(rt; have_same_rows(&one, &several));
    }
    Ok(())
}
