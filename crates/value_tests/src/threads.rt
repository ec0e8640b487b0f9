//! Threads of a scope over one board.

ghost use Rattle.std.specs.Prelude.{◌≡◌, ◌<◌, IfOk, IfSome, length};

use crate::boards::degree_of;
use cut_definitions::{Edge, EdgeList, NoMemory};
use edge_certificates::heavy_edge;
use mark_board::{Board, BoardSeat};
use std::alloc::Global;
use std::snapshot::Snapshot;
use std::sync::Wait;
use std::test::Fail;
use std::thread;
use std::thread::{Promise, Threads};
use weighted_graph::Graph;

/// The seat that a thread returns is of the board of the seat that it was given.
#[derive(Drop)]
struct SameBoard {
    was: Snapshot<BoardSeat>,
}

impl Promise<BoardSeat> for SameBoard {
    ghost kept_by = { λ p r. r.board ≡ p.was.value.board };
}

/// Marks an edge that weighs 5, if the seat sees the bound 5.
fn mark_heavy(board: &Board, graph: &Graph, mut seat: BoardSeat, edge: usize) -> BoardSeat
    requires seat { seat.board ≡ board.now }
    requires graph { board.now.graph ≡ graph.now }
    requires slack { board.now.slack ≡ 0 }
    requires edge { edge < length graph.now.edges }
    ensures { result.board ≡ seat.board }
{
    let bound = board.bound(&mut seat);
    if bound == 5 && heavy_edge(graph, edge, bound, 0) {
        board.mark(&mut seat, edge);
    }
    seat
}

/// Lets four threads mark an edge each, and joins their seats. It returns `None` if a thread
/// cannot be started.
fn four_threads<R: Threads + Wait + Sync>(
    rt: &R,
    board: &Board,
    graph: &Graph,
    mut seat: BoardSeat,
) -> Option<BoardSeat>
    requires seat { seat.board ≡ board.now }
    requires graph { board.now.graph ≡ graph.now }
    requires slack { board.now.slack ≡ 0 }
    requires edges { 3 < length graph.now.edges }
    ensures { IfSome result (λ s. s.board ≡ board.now) }
{
    let one = board.split(&mut seat);
    let two = board.split(&mut seat);
    let three = board.split(&mut seat);
    thread::scope(
        thread::scope_env(),
        rt,
        |scope| -> Option<BoardSeat>
            requires seats { (one.board ≡ board.now) × (two.board ≡ board.now) × (three.board ≡ board.now) × (seat.board ≡ board.now) }
            requires graph { board.now.graph ≡ graph.now }
            requires slack { board.now.slack ≡ 0 }
            requires edges { 3 < length graph.now.edges }
            ensures { IfSome result (λ s. s.board ≡ board.entry.now) }
        {
            let was = Snapshot::of(&one);
            let first = scope
                .spawn_with(SameBoard { was }, move || mark_heavy(board, graph, one, 0))
                .ok()?;
            let was = Snapshot::of(&two);
            let second = scope
                .spawn_with(SameBoard { was }, move || mark_heavy(board, graph, two, 1))
                .ok()?;
            let was = Snapshot::of(&three);
            let third = scope
                .spawn_with(
                    SameBoard { was },
                    move || mark_heavy(board, graph, three, 2),
                )
                .ok()?;
            let was = Snapshot::of(&seat);
            let last = scope
                .spawn_with(SameBoard { was }, move || mark_heavy(board, graph, seat, 3))
                .ok()?;
            let mut joined = first.join(rt);
            board.join(&mut joined, second.join(rt));
            board.join(&mut joined, third.join(rt));
            board.join(&mut joined, last.join(rt));
            Some(joined)
        },
    )
}

/// The path of five vertices whose edges weigh 5.
fn heavy_path(alloc: Global) -> Result<Graph, NoMemory>
    ensures vertices { IfOk result (λ g. g.vertices ≡ 5) }
    ensures edges { IfOk result (λ g. length g.edges ≡ 4) }
{
    let edges = [
        Edge { u: 1, v: 2, w: 5 },
        Edge { u: 2, v: 3, w: 5 },
        Edge { u: 3, v: 4, w: 5 },
        Edge { u: 4, v: 5, w: 5 },
    ];
    let list = EdgeList::from_edges(5, Vec::from_slice(alloc, &edges)?);
    Graph::build(alloc, &list)
}

#[test]
fn four_threads_share_a_board(rt: HostRuntime) -> Result<(), Fail> {
    let graph = heavy_path(rt.alloc())?;
    let (board, seat) = Board::open(rt.alloc(), &graph, degree_of(&graph, 1), 0)?;
    let Some(joined) = four_threads(&rt, &board, &graph, seat) else {
        return Err(Fail::from("no thread"));
    };
    let (bound, marks) = board.close(joined);
    assert!(rt; bound == 5 && marks.has(0) && marks.has(1) && marks.has(2) && marks.has(3));
    Ok(())
}
