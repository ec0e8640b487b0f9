//! Scans by workers, which lower the bound of a board and mark by links.

ghost use Rattle.std.specs.Prelude.{◌≡◌, ◌<◌, ◌≤◌, ◌⊎◌, ◌∷◌, true, false, length, Contains};
ghost use Rattle.cut_definitions.specs.Safe.{IsFair};
ghost use Rattle.scan_core.specs.Machine.{IsSafeEdge};
ghost use Rattle.capped_scan.specs.Scan.{StandsFor, IsChoice};
ghost use Rattle.round_workers.specs.Round.{IsLatest};
ghost use Rattle.round_workers.specs.Seats.{HasSeen, IsLater, AreWon};

use crate::lowering::lowered;
use crate::threshold::Threshold;
use capped_scan::{Scan, Scanned};
use mark_board::{Board, BoardSeat};
use weighted_graph::Graph;

/// Lowers the board's bound, if `low` is less than what the seat saw. It returns what the seat has
/// then seen.
fn lower_to(
    board: &Board,
    seat: &mut BoardSeat,
    graph: &Graph,
    low: u64,
    threshold: Threshold,
) -> u64
    requires seen { HasSeen board.now graph.now threshold.slack threshold.bound seat.old }
    requires fair { IsFair graph.now low }
    ensures seen { HasSeen board.now graph.now threshold.slack result seat.new }
    ensures later { IsLater seat.old seat.new }
{
    if low < threshold.bound {
        board.lower(seat, low)
    } else {
        threshold.bound
    }
}

/// Marks an edge, unless a look shows that it is marked. Words that are only read can stay in the
/// caches of all workers; those that one worker writes cannot.
fn mark_once(board: &Board, seat: &mut BoardSeat, edge: usize)
    requires seat { seat.old.board ≡ board.now }
    requires edge { edge < length board.now.graph.edges }
    requires safe { IsSafeEdge board.now.graph seat.old.seen board.now.slack edge }
    ensures { (seat.new ≡ seat.old) ⊎ (seat.new ≡ record seat.old { own = edge ∷ seat.old.own }) }
{
    if !board.is_marked(seat, edge) {
        board.mark(seat, edge);
    }
}

/// Marks the edges from the vertex scanned last to those whose link reaches the slack and the
/// bound that the seat saw last.
fn mark_links_on_board(
    board: &Board,
    seat: &mut BoardSeat,
    graph: &Graph,
    scan: &Scan,
    vertex: u32,
    threshold: Threshold,
)
    requires seen { HasSeen board.now graph.now threshold.slack threshold.bound seat.old }
    requires slack { threshold.slack ≤ 1 }
    requires stands { StandsFor scan.now graph.now }
    requires latest { IsLatest scan.now vertex }
    requires from_one { 1 ≤ vertex }
    requires to_n { vertex ≤ graph.now.vertices }
    ensures seen { HasSeen board.now graph.now threshold.slack threshold.bound seat.new }
    ensures later { IsLater seat.old seat.new }
{
    for arc in graph.row(vertex) {
        if scan.link(graph, arc.to) >= threshold.bound + threshold.slack {
            mark_once(board, seat, arc.edge as usize);
        }
    }
}

/// Lowers the bound by the weight of the scanned set after a vertex was scanned, and marks by the
/// vertex's links. It returns the bound that the seat has then seen.
fn take_in(
    board: &Board,
    seat: &mut BoardSeat,
    graph: &Graph,
    scan: &Scan,
    next: Scanned,
    threshold: Threshold,
) -> u64
    requires seen { HasSeen board.now graph.now threshold.slack threshold.bound seat.old }
    requires slack { threshold.slack ≤ 1 }
    requires stands { StandsFor scan.now graph.now }
    requires latest { IsLatest scan.now next.vertex }
    requires from_one { 1 ≤ next.vertex }
    requires to_n { next.vertex ≤ graph.now.vertices }
    requires fair { next.all ≡ false → IsFair graph.now next.prefix_weight }
    ensures seen { HasSeen board.now graph.now threshold.slack result seat.new }
    ensures later { IsLater seat.old seat.new }
{
    let low = lowered(next, threshold.bound);
    let seen = lower_to(board, seat, graph, low, threshold);
    let fallen = Threshold {
        bound: seen,
        ..threshold
    };
    mark_links_on_board(board, seat, graph, scan, next.vertex, fallen);
    seen
}

/// Takes a vertex for a worker, and returns whether no worker had it.
fn take_vertex(
    board: &Board,
    seat: &mut BoardSeat,
    graph: &Graph,
    vertex: u32,
    threshold: Threshold,
) -> bool
    requires seen { HasSeen board.now graph.now threshold.slack threshold.bound seat.old }
    requires from_one { 1 ≤ vertex }
    requires to_n { vertex ≤ graph.now.vertices }
    ensures seen { HasSeen board.now graph.now threshold.slack threshold.bound seat.new }
    ensures later { IsLater seat.old seat.new }
    ensures won { result ≡ true → Contains seat.new.won vertex }
{
    board.take(seat, vertex)
}

/// One turn of a worker's scan, at the vertex that comes next. It is scanned if no worker had it,
/// and dropped otherwise. It returns the bound that the seat has then seen.
fn scan_or_drop(
    board: &Board,
    seat: &mut BoardSeat,
    graph: &Graph,
    scan: &mut Scan,
    vertex: u32,
    threshold: Threshold,
) -> u64
    requires seen { HasSeen board.now graph.now threshold.slack threshold.bound seat.old }
    requires slack { threshold.slack ≤ 1 }
    requires stands { StandsFor scan.old graph.now }
    requires choice { IsChoice scan.old vertex }
    requires won { AreWon scan.old seat.old }
    ensures seen { HasSeen board.now graph.now threshold.slack result seat.new }
    ensures later { IsLater seat.old seat.new }
    ensures stands { StandsFor scan.new graph.now }
    ensures won { AreWon scan.new seat.new }
{
    // known by this call: the graph is an edge list
    let _n = graph.n();
    if !take_vertex(board, seat, graph, vertex, threshold) {
        scan.drop_vertex(vertex);
        return threshold.bound;
    }
    let Some(next) = scan.next(graph) else {
        return threshold.bound;
    };
    take_in(board, seat, graph, scan, next, threshold)
}

/// Scans from a root on what no other worker takes, lowers the board's bound by each set that was
/// scanned, and marks by links. Vertices that others have are dropped as they come next.
///
/// It ends when no waiting vertex touches the scanned set. A worker passes over no vertices but
/// its own and those beside them. So all scans together cost about as much as one scan of the
/// whole graph.
pub(crate) fn scan_on_board(
    board: &Board,
    seat: &mut BoardSeat,
    graph: &Graph,
    scan: &mut Scan,
    root: u32,
    threshold: Threshold,
)
    requires seen { HasSeen board.now graph.now threshold.slack threshold.bound seat.old }
    requires slack { threshold.slack ≤ 1 }
    requires stands { StandsFor scan.old graph.now }
    requires root_from_one { 1 ≤ root }
    requires root_to_n { root ≤ graph.now.vertices }
    ensures seen { HasSeen board.now graph.now threshold.slack seat.new.seen seat.new }
    ensures later { IsLater seat.old seat.new }
    ensures won { AreWon scan.new seat.new }
{
    scan.start(root, threshold.bound + threshold.slack);
    let mut seen = threshold.bound;
    for turn in 0..graph.n() {
        let Some(vertex) = scan.peek(graph) else {
            return;
        };
        if turn > 0 && scan.link(graph, vertex) == 0 {
            return;
        }
        let fallen = Threshold {
            bound: seen,
            ..threshold
        };
        seen = scan_or_drop(board, seat, graph, scan, vertex, fallen);
    }
}
