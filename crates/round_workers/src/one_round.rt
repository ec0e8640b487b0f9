//! One round of workers.

ghost use Rattle.std.specs.Prelude.{◌≡◌, ◌+◌, ◌≤◌, IfOk, length, true};
ghost use Rattle.cut_definitions.specs.Safe.{IsFair};
ghost use Rattle.cut_definitions.specs.Cuts.{has};
ghost use Rattle.weighted_graph.specs.Marks.{MarksAreSafe};
ghost use Rattle.round_workers.specs.Round.{CertifiedAreMarked};
ghost use Rattle.round_workers.specs.Seats.{HasSeen, HasAll};

use crate::certifying::mark_certified;
use crate::threshold::Threshold;
use crate::working::{Task, join_workers, race, workers_for};
use cut_definitions::NoMemory;
use mark_board::{Board, BoardSeat, Marks};
use outside::Gate;
use std::alloc::Global;
use std::thread::Threads;
use weighted_graph::Graph;

/// The number of shares into which the edges are divided: one for each worker, but at most one for
/// every four edges.
fn shares_for(edges: usize, workers: u32) -> usize
    requires { (1 ≤ workers) × (workers ≤ 64) }
    ensures { (1 ≤ result) × (result ≤ 64) }
{
    (workers as usize).min(edges / 4).max(1)
}

/// Opens a board with a bound, and lets each worker of a task run. It returns the board, and the
/// seat to which all of their seats were joined.
fn run_workers<R: Threads + Sync, G: Gate>(
    rt: &R,
    graph: &Graph,
    bound: u64,
    task: Task,
    gate: &G,
) -> Result<(Board, BoardSeat), NoMemory>
    requires enough { 2 ≤ graph.now.vertices }
    requires fair { IsFair graph.now bound }
    requires slack { task.slack ≤ 1 }
    requires shares { (1 ≤ task.shares) × (task.shares ≤ 64) }
    ensures seated { IfOk result (λ r. HasSeen r.0 graph.now task.slack r.1.seen r.1) }
    ensures opening { IfOk result (λ r. r.0.opening ≡ bound) }
    ensures all { task.certifies ≡ true → IfOk result (λ r. HasAll graph.now task.slack r.1) }
{
    // known by this call: the graph is an edge list, so no bound is above 2^61
    let _n = graph.n();
    let (board, mut seat) = Board::open(task.alloc, graph, bound, task.slack)?;
    let mut seated = workers_for(task.alloc, graph, &board, &mut seat, task.shares)?;
    race(rt, &board, graph, seated.as_mut_slice(), task, gate);
    join_workers(&board, graph, &mut seat, seated, task)?;
    Ok((board, seat))
}

/// The bound and the marks of a board whose workers are done. If the bound has fallen, workers may
/// have tested an edge before that, so the edges without a mark are tested once more.
fn close_round(board: Board, seat: BoardSeat, graph: &Graph, bound: u64, slack: u64) -> (u64, Marks)
    requires seated { HasSeen board graph.now slack seat.seen seat }
    requires opening { board.opening ≡ bound }
    requires all { HasAll graph.now slack seat }
    requires slack { slack ≤ 1 }
    ensures fair { IsFair graph.now result.0 }
    ensures at_most { result.0 ≤ bound }
    ensures edges { result.1.edges ≡ length graph.now.edges }
    ensures safe { MarksAreSafe graph.now (has result.1.marked) result.0 slack }
    ensures certified { CertifiedAreMarked graph.now (has result.1.marked) (result.0 + slack) }
{
    // known by this call: the graph is an edge list, so no bound is above 2^61
    let _n = graph.n();
    let (low, mut marks) = board.close(seat);
    if low < bound {
        mark_certified(graph, low, slack, &mut marks);
    }
    (low, marks)
}

/// Marks edges that may be contracted, and lowers a bound, which is the weight of some cut. With
/// slack 0 only the value is kept, with slack 1 all minimum cuts are.
///
/// The bound that it returns is the weight of some cut too. Each mark is safe for it and the
/// slack. Each edge for which one of the four certificates holds at this bound is marked.
///
/// There are 1 to 64 workers, but at most one for every four edges, so with fewer than eight edges
/// no thread is started. Each worker passes the gate with its number, and tests its share of the
/// edges. Then it scans from a vertex of its own what no other worker takes. They share the bound,
/// the marks and the taken vertices, and no worker waits for another.
///
/// A round takes the certificates of all edges, O(m log n), and O(n log n) for each worker. It
/// takes O(m) memory, and O(n) for each worker, which the worker takes in its own thread. It fails
/// only if it runs out of memory.
pub fn round<R: Threads + Sync, G: Gate>(
    rt: &R,
    alloc: Global,
    graph: &Graph,
    bound: u64,
    slack: u64,
    workers: u32,
    gate: &G,
) -> Result<(u64, Marks), NoMemory>
    requires enough { 2 ≤ graph.now.vertices }
    requires fair { IsFair graph.now bound }
    requires slack { slack ≤ 1 }
    requires workers { (1 ≤ workers) × (workers ≤ 64) }
    ensures fair { IfOk result (λ r. IsFair graph.now r.0) }
    ensures at_most { IfOk result (λ r. r.0 ≤ bound) }
    ensures edges { IfOk result (λ r. r.1.edges ≡ length graph.now.edges) }
    ensures safe { IfOk result (λ r. MarksAreSafe graph.now (has r.1.marked) r.0 slack) }
    ensures certified { IfOk result (λ r. CertifiedAreMarked graph.now (has r.1.marked) (r.0 + slack)) }
{
    let task = Task {
        alloc,
        shares: shares_for(graph.edges(), workers),
        slack,
        certifies: true,
    };
    let (board, seat) = run_workers(rt, graph, bound, task, gate)?;
    Ok(close_round(board, seat, graph, bound, slack))
}

/// Marks edges that may be contracted by scans alone, and lowers a bound. It is a round without
/// certificates, so it costs little on a large graph (after Henzinger, Noe and Schulz, 2020).
///
/// The bound of the threshold is the weight of some cut, and so is the one that it returns. Each
/// mark is safe for that and the slack. There are 1 to 64 workers, each of which runs, so the
/// caller sees to it that the graph is worth them.
///
/// Each worker passes the gate with its number. Then it scans from a vertex of its own what no
/// other worker takes, until no waiting vertex touches what it scanned. They share the bound, the
/// marks and the taken vertices, and no worker waits for another. If a vertex is near to several
/// workers, each of them sees only a part of the weight. So on a dense graph they mark less than
/// one worker would.
///
/// All together go along each row about once, in O(m log n), and O(n) for each worker. It takes
/// O(m) memory, and O(n) for each worker, which the worker takes in its own thread. It fails only
/// if it runs out of memory.
pub fn scan_round<R: Threads + Sync, G: Gate>(
    rt: &R,
    alloc: Global,
    graph: &Graph,
    threshold: Threshold,
    workers: u32,
    gate: &G,
) -> Result<(u64, Marks), NoMemory>
    requires enough { 2 ≤ graph.now.vertices }
    requires fair { IsFair graph.now threshold.bound }
    requires slack { threshold.slack ≤ 1 }
    requires workers { (1 ≤ workers) × (workers ≤ 64) }
    ensures fair { IfOk result (λ r. IsFair graph.now r.0) }
    ensures at_most { IfOk result (λ r. r.0 ≤ threshold.bound) }
    ensures edges { IfOk result (λ r. r.1.edges ≡ length graph.now.edges) }
    ensures safe { IfOk result (λ r. MarksAreSafe graph.now (has r.1.marked) r.0 threshold.slack) }
{
    let task = Task {
        alloc,
        shares: workers as usize,
        slack: threshold.slack,
        certifies: false,
    };
    let (board, seat) = run_workers(rt, graph, threshold.bound, task, gate)?;
    Ok(board.close(seat))
}
