//! Workers of a round, which run side by side, each with its own seat of the board.

ghost use Rattle.std.specs.Prelude.{◌≡◌, ◌+◌, ◌<◌, ◌≤◌, All, IfOk, OnOk, length, true, vec_len};
ghost use Rattle.round_workers.specs.Seats.{HasSeen, HasAll, HasTested, IsLater, AreWon, IsReady, IsDone, AreDone};

use crate::scanning::scan_on_board;
use crate::shares::mark_share;
use crate::threshold::Threshold;
use capped_scan::Scan;
use cut_definitions::NoMemory;
use mark_board::{Board, BoardSeat};
use outside::Gate;
use std::alloc::Global;
use std::thread;
use std::thread::Threads;
use weighted_graph::Graph;

/// A worker: its seat of the board, and once it has run its scan of the graph, or the failure to
/// get memory for it.
#[derive(Drop)]
pub(crate) struct Worker {
    pub(crate) seat: BoardSeat,
    pub(crate) scan: Option<Result<Scan, NoMemory>>,
}

/// What the workers of a round do: the allocator that they use, the number of shares of the edges,
/// one for each worker, and the slack of all marks. `certifies` says whether each worker tests the
/// edges of its share by certificates before it scans.
#[derive(Clone, Copy)]
pub(crate) struct Task {
    pub(crate) alloc: Global,
    pub(crate) shares: usize,
    pub(crate) slack: u64,
    pub(crate) certifies: bool,
}

/// A worker for each share, with a seat that is split off. It has no scan yet; it makes one in its
/// own thread.
pub(crate) fn workers_for(
    alloc: Global,
    graph: &Graph,
    board: &Board,
    seat: &mut BoardSeat,
    shares: usize,
) -> Result<Vec<Worker>, NoMemory>
    requires seated { HasSeen board.now graph.now board.now.slack seat.old.seen seat.old }
    ensures seated { HasSeen board.now graph.now board.now.slack seat.new.seen seat.new }
    ensures len { IfOk result (λ workers. vec_len workers ≡ shares) }
    ensures ready { IfOk result (λ workers. All (IsReady board.now graph.now board.now.slack) workers.items) }
{
    let mut workers = Vec::new(alloc);
    for _ in 0..shares {
        let own = board.split(seat);
        workers.push(Worker {
            seat: own,
            scan: None,
        })?;
    }
    Ok(workers)
}

/// Tests the edges of a worker's share, if the task asks for that.
fn certify(board: &Board, seat: &mut BoardSeat, graph: &Graph, share: usize, task: Task, bound: u64)
    requires seen { HasSeen board.now graph.now task.slack bound seat.old }
    requires slack { task.slack ≤ 1 }
    requires share { share < task.shares }
    requires shares { task.shares ≤ 64 }
    ensures seen { HasSeen board.now graph.now task.slack bound seat.new }
    ensures later { IsLater seat.old seat.new }
    ensures tested { task.certifies ≡ true → HasTested graph.now (bound + task.slack) share task.shares (length graph.now.edges) seat.new }
{
    if task.certifies {
        let threshold = Threshold {
            bound,
            slack: task.slack,
        };
        mark_share(board, seat, graph, share, task.shares, threshold);
    }
}

/// The vertex at which a worker begins to scan: the first one of its run, if the vertices are
/// divided into as many runs as there are shares.
fn root_of(graph: &Graph, share: usize, shares: usize) -> u32
    requires enough { 1 ≤ graph.now.vertices }
    requires share { share < shares }
    requires shares { shares ≤ 64 }
    ensures from_one { 1 ≤ result }
    ensures to_n { result ≤ graph.now.vertices }
{
    let before = graph.n() as usize * share / shares;
    before as u32 + 1
}

/// Makes a scan of the graph for a worker, and scans what no other worker takes from a root of its
/// own. It takes O(n) memory, and fails only if it runs out of memory.
fn scan_own(
    board: &Board,
    seat: &mut BoardSeat,
    graph: &Graph,
    share: usize,
    task: Task,
    bound: u64,
) -> Result<Scan, NoMemory>
    requires seen { HasSeen board.now graph.now task.slack bound seat.old }
    requires enough { 1 ≤ graph.now.vertices }
    requires slack { task.slack ≤ 1 }
    requires share { share < task.shares }
    requires shares { task.shares ≤ 64 }
    ensures seen { HasSeen board.now graph.now task.slack seat.new.seen seat.new }
    ensures later { IsLater seat.old seat.new }
    ensures won { IfOk result (λ scan. AreWon scan seat.new) }
{
    let mut scan = Scan::new(task.alloc, graph)?;
    let root = root_of(graph, share, task.shares);
    let threshold = Threshold {
        bound,
        slack: task.slack,
    };
    scan_on_board(board, seat, graph, &mut scan, root, threshold);
    Ok(scan)
}

/// The work of one worker. It passes the gate, looks at the bound, tests the edges of its share if
/// it has to, and scans the graph from a vertex of its own.
fn work<G: Gate>(
    board: &Board,
    graph: &Graph,
    worker: &mut Worker,
    share: usize,
    task: Task,
    gate: &G,
)
    requires ready { IsReady board.now graph.now task.slack worker.old }
    requires enough { 1 ≤ graph.now.vertices }
    requires slack { task.slack ≤ 1 }
    requires share { share < task.shares }
    requires shares { task.shares ≤ 64 }
    ensures { IsDone board.now graph.now task.slack task.certifies share task.shares worker.new }
{
    gate.pass(share as u32);
    let bound = board.bound(&mut worker.seat);
    certify(board, &mut worker.seat, graph, share, task, bound);
    let scan = scan_own(board, &mut worker.seat, graph, share, task, bound);
    worker.scan = Some(scan);
}

/// Runs the workers side by side, each on the share of its place and with memory of its own.
pub(crate) fn race<R: Threads + Sync, G: Gate>(
    rt: &R,
    board: &Board,
    graph: &Graph,
    workers: &mut [Worker],
    task: Task,
    gate: &G,
)
    requires ready { All (IsReady board.now graph.now task.slack) workers.old }
    requires enough { 1 ≤ graph.now.vertices }
    requires slack { task.slack ≤ 1 }
    requires some { 1 ≤ task.shares }
    requires few { task.shares ≤ 64 }
    requires shares { length workers.old ≡ task.shares }
    ensures { AreDone board.now graph.now task.slack task.certifies (length workers.old) workers.new }
{
    thread::for_each_mut(
        rt,
        workers,
        task.shares,
        &|share: usize, worker: &mut Worker|
            requires { IsReady board.now graph.now task.slack worker.now × (1 ≤ graph.now.vertices) × (task.slack ≤ 1) × (share < task.shares) × (task.shares ≤ 64) }
        { work(board, graph, worker, share, task, gate) },
    );
}

/// Joins the seats of all workers to one, which then has all of their marks. It fails if one of
/// them ran out of memory for its scan.
pub(crate) fn join_workers(
    board: &Board,
    graph: &Graph,
    seat: &mut BoardSeat,
    mut workers: Vec<Worker>,
    task: Task,
) -> Result<(), NoMemory>
    requires seated { HasSeen board.now graph.now board.now.slack seat.old.seen seat.old }
    requires some { 1 ≤ vec_len workers }
    requires done { AreDone board.now graph.now board.now.slack task.certifies (vec_len workers) workers.items }
    ensures seated { HasSeen board.now graph.now board.now.slack seat.new.seen seat.new }
    ensures all { task.certifies ≡ true → OnOk result (HasAll graph.now board.now.slack seat.new) }
{
    'seats: while let Some(worker) = workers.pop() {
        let Worker { seat: other, scan } = worker;
        board.join(seat, other);
        if let Some(Err(wanting)) = scan {
            return Err(wanting);
        }
    }
    Ok(())
}
