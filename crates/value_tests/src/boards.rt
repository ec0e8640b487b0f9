//! Steps on a shared board.

ghost use Rattle.std.specs.Prelude.{◌≡◌, ◌<◌, ◌≤◌, length};
ghost use Rattle.cut_definitions.specs.Safe.{IsFair};

use crate::triangle::uneven_triangle;
use cut_definitions::NoMemory;
use edge_certificates::heavy_edge;
use mark_board::{Board, BoardSeat, Marks};
use weighted_graph::Graph;

/// The degree of a vertex, which is the weight of a cut.
pub(crate) fn degree_of(graph: &Graph, v: u32) -> u64
    requires enough { 2 ≤ graph.now.vertices }
    requires from_one { 1 ≤ v }
    requires to_n { v ≤ graph.now.vertices }
    ensures { IsFair graph.now result }
{
    // known by this call: the graph is an edge list
    let _n = graph.n();
    graph.degree(v)
}

/// Lowers the bound by the degree of vertex 3, and marks edge 0 twice. Whether the bound is then
/// 5, and edge 0 was not marked before and is now.
fn marks_the_heavy_edge(graph: &Graph, board: &Board, seat: &mut BoardSeat) -> bool
    requires seat { seat.old.board ≡ board.now }
    requires graph { board.now.graph ≡ graph.now }
    requires slack { board.now.slack ≡ 0 }
    requires vertices { 3 ≤ graph.now.vertices }
    requires edges { 0 < length graph.now.edges }
    ensures { seat.new.board ≡ board.now }
{
    let before = board.is_marked(seat, 0);
    let bound = board.lower(seat, degree_of(graph, 3));
    if bound != 5 || !heavy_edge(graph, 0, bound, 0) {
        return false;
    }
    board.mark(seat, 0);
    board.mark(seat, 0);
    !before && board.is_marked(seat, 0)
}

/// Whether a new seat finds that edge 0 is marked.
fn finds_the_mark(board: &Board, seat: &mut BoardSeat) -> bool
    requires seat { seat.old.board ≡ board.now }
    requires edges { 0 < length board.now.graph.edges }
    ensures { seat.new.board ≡ board.now }
{
    let mut other = board.split(seat);
    board.is_marked(&mut other, 0)
}

/// Whether only the first of three edges is marked.
fn has_first_alone(marks: &Marks) -> bool
    requires { marks.now.edges ≡ 3 }
{
    marks.has(0) && !marks.has(1) && !marks.has(2)
}

#[test]
fn a_mark_is_found_and_kept_at_the_close(rt: HostRuntime) -> Result<(), NoMemory> {
    let graph = uneven_triangle(rt.alloc())?;
    let (board, mut seat) = Board::open(rt.alloc(), &graph, degree_of(&graph, 1), 0)?;
    let marked = marks_the_heavy_edge(&graph, &board, &mut seat);
    let found = finds_the_mark(&board, &mut seat);
    let (bound, marks) = board.close(seat);
    assert!(rt; marked && found && bound == 5 && has_first_alone(&marks));
    Ok(())
}

/// Whether one of two seats alone wins vertex 2, and the other wins vertex 3.
fn is_won_once(board: &Board, seat: &mut BoardSeat) -> bool
    requires seat { seat.old.board ≡ board.now }
    requires vertices { 3 ≤ board.now.graph.vertices }
    ensures { seat.new.board ≡ board.now }
{
    let first = board.take(seat, 2);
    let mut other = board.split(seat);
    let again = board.take(&mut other, 2);
    first && !again && board.take(&mut other, 3)
}

/// Whether a seat sees that another has lowered the bound to the degree of vertex 3.
fn sees_a_lowering(graph: &Graph, board: &Board, seat: &mut BoardSeat) -> bool
    requires seat { seat.old.board ≡ board.now }
    requires graph { board.now.graph ≡ graph.now }
    requires vertices { 3 ≤ graph.now.vertices }
{
    let mut other = board.split(seat);
    let lowered = board.lower(&mut other, degree_of(graph, 3));
    lowered == 5 && board.bound(seat) == 5
}

#[test]
fn two_seats_take_and_lower(rt: HostRuntime) -> Result<(), NoMemory> {
    let graph = uneven_triangle(rt.alloc())?;
    let (board, mut seat) = Board::open(rt.alloc(), &graph, degree_of(&graph, 1), 0)?;
    let won = is_won_once(&board, &mut seat);
    assert!(rt; won && sees_a_lowering(&graph, &board, &mut seat));
    Ok(())
}
