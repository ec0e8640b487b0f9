//! Marks on a board by the four local tests, each worker for its share of the edges.

ghost use Rattle.std.specs.Prelude.{◌+◌, ◌<◌, ◌≤◌, length, Contains};
ghost use Rattle.weighted_graph.specs.RowLaws.{edge_at};
ghost use Rattle.round_workers.specs.Round.{IsCertified};
ghost use Rattle.round_workers.specs.Seats.{HasSeen, IsLater, HasTested};

use crate::certifying::is_certified;
use crate::threshold::Threshold;
use mark_board::{Board, BoardSeat};
use weighted_graph::Graph;

/// Marks an edge if one of the four tests holds for it by the bound that the seat saw last.
fn mark_if_certified(
    board: &Board,
    seat: &mut BoardSeat,
    graph: &Graph,
    edge: usize,
    threshold: Threshold,
)
    requires seen { HasSeen board.now graph.now threshold.slack threshold.bound seat.old }
    requires slack { threshold.slack ≤ 1 }
    requires edge { edge < length graph.now.edges }
    ensures seen { HasSeen board.now graph.now threshold.slack threshold.bound seat.new }
    ensures later { IsLater seat.old seat.new }
    ensures marked { IsCertified graph.now (edge_at graph.now edge) (threshold.bound + threshold.slack) → Contains seat.new.own edge }
{
    if is_certified(graph, edge, threshold.bound, threshold.slack) {
        board.mark(seat, edge);
    }
}

/// Tests the edges of a share, and marks those that are certified by the bound that the seat saw
/// last. The share begins with the edge of its number, and takes each edge that comes `shares`
/// edges later.
pub(crate) fn mark_share(
    board: &Board,
    seat: &mut BoardSeat,
    graph: &Graph,
    share: usize,
    shares: usize,
    threshold: Threshold,
)
    requires seen { HasSeen board.now graph.now threshold.slack threshold.bound seat.old }
    requires slack { threshold.slack ≤ 1 }
    requires share { share < shares }
    requires shares { shares ≤ 64 }
    ensures seen { HasSeen board.now graph.now threshold.slack threshold.bound seat.new }
    ensures later { IsLater seat.old seat.new }
    ensures tested { HasTested graph.now (threshold.bound + threshold.slack) share shares (length graph.now.edges) seat.new }
{
    // known by this call: the graph is an edge list, so no step goes past the greatest number
    let _n = graph.n();
    let edges = graph.edges();
    let mut edge = share;
    'share: while edge < edges {
        mark_if_certified(board, seat, graph, edge, threshold);
        edge += shares;
    }
}
