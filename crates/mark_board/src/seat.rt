//! A seat of a board.

use crate::rule::View;
use atomic_table::Seat;
use std::marker::Model;

/// The token with which a worker makes its steps on a board.
/// It takes no bytes and may be sent to another thread.
///
/// Contracts see its board, the bound that it saw last, the edges that it marked, the vertices
/// that it won and those that it knows to be taken. What it saw is the weight of a cut.
#[derive(Drop)]
pub struct BoardSeat {
    pub(crate) seat: Seat<(), View>,
}

impl Model for BoardSeat {
    ghost use Rattle.std.specs.Prelude.{◌≡◌, true, [], length};
    ghost use Rattle.cut_definitions.specs.Safe.{IsFair};
    ghost use Rattle.mark_board.specs.Seen.{SeatView, seat_view};
    ghost use Rattle.mark_board.specs.Words.{words_for};

    ghost Value = { SeatView };

    ghost view = { λ s. seat_view s.seat.table_id s.seat.me.0 };

    ghost invariant = { λ s. (s.seat.me.1 ≡ []) × (s.seat.me.0.live ≡ true) × (s.seat.table_id.words ≡ words_for (length s.seat.me.0.graph.edges) s.seat.me.0.graph.vertices) × IsFair s.seat.me.0.graph s.seat.me.0.seen };
}
