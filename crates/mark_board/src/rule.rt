//! The rule over the words and the seats of a board, and what each atomic step shows. All of it is
//! for proofs.

use atomic_table::{Join, Play, Split, TableRule};
use std::collections::LinkedList;
use std::snapshot::Snapshot;
use weighted_graph::Graph;

/// What a seat knows: its board's graph, slack and opening bound, the bound that it saw last, and
/// its edges and vertices. No value of this type is ever made.
pub struct View {
    pub live: bool,
    pub graph: Graph,
    pub slack: u64,
    pub opening: u64,
    pub seen: u64,
    pub own: LinkedList<u64>,
    pub won: LinkedList<u64>,
    pub known: LinkedList<u64>,
}

/// What a board is opened with.
#[derive(Drop)]
pub struct Opened {
    pub graph: Snapshot<Graph>,
    pub slack: u64,
    pub bound: u64,
}

/// The rule of a board's table.
pub struct Ruled;

impl TableRule<(), View, Opened> for Ruled {
    ghost use Rattle.mark_board.specs.Rule.{IsBoard, first_view};

    ghost holds = { IsBoard };

    ghost first = { first_view };
}

/// A load of the bound.
pub(crate) struct Load;

impl Play<(), View> for Load {
    ghost use Rattle.mark_board.specs.Rule.{loaded};

    ghost then = { loaded };
}

/// A minimum on the bound.
pub(crate) struct Lower;

impl Play<(), View> for Lower {
    ghost use Rattle.mark_board.specs.Rule.{lowered};

    ghost then = { lowered };
}

/// A load of a mark word.
pub(crate) struct Look;

impl Play<(), View> for Look {
    ghost use Rattle.mark_board.specs.Rule.{looked};

    ghost then = { looked };
}

/// An or of the bit of an edge into its mark word.
pub(crate) struct Mark;

impl Play<(), View> for Mark {
    ghost use Rattle.mark_board.specs.Rule.{marked};

    ghost then = { marked };
}

/// An or of the bit of a vertex into its taken word.
pub(crate) struct Take;

impl Play<(), View> for Take {
    ghost use Rattle.mark_board.specs.Rule.{took};

    ghost then = { took };
}

/// A seat that is split in two, and two that are joined.
pub(crate) struct Pair;

impl Split<View> for Pair {
    ghost use Rattle.mark_board.specs.Rule.{fresh_view};

    ghost left = { λ v. v };

    ghost right = { fresh_view };
}

impl Join<View> for Pair {
    ghost use Rattle.mark_board.specs.Rule.{joined_view, ended_view};

    ghost both = { joined_view };

    ghost spent = { ended_view };
}
