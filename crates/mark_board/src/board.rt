//! The board that workers share.

ghost use Rattle.std.specs.Prelude.{◌≡◌, ℕ, ◌+◌, ◌<◌, ◌≤◌, ◌∷◌, ◌++◌, min, true, false, length, Contains, IfOk, if◌then◌else◌};
ghost use Rattle.cut_definitions.specs.Safe.{IsFair};
ghost use Rattle.cut_definitions.specs.Cuts.{has};
ghost use Rattle.weighted_graph.specs.Marks.{MarksAreSafe};
ghost use Rattle.scan_core.specs.Machine.{IsSafeEdge, loads, lowers, looks, marks, takes, times};
ghost use Rattle.mark_board.specs.Rule.{IsBare, IsStep, IsLook, IsSplit, IsJoin, IsSafeNow};
ghost use Rattle.mark_board.specs.Seen.{fresh_seat, view_of};

use crate::marks::Marks;
use crate::rule::{Load, Look, Lower, Mark, Opened, Pair, Ruled, Take, View};
use crate::seat::BoardSeat;
use atomic_table::Table;
use cut_definitions::NoMemory;
use std::alloc::Global;
use std::marker::Model;
use std::snapshot::Snapshot;
use weighted_graph::Graph;

/// A bound that falls, a mark for each edge of a graph, and a flag for each vertex that is taken.
/// Threads share it.
///
/// Contracts see the identity of the board, its graph, its slack and its opening bound. The bound
/// is always the weight of some cut, at most the opening one, and at most what each seat saw.
/// Every mark is safe for the bound and the slack.
///
/// Word 0 of the table is the bound. Edge i is bit i mod 64 of mark word i div 64. Vertex v is bit
/// (v - 1) mod 64 of taken word (v - 1) div 64. The room for the marks at the close is kept beside
/// the table.
#[derive(Drop)]
pub struct Board {
    table: Table<(), View, Opened, Ruled, Global>,
    marks: Marks,
}

impl Model for Board {
    ghost use Rattle.std.specs.Prelude.{◌≡◌, length};
    ghost use Rattle.cut_definitions.specs.Graph.{IsEdgeList};
    ghost use Rattle.mark_board.specs.Seen.{BoardView};
    ghost use Rattle.mark_board.specs.Words.{words_for};

    ghost Value = { BoardView };

    ghost view = { λ b. record { table = b.table.shared.table_id; graph = b.table.shared.key.graph.value; slack = b.table.shared.key.slack; opening = b.table.shared.key.bound } };

    ghost invariant = { λ b. (b.table.shared.table_id.words ≡ words_for (length b.table.shared.key.graph.value.edges) b.table.shared.key.graph.value.vertices) × (b.marks.edges ≡ length b.table.shared.key.graph.value.edges) × (b.table.shared.table_id.slots ≡ 0) × IsEdgeList b.table.shared.key.graph.value };
}

impl Board {
    /// A board with no marks and no taken vertex, and a seat that has seen the bound, which is the
    /// weight of some cut. It takes two bits of memory for each edge and one for each vertex, with
    /// the room for the marks at the close. It fails only if it runs out of memory.
    pub fn open(
        alloc: Global,
        graph: &Graph,
        bound: u64,
        slack: u64,
    ) -> Result<(Board, BoardSeat), NoMemory>
        requires fair { IsFair graph.now bound }
        ensures board { IfOk result (λ r. (r.0.graph ≡ graph.now) × (r.0.slack ≡ slack) × (r.0.opening ≡ bound)) }
        ensures seat { IfOk result (λ r. r.1 ≡ fresh_seat r.0 bound) }

        // Nothing is marked and no vertex is taken while this seat, which has done nothing, is the
        // only one.
        ensures bare { IfOk result (λ r. IsBare (view_of r.1)) }
    {
        let edges = graph.edges();
        let marks = Marks::none(alloc, edges)?;
        let vertices = graph.n() as usize;
        let mut words = vec![in alloc; 0u64; (edges / 64 + 1) + (vertices / 64 + 1) + 1]?;
        words[0] = bound;
        let about = Opened {
            graph: Snapshot::of(graph),
            slack,
            bound,
        };
        let (table, seat) = Table::of_words(alloc, words.as_slice(), &about)?;
        Ok((Board { table, marks }, BoardSeat { seat }))
    }

    /// The last bound, and all marks. The bound is the weight of some cut, at most the opening one
    /// and at most what the seat saw. Every mark is safe for it and the slack. Every edge that the
    /// seat marked or took over by joins is marked. 64 edges a step.
    pub fn close(self, seat: BoardSeat) -> (u64, Marks)
        requires { seat.board ≡ self }
        ensures fair { IsFair self.graph result.0 }
        ensures at_most { (result.0 ≤ self.opening) × (result.0 ≤ seat.seen) }
        ensures edges { result.1.edges ≡ length self.graph.edges }
        ensures safe { MarksAreSafe self.graph (has result.1.marked) result.0 self.slack }
        ensures own { (e : ℕ) → Contains seat.own e → has result.1.marked e ≡ true }
    {
        let Board { table, mut marks } = self;
        let BoardSeat { seat } = seat;
        let closed = table.close_with(seat);
        let bound = closed.word(0);
        marks.copy_from(&closed);
        closed.free();
        (bound, marks)
    }

    /// The bound, which the seat has then seen. It is at most what the seat saw before. One atomic
    /// load.
    pub fn bound(&self, seat: &mut BoardSeat) -> u64
        requires { seat.old.board ≡ self.now }
        ensures seen { seat.new ≡ record seat.old { seen = result } }
        ensures fair { IsFair self.now.graph result }
        ensures at_most { result ≤ seat.old.seen }

        // no vertex was won twice
        ensures once { (v : ℕ) → times v seat.old.won ≤ 1 }
        ensures step { IsStep loads (view_of seat.old) (view_of seat.new) }
    {
        self.table.shared.load::<Load>(&mut seat.seat, 0)
    }

    /// Lowers the bound to the weight of some cut, if that is less. It returns the bound after it,
    /// which the seat has then seen. One atomic minimum.
    pub fn lower(&self, seat: &mut BoardSeat, weight: u64) -> u64
        requires seat { seat.old.board ≡ self.now }
        requires fair { IsFair self.now.graph weight }
        ensures seen { seat.new ≡ record seat.old { seen = result } }
        ensures fair { IsFair self.now.graph result }
        ensures below { result ≤ weight }
        ensures at_most { result ≤ seat.old.seen }
        ensures step { IsStep (λ k. lowers k weight) (view_of seat.old) (view_of seat.new) }
    {
        let found = self
            .table
            .shared
            .fetch_min::<Lower>(&mut seat.seat, 0, weight);
        found.min(weight)
    }

    /// Whether the edge is marked, which is true for an edge of the seat's own set. If it is true,
    /// the edge is safe for the bound at that moment, which is the weight of some cut and at most
    /// what the seat saw. The result, that bound and the step belong to one state of the machine.
    /// One atomic load.
    pub fn is_marked(&self, seat: &mut BoardSeat, edge: usize) -> bool
        requires seat { seat.old.board ≡ self.now }
        requires edge { edge < length self.now.graph.edges }
        ensures same { seat.new ≡ seat.old }
        ensures own { Contains seat.old.own edge → result ≡ true }
        ensures safe { result ≡ true → IsSafeNow (view_of seat.old) edge }
        ensures step { IsStep (λ k. looks k edge) (view_of seat.old) (view_of seat.new) }
        ensures look { IsLook (view_of seat.old) (view_of seat.new) edge result }
    {
        let word = self
            .table
            .shared
            .load::<Look>(&mut seat.seat, edge / 64 + 1);
        (word >> (edge % 64)) & 1 == 1
    }

    /// Marks an edge that is safe for the bound that the seat saw last. The edge is in the seat's
    /// own set afterwards. One atomic or.
    pub fn mark(&self, seat: &mut BoardSeat, edge: usize)
        requires seat { seat.old.board ≡ self.now }
        requires edge { edge < length self.now.graph.edges }
        requires safe { IsSafeEdge self.now.graph seat.old.seen self.now.slack edge }
        ensures own { seat.new ≡ record seat.old { own = edge ∷ seat.old.own } }
        ensures step { IsStep (λ k. marks k edge) (view_of seat.old) (view_of seat.new) }
    {
        let bit = 1 << (edge % 64);
        self.table
            .shared
            .fetch_or::<Mark>(&mut seat.seat, edge / 64 + 1, bit);
    }

    /// Takes a vertex of 1 to n, and returns whether it was free; if so, the seat has won it. A
    /// vertex that the seat won or knew before was not free. One atomic or.
    pub fn take(&self, seat: &mut BoardSeat, vertex: u32) -> bool
        requires seat { seat.old.board ≡ self.now }
        requires vertex { (1 ≤ vertex) × (vertex ≤ self.now.graph.vertices) }
        ensures won { seat.new ≡ record seat.old { won = (if result then (vertex ∷ seat.old.won) else seat.old.won); known = vertex ∷ seat.old.known } }
        ensures known { Contains seat.old.known vertex → result ≡ false }
        ensures step { IsStep (λ k. takes k vertex) (view_of seat.old) (view_of seat.new) }
    {
        let flag = vertex as usize - 1;
        let word = self.marks.words() + flag / 64 + 1;
        let bit = 1 << (flag % 64);
        let found = self
            .table
            .shared
            .fetch_or::<Take>(&mut seat.seat, word, bit);
        (found >> (flag % 64)) & 1 == 0
    }

    /// The seat sees the bound, and a new seat has seen the same, marked nothing, won nothing, and
    /// knows no vertex. Two operations: a load of the bound, and the split of the seat, which also
    /// costs a load.
    pub fn split(&self, seat: &mut BoardSeat) -> BoardSeat
        requires { seat.old.board ≡ self.now }
        ensures seat { seat.new ≡ record seat.old { seen = seat.new.seen } }
        ensures new { result ≡ fresh_seat self.now seat.new.seen }
        ensures fair { IsFair self.now.graph seat.new.seen }
        ensures at_most { seat.new.seen ≤ seat.old.seen }
        ensures step { IsSplit (view_of seat.old) (view_of seat.new) (view_of result) }
    {
        self.bound(seat);
        self.fork(seat)
    }

    /// The seat takes over the three sets of the other one, and sees the bound. No vertex was won
    /// by both. Two operations: the joining of the seats, which costs a load, and a load of the
    /// bound.
    pub fn join(&self, seat: &mut BoardSeat, other: BoardSeat)
        requires seat { seat.old.board ≡ self.now }
        requires other { other.board ≡ self.now }
        ensures seat { seat.new ≡ record seat.old { seen = seat.new.seen; own = seat.old.own ++ other.own; won = seat.old.won ++ other.won; known = seat.old.known ++ other.known } }
        ensures fair { IsFair self.now.graph seat.new.seen }
        ensures at_most { (seat.new.seen ≤ seat.old.seen) × (seat.new.seen ≤ other.seen) }
        ensures apart { (v : ℕ) → times v seat.old.won + times v other.won ≤ 1 }
        ensures step { IsJoin (view_of seat.old) (view_of other) (view_of seat.new) }
    {
        self.merge(seat, other);
        self.bound(seat);
    }

    /// A new seat, which has seen the same bound.
    fn fork(&self, seat: &mut BoardSeat) -> BoardSeat
        requires { seat.old.board ≡ self.now }
        ensures same { seat.new ≡ seat.old }
        ensures new { result ≡ fresh_seat self.now seat.old.seen }
    {
        let seat = self.table.shared.split_seat::<Pair>(&mut seat.seat);
        BoardSeat { seat }
    }

    /// The seat takes over what the other knows.
    fn merge(&self, seat: &mut BoardSeat, other: BoardSeat)
        requires seat { seat.old.board ≡ self.now }
        requires other { other.board ≡ self.now }
        ensures joined { seat.new ≡ record seat.old { seen = min seat.old.seen other.seen; own = seat.old.own ++ other.own; won = seat.old.won ++ other.won; known = seat.old.known ++ other.known } }
        ensures fair { IsFair self.now.graph seat.old.seen × IsFair self.now.graph other.seen }
    {
        let BoardSeat { seat: other } = other;
        self.table.shared.join_seat::<Pair>(&mut seat.seat, other);
    }
}
