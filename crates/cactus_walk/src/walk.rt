//! A walk over the sides of the cuts of a cactus.

ghost use Rattle.std.specs.Prelude.{◌≡◌, ◌↔◌, ◌≤◌, ℕ, List, [], ◌∷◌, true, false, length, IfOk};
ghost use Rattle.std.specs.List.{Contains};
ghost use Rattle.cut_definitions.specs.Members.{AreDifferent};
ghost use Rattle.rooted_cactus.specs.Normal.{is_normal};
ghost use Rattle.rooted_cactus.specs.Rooted.{sides_of};

mod borders;
mod masses;
mod places;
mod ranges;
mod repeats;
mod shown;

pub use borders::next_start;
use cut_definitions::NoMemory;
pub use masses::masses_before;
pub use places::{CutPlaces, KeptPlaces, cut_places, kept_places};
pub use ranges::CutRanges;
use repeats::{next_kept, passed_over};
use rooted_cactus::{Border, Cactus};
use shown::change_side;
pub use shown::{Span, put_range};
use std::alloc::Global;
use std::marker::Model;
use vertex_set::Side;

/// The sides of the cuts of a cactus, one after another, in the order of the tree. Each side of a
/// normal cactus comes once.
///
/// It borrows nothing: it keeps the vertices in the order in which the tree is entered, so that
/// each side is one range. Contracts see a walk as n and the list of the sides still to come, each
/// an ascending list.
#[derive(Drop)]
pub struct Walk {
    n: u32,
    /// The vertices in the order in which the tree is entered.
    order: Vec<u32>,
    /// The borders of all blocks, in the order of the tree, as places of `order`.
    borders: Vec<Border>,
    /// For each border, whether the cut from it to the next one is left out, since another cut has
    /// its side.
    repeats: Vec<bool>,
    /// The border at which the next cut begins.
    first: usize,
    /// How many of the borders after that one have been passed; the next cut ends at the one after
    /// these.
    passed: usize,
    /// The places of the vertices of the last side that was returned.
    span: Span,
    /// The last side that was returned.
    side: Side,
    /// All vertices, for clearing a room 64 at a step.
    all: Side,
}

impl Model for Walk {
    ghost use Rattle.cactus_walk.specs.Walks.{SidesToCome};
    ghost use Rattle.rooted_cactus.specs.CutRanges.{elements_at};
    ghost use Rattle.rooted_cactus.specs.Places.{AreOnce};
    ghost use Rattle.cut_definitions.specs.Graph.{IsVertex};
    ghost use Rattle.cactus_walk.specs.Walking.{AreBorders, IsStart, sides_left};
    ghost use Rattle.cut_definitions.specs.Cuts.{has};
    ghost use Rattle.std.specs.List.{All};
    ghost use Rattle.std.specs.Prelude.{◌≡◌, ◌≤◌, length, true};
    ghost use Rattle.vertex_set.specs.Side.{listed};

    ghost Value = { SidesToCome };

    ghost view = { λ w. record { vertices = w.n; to_come = sides_left w.n w.order.items w.borders.items w.repeats.items w.first w.passed } };

    ghost invariant = { λ w. record {
      all : w.all ≡ listed w.n (λ v. true);
      shown : w.side ≡ listed w.n (has (elements_at w.order.items record { from = w.span.from; to = w.span.to }));
      span : w.span.to ≤ length w.order.items;
      once : AreOnce w.n w.order.items;
      vertices : All (IsVertex w.n) w.order.items;
      borders : AreBorders (length w.order.items) w.borders.items;
      repeats : length w.repeats.items ≡ length w.borders.items;
      start : IsStart w.borders.items w.first w.passed;
    } };
}

impl Walk {
    /// The walk over the sides of a cactus. It returns each of them, in no more steps than there
    /// are cuts, and each once if the cactus is normal.
    ///
    /// The cuts come in the order of the tree. Some nodes have no vertex and one block below,
    /// which is a cycle. The cut of such a node alone in the block above is left out, since the
    /// cycle has a cut with the same side.
    ///
    /// It takes one step for each node and vertex, in loops, so that a deep tree does not overflow
    /// the stack. It takes memory in proportion to the nodes and to n, and fails only if it runs
    /// out of memory.
    pub fn new(alloc: Global, cactus: &Cactus) -> Result<Walk, NoMemory>
        ensures n { IfOk result (λ w. w.vertices ≡ cactus.now.vertices) }
        ensures sides { IfOk result (λ w. (side : List ℕ) → Contains w.to_come side ↔ Contains (sides_of cactus.now) side) }
        ensures few { IfOk result (λ w. length w.to_come ≤ length (sides_of cactus.now)) }
        ensures different { is_normal cactus.now.root ≡ true → IfOk result (λ w. AreDifferent w.to_come) }
    {
        let n = cactus.n();
        let places = kept_places(alloc, cactus)?;
        let first = next_kept(&places.borders, &places.repeats, 0);
        let passed = passed_over(&places.repeats, first);
        let side = Side::empty(alloc, n)?;
        let mut all = Side::empty(alloc, n)?;
        all.flip();
        Ok(Walk {
            n,
            order: places.order,
            borders: places.borders,
            repeats: places.repeats,
            first,
            passed,
            span: Span { from: 0, to: 0 },
            side,
            all,
        })
    }

    /// Takes the first of the sides still to come, and puts it into the room in place of what was
    /// there. It returns false exactly if there is none; then the room and the walk are unchanged.
    ///
    /// It takes one step for each vertex that is in just one of this side and the one before, and
    /// n/32 steps for the room. It takes no memory.
    pub fn next(&mut self, room: &mut Side) -> bool
        requires { room.old.vertices ≡ self.old.vertices }
        ensures n { self.new.vertices ≡ self.old.vertices }
        ensures room { room.new.vertices ≡ room.old.vertices }
        ensures some { (result ≡ true) → self.old.to_come ≡ room.new.members ∷ self.new.to_come }
        ensures none { (result ≡ false) → self.old.to_come ≡ [] }
        ensures unchanged { (result ≡ false) → self.new ≡ self.old }
        ensures kept { (result ≡ false) → room.new ≡ room.old }
    {
        if self.first >= self.borders.len() {
            return false;
        }
        let start = self.borders[self.first];
        let end = self.borders[self.first + self.passed + 1];
        let span = Span {
            from: start.place,
            to: end.place,
        };
        change_side(&mut self.side, &self.order, self.span, span);
        self.span = span;
        room.take_out(&self.all);
        room.join_in(&self.side);
        self.passed += 1;
        if self.passed >= start.following {
            self.first = next_kept(&self.borders, &self.repeats, self.first + 1);
            self.passed = passed_over(&self.repeats, self.first);
        }
        true
    }
}
