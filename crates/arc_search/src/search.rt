//! Searches that can be stopped and taken up again.

ghost use Rattle.std.specs.Prelude.{◌≡◌, ◌+◌, ◌<◌, ◌≤◌, ℕ, Bool, List, IfOk, IsTrue, IsFalse, true, false, take, length, slice_index};
ghost use Rattle.cut_definitions.specs.Weight.{VertexSet};
ghost use Rattle.weighted_graph.specs.Searches.{is_seen};
ghost use Rattle.weighted_graph.specs.Rows.{arc_at};
ghost use Rattle.arc_search.specs.Found.{SearchState, StandsAt, IsKnown, IsSearch, IsNoneFound, IsQuiet, HasHalted, GoesOn, MayBegin, with_vertex};

use crate::halts::Halts;
use crate::step_arcs::StepArcs;
use cut_definitions::NoMemory;
use std::alloc::Global;
use std::marker::Model;
use weighted_graph::Arc;

/// How far a search has come.
#[derive(Clone, Copy, Debug, PartialEq, Eq)]
pub enum Reached {
    /// The vertex that it found last halts it.
    Halted,
    /// The search has found all that can be found.
    Ended,
    /// The search has looked at as many arcs as it was to look at.
    Paused,
}

/// The vertices that a search found, in the order in which it did,
/// each with the place that it was found from.
///
/// Contracts see it as a `SearchState`. It takes no memory but when it is made.
#[derive(Drop)]
pub struct Search {
    seen: Vec<bool>,
    order: Vec<u32>,
    parents: Vec<u32>,
    count: usize,
    // the rows of the places before this one have been followed
    place: usize,
}

impl Model for Search {
    ghost use Rattle.arc_search.specs.Found.{SearchState, IsKept};

    ghost Value = { SearchState };

    ghost view = { λ s. record {
      seen = s.seen.items;
      order = s.order.items;
      parents = s.parents.items;
      count = s.count;
      place = s.place;
    } };

    ghost invariant = { λ s. IsKept s.seen.items s.order.items s.parents.items s.count };
}

/// Takes the marks of the vertices at the first places of an order away, where no others have one.
fn unmark(seen: &mut [bool], order: &[u32], count: usize)
    requires order { count ≤ length order.now }
    requires within { (j : ℕ) → j < count → slice_index order.now j < length seen.old }
    requires stands { (v : ℕ) → is_seen seen.old v ≡ true → StandsAt order.now count v }
    ensures long { length seen.new ≡ length seen.old }
    ensures none { (v : ℕ) → is_seen seen.new v ≡ false }
{
    for j in 0..count {
        seen[order[j] as usize] = false;
    }
}

impl Search {
    /// A search that has found nothing, for vertices 1 to n.
    ///
    /// It takes time and memory O(n). Want of memory is its only refusal.
    pub fn new(alloc: Global, n: u32) -> Result<Search, NoMemory>
        ensures { IfOk result (IsNoneFound n) }
    {
        let size = n as usize + 1;
        let seen = vec![in alloc; false; size]?;
        let order = vec![in alloc; 0u32; size]?;
        let parents = vec![in alloc; 0u32; size]?;
        Ok(Search {
            seen,
            order,
            parents,
            count: 0,
            place: 0,
        })
    }

    /// How many vertices were found.
    pub fn count(&self) -> usize
        ensures { result ≡ self.now.count }
    {
        self.count
    }

    /// The vertices that were found, at the places below the count, lent without a copy.
    pub fn order(&self) -> &[u32]
        ensures { result.now ≡ self.now.order }
    {
        &self.order
    }

    /// The vertices that were found, lent without a copy.
    pub fn found(&self) -> &[u32]
        ensures { result.now ≡ take self.now.count self.now.order }
    {
        &self.order[..self.count]
    }

    /// For each place below the count the one that it was found from,
    /// lent without a copy; a start has its own.
    pub fn parents(&self) -> &[u32]
        ensures { result.now ≡ self.now.parents }
    {
        &self.parents
    }

    /// For each number from 0 to n whether it was found, lent without a copy.
    pub fn seen(&self) -> &[bool]
        ensures { result.now ≡ self.now.seen }
    {
        &self.seen
    }

    /// Puts a vertex at the end of what was found.
    fn put(&mut self, v: u32, parent: usize)
        requires within { v < length self.old.seen }
        requires new { is_seen self.old.seen v ≡ false }
        requires parent { parent ≤ self.old.count }
        ensures { self.new ≡ with_vertex self.old v parent }
    {
        self.seen[v as usize] = true;
        self.order[self.count] = v;
        self.parents[self.count] = parent as u32;
        self.count += 1;
    }

    /// Adds a start to what was found, unless it was found before. It takes O(1).
    pub fn begin(&mut self, v: u32)
        requires within { v < length self.old.seen }
        ensures goes_on { GoesOn self.old self.new }
        ensures same_place { self.new.place ≡ self.old.place }
        ensures long { length self.new.seen ≡ length self.old.seen }
        ensures there { is_seen self.new.seen v ≡ true }
        ensures known { is_seen self.old.seen v ≡ true → self.new ≡ self.old }
        ensures fresh { is_seen self.old.seen v ≡ false → (self.new.count ≡ self.old.count + 1) × (slice_index self.new.order self.old.count ≡ v) }
        ensures search { (n : ℕ) (goes : ℕ → ℕ → Bool) (halts : ℕ → Bool) (turns : List ℕ) (starts : VertexSet) →
            IsSearch n goes halts turns starts self.old → MayBegin n halts turns starts self.old v → IsSearch n goes halts turns starts self.new }
    {
        if !self.seen[v as usize] {
            self.put(v, self.count);
        }
    }

    /// Whether the vertex that was found last halts the search.
    fn is_halted<H: Halts>(&self, halts: &H) -> bool
        requires ask { (j : ℕ) → j < self.now.count → H.can_ask halts.now (slice_index self.now.order j) }
        requires quiet { (j : ℕ) → j + 1 < self.now.count → H.must halts.now (slice_index self.now.order j) ≡ false }
        ensures yes { IsTrue result → HasHalted (H.halts halts.now) self.now }
        ensures no { IsFalse result → IsQuiet (H.must halts.now) self.now }
    {
        if self.count == 0 {
            return false;
        }
        halts.halts(self.order[self.count - 1])
    }

    /// The vertex whose row is followed next.
    fn next(&self) -> u32
        requires { self.now.place < self.now.count }
        ensures { result ≡ slice_index self.now.order self.now.place }
    {
        self.order[self.place]
    }

    /// Follows the arc at a place of the next row.
    /// Answers whether it found a vertex that halts the search.
    fn follow_arc<A: StepArcs, H: Halts>(
        &mut self,
        arcs: &A,
        halts: &H,
        turns: &[u32],
        k: usize,
        arc: Arc,
    ) -> bool
        requires can { A.can_search arcs.now }
        requires ask { (v : ℕ) → 1 ≤ v → v ≤ A.vertices arcs.now → H.can_ask halts.now v }
        requires turns { length turns.now ≡ A.vertices arcs.now + 1 }
        requires search { (starts : VertexSet) × IsSearch (A.vertices arcs.now) (A.goes arcs.now) (H.must halts.now) turns.now starts self.old }
        requires quiet { IsQuiet (H.must halts.now) self.old }
        requires left { self.old.place < self.old.count }
        requires in_row { k < length (A.rows arcs.now (slice_index self.old.order self.old.place)) }
        requires there { arc ≡ arc_at (A.rows arcs.now (slice_index self.old.order self.old.place)) k }
        ensures search { (starts : VertexSet) → IsSearch (A.vertices arcs.now) (A.goes arcs.now) (H.must halts.now) turns.now starts self.old →
            IsSearch (A.vertices arcs.now) (A.goes arcs.now) (H.must halts.now) turns.now starts self.new }
        ensures goes_on { GoesOn self.old self.new }
        ensures same_place { self.new.place ≡ self.old.place }
        ensures known { IsTrue (A.open_at arcs.now (slice_index self.old.order self.old.place) k) → IsKnown turns.now self.new.seen arc.to }
        ensures halted { IsTrue result → HasHalted (H.halts halts.now) self.new }
        ensures quiet { IsFalse result → IsQuiet (H.must halts.now) self.new }
    {
        let v = self.next();
        let to = arc.to;
        if self.seen[to as usize] || turns[to as usize] != 0 || !arcs.is_open(v, k, arc) {
            return false;
        }
        self.put(to, self.place);
        halts.halts(to)
    }

    /// Moves on to the next place.
    fn pass_place(&mut self)
        requires { self.old.place < self.old.count }
        ensures { self.new ≡ record { seen = self.old.seen; order = self.old.order; parents = self.old.parents; count = self.old.count; place = self.old.place + 1 } }
    {
        self.place += 1;
    }

    /// Follows the next row, up to a vertex that halts the search, and answers whether there is
    /// one. A row that was followed to its end is done.
    fn follow_row<A: StepArcs, H: Halts>(
        &mut self,
        arcs: &A,
        halts: &H,
        turns: &[u32],
        row: &[Arc],
    ) -> bool
        requires can { A.can_search arcs.now }
        requires ask { (v : ℕ) → 1 ≤ v → v ≤ A.vertices arcs.now → H.can_ask halts.now v }
        requires turns { length turns.now ≡ A.vertices arcs.now + 1 }
        requires search { (starts : VertexSet) × IsSearch (A.vertices arcs.now) (A.goes arcs.now) (H.must halts.now) turns.now starts self.old }
        requires quiet { IsQuiet (H.must halts.now) self.old }
        requires left { self.old.place < self.old.count }
        requires row { row.now ≡ A.rows arcs.now (slice_index self.old.order self.old.place) }
        ensures search { (starts : VertexSet) → IsSearch (A.vertices arcs.now) (A.goes arcs.now) (H.must halts.now) turns.now starts self.old →
            IsSearch (A.vertices arcs.now) (A.goes arcs.now) (H.must halts.now) turns.now starts self.new }
        ensures goes_on { GoesOn self.old self.new }
        ensures halted { IsTrue result → HasHalted (H.halts halts.now) self.new }
        ensures quiet { IsFalse result → IsQuiet (H.must halts.now) self.new }
        ensures passed { IsFalse result → self.new.place ≡ self.old.place + 1 }
    {
        for k in 0..row.len() {
            if self.follow_arc(arcs, halts, turns, k, row[k]) {
                return true;
            }
        }
        self.pass_place();
        false
    }

    /// Goes on, up to the first vertex that halts the search; that is then the last one that was
    /// found, and its row and the rest of the row that it was found in are left to be followed.
    /// What has a turn is passed over.
    ///
    /// It pauses at the end of a row, where it has looked at `most` arcs or more, and has followed
    /// at least one row. It takes time for the rows that it follows, and no memory.
    pub fn advance<A: StepArcs, H: Halts>(
        &mut self,
        arcs: &A,
        halts: &H,
        turns: &[u32],
        most: usize,
    ) -> Reached
        requires can { A.can_search arcs.now }
        requires ask { (v : ℕ) → 1 ≤ v → v ≤ A.vertices arcs.now → H.can_ask halts.now v }
        requires turns { length turns.now ≡ A.vertices arcs.now + 1 }
        requires search { (starts : VertexSet) × IsSearch (A.vertices arcs.now) (A.goes arcs.now) (H.must halts.now) turns.now starts self.old }
        ensures search { (starts : VertexSet) → IsSearch (A.vertices arcs.now) (A.goes arcs.now) (H.must halts.now) turns.now starts self.old →
            IsSearch (A.vertices arcs.now) (A.goes arcs.now) (H.must halts.now) turns.now starts self.new }
        ensures goes_on { GoesOn self.old self.new }
        ensures halted { result ≡ Reached.Halted → HasHalted (H.halts halts.now) self.new }
        ensures ended { result ≡ Reached.Ended → (self.new.place ≡ self.new.count) × IsQuiet (H.must halts.now) self.new }
        ensures paused { result ≡ Reached.Paused → (self.old.place < self.new.place) × IsQuiet (H.must halts.now) self.new }
    {
        if self.is_halted(halts) {
            return Reached::Halted;
        }
        let mut left = most;
        while self.place < self.count {
            let row = arcs.row(self.next());
            if self.follow_row(arcs, halts, turns, row) {
                return Reached::Halted;
            }
            if row.len() >= left {
                return Reached::Paused;
            }
            left -= row.len();
        }
        Reached::Ended
    }

    /// Forgets what was found. It takes time for that alone, and no memory.
    pub fn clear(&mut self)
        ensures { (n : ℕ) → length self.old.seen ≡ n + 1 → IsNoneFound n self.new }
    {
        unmark(self.seen.as_mut_slice(), self.order.as_slice(), self.count);
        self.count = 0;
        self.place = 0;
    }
}
