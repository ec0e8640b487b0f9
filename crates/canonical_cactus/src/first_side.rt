//! The first of the sides of best balance.
//!
//! In the order of entering, each side is a range between two borders of a block. Take the least
//! vertex that only one of two sides has. If the other side has a greater vertex, the side with
//! that vertex comes first. Otherwise the other side is the beginning of it, and comes first. The
//! vertices that are in one range and not in another are those of two ranges. So the least
//! vertices of a few ranges decide.
//!
//! A side has the best balance if its mass is one of two. The ranges of one mass that begin at a
//! border end at adjacent borders. As that border moves on, neither the first nor the last of
//! these ends goes back. If vertices have no mass, there can be many ranges of one mass, so they
//! are not gone through.
//!
//! Borders with no mass between them form a run. The ranges of a mass above 0 that begin in one
//! run end in one run. Any start goes with any end, so all of them contain the shortest one
//! (`first_around`). The ranges without mass are all those between two borders of a run, and those
//! with the least vertex come first (`first_within`). From such a range on, the borders at both
//! ends are taken in one after another, at most once each. That ends when all vertices around the
//! range are greater than all those in it. So one range is compared for each run.

ghost use Rattle.std.specs.Prelude.{◌≡◌, ◌≢◌, ◌+◌, ◌<◌, ◌≤◌, ◌⊎◌, [], ℕ, IfOk, IsFalse, IsTrue, Some, length, slice_index};
ghost use Rattle.std.specs.List.{Contains};
ghost use Rattle.rooted_cactus.specs.Borders.{range_between, border_at, ranges_between};
ghost use Rattle.rooted_cactus.specs.CutRanges.{Range};
ghost use Rattle.rooted_cactus.specs.Rooted.{sides_of};
ghost use Rattle.rooted_cactus.specs.Trees.{blocks};
ghost use Rattle.cactus_walk.specs.Weighing.{IsRangeOf, IsShort, last_of, mass_between, range_of, total_mass};
ghost use Rattle.canonical_cactus.specs.FirstBest.{HasUpTo, IsBeyond, IsEmptyOne, IsFirstBefore, IsFirstBest, IsFirstOfRun, IsFound, IsFoundAt, IsNoLater, IsNotAfter, IsNotAfterAt, IsRanked, IsRankedOf, IsRun, IsTaken, IsWanted, IsWithin, NoneEmpty, count_of, range_at, side_between, side_of, vertex_at};

use crate::minima::Minima;
use balanced_cut::{balance_of, best};
use cactus_walk::{CutRanges, Span, cut_places};
use cut_definitions::{NoMemory, VertexWeights};
use rooted_cactus::Cactus;
use std::alloc::Global;
use vertex_set::Side;

/// The cuts of a cactus, the larger mass of the balance that is sought, and what the sides are
/// compared by.
#[derive(Drop)]
struct Ranked {
    ranges: CutRanges,
    high: u128,
    /// The least vertices of ranges.
    least: Minima,
    /// The least of the differences u32::MAX - v of ranges, which show the greatest vertices of
    /// ranges.
    wanting: Minima,
}

/// Two borders of one block, at which a range begins and ends.
#[derive(Clone, Copy)]
struct Ends {
    start: usize,
    end: usize,
}

/// The first of the sides so far, and the first border of the present run. `light` and `heavy` are
/// the first ends at which the range from the last border has at least the mass, and more than it.
#[derive(Clone, Copy)]
struct Search {
    found: Option<Span>,
    first: usize,
    light: usize,
    heavy: usize,
}

impl Ranked {
    /// The least vertex of a range that another one does not have, or u32::MAX if there is none.
    fn least_beyond(&self, span: Span, other: Span) -> u32
        requires ranked { IsRanked self.now }
        requires span { IsRangeOf (count_of self.now) (range_of span) }
        requires other { IsRangeOf (count_of self.now) (range_of other) }
        ensures no_less { (p : ℕ) → IsBeyond (range_of span) (range_of other) p → result ≤ vertex_at self.now p }
        ensures there { (result ≡ 4294967295) ⊎ ((p : ℕ) × IsBeyond (range_of span) (range_of other) p × (vertex_at self.now p ≡ result)) }
    {
        let before = Span {
            from: span.from,
            to: span.to.min(other.from),
        };
        let behind = Span {
            from: span.from.max(other.to),
            to: span.to,
        };
        self.least.least(before).min(self.least.least(behind))
    }

    /// Whether a range has a vertex greater than a number. If a greater vertex of it is known,
    /// that saves the search; u32::MAX stands for none.
    fn has_greater(&self, span: Span, vertex: u32, known: u32) -> bool
        requires ranked { IsRanked self.now }
        requires span { IsRangeOf (count_of self.now) (range_of span) }
        requires known { (known ≡ 4294967295) ⊎ ((p : ℕ) × (span.from ≤ p) × (p < span.to) × (vertex < vertex_at self.now p)) }
        ensures some { IsTrue result → (p : ℕ) × (span.from ≤ p) × (p < span.to) × (vertex < vertex_at self.now p) }
        ensures none { IsFalse result → (p : ℕ) → span.from ≤ p → p < span.to → vertex_at self.now p ≤ vertex }
    {
        if known < u32::MAX {
            return true;
        }
        self.wanting.least(span) < u32::MAX - vertex
    }

    /// Whether the side at one range comes before the side at another in the order of lists, or is
    /// the same.
    fn goes_before(&self, span: Span, other: Span) -> bool
        requires ranked { IsRanked self.now }
        requires span { IsRangeOf (count_of self.now) (range_of span) }
        requires other { IsRangeOf (count_of self.now) (range_of other) }
        ensures before { IsTrue result → IsNoLater (side_of self.now (range_of span)) (side_of self.now (range_of other)) }
        ensures behind { IsFalse result → IsNoLater (side_of self.now (range_of other)) (side_of self.now (range_of span)) }
    {
        let own = self.least_beyond(span, other);
        let others = self.least_beyond(other, span);
        if own < others {
            self.has_greater(other, own, others)
        } else if others < own {
            !self.has_greater(span, others, own)
        } else {
            true
        }
    }

    /// The range of the earlier of two sides: the one that was found, if any, and the one at
    /// another range.
    fn earlier(&self, found: Option<Span>, span: Span) -> Span
        requires ranked { IsRanked self.now }
        requires found { IsFound self.now found }
        requires span { IsRangeOf (count_of self.now) (range_of span) }
        ensures one { (result ≡ span) ⊎ (found ≡ Some result) }
        ensures kept { (r : Range) → IsNotAfter self.now found r → IsNotAfter self.now (Some result) r }
        ensures put { IsNotAfter self.now (Some result) (range_of span) }
    {
        match found {
            Some(best) => {
                if self.goes_before(best, span) {
                    best
                } else {
                    span
                }
            }
            None => span,
        }
    }

    /// The range between two borders.
    fn span(&self, ends: Ends) -> Span
        requires start { ends.start < length self.now.ranges.borders.items }
        requires end { ends.end < length self.now.ranges.borders.items }
        ensures { range_of result ≡ range_at self.now ends }
    {
        self.ranges.between(ends.start, ends.end)
    }

    /// The first border from one on for which the range to the next border has a vertex up to a
    /// number.
    fn first_with(&self, from: usize, end: usize, vertex: u32) -> usize
        requires ranked { IsRanked self.now }
        requires within { end ≤ last_of self.now.ranges from }
        requires behind { from < end }
        requires vertex { vertex < 4294967295 }
        requires has { HasUpTo self.now from end vertex }
        ensures from { from ≤ result }
        ensures end { result < end }
        ensures has { HasUpTo self.now result (result + 1) vertex }
    {
        let mut at = from;
        'parts: while self.least.least(self.ranges.between(at, at + 1)) > vertex {
            at += 1;
        }
        at
    }

    /// The last border before one for which the range to the next border has a vertex up to a
    /// number.
    fn last_with(&self, from: usize, end: usize, vertex: u32) -> usize
        requires ranked { IsRanked self.now }
        requires within { end ≤ last_of self.now.ranges from }
        requires behind { from < end }
        requires vertex { vertex < 4294967295 }
        requires has { HasUpTo self.now from end vertex }
        ensures from { from ≤ result }
        ensures end { result < end }
        ensures has { HasUpTo self.now result (result + 1) vertex }
    {
        let mut at = end - 1;
        'parts: while self.least.least(self.ranges.between(at, at + 1)) > vertex {
            at -= 1;
        }
        at
    }

    /// The range, extended at one of its ends by just as many borders as it takes to reach the
    /// given vertex around it.
    fn with_vertex(&self, bounds: Ends, inner: Ends, vertex: u32) -> Ends
        requires ranked { IsRanked self.now }
        requires within { IsWithin self.now bounds inner }
        requires vertex { vertex < 4294967295 }
        requires around { (p : ℕ) × IsBeyond (range_at self.now bounds) (range_at self.now inner) p × (vertex_at self.now p ≡ vertex) }
        ensures within { IsWithin self.now bounds result }
        ensures taken { IsTaken self.now inner result vertex }
    {
        let before = self.ranges.between(bounds.start, inner.start);
        if self.least.least(before) <= vertex {
            Ends {
                start: self.last_with(bounds.start, inner.start, vertex),
                end: inner.end,
            }
        } else {
            Ends {
                start: inner.start,
                end: self.first_with(inner.end, bounds.end, vertex) + 1,
            }
        }
    }

    /// The first of the sides at the ranges between two borders that contain another range.
    ///
    /// As long as the range has a greater vertex than the least one around it, that one belongs to
    /// the first side. After that, all vertices around it are greater than all those in it, so
    /// each longer side begins with this one.
    fn first_around(&self, bounds: Ends, inner: Ends) -> Ends
        requires ranked { IsRanked self.now }
        requires within { IsWithin self.now bounds inner }
        ensures within { IsWithin self.now bounds result }
        ensures start { result.start ≤ inner.start }
        ensures end { inner.end ≤ result.end }
        ensures first { (s e : ℕ) → bounds.start ≤ s → s ≤ inner.start → inner.end ≤ e → e ≤ bounds.end → IsNoLater (side_between self.now result.start result.end) (side_between self.now s e) }
    {
        let all = self.span(bounds);
        let mut ends = inner;
        let mut vertex = self.least_beyond(all, self.span(ends));
        'taken: while self.has_greater(self.span(ends), vertex, u32::MAX) {
            ends = self.with_vertex(bounds, ends, vertex);
            vertex = self.least_beyond(all, self.span(ends));
        }
        ends
    }

    /// The first of the sides at the nonempty ranges between two borders. It has the least of all
    /// these vertices.
    fn first_within(&self, bounds: Ends) -> Ends
        requires ranked { IsRanked self.now }
        requires some { bounds.start < bounds.end }
        requires block { bounds.end ≤ last_of self.now.ranges bounds.start }
        requires none_empty { NoneEmpty self.now }
        ensures within { IsWithin self.now bounds result }
        ensures first { (s e : ℕ) → bounds.start ≤ s → s < e → e ≤ bounds.end → IsNoLater (side_between self.now result.start result.end) (side_between self.now s e) }
    {
        let vertex = self.least.least(self.span(bounds));
        let start = self.first_with(bounds.start, bounds.end, vertex);
        self.first_around(
            bounds,
            Ends {
                start,
                end: start + 1,
            },
        )
    }

    /// The range whose side comes first, of the ranges of a mass that begin in a run of borders
    /// with no mass between them. `ends` are the ends of such ranges that begin at the last border
    /// of the run: the first one, and the one after the last.
    fn first_of_run(&self, mass: u128, run: Ends, ends: Ends) -> Option<Ends>
        requires ranked { IsRanked self.now }
        requires start { run.end < length self.now.ranges.borders.items }
        requires first { run.start ≤ run.end }
        requires run { IsRun self.now run.start run.end }
        requires last { 0 < (border_at self.now.ranges.borders.items run.end).following → 0 < mass_between self.now.ranges run.end (run.end + 1) }
        requires none_empty { mass ≡ 0 → NoneEmpty self.now }
        requires light { IsShort self.now.ranges mass run.end ends.start }
        requires behind { run.end < ends.start }
        requires reached { ends.start ≤ last_of self.now.ranges run.end → mass ≤ mass_between self.now.ranges run.end ends.start }
        requires heavy { IsShort self.now.ranges (mass + 1) run.end ends.end }
        requires past { run.end < ends.end }
        requires passed { ends.end ≤ last_of self.now.ranges run.end → mass + 1 ≤ mass_between self.now.ranges run.end ends.end }
        ensures { IsFirstOfRun self.now mass run.start run.end result }
    {
        if mass == 0 {
            if run.start == run.end {
                return None;
            }
            return Some(self.first_within(run));
        }
        if ends.start >= ends.end {
            return None;
        }
        let bounds = Ends {
            start: run.start,
            end: ends.end - 1,
        };
        let inner = Ends {
            start: run.end,
            end: ends.start,
        };
        Some(self.first_around(bounds, inner))
    }

    /// Whether the next border is of the same block, and there is no mass before it.
    fn goes_on(&self, start: usize) -> bool
        requires start { start < length self.now.ranges.borders.items }
        ensures on { IsTrue result → (0 < (border_at self.now.ranges.borders.items start).following) × (mass_between self.now.ranges start (start + 1) ≡ 0) }
        ensures last { IsFalse result → 0 < (border_at self.now.ranges.borders.items start).following → 0 < mass_between self.now.ranges start (start + 1) }
    {
        self.ranges.borders[start].following > 0
            && self.ranges.mass(self.ranges.between(start, start + 1)) == 0
    }

    /// The range of the earlier of two sides: the one that was found, if any, and the one at
    /// another range, if any.
    fn earlier_of(&self, found: Option<Span>, first: Option<Ends>) -> Option<Span>
        requires ranked { IsRanked self.now }
        requires found { IsFound self.now found }
        requires first { IsFoundAt self.now first }
        ensures found { IsFound self.now result }
        ensures kept { (r : Range) → IsNotAfter self.now found r → IsNotAfter self.now result r }
        ensures put { IsNotAfterAt self.now first result }
    {
        match first {
            Some(ends) => Some(self.earlier(found, self.span(ends))),
            None => found,
        }
    }

    /// The first of the sides at the ranges of a mass that begin at a border, and before it. A run
    /// of borders with no mass between them is handled at its last one.
    fn first_from(&self, mass: u128, start: usize, search: Search) -> Search
        requires ranked { IsRanked self.now }
        requires start { start < length self.now.ranges.borders.items }
        requires mass { (mass ≡ self.now.high) ⊎ (mass + self.now.high ≡ total_mass self.now.ranges) }
        requires none_empty { mass ≡ 0 → NoneEmpty self.now }
        requires search { IsFirstBefore self.now mass start search }
        ensures kept { (r : Range) → IsNotAfter self.now search.found r → IsNotAfter self.now result.found r }
        ensures first { IsFirstBefore self.now mass (start + 1) result }
    {
        let light = self.ranges.first_end(mass, start, search.light);
        let heavy = self.ranges.first_end(mass + 1, start, search.heavy);
        if self.goes_on(start) {
            return Search {
                found: search.found,
                first: search.first,
                light,
                heavy,
            };
        }
        let run = Ends {
            start: search.first,
            end: start,
        };
        let ends = Ends {
            start: light,
            end: heavy,
        };
        Search {
            found: self.earlier_of(search.found, self.first_of_run(mass, run, ends)),
            first: start + 1,
            light,
            heavy,
        }
    }

    /// The first of the side that was found, if any, and the sides at all ranges of a mass.
    fn first_of_mass(&self, mass: u128, found: Option<Span>) -> Option<Span>
        requires ranked { IsRanked self.now }
        requires mass { (mass ≡ self.now.high) ⊎ (mass + self.now.high ≡ total_mass self.now.ranges) }
        requires none_empty { mass ≡ 0 → NoneEmpty self.now }
        requires found { IsFound self.now found }
        ensures found { IsFound self.now result }
        ensures kept { (r : Range) → IsNotAfter self.now found r → IsNotAfter self.now result r }
        ensures first { (i e : ℕ) → i < length self.now.ranges.borders.items → i < e → e ≤ last_of self.now.ranges i → mass_between self.now.ranges i e ≡ mass → IsNotAfter self.now result (range_between self.now.ranges.borders.items i e) }
    {
        let mut search = Search {
            found,
            first: 0,
            light: 0,
            heavy: 0,
        };
        'starts: for start in 0..self.ranges.borders.len() {
            search = self.first_from(mass, start, search);
        }
        search.found
    }

    /// The range of a cut that has no vertex, if there is one.
    fn empty_range(&self) -> Option<Span>
        ensures { IsEmptyOne self.now result }
    {
        'starts: for start in 0..self.ranges.borders.len() {
            if self.ranges.borders[start].following > 0 {
                let span = self.ranges.between(start, start + 1);
                if span.from == span.to {
                    return Some(span);
                }
            }
        }
        None
    }

    /// The first of the sides at the ranges of either mass that gives the balance. No such range
    /// is empty, or the balance is above 0.
    fn first_of_both(&self) -> Option<Span>
        requires ranked { IsRanked self.now }
        requires none_empty { self.now.high ≡ 0 → NoneEmpty self.now }
        ensures found { IsFound self.now result }
        ensures first { (r : Range) → Contains (ranges_between self.now.ranges.borders.items) r → IsWanted self.now r → IsNotAfter self.now result r }
    {
        let rest = self.ranges.total() - self.high;
        let found = self.first_of_mass(self.high, None);
        if rest == self.high {
            return found;
        }
        self.first_of_mass(rest, found)
    }

    /// The range of the first of all sides of the balance.
    fn first(&self) -> Option<Span>
        requires ranked { IsRanked self.now }
        ensures found { IsFound self.now result }
        ensures first { (r : Range) → Contains (ranges_between self.now.ranges.borders.items) r → IsWanted self.now r → IsNotAfter self.now result r }
    {
        if self.high == 0 {
            if let Some(span) = self.empty_range() {
                return Some(span);
            }
        }
        self.first_of_both()
    }
}

/// The difference between u32::MAX and each vertex.
fn wanting_of(alloc: Global, order: &[u32]) -> Result<Vec<u32>, NoMemory>
    ensures long { IfOk result (λ v. length v.items ≡ length order.now) }
    ensures wanting { IfOk result (λ v. (p : ℕ) → p < length order.now → slice_index v.items p + slice_index order.now p ≡ 4294967295) }
{
    let mut wanting = Vec::new(alloc);
    for vertex in order {
        wanting.push(u32::MAX - *vertex)?;
    }
    Ok(wanting)
}

/// The cuts of a cactus, with the larger mass of the balance that is sought.
fn rank_cuts(
    alloc: Global,
    cactus: &Cactus,
    weights: &VertexWeights,
    high: u128,
) -> Result<Ranked, NoMemory>
    requires weights { length weights.now ≡ cactus.now.vertices }
    ensures high { IfOk result (λ k. k.high ≡ high) }
    ensures cuts { IfOk result (IsRankedOf cactus.now.vertices weights.now (sides_of cactus.now)) }
{
    // known by this call: that it is a cactus
    let _n = cactus.n();
    let places = cut_places(alloc, cactus)?;
    let ranges = CutRanges::of(alloc, places.order, places.borders, weights)?;
    let least = Minima::of(alloc, &ranges.order)?;
    let wanting = wanting_of(alloc, &ranges.order)?;
    let wanting = Minima::of(alloc, &wanting)?;
    Ok(Ranked {
        ranges,
        high,
        least,
        wanting,
    })
}

/// The first of all sides of the cuts of the cactus that have the best balance by the masses of
/// the vertices. It is the first in the order of lists, in which a list comes before those that
/// begin with it.
///
/// It takes O(n log n) for a cactus of n vertices whose nodes are at most in proportion to n. That
/// holds however many cuts have the best balance and whatever the masses are. It takes memory in
/// proportion to the nodes and to n, and fails only if it runs out of memory.
pub fn first_best(alloc: Global, cactus: &Cactus, weights: &VertexWeights) -> Result<Side, NoMemory>
    requires some { blocks cactus.now.root ≢ [] }
    requires weights { length weights.now ≡ cactus.now.vertices }
    ensures n { IfOk result (λ s. s.vertices ≡ cactus.now.vertices) }
    ensures first { IfOk result (λ s. IsFirstBest weights.now (sides_of cactus.now) s.members) }
{
    let some = best(alloc, cactus, weights)?;
    let high = balance_of(&some, weights);
    let ranked = rank_cuts(alloc, cactus, weights, high)?;
    match ranked.first() {
        Some(span) => ranked.ranges.side(alloc, span),
        None => Ok(some),
    }
}
