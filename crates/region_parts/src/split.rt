//! The parts of a region around one of its vertices.
//!
//! Parts are listed from that of `t` and from that with all that is outside the region, until at
//! most one part is left between the two lists, which is not listed. It is the part of a hub: all
//! that is outside, or `t`, or any vertex that is left. Around each list searches start from the
//! vertices beside it, each in a race with one from the hub: where they meet, no part ends
//! between, and where one of them ends first, what it found is further parts of a list. So what is
//! listed is paid for by searches that would have listed more.

ghost use Rattle.std.specs.Prelude.{◌≡◌, ◌≢◌, ◌+◌, ◌-◌, ◌<◌, ◌≤◌, ◌^◌, ℕ, true, false, if◌then◌else◌, nat_lt, IfOk, OnOk, IsTrue, IsFalse, length, slice_index};
ghost use Rattle.std.specs.List.{Contains};
ghost use Rattle.cut_definitions.specs.Components.{IsConnected};
ghost use Rattle.cut_definitions.specs.Weight.{VertexSet, weight, IsMinimumCut};
ghost use Rattle.weighted_graph.specs.Searches.{is_seen};
ghost use Rattle.region_flow.specs.Regions.{IsRegionFlow};
ghost use Rattle.cut_definitions.specs.Regions.{IsOpenAt};
ghost use Rattle.region_flow.specs.Inflow.{IsStopReached};
ghost use Rattle.region_parts.specs.Between.{parts_between};
ghost use Rattle.region_parts.specs.FirstRace.{IsFirstRace};
ghost use Rattle.arc_search.specs.Found.{IsNoneFound};
ghost use Rattle.region_fronts.specs.Fronts.{IsCovered};
ghost use Rattle.arc_search.specs.Listing.{IsKept};
ghost use Rattle.region_fronts.specs.Listed.{AreListed, part_in};
ghost use Rattle.region_flow.specs.Parted.{AreLightParts};
ghost use Rattle.region_parts.specs.Regional.{two_sided};
ghost use Rattle.region_parts.specs.Sided.{IsRegionOf};
ghost use Rattle.region_parts.specs.Split.{AreAtFront, IsBetween, IsReady, outer_of};

use crate::between::Between;
use crate::hub::Hub;
use crate::race::{NearTask, Race, run_race};
use crate::region::Region;
use crate::side::Side;
use crate::splitter::Splitter;
use arc_search::Listing;
use cut_definitions::NoMemory;
use region_flow::RegionFlow;
use region_fronts::{Fronts, Parts};
use weighted_graph::Graph;

/// How many parts are left between the lists.
fn parts_left(between: Between) -> u32
    ensures { result ≡ parts_between between }
{
    match between {
        Between::Nothing => 0,
        Between::One => 1,
    }
}

/// The number of the part that is not listed, which comes after those from the
/// outside; 0 where there is none.
fn unlisted_number(between: Between, outer: u32) -> u32
    requires { outer + parts_between between < 2 ^ 32 }
    ensures nothing { between ≡ Between.Nothing → result ≡ 0 }
    ensures one { between ≡ Between.One → result ≡ outer + 1 }
{
    match between {
        Between::Nothing => 0,
        Between::One => outer + 1,
    }
}

/// Gives listed vertices their numbers, in the order of listing.
fn put_by_turn(parts: &mut Parts, listing: &Listing) -> Result<(), NoMemory>
    requires kept { (n : ℕ) × IsKept n listing.now × (length parts.old.numbers ≡ n + 1) }
    requires free { (v : ℕ) → 1 ≤ slice_index listing.now.turns v → slice_index parts.old.numbers v ≡ 0 }
    ensures long { length parts.new.numbers ≡ length parts.old.numbers }
    ensures numbers { OnOk result ((v : ℕ) → slice_index parts.new.numbers v ≡
        (if nat_lt 0 (slice_index listing.now.turns v) then slice_index listing.now.turns v else slice_index parts.old.numbers v)) }
{
    let turns = listing.turns();
    for v in listing.list() {
        parts.put(*v, turns[*v as usize])?;
    }
    Ok(())
}

/// Gives listed vertices their numbers from the last number down.
fn put_from_last(parts: &mut Parts, listing: &Listing, last: u32) -> Result<(), NoMemory>
    requires kept { (n : ℕ) × IsKept n listing.now × (length parts.old.numbers ≡ n + 1) }
    requires free { (v : ℕ) → 1 ≤ slice_index listing.now.turns v → slice_index parts.old.numbers v ≡ 0 }
    requires few { listing.now.count ≤ last }
    ensures long { length parts.new.numbers ≡ length parts.old.numbers }
    ensures numbers { OnOk result ((v : ℕ) → slice_index parts.new.numbers v ≡
        (if nat_lt 0 (slice_index listing.now.turns v) then last - slice_index listing.now.turns v + 1 else slice_index parts.old.numbers v)) }
{
    let turns = listing.turns();
    for v in listing.list() {
        parts.put(*v, last - turns[*v as usize] + 1)?;
    }
    Ok(())
}

impl Splitter {
    /// Searches from `t` against the arcs, with nothing listed,
    /// in a race with the search from all outside.
    fn race_from_t(&mut self, region: Region<'_>, fronts: &mut Fronts) -> Race
        requires flow { IsRegionFlow region.graph.now region.flow.now }
        requires region { IsRegionOf region.graph.now region.flow.now region.t }
        requires ready { IsReady region.graph.now.vertices self.old }
        requires front { AreAtFront region.graph.now region.flow.now region.t fronts.old }
        ensures front { AreAtFront region.entry.graph.now region.entry.flow.now region.entry.t fronts.new }
        ensures raced { IsFirstRace region.entry.graph.now region.entry.flow.now region.entry.t self.new result }
    {
        self.hub.start(Hub::Outside);
        self.near.begin(region.t);
        let inner = self.inner.turns();
        let outer = self.outer.turns();
        let good = self.good.as_slice();
        let task = NearTask {
            region,
            side: Side::Inner,
            own: inner,
            good,
        };
        run_race(&mut self.near, &mut self.hub, task, fronts, outer)
    }

    /// Lists what was found by the search that ended, as the first part of its side. Answers false
    /// where there are no parts.
    fn take_first_part(&mut self, region: Region<'_>, race: Race) -> Result<bool, NoMemory>
        requires flow { IsRegionFlow region.graph.now region.flow.now }
        requires region { IsRegionOf region.graph.now region.flow.now region.t }
        requires raced { IsFirstRace region.graph.now region.flow.now region.t self.old race }
        ensures between { OnOk result (IsBetween region.entry.graph.now region.entry.flow.now region.entry.t self.new) }
        ensures near { OnOk result (length self.new.near.seen ≡ region.entry.graph.now.vertices + 1) }
        ensures some { IfOk result (λ some. IsTrue some → 1 ≤ self.new.inner.count + self.new.outer.count) }
        ensures none { IfOk result (λ some. IsFalse some → IsStopReached region.entry.graph.now region.entry.flow.now.labels region.entry.t (slice_index region.entry.flow.now.feed region.entry.t + 1)) }
    {
        match race {
            Race::Met => Ok(false),
            Race::Ended => {
                self.inner
                    .take_first(region.graph, region.labels(), self.near.found())?;
                Ok(true)
            }
            Race::HubEnded => {
                if self.hub.seen()[region.t as usize] {
                    return Ok(false);
                }
                self.outer
                    .take_first(region.graph, region.labels(), self.hub.found())?;
                Ok(true)
            }
        }
    }

    /// Lists the first part from one side, whichever is found first. Answers false where there are
    /// no parts: each set around `t` in its region weighs more than `t` is fed.
    fn list_first(&mut self, region: Region<'_>, fronts: &mut Fronts) -> Result<bool, NoMemory>
        requires flow { IsRegionFlow region.graph.now region.flow.now }
        requires region { IsRegionOf region.graph.now region.flow.now region.t }
        requires ready { IsReady region.graph.now.vertices self.old }
        requires front { AreAtFront region.graph.now region.flow.now region.t fronts.old }
        ensures front { AreAtFront region.entry.graph.now region.entry.flow.now region.entry.t fronts.new }
        ensures between { OnOk result (IsBetween region.entry.graph.now region.entry.flow.now region.entry.t self.new) }
        ensures near { OnOk result (IsNoneFound region.entry.graph.now.vertices self.new.near) }
        ensures some { IfOk result (λ some. IsTrue some → 1 ≤ self.new.inner.count + self.new.outer.count) }
        ensures none { IfOk result (λ some. IsFalse some → IsStopReached region.entry.graph.now region.entry.flow.now.labels region.entry.t (slice_index region.entry.flow.now.feed region.entry.t + 1)) }
    {
        let race = self.race_from_t(region, fronts);
        let some = self.take_first_part(region, race)?;
        self.near.clear();
        Ok(some)
    }

    /// Gives the parts of both lists their numbers: those from the outside first, then that
    /// between, then those from `t`.
    fn number_parts(
        &self,
        region: Region<'_>,
        between: Between,
        parts: &mut Parts,
    ) -> Result<(), NoMemory>
        requires flow { IsRegionFlow region.graph.now region.flow.now }
        requires between { IsBetween region.graph.now region.flow.now region.t self.now }
        requires light { AreLightParts region.graph.now region.flow.now.labels region.t (self.now.inner.count + self.now.outer.count + parts_between between)
            (slice_index region.flow.now.feed region.t)
            (two_sided (slice_index self.now.inner.turns) self.now.inner.count (outer_of region.flow.now region.t self.now) self.now.outer.count (parts_between between)) }
        requires all { between ≡ Between.Nothing → (v : ℕ) → 1 ≤ v → v ≤ region.graph.now.vertices →
            slice_index self.now.inner.turns v ≡ 0 → 1 ≤ outer_of region.flow.now region.t self.now v }
        requires numbers { length parts.old.numbers ≡ region.graph.now.vertices + 1 }
        ensures numbers { length parts.new.numbers ≡ region.entry.graph.now.vertices + 1 }
        ensures listed { OnOk result (AreListed region.entry.graph.now.vertices region.entry.flow.now.labels (slice_index region.entry.flow.now.labels region.entry.t) parts.new) }
        ensures light { OnOk result (AreLightParts region.entry.graph.now region.entry.flow.now.labels region.entry.t parts.new.count (slice_index region.entry.flow.now.feed region.entry.t)
            (part_in parts.new region.entry.flow.now.labels (slice_index region.entry.flow.now.labels region.entry.t))) }
    {
        let _n = region.graph.n();
        let outer = self.outer.count();
        let count = self.inner.count() + outer + parts_left(between);
        let unlisted = unlisted_number(between, outer);
        parts.begin();
        put_by_turn(parts, &self.outer)?;
        put_from_last(parts, &self.inner, count)?;
        parts.finish(count, unlisted)?;
        Ok(())
    }

    /// Forgets the region, in time of what was listed and what is beside it.
    fn clear(&mut self)
        requires inner { (n : ℕ) × IsKept n self.old.inner }
        requires outer { (n : ℕ) × IsKept n self.old.outer }
        requires within { (v : ℕ) → Contains self.old.touched.items v → v < length self.old.good.items }
        requires touched { (v : ℕ) → is_seen self.old.good.items v ≡ true → Contains self.old.touched.items v }
        requires near { (n : ℕ) × IsNoneFound n self.old.near }
        ensures ready { (n : ℕ) → IsKept n self.old.inner → IsKept n self.old.outer → IsNoneFound n self.old.near → length self.old.hub.search.seen ≡ n + 1 →
            length self.old.good.items ≡ n + 1 → self.old.memory ≡ n → IsReady n self.new }
    {
        self.forget();
        self.inner.clear();
        self.outer.clear();
    }

    /// Lists the parts of the region of `t`: the sets around `t` in its region that weigh
    /// just what `t` is fed are all parts from one on. Answers false where there is none; all
    /// such sets weigh more then.
    ///
    /// It takes time for the parts that it lists, all but one, and for searches that meet. Want of
    /// memory is its only refusal.
    pub fn split(
        &mut self,
        graph: &Graph,
        flow: &RegionFlow,
        fronts: &mut Fronts,
        t: u32,
        parts: &mut Parts,
    ) -> Result<bool, NoMemory>
        requires ready { IsReady graph.now.vertices self.old }
        requires connected { IsConnected graph.now }
        requires flow { IsRegionFlow graph.now flow.now }
        requires from_one { 1 ≤ t }
        requires open { IsOpenAt graph.now flow.now.labels t }
        requires root { slice_index flow.now.labels 1 ≡ 0 }
        requires minimum { (x : VertexSet) × IsMinimumCut graph.now x × (weight graph.now x ≡ slice_index flow.now.feed t) }
        requires fed { (v : ℕ) → v ≢ t → 1 ≤ slice_index flow.now.labels v → 1 ≤ slice_index flow.now.feed v → IsOpenAt graph.now flow.now.labels v }
        requires vertices { fronts.old.vertices ≡ graph.now.vertices }
        requires covered { IsCovered graph.now flow.now.labels fronts.old }
        requires numbers { length parts.old.numbers ≡ graph.now.vertices + 1 }
        ensures ready { OnOk result (IsReady graph.now.vertices self.new) }
        ensures vertices { fronts.new.vertices ≡ graph.now.vertices }
        ensures covered { IsCovered graph.now flow.now.labels fronts.new }
        ensures numbers { length parts.new.numbers ≡ graph.now.vertices + 1 }
        ensures none { IfOk result (λ some. some ≡ false → IsStopReached graph.now flow.now.labels t (slice_index flow.now.feed t + 1)) }
        ensures listed { IfOk result (λ some. some ≡ true → AreListed graph.now.vertices flow.now.labels (slice_index flow.now.labels t) parts.new) }
        ensures light { IfOk result (λ some. some ≡ true →
            AreLightParts graph.now flow.now.labels t parts.new.count (slice_index flow.now.feed t) (part_in parts.new flow.now.labels (slice_index flow.now.labels t))) }
    {
        let _n = graph.n();
        let region = Region { graph, flow, t };
        if !self.list_first(region, fronts)? {
            self.clear();
            return Ok(false);
        }
        let between = self.list_parts(region, fronts)?;
        self.number_parts(region, between, parts)?;
        self.clear();
        Ok(true)
    }
}
