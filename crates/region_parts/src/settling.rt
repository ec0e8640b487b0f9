//! Searches around the list of a side, each in a race with that of the hub.

ghost use Rattle.std.specs.Prelude.{◌≡◌, ◌≢◌, ◌<◌, ◌≤◌, ◌⊎◌, ℕ, true, IfOk, OnOk, IsTrue, IsFalse, length, slice_index};
ghost use Rattle.std.specs.List.{Contains};
ghost use Rattle.weighted_graph.specs.Searches.{is_seen};
ghost use Rattle.region_flow.specs.Regions.{IsRegionFlow};
ghost use Rattle.arc_search.specs.Found.{IsNoneFound, IsQuiet};
ghost use Rattle.region_fronts.specs.Fronts.{list_at};
ghost use Rattle.region_parts.specs.Hubs.{HasAll, HaveBegun, KeepsFrontsFor};
ghost use Rattle.region_parts.specs.Passed.{ArePassed, list_around, side_around};
ghost use Rattle.region_parts.specs.Settling.{IsBeside, HasMet};
ghost use Rattle.region_parts.specs.Sided.{stops};
ghost use Rattle.region_parts.specs.Split.{AreAtFront, GoesOnSettling, IsSearching, IsSettledIn};

use crate::passed::{Around, Passed};
use crate::race::{NearTask, Race, run_race};
use crate::region::Region;
use crate::side::Side;
use crate::splitter::Splitter;
use arc_search::mark_way;
use cut_definitions::NoMemory;
use region_fronts::Fronts;

/// Whether a race settled the vertex that it began from: the search of the hub did not end it.
fn has_settled(race: Race) -> bool
    ensures yes { IsTrue result → race ≢ Race.HubEnded }
    ensures no { IsFalse result → race ≡ Race.HubEnded }
{
    match race {
        Race::Met | Race::Ended => true,
        Race::HubEnded => false,
    }
}

impl Splitter {
    /// Whether a vertex is outside the region, listed, or known to be good.
    fn is_settled(&self, region: Region<'_>, v: u32) -> bool
        requires v { v < length region.flow.now.labels }
        requires t { region.t < length region.flow.now.labels }
        requires inner { v < length self.now.inner.turns }
        requires outer { v < length self.now.outer.turns }
        requires good { v < length self.now.good.items }
        ensures yes { IsTrue result → slice_index region.entry.flow.now.labels v ≡ slice_index region.entry.flow.now.labels region.entry.t →
            (1 ≤ slice_index self.now.inner.turns v) ⊎ ((1 ≤ slice_index self.now.outer.turns v) ⊎ (is_seen self.now.good.items v ≡ true)) }
        ensures inside { IsFalse result → slice_index region.entry.flow.now.labels v ≡ slice_index region.entry.flow.now.labels region.entry.t }
        ensures free { IsFalse result → (slice_index self.now.inner.turns v ≡ 0) × (slice_index self.now.outer.turns v ≡ 0) }
    {
        region.flow.label(v) != region.label() || self.is_listed(v) || self.good[v as usize]
    }

    /// Lets the search that was begun from beside the list of a side run against that of the hub.
    fn race(&mut self, region: Region<'_>, fronts: &mut Fronts, side: Side) -> Race
        requires flow { IsRegionFlow region.graph.now region.flow.now }
        requires searching { IsSearching side region.graph.now region.flow.now region.t self.old }
        requires beside { (x : ℕ) × IsBeside side region.graph.now region.flow.now region.t self.old x }
        requires vertices { fronts.old.vertices ≡ region.graph.now.vertices }
        ensures searching { IsSearching side region.entry.graph.now region.entry.flow.now region.entry.t self.new }
        ensures beside { (x : ℕ) → IsBeside side region.entry.graph.now region.entry.flow.now region.entry.t self.old x →
            IsBeside side region.entry.graph.now region.entry.flow.now region.entry.t self.new x }
        ensures goes_on { GoesOnSettling side self.old self.new }
        ensures fronts { KeepsFrontsFor region.entry.flow.now.labels self.old.hub.hub fronts.old fronts.new }
        ensures begun { HaveBegun region.entry.flow.now region.entry.t (list_at fronts.old.lists (slice_index region.entry.flow.now.labels region.entry.t)) self.old.hub →
            HaveBegun region.entry.flow.now region.entry.t (list_at fronts.new.lists (slice_index region.entry.flow.now.labels region.entry.t)) self.new.hub }
        ensures met { result ≡ Race.Met → HasMet side region.entry.flow.now region.entry.t self.new }
        ensures ended { result ≡ Race.Ended → (self.new.near.place ≡ self.new.near.count) × IsQuiet (stops side region.entry.flow.now region.entry.t) self.new.near }
        ensures hub_ended { result ≡ Race.HubEnded → HasAll (list_at fronts.new.lists (slice_index region.entry.flow.now.labels region.entry.t)) self.new.hub }
    {
        match side {
            Side::Inner => {
                let task = NearTask {
                    region,
                    side,
                    own: self.inner.turns(),
                    good: self.good.as_slice(),
                };
                run_race(
                    &mut self.near,
                    &mut self.hub,
                    task,
                    fronts,
                    self.outer.turns(),
                )
            }
            Side::Outer => {
                let task = NearTask {
                    region,
                    side,
                    own: self.outer.turns(),
                    good: self.good.as_slice(),
                };
                run_race(
                    &mut self.near,
                    &mut self.hub,
                    task,
                    fronts,
                    self.inner.turns(),
                )
            }
        }
    }

    /// Settles the vertex that the race began from, unless the search of the hub ended it: what is
    /// on the way to where the searches met is good, and what was found without that is listed.
    fn end_race(&mut self, region: Region<'_>, side: Side, race: Race) -> Result<(), NoMemory>
        requires flow { IsRegionFlow region.graph.now region.flow.now }
        requires searching { IsSearching side region.graph.now region.flow.now region.t self.old }
        requires beside { (x : ℕ) × IsBeside side region.graph.now region.flow.now region.t self.old x }
        requires met { race ≡ Race.Met → HasMet side region.flow.now region.t self.old }
        requires ended { race ≡ Race.Ended → (self.old.near.place ≡ self.old.near.count) × IsQuiet (stops side region.flow.now region.t) self.old.near }
        ensures searching { OnOk result (IsSearching side region.entry.graph.now region.entry.flow.now region.entry.t self.new) }
        ensures goes_on { OnOk result (GoesOnSettling side self.old self.new) }
        ensures near { OnOk result (self.new.near ≡ self.old.near) }
        ensures hub { OnOk result (self.new.hub ≡ self.old.hub) }
        ensures settled { OnOk result ((x : ℕ) → IsBeside side region.entry.graph.now region.entry.flow.now region.entry.t self.old x → race ≢ Race.HubEnded →
            IsSettledIn side region.entry.graph.now region.entry.flow.now region.entry.t self.new x) }
    {
        match race {
            Race::Met => mark_way(
                self.near.order(),
                self.near.parents(),
                self.near.count(),
                self.good.as_mut_slice(),
                &mut self.touched,
            ),
            Race::Ended => self.take_near(region, side),
            Race::HubEnded => Ok(()),
        }
    }

    /// Settles a vertex beside the list of a side: it is listed, or known to bring the hub, or to
    /// come with it. Answers false where the search of the hub ended first.
    pub(crate) fn settle(
        &mut self,
        region: Region<'_>,
        fronts: &mut Fronts,
        side: Side,
        v: u32,
    ) -> Result<bool, NoMemory>
        requires flow { IsRegionFlow region.graph.now region.flow.now }
        requires searching { IsSearching side region.graph.now region.flow.now region.t self.old }
        requires near { IsNoneFound region.graph.now.vertices self.old.near }
        requires front { AreAtFront region.graph.now region.flow.now region.t fronts.old }
        requires begun { HaveBegun region.flow.now region.t (list_at fronts.old.lists (slice_index region.flow.now.labels region.t)) self.old.hub }
        requires from_one { 1 ≤ v }
        requires to_n { v ≤ region.graph.now.vertices }
        ensures searching { OnOk result (IsSearching side region.entry.graph.now region.entry.flow.now region.entry.t self.new) }
        ensures near { OnOk result (IsNoneFound region.entry.graph.now.vertices self.new.near) }
        ensures goes_on { OnOk result (GoesOnSettling side self.old self.new) }
        ensures fronts { KeepsFrontsFor region.entry.flow.now.labels self.old.hub.hub fronts.old fronts.new }
        ensures begun { OnOk result (HaveBegun region.entry.flow.now region.entry.t (list_at fronts.new.lists (slice_index region.entry.flow.now.labels region.entry.t)) self.new.hub) }
        ensures settled { IfOk result (λ done. IsTrue done → IsSettledIn side region.entry.graph.now region.entry.flow.now region.entry.t self.new v) }
        ensures ended { IfOk result (λ done. IsFalse done → HasAll (list_at fronts.new.lists (slice_index region.entry.flow.now.labels region.entry.t)) self.new.hub) }
    {
        if self.is_settled(region, v) {
            return Ok(true);
        }
        self.near.begin(v);
        let race = self.race(region, fronts, side);
        self.end_race(region, side, race)?;
        self.near.clear();
        Ok(has_settled(race))
    }

    /// Settles all vertices of those around, behind what is passed of them. Answers false where
    /// the search of the hub ended first.
    pub(crate) fn settle_around(
        &mut self,
        region: Region<'_>,
        fronts: &mut Fronts,
        around: Around,
        passed: Passed,
    ) -> Result<bool, NoMemory>
        requires flow { IsRegionFlow region.graph.now region.flow.now }
        requires searching { IsSearching (side_around around) region.graph.now region.flow.now region.t self.old }
        requires near { IsNoneFound region.graph.now.vertices self.old.near }
        requires front { AreAtFront region.graph.now region.flow.now region.t fronts.old }
        requires begun { HaveBegun region.flow.now region.t (list_at fronts.old.lists (slice_index region.flow.now.labels region.t)) self.old.hub }
        requires unread { self.old.hub.place ≡ 0 }
        requires passed { ArePassed region.flow.now region.t fronts.old self.old passed }
        ensures searching { OnOk result (IsSearching (side_around around) region.entry.graph.now region.entry.flow.now region.entry.t self.new) }
        ensures near { OnOk result (IsNoneFound region.entry.graph.now.vertices self.new.near) }
        ensures goes_on { OnOk result (GoesOnSettling (side_around around) self.old self.new) }
        ensures front { AreAtFront region.entry.graph.now region.entry.flow.now region.entry.t fronts.new }
        ensures begun { OnOk result (HaveBegun region.entry.flow.now region.entry.t (list_at fronts.new.lists (slice_index region.entry.flow.now.labels region.entry.t)) self.new.hub) }
        ensures passed { OnOk result (ArePassed region.entry.flow.now region.entry.t fronts.new self.new passed) }
        ensures settled { IfOk result (λ done. IsTrue done → (v : ℕ) → Contains (list_around around region.entry.flow.now region.entry.t fronts.new self.new) v →
            IsSettledIn (side_around around) region.entry.graph.now region.entry.flow.now region.entry.t self.new v) }
        ensures ended { IfOk result (λ done. IsFalse done → HasAll (list_at fronts.new.lists (slice_index region.entry.flow.now.labels region.entry.t)) self.new.hub) }
    {
        let mut place = passed.place(around);
        'places: while let Some(v) = self.vertex_at(region, fronts, around, place) {
            if !self.settle(region, fronts, around.side(), v)? {
                return Ok(false);
            }
            place += 1;
        }
        Ok(true)
    }
}
