//! What is left between the lists of the two sides.

ghost use Rattle.std.specs.Prelude.{◌≡◌, ◌+◌, ◌<◌, ◌≤◌, ◌⊎◌, ℕ, None, IfOk, IfSome, OnOk, IsTrue, IsFalse, length, slice_get, slice_index};
ghost use Rattle.std.specs.List.{Contains};
ghost use Rattle.region_flow.specs.Regions.{IsRegionFlow};
ghost use Rattle.region_parts.specs.declared.hub.Hub.TheVariants.{At};
ghost use Rattle.arc_search.specs.Found.{IsNoneFound};
ghost use Rattle.region_fronts.specs.Fronts.{list_at};
ghost use Rattle.region_parts.specs.Hubs.{HasAll, HaveBegun};
ghost use Rattle.region_flow.specs.Parted.{AreLightParts};
ghost use Rattle.region_parts.specs.Passed.{ArePassed, IsLeft, IsPassed};
ghost use Rattle.region_parts.specs.Regional.{IsNoneBetween, two_sided};
ghost use Rattle.region_parts.specs.Between.{IsSideSettled, parts_between};
ghost use Rattle.region_parts.specs.Sided.{other_side};
ghost use Rattle.region_parts.specs.Split.{half_of, AreAtFront, GoesOnSettling, IsBetween, IsFurther, IsHub, IsSearching, StaysListed, inner_set, outer_of, outer_set};

use crate::hub::Hub;
use crate::passed::{Around, Passed};
use crate::region::Region;
use crate::side::Side;
use crate::splitter::Splitter;
use cut_definitions::NoMemory;
use region_fronts::Fronts;

/// What is left between the lists of the two sides.
#[derive(Clone, Copy, Debug, PartialEq, Eq)]
pub enum Between {
    /// Nothing is left.
    Nothing,
    /// One part, which is not listed.
    One,
}

impl Splitter {
    /// The hub of what is left between the lists; none where no vertex that is left is beside the
    /// list from `t`. All that is beside it before the first such vertex was passed.
    fn choose_hub(&self, region: Region<'_>, passed: Passed) -> Option<Hub>
        requires between { IsBetween region.graph.now region.flow.now region.t self.now }
        requires some { 1 ≤ self.now.inner.count + self.now.outer.count }
        requires passed { IsPassed region.flow.now region.t self.now self.now.inner.border passed.inner }
        requires left { IfSome (slice_get self.now.inner.border passed.inner) (IsLeft region.flow.now region.t self.now) }
        ensures hub { IfSome result (IsHub region.entry.graph.now region.entry.flow.now region.entry.t self.now) }
        ensures none { result ≡ None → (1 ≤ self.now.inner.count) × (1 ≤ self.now.outer.count)
            × ((v : ℕ) → Contains self.now.inner.border v → slice_index region.entry.flow.now.labels v ≡ slice_index region.entry.flow.now.labels region.entry.t →
            (1 ≤ slice_index self.now.inner.turns v) ⊎ (1 ≤ slice_index self.now.outer.turns v)) }
    {
        if self.outer.count() == 0 {
            return Some(Hub::Outside);
        }
        if self.inner.count() == 0 {
            return Some(Hub::At(region.t));
        }
        let v = self.beside(Side::Inner, passed.inner)?;
        Some(Hub::At(v))
    }

    /// Settles all around the list of a side. Answers false where the
    /// search of the hub ended first.
    fn settle_side(
        &mut self,
        region: Region<'_>,
        fronts: &mut Fronts,
        side: Side,
        passed: Passed,
    ) -> Result<bool, NoMemory>
        requires flow { IsRegionFlow region.graph.now region.flow.now }
        requires searching { IsSearching side region.graph.now region.flow.now region.t self.old }
        requires near { IsNoneFound region.graph.now.vertices self.old.near }
        requires front { AreAtFront region.graph.now region.flow.now region.t fronts.old }
        requires begun { HaveBegun region.flow.now region.t (list_at fronts.old.lists (slice_index region.flow.now.labels region.t)) self.old.hub }
        requires unread { self.old.hub.place ≡ 0 }
        requires passed { ArePassed region.flow.now region.t fronts.old self.old passed }
        ensures searching { OnOk result (IsSearching side region.entry.graph.now region.entry.flow.now region.entry.t self.new) }
        ensures near { OnOk result (IsNoneFound region.entry.graph.now.vertices self.new.near) }
        ensures goes_on { OnOk result (GoesOnSettling side self.old self.new) }
        ensures front { AreAtFront region.entry.graph.now region.entry.flow.now region.entry.t fronts.new }
        ensures begun { OnOk result (HaveBegun region.entry.flow.now region.entry.t (list_at fronts.new.lists (slice_index region.entry.flow.now.labels region.entry.t)) self.new.hub) }
        ensures passed { OnOk result (ArePassed region.entry.flow.now region.entry.t fronts.new self.new passed) }
        ensures settled { IfOk result (λ done. IsTrue done → IsSideSettled side region.entry.graph.now region.entry.flow.now region.entry.t self.new.hub.hub self.new) }
        ensures ended { IfOk result (λ done. IsFalse done → HasAll (list_at fronts.new.lists (slice_index region.entry.flow.now.labels region.entry.t)) self.new.hub) }
    {
        match side {
            Side::Inner => self.settle_around(region, fronts, Around::Border(side), passed),
            Side::Outer => {
                if !self.settle_around(region, fronts, Around::Front, passed)? {
                    return Ok(false);
                }
                self.settle_around(region, fronts, Around::Border(side), passed)
            }
        }
    }

    /// Searches around the list of a side, where it has a part, from a hub.
    /// Answers false where more is listed instead.
    fn search_side(
        &mut self,
        region: Region<'_>,
        fronts: &mut Fronts,
        side: Side,
        hub: Hub,
        passed: Passed,
    ) -> Result<bool, NoMemory>
        requires flow { IsRegionFlow region.graph.now region.flow.now }
        requires between { IsBetween region.graph.now region.flow.now region.t self.old }
        requires near { IsNoneFound region.graph.now.vertices self.old.near }
        requires front { AreAtFront region.graph.now region.flow.now region.t fronts.old }
        requires hub { IsHub region.graph.now region.flow.now region.t self.old hub }
        requires passed { ArePassed region.flow.now region.t fronts.old self.old passed }
        ensures between { OnOk result (IsBetween region.entry.graph.now region.entry.flow.now region.entry.t self.new) }
        ensures near { OnOk result (IsNoneFound region.entry.graph.now.vertices self.new.near) }
        ensures front { AreAtFront region.entry.graph.now region.entry.flow.now region.entry.t fronts.new }
        ensures passed { OnOk result (ArePassed region.entry.flow.now region.entry.t fronts.new self.new passed) }
        ensures stays { OnOk result (StaysListed self.old self.new) }
        ensures some { OnOk result ((1 ≤ self.old.inner.count → 1 ≤ self.new.inner.count) × (1 ≤ self.old.outer.count → 1 ≤ self.new.outer.count)) }
        ensures hub { IfOk result (λ done. IsTrue done → IsHub region.entry.graph.now region.entry.flow.now region.entry.t self.new hub) }
        ensures other { IfOk result (λ done. IsTrue done → half_of (other_side side) self.new ≡ half_of (other_side side) self.old) }
        ensures settled { IfOk result (λ done. IsTrue done → 1 ≤ (half_of side self.new).count → IsSideSettled side region.entry.graph.now region.entry.flow.now region.entry.t hub self.new) }
        ensures further { IfOk result (λ done. IsFalse done → IsFurther self.old self.new) }
    {
        if self.listing(side).count() == 0 {
            return Ok(true);
        }
        self.forget();
        self.hub.start(hub);
        let done = self.settle_side(region, fronts, side, passed)?;
        if self.is_hub_listed(hub) {
            return Ok(false);
        }
        if done {
            return Ok(true);
        }
        self.take_hub(region, side.other())?;
        Ok(false)
    }

    /// Searches around the lists of both sides, from a hub. Answers false where a search of the
    /// hub ended, and what it found is listed, or where another has listed the hub.
    fn search_around(
        &mut self,
        region: Region<'_>,
        fronts: &mut Fronts,
        hub: Hub,
        passed: Passed,
    ) -> Result<bool, NoMemory>
        requires flow { IsRegionFlow region.graph.now region.flow.now }
        requires between { IsBetween region.graph.now region.flow.now region.t self.old }
        requires near { IsNoneFound region.graph.now.vertices self.old.near }
        requires front { AreAtFront region.graph.now region.flow.now region.t fronts.old }
        requires hub { IsHub region.graph.now region.flow.now region.t self.old hub }
        requires passed { ArePassed region.flow.now region.t fronts.old self.old passed }
        ensures between { OnOk result (IsBetween region.entry.graph.now region.entry.flow.now region.entry.t self.new) }
        ensures near { OnOk result (IsNoneFound region.entry.graph.now.vertices self.new.near) }
        ensures front { AreAtFront region.entry.graph.now region.entry.flow.now region.entry.t fronts.new }
        ensures passed { OnOk result (ArePassed region.entry.flow.now region.entry.t fronts.new self.new passed) }
        ensures stays { OnOk result (StaysListed self.old self.new) }
        ensures counts { OnOk result ((self.old.inner.count ≤ self.new.inner.count) × (self.old.outer.count ≤ self.new.outer.count)) }
        ensures some { OnOk result ((1 ≤ self.old.inner.count → 1 ≤ self.new.inner.count) × (1 ≤ self.old.outer.count → 1 ≤ self.new.outer.count)) }
        ensures hub { IfOk result (λ done. IsTrue done → IsHub region.entry.graph.now region.entry.flow.now region.entry.t self.new hub) }
        ensures none { IfOk result (λ done. IsTrue done → IsNoneBetween region.entry.graph.now region.entry.flow.now.labels region.entry.t
            (slice_index region.entry.flow.now.feed region.entry.t) (inner_set self.new) (outer_set region.entry.flow.now region.entry.t self.new)) }
        ensures further { IfOk result (λ done. IsFalse done → IsFurther self.old self.new) }
    {
        if !self.search_side(region, fronts, Side::Inner, hub, passed)? {
            return Ok(false);
        }
        self.search_side(region, fronts, Side::Outer, hub, passed)
    }

    /// Lists parts from both sides, until nothing is left between the lists but at most one part.
    pub(crate) fn list_parts(
        &mut self,
        region: Region<'_>,
        fronts: &mut Fronts,
    ) -> Result<Between, NoMemory>
        requires flow { IsRegionFlow region.graph.now region.flow.now }
        requires between { IsBetween region.graph.now region.flow.now region.t self.old }
        requires near { IsNoneFound region.graph.now.vertices self.old.near }
        requires front { AreAtFront region.graph.now region.flow.now region.t fronts.old }
        requires some { 1 ≤ self.old.inner.count + self.old.outer.count }
        ensures between { OnOk result (IsBetween region.entry.graph.now region.entry.flow.now region.entry.t self.new) }
        ensures near { OnOk result (IsNoneFound region.entry.graph.now.vertices self.new.near) }
        ensures front { AreAtFront region.entry.graph.now region.entry.flow.now region.entry.t fronts.new }
        ensures light { IfOk result (λ b. AreLightParts region.entry.graph.now region.entry.flow.now.labels region.entry.t (self.new.inner.count + self.new.outer.count + parts_between b)
            (slice_index region.entry.flow.now.feed region.entry.t)
            (two_sided (slice_index self.new.inner.turns) self.new.inner.count (outer_of region.entry.flow.now region.entry.t self.new) self.new.outer.count (parts_between b))) }
        ensures all { IfOk result (λ b. b ≡ Between.Nothing → (v : ℕ) → 1 ≤ v → v ≤ region.entry.graph.now.vertices →
            slice_index self.new.inner.turns v ≡ 0 → 1 ≤ outer_of region.entry.flow.now region.entry.t self.new v) }
    {
        let mut passed = Passed {
            inner: 0,
            outer: 0,
            front: 0,
        };
        'hubs: loop {
            passed = self.pass(region, fronts, passed);
            let Some(hub) = self.choose_hub(region, passed) else {
                return Ok(Between::Nothing);
            };
            if self.search_around(region, fronts, hub, passed)? {
                return Ok(Between::One);
            }
        }
    }

    /// Whether a hub is a vertex that is listed.
    fn is_hub_listed(&self, hub: Hub) -> bool
        requires within { (h : ℕ) → hub ≡ At h → (h < length self.now.inner.turns) × (h < length self.now.outer.turns) }
        ensures listed { IsTrue result → (h : ℕ) × (hub ≡ At h) × ((1 ≤ slice_index self.now.inner.turns h) ⊎ (1 ≤ slice_index self.now.outer.turns h)) }
        ensures free { IsFalse result → (h : ℕ) → hub ≡ At h → (slice_index self.now.inner.turns h ≡ 0) × (slice_index self.now.outer.turns h ≡ 0) }
    {
        match hub {
            Hub::Outside => false,
            Hub::At(v) => self.is_listed(v),
        }
    }
}
