//! What a split works with, and how it takes what searches found into the lists of the two sides.

ghost use Rattle.std.specs.Prelude.{◌≡◌, ◌||◌, ◌<◌, ◌≤◌, ℕ, [], true, false, nat_lt, IfOk, OnOk, length, take, slice_index};
ghost use Rattle.std.specs.List.{Contains};
ghost use Rattle.weighted_graph.specs.Searches.{is_seen};
ghost use Rattle.arc_search.specs.Found.{IsNoneFound};
ghost use Rattle.arc_search.specs.Listing.{IsNothingListed};
ghost use Rattle.region_flow.specs.Regions.{IsRegionFlow};
ghost use Rattle.region_parts.specs.Hubs.{IsHubSearch};
ghost use Rattle.region_parts.specs.Split.{half_of, IsBetween, IsEnded, IsReady, IsSameButHalf, MayTakeHub, StaysListed};

use crate::hub::HubSearch;
use crate::region::Region;
use crate::side::Side;
use arc_search::{Listing, PathMemory, Search, unmark};
use cut_definitions::NoMemory;
use std::alloc::Global;

/// The memory of splits, and what is known of the region that is split.
#[derive(Drop)]
pub struct Splitter {
    pub(crate) near: Search,
    pub(crate) hub: HubSearch,
    pub(crate) inner: Listing,
    pub(crate) outer: Listing,

    // the vertices that are known to bring the hub, or to come with it,
    // and a list that has all of these
    pub(crate) good: Vec<bool>,
    pub(crate) touched: Vec<u32>,
    pub(crate) memory: PathMemory,
}

/// The searches of a split, for vertices 1 to n.
fn searches(alloc: Global, n: u32) -> Result<(Search, HubSearch), NoMemory>
    ensures near { IfOk result (λ r. IsNoneFound n r.0) }
    ensures hub { IfOk result (λ r. IsNoneFound n r.1.search) }
{
    let near = Search::new(alloc, n)?;
    let hub = HubSearch::new(alloc, n)?;
    Ok((near, hub))
}

/// The lists of both sides, for vertices 1 to n.
fn listings(alloc: Global, n: u32) -> Result<(Listing, Listing), NoMemory>
    ensures inner { IfOk result (λ r. IsNothingListed n r.0) }
    ensures outer { IfOk result (λ r. IsNothingListed n r.1) }
{
    let inner = Listing::new(alloc, n)?;
    let outer = Listing::new(alloc, n)?;
    Ok((inner, outer))
}

impl Splitter {
    /// Memory for splits, for vertices 1 to n. Want of memory is the only refusal.
    pub fn new(alloc: Global, n: u32) -> Result<Splitter, NoMemory>
        ensures { IfOk result (IsReady n) }
    {
        let good = vec![in alloc; false; n as usize + 1]?;
        let memory = PathMemory::new(alloc, n)?;
        let (near, hub) = searches(alloc, n)?;
        let (inner, outer) = listings(alloc, n)?;
        Ok(Splitter {
            near,
            hub,
            inner,
            outer,
            good,
            touched: Vec::new(alloc),
            memory,
        })
    }

    /// Forgets which vertices are good, in time of how many there are.
    pub(crate) fn forget(&mut self)
        requires within { (v : ℕ) → Contains self.old.touched.items v → v < length self.old.good.items }
        requires touched { (v : ℕ) → is_seen self.old.good.items v ≡ true → Contains self.old.touched.items v }
        ensures none { (v : ℕ) → is_seen self.new.good.items v ≡ false }
        ensures long { length self.new.good.items ≡ length self.old.good.items }
        ensures near { self.new.near ≡ self.old.near }
        ensures hub { self.new.hub ≡ self.old.hub }
        ensures inner { self.new.inner ≡ self.old.inner }
        ensures outer { self.new.outer ≡ self.old.outer }
        ensures memory { self.new.memory ≡ self.old.memory }
        ensures touched { self.new.touched.items ≡ [] }
    {
        unmark(self.good.as_mut_slice(), self.touched.as_slice());
        self.touched.clear();
    }

    /// How many vertices the last search of a hub found.
    pub fn reach(&self) -> usize
        ensures { result ≡ length (take self.now.hub.search.count self.now.hub.search.order) }
    {
        self.hub.found().len()
    }

    /// The list of a side.
    pub(crate) fn listing(&self, side: Side) -> &Listing
        ensures { result.now ≡ half_of side self.now }
    {
        match side {
            Side::Inner => &self.inner,
            Side::Outer => &self.outer,
        }
    }

    /// Whether a vertex is listed, from either side.
    pub(crate) fn is_listed(&self, v: u32) -> bool
        requires inner { v < length self.now.inner.turns }
        requires outer { v < length self.now.outer.turns }
        ensures { result ≡ (nat_lt 0 (slice_index self.now.inner.turns v) || nat_lt 0 (slice_index self.now.outer.turns v)) }
    {
        self.inner.turns()[v as usize] > 0 || self.outer.turns()[v as usize] > 0
    }

    /// Takes what the search from beside the list of a side found into that list, where it ended.
    pub(crate) fn take_near(&mut self, region: Region<'_>, side: Side) -> Result<(), NoMemory>
        requires flow { IsRegionFlow region.graph.now region.flow.now }
        requires between { IsBetween region.graph.now region.flow.now region.t self.old }
        requires some { 1 ≤ (half_of side self.old).count }
        requires ended { (x : ℕ) × IsEnded side region.graph.now region.flow.now region.t self.old x }
        ensures between { OnOk result (IsBetween region.entry.graph.now region.entry.flow.now region.entry.t self.new) }
        ensures stays { OnOk result (StaysListed self.old self.new) }
        ensures same { OnOk result (IsSameButHalf side self.old self.new) }
        ensures taken { OnOk result ((v : ℕ) → is_seen self.old.near.seen v ≡ true → 1 ≤ slice_index (half_of side self.new).turns v) }
    {
        let arcs = region.arcs(side);
        let found = self.near.found();
        match side {
            Side::Inner => self.inner.take(
                region.graph,
                region.labels(),
                &arcs,
                &mut self.memory,
                found,
            ),
            Side::Outer => self.outer.take(
                region.graph,
                region.labels(),
                &arcs,
                &mut self.memory,
                found,
            ),
        }
    }

    /// Takes what the search of the hub found into the list of a side, where it ended.
    pub(crate) fn take_hub(&mut self, region: Region<'_>, side: Side) -> Result<(), NoMemory>
        requires flow { IsRegionFlow region.graph.now region.flow.now }
        requires between { IsBetween region.graph.now region.flow.now region.t self.old }
        requires search { IsHubSearch side region.graph.now region.flow.now region.t (half_of side self.old).turns self.old.hub }
        requires all { self.old.hub.search.place ≡ self.old.hub.search.count }
        requires may { MayTakeHub side region.graph.now region.flow.now region.t self.old }
        ensures between { OnOk result (IsBetween region.entry.graph.now region.entry.flow.now region.entry.t self.new) }
        ensures stays { OnOk result (StaysListed self.old self.new) }
        ensures same { OnOk result (IsSameButHalf side self.old self.new) }
        ensures some { OnOk result (1 ≤ (half_of side self.new).count) }
        ensures taken { OnOk result ((v : ℕ) → is_seen self.old.hub.search.seen v ≡ true → 1 ≤ slice_index (half_of side self.new).turns v) }
    {
        let arcs = region.arcs(side);
        let found = self.hub.found();
        match side {
            Side::Inner if self.inner.count() == 0 => {
                self.inner.take_first(region.graph, region.labels(), found)
            }
            Side::Inner => self.inner.take(
                region.graph,
                region.labels(),
                &arcs,
                &mut self.memory,
                found,
            ),
            Side::Outer if self.outer.count() == 0 => {
                self.outer.take_first(region.graph, region.labels(), found)
            }
            Side::Outer => self.outer.take(
                region.graph,
                region.labels(),
                &arcs,
                &mut self.memory,
                found,
            ),
        }
    }
}
