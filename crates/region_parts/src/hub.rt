//! The search from the hub of what is left between two lists.

ghost use Rattle.std.specs.Prelude.{◌≡◌, ◌+◌, ◌<◌, ◌≤◌, ◌^◌, ℕ, List, IfOk, IsTrue, take, length, slice_index, true};
ghost use Rattle.cut_definitions.specs.Graph.{IsGraph, Graph};
ghost use Rattle.region_flow.specs.Regions.{IsRegionFlow, RegionState};
ghost use Rattle.region_parts.specs.declared.side.Side.{Side};
ghost use Rattle.region_parts.specs.declared.side.Side.TheVariants.{Outer};
ghost use Rattle.region_parts.specs.declared.hub.Hub.TheVariants.{Outside, At};
ghost use Rattle.weighted_graph.specs.Searches.{is_seen};
ghost use Rattle.arc_search.specs.Found.{IsNoneFound};
ghost use Rattle.region_fronts.specs.Fronts.{list_at};
ghost use Rattle.region_parts.specs.Sided.{fed_in};
ghost use Rattle.region_parts.specs.Hubs.{HaveBegun, HasAll, HubGoesOn, IsHubSearch, KeepsFrontsFor};

use crate::region::{Region, STEP};
use crate::side::Side;
use arc_search::{NoHalts, Reached, Search};
use cut_definitions::NoMemory;
use region_fronts::Fronts;
use std::alloc::Global;

/// The vertex, or all outside the region, that the part between two lists has.
#[derive(Clone, Copy, Debug, PartialEq, Eq)]
pub enum Hub {
    Outside,
    At(u32),
}

/// The search from a hub. From the outside it starts from the vertices that are fed, which it
/// takes from the front of the region a few at a time.
#[derive(Drop)]
pub struct HubSearch {
    search: Search,
    hub: Hub,
    // the entries of the front before this place have been looked at
    place: usize,
}

impl HubSearch {
    /// A search that has found nothing, for vertices 1 to n. Want of memory is its only refusal.
    pub fn new(alloc: Global, n: u32) -> Result<HubSearch, NoMemory>
        ensures { IfOk result (λ s. IsNoneFound n s.search) }
    {
        let search = Search::new(alloc, n)?;
        Ok(HubSearch {
            search,
            hub: Hub::Outside,
            place: 0,
        })
    }

    /// Forgets what was found, and begins from a hub.
    pub fn start(&mut self, hub: Hub)
        requires within { (h : ℕ) → hub ≡ At h → h < length self.old.search.seen }
        ensures hub { self.new.hub ≡ hub }
        ensures place { self.new.place ≡ 0 }
        ensures begun { (h : ℕ) → hub ≡ At h → is_seen self.new.search.seen h ≡ true }
        ensures search { (side : Side) (g : Graph) (f : RegionState) (t : ℕ) (turns : List ℕ) → length self.old.search.seen ≡ g.vertices + 1 →
            ((h : ℕ) → hub ≡ At h → (1 ≤ h) × (h ≤ g.vertices) × (slice_index turns h ≡ 0)) → IsHubSearch side g f t turns self.new }
    {
        self.search.clear();
        self.place = 0;
        self.hub = hub;
        if let Hub::At(h) = hub {
            self.search.begin(h);
        }
    }

    /// Looks at a vertex of the region, the next entry of the front,
    /// and begins from it if it is fed.
    fn look_at(&mut self, region: Region<'_>, v: u32)
        requires within { v < length self.old.search.seen }
        requires feed { v < length region.flow.now.feed }
        requires inside { slice_index region.flow.now.labels v ≡ slice_index region.flow.now.labels region.t }
        requires hub { self.old.hub ≡ Outside }
        requires next { self.old.place + 1 < 2 ^ 64 }
        ensures goes_on { HubGoesOn self.old self.new }
        ensures place { self.new.place ≡ self.old.place + 1 }
        ensures long { length self.new.search.seen ≡ length self.old.search.seen }
        ensures begun { fed_in region.entry.flow.now region.entry.t v ≡ true → is_seen self.new.search.seen v ≡ true }
        ensures search { (g : Graph) (turns : List ℕ) → 1 ≤ v → v ≤ g.vertices → slice_index turns v ≡ 0 → IsHubSearch Outer g region.entry.flow.now region.entry.t turns self.old →
            IsHubSearch Outer g region.entry.flow.now region.entry.t turns self.new }
    {
        self.place += 1;
        if region.is_fed(v) {
            self.search.begin(v);
        }
    }

    /// Looks at a few more entries of the front, and begins from those that are fed. Answers
    /// whether all were looked at.
    fn begin_fed(&mut self, region: Region<'_>, fronts: &mut Fronts) -> bool
        requires flow { IsRegionFlow region.graph.now region.flow.now }
        requires to_n { region.t ≤ region.graph.now.vertices }
        requires outside { 1 ≤ slice_index region.flow.now.labels region.t }
        requires hub { self.old.hub ≡ Outside }
        requires seen { length self.old.search.seen ≡ region.graph.now.vertices + 1 }
        requires vertices { fronts.old.vertices ≡ region.graph.now.vertices }
        ensures goes_on { HubGoesOn self.old self.new }
        ensures fronts { KeepsFrontsFor region.entry.flow.now.labels Outside fronts.old fronts.new }
        ensures begun { HaveBegun region.entry.flow.now region.entry.t (list_at fronts.old.lists (slice_index region.entry.flow.now.labels region.entry.t)) self.old →
            HaveBegun region.entry.flow.now region.entry.t (list_at fronts.new.lists (slice_index region.entry.flow.now.labels region.entry.t)) self.new }
        ensures all { IsTrue result → length (list_at fronts.new.lists (slice_index region.entry.flow.now.labels region.entry.t)) ≤ self.new.place }
        ensures search { (turns : List ℕ) → ((v : ℕ) → slice_index turns v ≡ 0) → IsHubSearch Outer region.entry.graph.now region.entry.flow.now region.entry.t turns self.old →
            IsHubSearch Outer region.entry.graph.now region.entry.flow.now region.entry.t turns self.new }
    {
        for _ in 0..STEP {
            match fronts.read(region.labels(), region.label(), self.place) {
                None => return true,
                Some(v) => self.look_at(region, v),
            }
        }
        false
    }

    /// Looks at a few more entries of the front where the hub is outside.
    /// Answers whether none is left to be looked at.
    fn take_up(&mut self, region: Region<'_>, fronts: &mut Fronts) -> bool
        requires flow { IsRegionFlow region.graph.now region.flow.now }
        requires to_n { region.t ≤ region.graph.now.vertices }
        requires outside { 1 ≤ slice_index region.flow.now.labels region.t }
        requires seen { length self.old.search.seen ≡ region.graph.now.vertices + 1 }
        requires vertices { fronts.old.vertices ≡ region.graph.now.vertices }
        ensures goes_on { HubGoesOn self.old self.new }
        ensures fronts { KeepsFrontsFor region.entry.flow.now.labels self.old.hub fronts.old fronts.new }
        ensures begun { HaveBegun region.entry.flow.now region.entry.t (list_at fronts.old.lists (slice_index region.entry.flow.now.labels region.entry.t)) self.old →
            HaveBegun region.entry.flow.now region.entry.t (list_at fronts.new.lists (slice_index region.entry.flow.now.labels region.entry.t)) self.new }
        ensures all { IsTrue result → self.old.hub ≡ Outside → length (list_at fronts.new.lists (slice_index region.entry.flow.now.labels region.entry.t)) ≤ self.new.place }
        ensures search { (side : Side) (turns : List ℕ) → (self.old.hub ≡ Outside → (side ≡ Side.Outer) × ((v : ℕ) → slice_index turns v ≡ 0)) →
            IsHubSearch side region.entry.graph.now region.entry.flow.now region.entry.t turns self.old → IsHubSearch side region.entry.graph.now region.entry.flow.now region.entry.t turns self.new }
    {
        if self.hub == Hub::Outside {
            return self.begin_fed(region, fronts);
        }
        true
    }

    /// Goes on for a few steps. Answers whether all that can be found was.
    pub fn advance(
        &mut self,
        region: Region<'_>,
        fronts: &mut Fronts,
        side: Side,
        turns: &[u32],
    ) -> bool
        requires graph { IsGraph region.graph.now }
        requires flow { IsRegionFlow region.graph.now region.flow.now }
        requires to_n { region.t ≤ region.graph.now.vertices }
        requires outside { 1 ≤ slice_index region.flow.now.labels region.t }
        requires turns { length turns.now ≡ region.graph.now.vertices + 1 }
        requires vertices { fronts.old.vertices ≡ region.graph.now.vertices }
        requires from_outside { self.old.hub ≡ Outside → (side ≡ Side.Outer) × ((v : ℕ) → slice_index turns.now v ≡ 0) }
        requires search { IsHubSearch side region.graph.now region.flow.now region.t turns.now self.old }
        ensures search { IsHubSearch side region.entry.graph.now region.entry.flow.now region.entry.t turns.now self.new }
        ensures goes_on { HubGoesOn self.old self.new }
        ensures fronts { KeepsFrontsFor region.entry.flow.now.labels self.old.hub fronts.old fronts.new }
        ensures begun { HaveBegun region.entry.flow.now region.entry.t (list_at fronts.old.lists (slice_index region.entry.flow.now.labels region.entry.t)) self.old →
            HaveBegun region.entry.flow.now region.entry.t (list_at fronts.new.lists (slice_index region.entry.flow.now.labels region.entry.t)) self.new }
        ensures all { IsTrue result → HasAll (list_at fronts.new.lists (slice_index region.entry.flow.now.labels region.entry.t)) self.new }
    {
        if !self.take_up(region, fronts) {
            return false;
        }
        let arcs = region.arcs(side);
        self.search.advance(&arcs, &NoHalts, turns, STEP) == Reached::Ended
    }

    /// For each number from 0 to n whether it was found, lent without a copy.
    pub fn seen(&self) -> &[bool]
        ensures { result.now ≡ self.now.search.seen }
    {
        self.search.seen()
    }

    /// The vertices that were found, lent without a copy.
    pub fn found(&self) -> &[u32]
        ensures { result.now ≡ take self.now.search.count self.now.search.order }
    {
        self.search.found()
    }
}
