//! A race between a search from beside a list and that of the hub.

ghost use Rattle.std.specs.Prelude.{◌≡◌, ◌+◌, ◌-◌, ◌<◌, ◌≤◌, ◌⊎◌, ℕ, length, slice_index, true};
ghost use Rattle.cut_definitions.specs.Graph.{IsGraph};
ghost use Rattle.cut_definitions.specs.Weight.{VertexSet};
ghost use Rattle.weighted_graph.specs.Searches.{is_seen};
ghost use Rattle.region_flow.specs.Regions.{IsRegionFlow};
ghost use Rattle.region_parts.specs.declared.hub.Hub.TheVariants.{Outside};
ghost use Rattle.arc_search.specs.Found.{IsSearch, IsQuiet, GoesOn};
ghost use Rattle.region_fronts.specs.Fronts.{list_at};
ghost use Rattle.region_parts.specs.Hubs.{HaveBegun, HasAll, HubGoesOn, IsHubSearch, KeepsFrontsFor};
ghost use Rattle.region_parts.specs.Sided.{goes_from, other_side, stops};

use crate::hub::HubSearch;
use crate::near::NearHalts;
use crate::region::{Region, STEP};
use crate::side::Side;
use arc_search::{Reached, Search};
use region_fronts::Fronts;

/// How many arcs the search from beside a list looks at before that of the hub begins, which often
/// ends at once. It looks at more each time, up to `STEP`. A search that finds no more than a
/// short row is done in the first step, and does not pause.
const FIRST_STEP: usize = 8;

/// How a race between a search from beside a list and that of the hub ended.
#[derive(Clone, Copy, Debug, PartialEq, Eq)]
pub enum Race {
    /// The search from beside the list found a vertex that halts it.
    Met,
    /// The search from beside the list found all that it can find.
    Ended,
    /// The search of the hub found all that it can find.
    HubEnded,
}

/// What a search from beside the list of a side goes by:
/// the turns in that list, and which vertices are good.
#[derive(Clone, Copy)]
pub struct NearTask<'a> {
    pub region: Region<'a>,
    pub side: Side,
    pub own: &'a [u32],
    pub good: &'a [bool],
}

/// Lets a search of a side go on for about so many steps.
/// What is good, or was met by the search of the hub, halts it.
fn go_near(near: &mut Search, met: &[bool], task: NearTask<'_>, steps: usize) -> Reached
    requires graph { IsGraph task.region.graph.now }
    requires flow { IsRegionFlow task.region.graph.now task.region.flow.now }
    requires own { length task.own.now ≡ task.region.graph.now.vertices + 1 }
    requires good { length task.good.now ≡ task.region.graph.now.vertices + 1 }
    requires met { length met.now ≡ task.region.graph.now.vertices + 1 }
    requires near { (starts : VertexSet) × IsSearch task.region.graph.now.vertices (goes_from task.side task.region.graph.now task.region.flow.now) (stops task.side task.region.flow.now task.region.t) task.own.now starts near.old }
    ensures near { (starts : VertexSet) →
        IsSearch task.entry.region.graph.now.vertices (goes_from task.entry.side task.entry.region.graph.now task.entry.region.flow.now) (stops task.entry.side task.entry.region.flow.now task.entry.region.t) task.entry.own.now starts near.old →
        IsSearch task.entry.region.graph.now.vertices (goes_from task.entry.side task.entry.region.graph.now task.entry.region.flow.now) (stops task.entry.side task.entry.region.flow.now task.entry.region.t) task.entry.own.now starts near.new }
    ensures kept { GoesOn near.old near.new }
    ensures halted { result ≡ Reached.Halted → (1 ≤ near.new.count) × ((stops task.entry.side task.entry.region.flow.now task.entry.region.t (slice_index near.new.order (near.new.count - 1)) ≡ true)
        ⊎ ((is_seen task.entry.good.now (slice_index near.new.order (near.new.count - 1)) ≡ true) ⊎ (is_seen met.now (slice_index near.new.order (near.new.count - 1)) ≡ true))) }
    ensures ended { result ≡ Reached.Ended → (near.new.place ≡ near.new.count) × IsQuiet (stops task.entry.side task.entry.region.flow.now task.entry.region.t) near.new }
    ensures paused { result ≡ Reached.Paused → near.old.place < near.new.place }
{
    let halts = NearHalts {
        side: task.side,
        flow: task.region.flow,
        t: task.region.t,
        good: task.good,
        met,
    };
    let arcs = task.region.arcs(task.side);
    near.advance(&arcs, &halts, task.own, steps)
}

/// Lets a search of a side, from beside its list, and that of the hub, from the other side, go on
/// in turn, each a few steps at a time, until one of them ends.
///
/// What has a turn in a list is passed over by the search of its side. A vertex that is good, or
/// that the search of the hub has found, halts the first search. It takes time for the rows that
/// both follow and the entries of the front that are looked at, and no memory.
pub fn run_race(
    near: &mut Search,
    hub: &mut HubSearch,
    task: NearTask<'_>,
    fronts: &mut Fronts,
    other: &[u32],
) -> Race
    requires graph { IsGraph task.region.graph.now }
    requires flow { IsRegionFlow task.region.graph.now task.region.flow.now }
    requires to_n { task.region.t ≤ task.region.graph.now.vertices }
    requires outside { 1 ≤ slice_index task.region.flow.now.labels task.region.t }
    requires own { length task.own.now ≡ task.region.graph.now.vertices + 1 }
    requires other { length other.now ≡ task.region.graph.now.vertices + 1 }
    requires good { length task.good.now ≡ task.region.graph.now.vertices + 1 }
    requires vertices { fronts.old.vertices ≡ task.region.graph.now.vertices }
    requires from_outside { hub.old.hub ≡ Outside → (task.side ≡ Side.Inner) × ((v : ℕ) → slice_index other.now v ≡ 0) }
    requires near { (starts : VertexSet) × IsSearch task.region.graph.now.vertices (goes_from task.side task.region.graph.now task.region.flow.now) (stops task.side task.region.flow.now task.region.t) task.own.now starts near.old }
    requires hub { IsHubSearch (other_side task.side) task.region.graph.now task.region.flow.now task.region.t other.now hub.old }
    ensures near { (starts : VertexSet) →
        IsSearch task.entry.region.graph.now.vertices (goes_from task.entry.side task.entry.region.graph.now task.entry.region.flow.now) (stops task.entry.side task.entry.region.flow.now task.entry.region.t) task.entry.own.now starts near.old →
        IsSearch task.entry.region.graph.now.vertices (goes_from task.entry.side task.entry.region.graph.now task.entry.region.flow.now) (stops task.entry.side task.entry.region.flow.now task.entry.region.t) task.entry.own.now starts near.new }
    ensures kept { GoesOn near.old near.new }
    ensures hub { IsHubSearch (other_side task.entry.side) task.entry.region.graph.now task.entry.region.flow.now task.entry.region.t other.now hub.new }
    ensures hub_goes_on { HubGoesOn hub.old hub.new }
    ensures fronts { KeepsFrontsFor task.entry.region.flow.now.labels hub.old.hub fronts.old fronts.new }
    ensures begun { HaveBegun task.entry.region.flow.now task.entry.region.t (list_at fronts.old.lists (slice_index task.entry.region.flow.now.labels task.entry.region.t)) hub.old →
        HaveBegun task.entry.region.flow.now task.entry.region.t (list_at fronts.new.lists (slice_index task.entry.region.flow.now.labels task.entry.region.t)) hub.new }
    ensures met { result ≡ Race.Met → (1 ≤ near.new.count) × ((stops task.entry.side task.entry.region.flow.now task.entry.region.t (slice_index near.new.order (near.new.count - 1)) ≡ true)
        ⊎ ((is_seen task.entry.good.now (slice_index near.new.order (near.new.count - 1)) ≡ true) ⊎ (is_seen hub.new.search.seen (slice_index near.new.order (near.new.count - 1)) ≡ true))) }
    ensures ended { result ≡ Race.Ended → (near.new.place ≡ near.new.count) × IsQuiet (stops task.entry.side task.entry.region.flow.now task.entry.region.t) near.new }
    ensures hub_ended { result ≡ Race.HubEnded → HasAll (list_at fronts.new.lists (slice_index task.entry.region.flow.now.labels task.entry.region.t)) hub.new }
{
    let mut steps = FIRST_STEP;
    loop {
        match go_near(near, hub.seen(), task, steps) {
            Reached::Halted => return Race::Met,
            Reached::Ended => return Race::Ended,
            Reached::Paused => {}
        }
        if hub.advance(task.region, fronts, task.side.other(), other) {
            return Race::HubEnded;
        }
        steps = steps.saturating_mul(2).min(STEP);
    }
}
