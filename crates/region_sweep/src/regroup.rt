//! New regions for the parts of a region that is split.

ghost use Rattle.std.specs.Prelude.{◌≡◌, ◌≢◌, ◌==◌, ◌+◌, ◌<◌, ◌≤◌, if◌then◌else◌, ℕ, length, slice_index};
ghost use Rattle.region_flow.specs.Regions.{IsRegionFlow};
ghost use Rattle.region_parts.specs.Covered.{IsRefined};
ghost use Rattle.node_tree.specs.Homes.{AreNumbered, home_of};
ghost use Rattle.node_tree.specs.Hung.{IsRegrouped};
ghost use Rattle.region_fronts.specs.Listed.{AreListed, IsPartList, part_in, part_list};
ghost use Rattle.region_sweep.specs.Regrouping.{AreNumberedAround, ArePlaced, IsPlaced, KeepsFeed, KeepsLengths};
ghost use Rattle.node_tree.specs.Sweeping.{IsFiner};

use crate::parted_region::PartedRegion;
use node_tree::Homes;
use region_flow::RegionFlow;
use weighted_graph::Graph;

/// The part that all vertices outside the region are in too.
const FIRST_PART: u32 = 1;

/// Cuts the vertices that are listed of one part off from the region, puts them into a node, and
/// answers the next fresh label.
///
/// They get the fresh label, but the only vertex of any part but the first enters.
fn place_part(
    parted: PartedRegion<'_>,
    flow: &mut RegionFlow,
    homes: &mut Homes,
    i: u32,
    node: usize,
    fresh: u32,
) -> u32
    requires flow { IsRegionFlow parted.graph.now flow.old }
    requires from_one { 1 ≤ i }
    requires to_count { i ≤ parted.parts.now.count }
    requires list { IsPartList parted.parts.now.numbers i (part_list parted.parts.now i) }
    requires numbers { length parted.parts.now.numbers ≡ parted.graph.now.vertices + 1 }
    requires outside { 1 ≤ parted.region }
    requires inside { (v : ℕ) → slice_index parted.parts.now.numbers v ≡ i → slice_index flow.old.labels v ≡ parted.region }
    requires region { parted.region < fresh }
    requires fresh { (v : ℕ) → slice_index flow.old.labels v < fresh }
    requires fits { fresh ≤ parted.graph.now.vertices + 1 }
    requires entered { length homes.old.entered ≡ parted.graph.now.vertices + 1 }
    requires regions { length homes.old.regions ≡ parted.graph.now.vertices + 2 }
    ensures flow { IsRegionFlow parted.entry.graph.now flow.new }
    ensures placed { IsPlaced parted.entry.parts.now.numbers flow.old.labels flow.new.labels homes.old homes.new i node fresh result }
    ensures refined { IsRefined flow.old.labels flow.new.labels }
    ensures fed { KeepsFeed parted.entry.graph.now flow.old flow.new }
{
    let _n = parted.graph.n();
    let list = parted.parts.part(i);
    if list.is_empty() {
        return fresh;
    }
    if list.len() == 1 && i != FIRST_PART {
        flow.cut_off(parted.graph, list, parted.region, 0);
        homes.enter(list[0], node);
        return fresh;
    }
    flow.cut_off(parted.graph, list, parted.region, fresh);
    homes.put_region(fresh, node);
    fresh + 1
}

/// Places each part that is listed, with the node at the place of its number,
/// and answers the next fresh label.
fn place_parts(
    parted: PartedRegion<'_>,
    flow: &mut RegionFlow,
    homes: &mut Homes,
    nodes: &[usize],
    t: u32,
    fresh: u32,
) -> u32
    requires flow { IsRegionFlow parted.graph.now flow.old }
    requires to_n { t ≤ parted.graph.now.vertices }
    requires outside { 1 ≤ parted.region }
    requires label { slice_index flow.old.labels t ≡ parted.region }
    requires listed { AreListed parted.graph.now.vertices flow.old.labels parted.region parted.parts.now }
    requires last { part_in parted.parts.now flow.old.labels parted.region t ≡ parted.parts.now.count }
    requires numbered { AreNumbered parted.graph.now.vertices flow.old.labels fresh }
    requires entered { length homes.old.entered ≡ parted.graph.now.vertices + 1 }
    requires regions { length homes.old.regions ≡ parted.graph.now.vertices + 2 }
    requires nodes { parted.parts.now.count < length nodes.now }
    ensures flow { IsRegionFlow parted.entry.graph.now flow.new }
    ensures placed { ArePlaced parted.entry.parts.now.numbers flow.old.labels flow.new.labels homes.old homes.new nodes.now parted.entry.parts.now.count fresh result }
    ensures numbered { AreNumberedAround parted.entry.graph.now.vertices flow.new.labels parted.entry.region t result }
    ensures refined { IsRefined flow.old.labels flow.new.labels }
    ensures fed { KeepsFeed parted.entry.graph.now flow.old flow.new }
{
    let mut fresh = fresh;
    for before in 0..parted.parts.count() {
        // the list of the part that is not listed is empty
        let i = before + 1;
        let node = nodes[i as usize];
        fresh = place_part(parted, flow, homes, i, node, fresh);
    }
    fresh
}

/// Lets a vertex enter that has not.
fn enter_last(graph: &Graph, flow: &mut RegionFlow, t: u32)
    requires flow { IsRegionFlow graph.now flow.old }
    requires to_n { t ≤ graph.now.vertices }
    ensures flow { IsRegionFlow graph.now flow.new }
    ensures entered { slice_index flow.new.labels t ≡ 0 }
    ensures kept { (v : ℕ) → v ≢ t → slice_index flow.new.labels v ≡ slice_index flow.old.labels v }
    ensures refined { IsRefined flow.old.labels flow.new.labels }
    ensures fed { KeepsFeed graph.now flow.old flow.new }
{
    if flow.label(t) != 0 {
        flow.enter(graph, t);
    }
}

/// Splits the region of `t`, which is parted, into its parts, lets `t` enter,
/// and answers the next fresh label.
///
/// A part that is listed gets a label of its own, but the only vertex of a part between the first
/// and the last enters; the part that is not listed keeps the label of the region. The vertices of
/// part i get the node at place i. It takes one step for each part and for each arc of `t` and of
/// what is listed, and no memory. It refuses nothing: labels do not run out.
pub fn regroup(
    parted: PartedRegion<'_>,
    flow: &mut RegionFlow,
    homes: &mut Homes,
    nodes: &[usize],
    t: u32,
    fresh: u32,
) -> u32
    requires flow { IsRegionFlow parted.graph.now flow.old }
    requires from_one { 1 ≤ t }
    requires to_n { t ≤ parted.graph.now.vertices }
    requires outside { 1 ≤ parted.region }
    requires label { slice_index flow.old.labels t ≡ parted.region }
    requires root { slice_index flow.old.labels 1 ≡ 0 }
    requires listed { AreListed parted.graph.now.vertices flow.old.labels parted.region parted.parts.now }
    requires last { part_in parted.parts.now flow.old.labels parted.region t ≡ parted.parts.now.count }
    requires numbered { AreNumbered parted.graph.now.vertices flow.old.labels fresh }
    requires homes_entered { length homes.old.entered ≡ parted.graph.now.vertices + 1 }
    requires homes_regions { length homes.old.regions ≡ parted.graph.now.vertices + 2 }
    requires nodes { parted.parts.now.count < length nodes.now }
    ensures flow { IsRegionFlow parted.entry.graph.now flow.new }
    ensures regrouped { IsRegrouped parted.entry.graph.now.vertices flow.old.labels flow.new.labels parted.entry.region t parted.entry.parts.now.count (part_in parted.entry.parts.now flow.old.labels parted.entry.region) }
    ensures finer { IsFiner parted.entry.graph.now.vertices flow.old.labels flow.new.labels (part_in parted.entry.parts.now flow.old.labels parted.entry.region) }
    ensures entered { slice_index flow.new.labels t ≡ 0 }
    ensures stay { (v : ℕ) → slice_index flow.old.labels v ≡ 0 → slice_index flow.new.labels v ≡ 0 }
    ensures root { slice_index flow.new.labels 1 ≡ 0 }
    ensures numbered { AreNumbered parted.entry.graph.now.vertices flow.new.labels result }
    ensures homes { (v : ℕ) → home_of homes.new flow.new.labels v ≡
        (if slice_index flow.old.labels v == parted.entry.region then slice_index nodes.now (part_in parted.entry.parts.now flow.old.labels parted.entry.region v) else home_of homes.old flow.old.labels v) }
    ensures lengths { KeepsLengths homes.old homes.new }
    ensures unlisted { (v : ℕ) → slice_index parted.entry.parts.now.numbers v ≡ 0 → v ≢ t → slice_index flow.new.labels v ≡ slice_index flow.old.labels v }
    ensures refined { IsRefined flow.old.labels flow.new.labels }
    ensures fed { KeepsFeed parted.entry.graph.now flow.old flow.new }
{
    let next = place_parts(parted, flow, homes, nodes, t, fresh);
    // where all parts are listed no vertex keeps the label, and its node does not matter
    homes.put_region(parted.region, nodes[parted.parts.unlisted() as usize]);
    homes.enter(t, nodes[parted.parts.count() as usize]);
    enter_last(parted.graph, flow, t);
    next
}
