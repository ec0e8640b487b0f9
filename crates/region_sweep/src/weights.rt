//! What lies between the parts of a region, by the rows of the listed vertices.

ghost use Rattle.std.specs.Prelude.{◌≡◌, ◌+◌, ◌<◌, ◌≤◌, ◌^◌, ◌==◌, ◌&&◌, ℕ, if◌then◌else◌, length, slice_index};
ghost use Rattle.std.specs.List.{sum_by};
ghost use Rattle.cut_definitions.specs.Weight.{between};
ghost use Rattle.cut_definitions.specs.Chain.{one_part};
ghost use Rattle.weighted_graph.specs.Rows.{row_of};
ghost use Rattle.region_flow.specs.Regions.{IsRegionFlow};
ghost use Rattle.region_flow.specs.Parted.{later_parts};
ghost use Rattle.arc_search.specs.Searched.{is_listed};
ghost use Rattle.region_fronts.specs.Listed.{part_in, AreListed};
ghost use Rattle.node_tree.specs.Weighed.{arc_adds, listed_below, AreWeighed};

use crate::parted_region::PartedRegion;
use region_flow::RegionFlow;
use weighted_graph::Arc;

/// The number of the part of a vertex.
fn part_of(parted: PartedRegion<'_>, flow: &RegionFlow, v: u32) -> u32
    requires labels { v < length flow.now.labels }
    requires numbers { v < length parted.parts.now.numbers }
    ensures { result ≡ part_in parted.entry.parts.now flow.now.labels parted.entry.region v }
{
    let number = parted.parts.number(v);
    if number > 0 {
        number
    } else if flow.label(v) == parted.region {
        parted.parts.unlisted()
    } else {
        1
    }
}

/// Forgets the numbers below `count`.
fn clear(numbers: &mut [u64], count: u32)
    requires { count ≤ length numbers.old }
    ensures { (i : ℕ) → i < count → slice_index numbers.new i ≡ 0 }
{
    for i in 0..count {
        numbers[i as usize] = 0;
    }
}

/// Adds a weight between a part and a later one.
fn add(later: &mut [u64], next: &mut [u64], part: u32, after: u32, weight: u64)
    requires after { part < after }
    requires later { after < length later.old }
    requires next { after < length next.old }
    requires fits_later { slice_index later.old part + weight < 2 ^ 64 }
    requires fits_next { after ≡ part + 1 → slice_index next.old part + weight < 2 ^ 64 }
    ensures later { (i : ℕ) → slice_index later.new i ≡ slice_index later.old i + (if part == i then weight else 0) }
    ensures next { (i : ℕ) → slice_index next.new i ≡ slice_index next.old i + (if part == i && after == i + 1 then weight else 0) }
{
    later[part as usize] += weight;
    if after == part + 1 {
        next[part as usize] += weight;
    }
}

/// Adds the weight of an arc of the row of a listed vertex, unless the edge counts at its other
/// end or lies inside a part.
fn weigh_arc(
    parted: PartedRegion<'_>,
    flow: &RegionFlow,
    v: u32,
    arc: &Arc,
    later: &mut [u64],
    next: &mut [u64],
)
    requires labels { length flow.now.labels ≡ length parted.parts.now.numbers }
    requires to_count { (u : ℕ) → part_in parted.parts.now flow.now.labels parted.region u ≤ parted.parts.now.count }
    requires listed { 1 ≤ slice_index parted.parts.now.numbers v }
    requires end { arc.now.to < length flow.now.labels }
    requires later { parted.parts.now.count < length later.old }
    requires next { parted.parts.now.count < length next.old }
    requires fits_later { let part = part_in parted.parts.now flow.now.labels parted.region in (i : ℕ) → i < parted.parts.now.count →
        slice_index later.old i + arc_adds (is_listed parted.parts.now.numbers) (one_part part i) (later_parts part (i + 1)) v arc.now < 2 ^ 64 }
    requires fits_next { let part = part_in parted.parts.now flow.now.labels parted.region in (i : ℕ) → i < parted.parts.now.count →
        slice_index next.old i + arc_adds (is_listed parted.parts.now.numbers) (one_part part i) (one_part part (i + 1)) v arc.now < 2 ^ 64 }
    ensures later { let part = part_in parted.entry.parts.now flow.now.labels parted.entry.region in (i : ℕ) →
        slice_index later.new i ≡ slice_index later.old i + arc_adds (is_listed parted.entry.parts.now.numbers) (one_part part i) (later_parts part (i + 1)) v arc.now }
    ensures next { let part = part_in parted.entry.parts.now flow.now.labels parted.entry.region in (i : ℕ) →
        slice_index next.new i ≡ slice_index next.old i + arc_adds (is_listed parted.entry.parts.now.numbers) (one_part part i) (one_part part (i + 1)) v arc.now }
{
    let from = parted.parts.number(v);
    let to = part_of(parted, flow, arc.to);
    if to < from {
        add(later, next, to, from, arc.weight);
    } else if from < to && parted.parts.number(arc.to) == 0 {
        add(later, next, from, to, arc.weight);
    }
}

/// Adds the weights of the arcs of the row of a listed vertex, but of those that count at their
/// other end or lie inside a part.
fn weigh_row(
    parted: PartedRegion<'_>,
    flow: &RegionFlow,
    v: u32,
    later: &mut [u64],
    next: &mut [u64],
)
    requires labels { length flow.now.labels ≡ parted.graph.now.vertices + 1 }
    requires listed { AreListed parted.graph.now.vertices flow.now.labels parted.region parted.parts.now }
    requires here { 1 ≤ slice_index parted.parts.now.numbers v }
    requires later { parted.parts.now.count < length later.old }
    requires next { parted.parts.now.count < length next.old }
    requires fits_later { let part = part_in parted.parts.now flow.now.labels parted.region in (i : ℕ) → i < parted.parts.now.count →
        slice_index later.old i + sum_by (arc_adds (is_listed parted.parts.now.numbers) (one_part part i) (later_parts part (i + 1)) v) (row_of parted.graph.now v) < 2 ^ 64 }
    requires fits_next { let part = part_in parted.parts.now flow.now.labels parted.region in (i : ℕ) → i < parted.parts.now.count →
        slice_index next.old i + sum_by (arc_adds (is_listed parted.parts.now.numbers) (one_part part i) (one_part part (i + 1)) v) (row_of parted.graph.now v) < 2 ^ 64 }
    ensures later { let part = part_in parted.entry.parts.now flow.now.labels parted.entry.region in (i : ℕ) →
        slice_index later.new i ≡ slice_index later.old i + sum_by (arc_adds (is_listed parted.entry.parts.now.numbers) (one_part part i) (later_parts part (i + 1)) v) (row_of parted.entry.graph.now v) }
    ensures next { let part = part_in parted.entry.parts.now flow.now.labels parted.entry.region in (i : ℕ) →
        slice_index next.new i ≡ slice_index next.old i + sum_by (arc_adds (is_listed parted.entry.parts.now.numbers) (one_part part i) (one_part part (i + 1)) v) (row_of parted.entry.graph.now v) }
{
    let row = parted.graph.row(v);
    for arc in row {
        weigh_arc(parted, flow, v, arc, later, next);
    }
}

/// Adds what the rows of the vertices of a part make.
fn weigh_part(
    parted: PartedRegion<'_>,
    flow: &RegionFlow,
    number: u32,
    later: &mut [u64],
    next: &mut [u64],
)
    requires labels { length flow.now.labels ≡ parted.graph.now.vertices + 1 }
    requires listed { AreListed parted.graph.now.vertices flow.now.labels parted.region parted.parts.now }
    requires from_one { 1 ≤ number }
    requires to_count { number ≤ parted.parts.now.count }
    requires later { parted.parts.now.count < length later.old }
    requires next { parted.parts.now.count < length next.old }
    requires before { AreWeighed parted.graph.now (is_listed parted.parts.now.numbers) (listed_below parted.parts.now.numbers number) parted.parts.now.count (part_in parted.parts.now flow.now.labels parted.region) later.old next.old }
    ensures { AreWeighed parted.entry.graph.now (is_listed parted.entry.parts.now.numbers) (listed_below parted.entry.parts.now.numbers (number + 1)) parted.entry.parts.now.count (part_in parted.entry.parts.now flow.now.labels parted.entry.region) later.new next.new }
{
    let _n = parted.graph.n();
    let part = parted.parts.part(number);
    for v in part {
        weigh_row(parted, flow, *v, later, next);
    }
}

/// Writes for each part between the first and the last what lies between it and all later ones,
/// and between it and the next.
///
/// It takes one step for each part and each arc of a listed vertex, and no memory. It leaves the
/// numbers of the two lists from the last part's on as they are.
pub fn weigh_parts(parted: PartedRegion<'_>, flow: &RegionFlow, later: &mut [u64], next: &mut [u64])
    requires flow { IsRegionFlow parted.graph.now flow.now }
    requires region { 1 ≤ parted.region }
    requires listed { AreListed parted.graph.now.vertices flow.now.labels parted.region parted.parts.now }
    requires later { parted.parts.now.count < length later.old }
    requires next { parted.parts.now.count < length next.old }
    ensures later { let part = part_in parted.entry.parts.now flow.now.labels parted.entry.region in (i : ℕ) → 2 ≤ i → i < parted.entry.parts.now.count →
        slice_index later.new i ≡ between parted.entry.graph.now (one_part part i) (later_parts part (i + 1)) }
    ensures next { let part = part_in parted.entry.parts.now flow.now.labels parted.entry.region in (i : ℕ) → 2 ≤ i → i < parted.entry.parts.now.count →
        slice_index next.new i ≡ between parted.entry.graph.now (one_part part i) (one_part part (i + 1)) }
    ensures later_long { length later.new ≡ length later.old }
    ensures next_long { length next.new ≡ length next.old }
{
    let _n = parted.graph.n();
    let count = parted.parts.count();
    clear(later, count);
    clear(next, count);
    for i in 0..count {
        weigh_part(parted, flow, i + 1, later, next);
    }
}
