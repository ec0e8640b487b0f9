//! Searches against the arcs, from a vertex that is to be fed, and pulls what is found.

ghost use Rattle.std.specs.Prelude.{◌≡◌, ◌≢◌, ◌↔◌, ◌+◌, ◌<◌, ◌≤◌, ◌⊎◌, ℕ, IsTrue, IsFalse, length, slice_index};
ghost use Rattle.cut_definitions.specs.Graph.{IsEdgeList};
ghost use Rattle.weighted_graph.specs.RowLaws.{IsArcAt};
ghost use Rattle.region_flow.specs.Marks.{order_mark};
ghost use Rattle.region_flow.specs.Regions.{IsFlowIn};
ghost use Rattle.region_flow.specs.Tree.{IsTreeIn, IsReady, IsCalmIn, IsFollowed, IsPath, IsUsedUp, ExtendsTree, StaysCalm, IsExpandedCalmly, IsSearchedCalmly, KeepsUnfound, IsPassed};

use crate::pulling::{is_used_up, pull};
use crate::task::{Detour, Task};
use crate::tree::{Link, Places, SearchTree, leads_on};
use weighted_graph::Arc;

/// Follows one arc of the row of the vertex at a place: puts its other end into the
/// tree where that can send something, and pulls what it is fed. Where the answer is
/// false nothing was pulled.
fn visit(
    task: Task<'_>,
    feed: &mut [u64],
    toward: &mut [u64],
    tree: &mut SearchTree,
    place: u32,
    arc: &Arc,
) -> bool
    requires edge_list { IsEdgeList task.graph.now }
    requires flow { IsFlowIn task.graph.now task.labels.now feed.old toward.old }
    requires outside { 1 ≤ slice_index task.labels.now (slice_index tree.old.order.items 0) }
    requires tree { IsTreeIn task.graph.now task.labels.now tree.old }
    requires place { place < length tree.old.order.items }
    requires arc { IsArcAt task.graph.now (slice_index tree.old.order.items place) arc.now }
    requires wanting { slice_index feed.old (slice_index tree.old.order.items 0) < task.stop }
    ensures flow { IsFlowIn task.entry.graph.now task.entry.labels.now feed.new toward.new }
    ensures tree { IsTreeIn task.entry.graph.now task.entry.labels.now tree.new }
    ensures extends { ExtendsTree tree.old tree.new }
    ensures grown { slice_index feed.old (slice_index tree.old.order.items 0) ≤ slice_index feed.new (slice_index tree.old.order.items 0) }
    ensures others { (v : ℕ) → v ≢ slice_index tree.old.order.items 0 → slice_index feed.new v ≤ slice_index feed.old v }
    ensures calm { IsCalmIn feed.old toward.old tree.old →
        slice_index feed.new (slice_index tree.old.order.items 0) ≡ slice_index feed.old (slice_index tree.old.order.items 0) →
        StaysCalm feed.new toward.old toward.new tree.new }
    ensures still { IsFalse result → feed.new ≡ feed.old }
    ensures followed { IsFollowed task.entry.labels.now toward.old tree.new.marks.items (slice_index tree.old.order.items place) arc.now }
    ensures unfound { KeepsUnfound tree.new feed.old feed.new }
    ensures found { (v : ℕ) → v ≢ arc.now.to → order_mark tree.new.marks.items v ≡ order_mark tree.old.marks.items v }
{
    let v = tree.places().order[place as usize];
    if !leads_on(task, toward, tree.marks.as_slice(), v, arc) {
        return false;
    }
    let back = Arc {
        to: v,
        edge: arc.edge,
        weight: arc.weight,
    };
    let link = Link {
        parent: place,
        arc: back,
    };
    let at = tree.put(arc.to, link);
    if feed[arc.to as usize] == 0 {
        return false;
    }
    pull(task, feed, toward, tree.places(), at);
    true
}

/// Whether the root has what it wants, or the vertex at a place can send it nothing more.
fn is_done(task: Task<'_>, feed: &[u64], toward: &[u64], places: Places<'_>, place: u32) -> bool
    requires edge_list { IsEdgeList task.graph.now }
    requires flow { IsFlowIn task.graph.now task.labels.now feed.now toward.now }
    requires path { IsPath task.graph.now task.labels.now places.order.now places.links.now place }
    ensures done { IsTrue result → (task.entry.stop ≤ slice_index feed.now (slice_index places.entry.order.now 0))
        ⊎ IsUsedUp toward.now places.entry.order.now places.entry.links.now place }
    ensures wanting { IsFalse result → slice_index feed.now (slice_index places.entry.order.now 0) < task.entry.stop }
{
    feed[places.order[0] as usize] >= task.stop || is_used_up(task, toward, places, place)
}

/// Follows the arcs of the row of the vertex at a place, until the root has what it wants or the
/// vertex can send it nothing more.
fn expand(task: Task<'_>, feed: &mut [u64], toward: &mut [u64], tree: &mut SearchTree, place: u32)
    requires flow { IsFlowIn task.graph.now task.labels.now feed.old toward.old }
    requires outside { 1 ≤ slice_index task.labels.now (slice_index tree.old.order.items 0) }
    requires tree { IsTreeIn task.graph.now task.labels.now tree.old }
    requires place { place < length tree.old.order.items }
    requires wanting { slice_index feed.old (slice_index tree.old.order.items 0) < task.stop }
    ensures flow { IsFlowIn task.entry.graph.now task.entry.labels.now feed.new toward.new }
    ensures tree { IsTreeIn task.entry.graph.now task.entry.labels.now tree.new }
    ensures extends { ExtendsTree tree.old tree.new }
    ensures grown { slice_index feed.old (slice_index tree.old.order.items 0) ≤ slice_index feed.new (slice_index tree.old.order.items 0) }
    ensures others { (v : ℕ) → v ≢ slice_index tree.old.order.items 0 → slice_index feed.new v ≤ slice_index feed.old v }
    ensures calm { IsCalmIn feed.old toward.old tree.old →
        slice_index feed.new (slice_index tree.old.order.items 0) ≡ slice_index feed.old (slice_index tree.old.order.items 0) →
        IsExpandedCalmly task.entry.graph.now task.entry.labels.now feed.new toward.old toward.new tree.new (slice_index tree.old.order.items place) }
{
    let v = tree.places().order[place as usize];
    let row = task.graph.row(v);
    if is_used_up(task, toward, tree.places(), place) {
        return;
    }
    for arc in row {
        // only what is pulled feeds the root, or uses an arc up
        if visit(task, feed, toward, tree, place, arc)
            && is_done(task, feed, toward, tree.places(), place)
        {
            return;
        }
    }
}

/// Whether the root wants more, and either has got nothing in this search or this did not look at
/// too many arcs since it did.
fn is_wanting(fed: u64, before: u64, stop: u64, work: usize, limit: usize) -> bool
    ensures { IsTrue result ↔ ((fed < stop) × ((fed ≡ before) ⊎ (work ≤ limit))) }
{
    fed < stop && (fed == before || work <= limit)
}

/// Searches from `t` against the arcs inside its region, the vertices of fewest arcs first, and
/// pulls to `t` what each vertex that is found is fed, until `t` is fed the stop. Gives the
/// lengths of all rows that it went along, added up.
///
/// The tree does not grow anew after it brought something, so it may still have arcs that are used
/// up. A search that brought something ends when it has gone four times as far as it had then.
pub fn search(
    task: Task<'_>,
    feed: &mut [u64],
    toward: &mut [u64],
    tree: &mut SearchTree,
    t: u32,
) -> usize
    requires flow { IsFlowIn task.graph.now task.labels.now feed.old toward.old }
    requires ready { IsReady (task.graph.now.vertices + 1) tree.old }
    requires to_n { t ≤ task.graph.now.vertices }
    requires outside { 1 ≤ slice_index task.labels.now t }
    requires wanting { slice_index feed.old t < task.stop }
    ensures flow { IsFlowIn task.entry.graph.now task.entry.labels.now feed.new toward.new }
    ensures tree { IsTreeIn task.entry.graph.now task.entry.labels.now tree.new }
    ensures first { slice_index tree.new.order.items 0 ≡ t }
    ensures grown { slice_index feed.old t ≤ slice_index feed.new t }
    ensures others { (v : ℕ) → v ≢ t → slice_index feed.new v ≤ slice_index feed.old v }
    ensures calm { slice_index feed.new t ≡ slice_index feed.old t →
        IsSearchedCalmly task.entry.graph.now task.entry.labels.now feed.new toward.new tree.new }
{
    tree.plant(t);
    let before = feed[t as usize];
    let mut fed = before;
    let mut work = 0usize;
    let mut limit = 0usize;
    let mut place = 0;
    'places: while (place as usize) < tree.order.len()
        && is_wanting(feed[t as usize], before, task.stop, work, limit)
    {
        let v = tree.places().order[place as usize];
        work = work.saturating_add(task.graph.row(v).len());
        expand(task, feed, toward, tree, place);
        if feed[t as usize] > fed {
            fed = feed[t as usize];
            limit = work.saturating_mul(4).saturating_add(32);
        }
        place += 1;
    }
    work
}

/// Follows an arc as `visit` does, unless it leads to the vertex that is passed.
fn visit_past(
    detour: Detour<'_>,
    feed: &mut [u64],
    toward: &mut [u64],
    tree: &mut SearchTree,
    place: u32,
    arc: &Arc,
) -> bool
    requires edge_list { IsEdgeList detour.task.graph.now }
    requires flow { IsFlowIn detour.task.graph.now detour.task.labels.now feed.old toward.old }
    requires outside { 1 ≤ slice_index detour.task.labels.now (slice_index tree.old.order.items 0) }
    requires tree { IsTreeIn detour.task.graph.now detour.task.labels.now tree.old }
    requires place { place < length tree.old.order.items }
    requires arc { IsArcAt detour.task.graph.now (slice_index tree.old.order.items place) arc.now }
    requires wanting { slice_index feed.old (slice_index tree.old.order.items 0) < detour.task.stop }
    ensures flow { IsFlowIn detour.entry.task.graph.now detour.entry.task.labels.now feed.new toward.new }
    ensures tree { IsTreeIn detour.entry.task.graph.now detour.entry.task.labels.now tree.new }
    ensures extends { ExtendsTree tree.old tree.new }
    ensures others { (v : ℕ) → v ≢ slice_index tree.old.order.items 0 → slice_index feed.new v ≤ slice_index feed.old v }
    ensures passed { order_mark tree.old.marks.items detour.entry.past ≡ 0 → IsPassed detour.entry.past feed.old feed.new tree.new }
    ensures still { IsFalse result → feed.new ≡ feed.old }
{
    if arc.to == detour.past {
        return false;
    }
    visit(detour.task, feed, toward, tree, place, arc)
}

/// Follows the arcs of the row of a vertex as `expand` does,
/// but those to the vertex that is passed.
fn expand_past(
    detour: Detour<'_>,
    feed: &mut [u64],
    toward: &mut [u64],
    tree: &mut SearchTree,
    place: u32,
)
    requires flow { IsFlowIn detour.task.graph.now detour.task.labels.now feed.old toward.old }
    requires outside { 1 ≤ slice_index detour.task.labels.now (slice_index tree.old.order.items 0) }
    requires tree { IsTreeIn detour.task.graph.now detour.task.labels.now tree.old }
    requires place { place < length tree.old.order.items }
    requires wanting { slice_index feed.old (slice_index tree.old.order.items 0) < detour.task.stop }
    ensures flow { IsFlowIn detour.entry.task.graph.now detour.entry.task.labels.now feed.new toward.new }
    ensures tree { IsTreeIn detour.entry.task.graph.now detour.entry.task.labels.now tree.new }
    ensures extends { ExtendsTree tree.old tree.new }
    ensures others { (v : ℕ) → v ≢ slice_index tree.old.order.items 0 → slice_index feed.new v ≤ slice_index feed.old v }
    ensures passed { order_mark tree.old.marks.items detour.entry.past ≡ 0 → IsPassed detour.entry.past feed.old feed.new tree.new }
{
    let v = tree.places().order[place as usize];
    let row = detour.task.graph.row(v);
    if is_used_up(detour.task, toward, tree.places(), place) {
        return;
    }
    for arc in row {
        if visit_past(detour, feed, toward, tree, place, arc)
            && is_done(detour.task, feed, toward, tree.places(), place)
        {
            return;
        }
    }
}

/// Searches from a vertex, inside its region, as `search` does, but never comes to the one that is
/// passed, so that what this is fed stays. It ends once the vertex is fed the stop, or where the
/// rows that it went along are longer than `most`.
pub fn search_past(
    detour: Detour<'_>,
    feed: &mut [u64],
    toward: &mut [u64],
    tree: &mut SearchTree,
    root: u32,
)
    requires flow { IsFlowIn detour.task.graph.now detour.task.labels.now feed.old toward.old }
    requires ready { IsReady (detour.task.graph.now.vertices + 1) tree.old }
    requires to_n { root ≤ detour.task.graph.now.vertices }
    requires outside { 1 ≤ slice_index detour.task.labels.now root }
    ensures flow { IsFlowIn detour.entry.task.graph.now detour.entry.task.labels.now feed.new toward.new }
    ensures tree { IsTreeIn detour.entry.task.graph.now detour.entry.task.labels.now tree.new }
    ensures others { (v : ℕ) → v ≢ root → slice_index feed.new v ≤ slice_index feed.old v }
    ensures kept { detour.entry.past ≢ root → slice_index feed.new detour.entry.past ≡ slice_index feed.old detour.entry.past }
{
    tree.plant(root);
    let mut work = 0usize;
    let mut place = 0;
    'places: while (place as usize) < tree.order.len()
        && feed[root as usize] < detour.task.stop
        && work <= detour.most
    {
        let v = tree.places().order[place as usize];
        work = work.saturating_add(detour.task.graph.row(v).len());
        expand_past(detour, feed, toward, tree, place);
        place += 1;
    }
}
