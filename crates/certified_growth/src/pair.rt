//! The first two vertices of a set in which all weigh the value.

ghost use Rattle.std.specs.Prelude.{◌≡◌, ◌+◌, ◌≤◌, IfOk, IsTrue, length, slice_index};
ghost use Rattle.region_flow.specs.Regions.{IsRegionFlow};
ghost use Rattle.certified_growth.specs.Turns.{IsPairShown};

use crate::certificate::{Rule, feed_by_steps, may_be_leaf};
use crate::reach::Reach;
use cut_definitions::NoMemory;
use region_flow::{Outcome, RegionFlow};
use weighted_graph::Graph;

/// The vertex that alone has entered, and one that is to come next.
#[derive(Clone, Copy)]
pub(crate) struct Pair {
    pub(crate) root: u32,
    pub(crate) next: u32,
}

/// The first neighbour of a vertex other than one; where there is none that one itself.
fn other_neighbour(graph: &Graph, v: u32, but: u32) -> u32
    requires to_n { v ≤ graph.now.vertices }
    requires but { but ≤ graph.now.vertices }
    ensures { result ≤ graph.now.vertices }
{
    let _n = graph.n();
    for arc in graph.row(v) {
        if arc.to != but {
            return arc.to;
        }
    }
    but
}

/// Whether a flow shows that each set around the second vertex that weighs the value is that
/// vertex alone, or all but the first. It is not always found, and not where one of them is vertex
/// 1, which is never noted.
pub(crate) fn shows_pair(
    graph: &Graph,
    flow: &mut RegionFlow,
    reach: &mut Reach,
    pair: Pair,
    rule: Rule,
) -> Result<bool, NoMemory>
    requires flow { IsRegionFlow graph.now flow.old }
    requires room { length reach.old.seen.items ≡ graph.now.vertices + 1 }
    requires root { pair.root ≤ graph.now.vertices }
    requires next { pair.next ≤ graph.now.vertices }
    requires entered { slice_index flow.old.labels pair.root ≡ 0 }
    requires outside { 1 ≤ slice_index flow.old.labels pair.next }
    ensures flow { IsRegionFlow graph.now flow.new }
    ensures labels { flow.new.labels ≡ flow.old.labels }
    ensures room { length reach.new.seen.items ≡ length reach.old.seen.items }
    ensures shown { IfOk result (λ yes. IsTrue yes → IsPairShown graph.now flow.new pair.root pair.next rule.leaf_weight) }
{
    let Pair { root, next } = pair;
    let weight = rule.leaf_weight;
    if !may_be_leaf(graph, root, weight, rule) {
        return Ok(false);
    }
    if !may_be_leaf(graph, next, weight, rule) {
        return Ok(false);
    }
    let hub = other_neighbour(graph, next, root);
    feed_by_steps(graph, flow, next, weight, rule.limits.searches);
    if flow.feed(next) < weight {
        return Ok(false);
    }
    match flow.flow(graph, next, rule.least) {
        Outcome::AtLeast => Ok(false),
        Outcome::Best(amount) => {
            if amount != weight {
                return Ok(false);
            }
            reach.is_at_ends(graph, flow, root, next, hub, rule.limits.most_vertices)
        }
    }
}
