//! What a flow shows of a vertex.

ghost use Rattle.std.specs.Prelude.{◌≡◌, ◌+◌, ◌≤◌, IfOk, length, slice_index, true, false};
ghost use Rattle.cut_definitions.specs.Components.{IsConnected};
ghost use Rattle.cut_definitions.specs.Scan.{single};
ghost use Rattle.cut_definitions.specs.Weight.{weight};
ghost use Rattle.region_flow.specs.Regions.{IsRegionFlow};
ghost use Rattle.certified_growth.specs.Turns.{IsLeaf, IsShown, MayNote};

use crate::effort::Limits;
use crate::reach::Reach;
use cut_definitions::NoMemory;
use region_flow::{Outcome, RegionFlow};
use weighted_graph::Graph;

/// How vertices are certified.
#[derive(Clone, Copy)]
pub struct Rule {
    /// What all other sets around a vertex are to weigh at least.
    pub least: u64,

    /// What a leaf weighs alone; 0 where none is noted.
    pub leaf_weight: u64,

    pub limits: Limits,
}

/// What was shown of a vertex.
#[derive(Clone, Copy, Debug, PartialEq, Eq)]
pub enum Kind {
    /// All sets around it weigh at least what is asked.
    Heavy,
    /// All sets around it weigh at least what is asked, but for the vertex alone, which weighs one
    /// less.
    Leaf,
    /// Nothing was shown.
    Open,
}

/// Whether a vertex that a flow found to weigh so much may be a leaf.
pub(crate) fn may_be_leaf(graph: &Graph, t: u32, amount: u64, rule: Rule) -> bool
    requires { t ≤ graph.now.vertices }
    ensures { result ≡ true → (2 ≤ t) × (1 ≤ rule.leaf_weight) × (amount ≡ rule.leaf_weight) × (weight graph.now (single t) ≡ amount) }
{
    t > 1 && rule.leaf_weight > 0 && amount == rule.leaf_weight && graph.degree(t) == amount
}

/// How many arcs the rows have that the first search for a vertex goes along; each next one goes
/// along four times as many.
const FIRST_ARCS: usize = 32;

/// Feeds a vertex as much as its stop, or less where so many searches do not bring that,
/// of which each goes further.
pub(crate) fn feed_by_steps(graph: &Graph, flow: &mut RegionFlow, t: u32, stop: u64, searches: u32)
    requires flow { IsRegionFlow graph.now flow.old }
    requires to_n { t ≤ graph.now.vertices }
    requires outside { 1 ≤ slice_index flow.old.labels t }
    ensures flow { IsRegionFlow graph.now flow.new }
    ensures labels { flow.new.labels ≡ flow.old.labels }
{
    let _n = graph.n();
    let mut arcs = FIRST_ARCS;
    'searches: for _search in 0..searches {
        if flow.feed(t) >= stop {
            return;
        }
        flow.feed_past(graph, t, 0, stop, arcs);
        arcs = arcs.saturating_mul(4);
    }
}

/// What is shown of a vertex outside the source.
///
/// First it is fed by searches of bounded length. Only a vertex that is fed what is asked, or all
/// that it weighs, is looked at further: of it one more search tells, which ends at once.
pub(crate) fn certify(
    graph: &Graph,
    flow: &mut RegionFlow,
    reach: &mut Reach,
    t: u32,
    rule: Rule,
) -> Result<Kind, NoMemory>
    requires connected { IsConnected graph.now }
    requires flow { IsRegionFlow graph.now flow.old }
    requires room { length reach.old.seen.items ≡ graph.now.vertices + 1 }
    requires to_n { t ≤ graph.now.vertices }
    requires outside { 1 ≤ slice_index flow.old.labels t }
    requires may { MayNote graph.now rule }
    ensures flow { IsRegionFlow graph.now flow.new }
    ensures labels { flow.new.labels ≡ flow.old.labels }
    ensures room { length reach.new.seen.items ≡ length reach.old.seen.items }
    ensures heavy { IfOk result (λ kind. kind ≡ Kind.Heavy → IsShown graph.now rule.least flow.new.labels false t) }
    ensures leaf { IfOk result (λ kind. kind ≡ Kind.Leaf → IsShown graph.now rule.least flow.new.labels true t) }
    ensures is_leaf { IfOk result (λ kind. kind ≡ Kind.Leaf → IsLeaf graph.now rule.least t) }
{
    let _n = graph.n();
    let all = graph.degree(t).min(rule.least);
    feed_by_steps(graph, flow, t, all, rule.limits.searches);
    if flow.feed(t) < all {
        return Ok(Kind::Open);
    }
    match flow.flow(graph, t, rule.least) {
        Outcome::AtLeast => Ok(Kind::Heavy),
        Outcome::Best(amount) => {
            if !may_be_leaf(graph, t, amount, rule) {
                return Ok(Kind::Open);
            }
            if reach.is_alone(graph, flow, t, rule.limits.most_vertices)? {
                return Ok(Kind::Leaf);
            }
            Ok(Kind::Open)
        }
    }
}
