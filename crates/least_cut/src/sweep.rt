//! The sweep.

ghost use Rattle.std.specs.Prelude.{◌≡◌, ◌≤◌, ◌<◌, ◌-◌, ◌^◌, None, IfOk, IfSome, IsTrue, min, slice_index, slice_set};
ghost use Rattle.cut_definitions.specs.Components.{IsConnected};
ghost use Rattle.cut_definitions.specs.Cuts.{value};
ghost use Rattle.cut_definitions.specs.Degrees.{HasDegrees};
ghost use Rattle.region_flow.specs.Regions.{IsRegionFlow};
ghost use Rattle.least_cut.specs.Sweep.{HasEvenDegrees, IsSwept, TellsLeast};

use crate::dense::are_light;
use crate::front::Front;
use cut_definitions::NoMemory;
use region_flow::{Outcome, RegionFlow};
use std::alloc::Global;
use weighted_graph::Graph;

/// A vertex of greatest degree.
fn busiest(graph: &Graph) -> u32
    requires { 1 ≤ graph.now.vertices }
    ensures from_one { 1 ≤ result }
    ensures to_n { result ≤ graph.now.vertices }
{
    let mut busiest = 1;
    for v in 1..graph.n() + 1 {
        if graph.degree(v) > graph.degree(busiest) {
            busiest = v;
        }
    }
    busiest
}

/// Whether each vertex has an even degree, and so each set an even weight.
fn has_even_degrees(graph: &Graph) -> bool
    ensures { IsTrue result → HasEvenDegrees graph.now }
{
    for v in 1..graph.n() + 1 {
        if graph.degree(v) % 2 != 0 {
            return false;
        }
    }
    true
}

/// What each cut weighs at least where the graph is connected: 1, or 2 where all degrees are even.
pub(crate) fn least_if_connected(graph: &Graph) -> u64
    requires { 2 ≤ graph.now.vertices }
    ensures { IsConnected graph.now → result ≤ value graph.now }
{
    if has_even_degrees(graph) { 2 } else { 1 }
}

/// Whether the edges are so light against a weight that no degree undercuts that no cut undercuts
/// it either: the side of a cut with k vertices, at most half of all, weighs no less than k
/// degrees less what k (k - 1) of the heaviest edges weigh (after Chartrand, 1966). It looks no
/// further than the first edge that is too heavy.
pub(crate) fn is_dense(graph: &Graph, weight: u64) -> bool
    requires enough { 2 ≤ graph.now.vertices }
    requires degrees { HasDegrees graph.now weight }
    ensures { IsTrue result → weight ≤ value graph.now }
{
    are_light(graph.n(), graph.edge_list(), weight)
}

/// Whether no cut undercuts a weight, as far as the degrees and the components tell. It is refused
/// only where memory is wanting.
fn is_settled(alloc: Global, graph: &Graph, weight: u64) -> Result<bool, NoMemory>
    requires { 2 ≤ graph.now.vertices }
    ensures { IfOk result (λ settled. IsTrue settled → weight ≤ value graph.now) }
{
    if weight == 0 {
        return Ok(true);
    }
    if weight > 2 {
        return Ok(false);
    }
    let least = least_if_connected(graph);
    if weight > least {
        return Ok(false);
    }
    let components = graph.components(alloc)?;
    Ok(components == 1)
}

/// Lets a vertex enter the source, and answers the least weight of a cut that is known then. None
/// where the flows went along too many arcs; the vertex has not entered then.
fn take_in(
    graph: &Graph,
    flow: &mut RegionFlow,
    t: u32,
    bound: u64,
    best: u64,
    most: usize,
) -> Option<u64>
    requires flow { IsRegionFlow graph.now flow.old }
    requires from_one { 1 ≤ t }
    requires to_n { t ≤ graph.now.vertices }
    requires outside { 1 ≤ slice_index flow.old.labels t }
    requires swept { IsSwept graph.now bound flow.old.labels best }
    ensures flow { IsRegionFlow graph.now flow.new }
    ensures labels { IfSome result (λ weight. flow.new.labels ≡ slice_set flow.old.labels t 0) }
    ensures swept { IfSome result (IsSwept graph.now bound flow.new.labels) }
    ensures cut_short { result ≡ None → most < 2 ^ 64 - 1 }
{
    let _n = graph.n();
    let Some(outcome) = flow.flow_within(graph, t, best, most) else {
        return None;
    };
    flow.enter(graph, t);
    match outcome {
        Outcome::AtLeast => Some(best),
        Outcome::Best(weight) => Some(weight),
    }
}

/// What a sweep tells of the lesser of a bound and the value of a graph.
#[derive(Clone, Copy, Debug, PartialEq, Eq)]
pub enum Swept {
    /// It is this.
    Whole(u64),

    /// The sweep was cut short, and it is at most this.
    Part(u64),
}

/// The lesser of a bound and the value of a graph of two or more vertices, if the flows go along
/// rows of no more than about so many arcs.
///
/// `Part` comes only where there is a limit, a number below 2^64 - 1; what it tells lies between
/// the lesser of the two and the bound. It takes memory O(n + m), and want of memory is its only
/// refusal. It is one sweep with n flows, each of which looks only at what it reaches until the
/// least weight that is known is reached. It ends early where that is 0 or, in a connected graph,
/// 1, or 2 where all degrees are even; and it makes no flow where the vertices times the heaviest
/// edge are at most twice the least degree, since that is the value then.
pub fn least_weight_within(
    alloc: Global,
    graph: &Graph,
    bound: u64,
    most: usize,
) -> Result<Swept, NoMemory>
    requires { 2 ≤ graph.now.vertices }
    ensures { IfOk result (TellsLeast graph.now bound most) }
{
    // known by this call: the graph is an edge list
    let _n = graph.n();
    let mut best = graph.least_degree().min(bound);
    if is_dense(graph, best) || is_settled(alloc, graph, best)? {
        return Ok(Swept::Whole(best));
    }
    let mut flow = RegionFlow::new(alloc, graph)?;
    let mut front = Front::new(alloc, graph)?;
    let start = busiest(graph);
    flow.enter(graph, start);
    front.put_neighbours(graph, start);
    'sweep: while let Some(t) = front.next(&flow) {
        let Some(weight) = take_in(graph, &mut flow, t, bound, best, most) else {
            return Ok(Swept::Part(best));
        };
        if weight < best && is_settled(alloc, graph, weight)? {
            return Ok(Swept::Whole(weight));
        }
        best = weight;
        front.put_neighbours(graph, t);
    }
    Ok(Swept::Whole(best))
}

/// The lesser of a bound and the value of a graph of two or more vertices. The cost is that of
/// `least_weight_within` without a limit.
pub fn least_weight_below(alloc: Global, graph: &Graph, bound: u64) -> Result<u64, NoMemory>
    requires { 2 ≤ graph.now.vertices }
    ensures { IfOk result (λ weight. weight ≡ min bound (value graph.now)) }
{
    let swept = least_weight_within(alloc, graph, bound, usize::MAX)?;
    match swept {
        Swept::Whole(weight) => Ok(weight),
        Swept::Part(weight) => Ok(weight),
    }
}

/// The value of the graph: the least weight of a cut, which is 0 where the graph is not connected,
/// and where it has fewer than two vertices. The cost is that of `least_weight_below`.
pub fn least_weight(alloc: Global, graph: &Graph) -> Result<u64, NoMemory>
    ensures { IfOk result (λ weight. weight ≡ value graph.now) }
{
    if graph.n() < 2 {
        return Ok(0);
    }
    let weight = least_weight_below(alloc, graph, graph.least_degree())?;
    Ok(weight)
}
