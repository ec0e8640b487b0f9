//! A minimum cut itself, by a sweep that keeps the side of the lightest cut that it met.

ghost use Rattle.std.specs.Prelude.{◌≡◌, ◌≤◌, ◌<◌, ◌^◌, ℕ, All, IfNone, IfOk, IfSome, IsTrue, OnOk, length, slice_index, slice_set};
ghost use Rattle.cut_definitions.specs.Cuts.{has, value};
ghost use Rattle.cut_definitions.specs.Degrees.{HasDegrees, IsLeastDegree};
ghost use Rattle.cut_definitions.specs.Graph.{IsVertex};
ghost use Rattle.cut_definitions.specs.Scan.{single};
ghost use Rattle.cut_definitions.specs.Weight.{weight};
ghost use Rattle.region_flow.specs.Inflow.{IsAround, IsStopReached};
ghost use Rattle.region_flow.specs.Regions.{IsRegionFlow};
ghost use Rattle.vertex_set.specs.Side.{listed};
ghost use Rattle.least_cut.specs.Lightest.{IsCutFound, IsFoundBelow, IsLightestCut, IsVertexAlone, limit_of};

use crate::dense::{degrees_of, place_of_least};
use crate::front::Front;
use crate::sweep::{is_dense, least_if_connected};
use cut_definitions::{EdgeList, NoMemory};
use region_flow::{Outcome, RegionFlow};
use std::alloc::Global;
use vertex_set::Side;
use weighted_graph::Graph;

/// A cut: its weight, and the vertices on the side without vertex 1.
#[derive(Drop)]
pub struct LightestCut {
    pub weight: u64,
    pub side: Side,
}

/// A vertex of least degree.
fn lightest_vertex(graph: &Graph) -> u32
    requires { 1 ≤ graph.now.vertices }
    ensures from_one { 1 ≤ result }
    ensures to_n { result ≤ graph.now.vertices }
    ensures least { (v : ℕ) → 1 ≤ v → v ≤ graph.now.vertices → weight graph.now (single result) ≤ weight graph.now (single v) }
{
    let mut lightest = 1;
    for v in 1..graph.n() + 1 {
        if graph.degree(v) < graph.degree(lightest) {
            lightest = v;
        }
    }
    lightest
}

/// The set of the vertices of a list.
fn side_of(alloc: Global, n: u32, vertices: &[u32]) -> Result<Side, NoMemory>
    requires { All (IsVertex n) vertices.now }
    ensures { IfOk result (λ s. s ≡ listed n (has vertices.now)) }
{
    let mut side = Side::empty(alloc, n)?;
    for v in vertices {
        side.insert(*v);
    }
    Ok(side)
}

/// The cut that parts one vertex from all others, by the side without vertex 1.
fn vertex_alone(alloc: Global, n: u32, v: u32) -> Result<Side, NoMemory>
    requires from_one { 1 ≤ v }
    requires to_n { v ≤ n }
    ensures { IfOk result (IsVertexAlone n v) }
{
    let mut side = Side::empty(alloc, n)?;
    side.insert(v);
    if v == 1 {
        side.flip();
    }
    Ok(side)
}

/// The cut that parts a lightest vertex from all others, if it weighs less than a bound.
fn vertex_below(alloc: Global, graph: &Graph, bound: u64) -> Result<Option<LightestCut>, NoMemory>
    requires { 2 ≤ graph.now.vertices }
    ensures found { IfOk result (IsFoundBelow graph.now bound) }
    ensures degrees { IfOk result (λ found. HasDegrees graph.now (limit_of found bound)) }
{
    let vertex = lightest_vertex(graph);
    let weight = graph.degree(vertex);
    if weight >= bound {
        return Ok(None);
    }
    let side = vertex_alone(alloc, graph.n(), vertex)?;
    Ok(Some(LightestCut { weight, side }))
}

/// The cut that parts a vertex of least degree from all others.
///
/// It goes once over the list of edges and takes 8 bytes of memory for each vertex. It is refused
/// only when out of memory.
pub fn lightest_vertex_cut(alloc: Global, list: &EdgeList) -> Result<LightestCut, NoMemory>
    requires { 2 ≤ list.now.vertices }
    ensures found { IfOk result (IsCutFound list.now) }
    ensures least { IfOk result (λ c. IsLeastDegree list.now c.weight) }
{
    let n = list.n();
    let degrees = degrees_of(alloc, list)?;
    let place = place_of_least(&degrees);
    let side = vertex_alone(alloc, n, place as u32)?;
    Ok(LightestCut {
        weight: degrees[place],
        side,
    })
}

/// Lets a vertex enter the source, and answers a lightest of the cuts around it, if that weighs
/// less than a limit.
pub(crate) fn enter_with_cut(
    alloc: Global,
    graph: &Graph,
    flow: &mut RegionFlow,
    t: u32,
    limit: u64,
) -> Result<Option<LightestCut>, NoMemory>
    requires flow { IsRegionFlow graph.now flow.old }
    requires from_one { 1 ≤ t }
    requires to_n { t ≤ graph.now.vertices }
    requires outside { 1 ≤ slice_index flow.old.labels t }
    requires first { slice_index flow.old.labels 1 ≡ 0 }
    ensures flow { OnOk result (IsRegionFlow graph.now flow.new) }
    ensures labels { OnOk result (flow.new.labels ≡ slice_set flow.old.labels t 0) }
    ensures found { IfOk result (IsFoundBelow graph.now limit) }
    ensures around { IfOk result (λ found. IfSome found (λ c. IsAround flow.old.labels t (has c.side.members))) }
    ensures least { IfOk result (λ found. IsStopReached graph.now flow.old.labels t (limit_of found limit)) }
{
    let n = graph.n();
    let outcome = flow.flow(graph, t, limit);
    flow.enter(graph, t);
    match outcome {
        Outcome::AtLeast => Ok(None),
        Outcome::Best(weight) => {
            let side = side_of(alloc, n, flow.found())?;
            Ok(Some(LightestCut { weight, side }))
        }
    }
}

/// The weight of the cut that was found, or the bound if there is none.
pub(crate) fn limit(found: &Option<LightestCut>, bound: u64) -> u64
    ensures { result ≡ limit_of found.now bound }
{
    match found {
        Some(cut) => cut.weight,
        None => bound,
    }
}

/// A number that no cut weighs less than: the one that is known, and if that is 0, what the
/// components and the degrees tell.
pub(crate) fn lower_bound(alloc: Global, graph: &Graph, known: u64) -> Result<u64, NoMemory>
    requires enough { 2 ≤ graph.now.vertices }
    requires known { known ≤ value graph.now }
    ensures { IfOk result (λ low. low ≤ value graph.now) }
{
    if known > 0 || graph.components(alloc)? != 1 {
        return Ok(known);
    }
    Ok(least_if_connected(graph))
}

/// Whether no cut undercuts a weight that no degree undercuts: it is a number that no cut
/// undercuts, or the edges are light against it.
fn is_least(graph: &Graph, weight: u64, low: u64) -> bool
    requires enough { 2 ≤ graph.now.vertices }
    requires degrees { HasDegrees graph.now weight }
    requires low { low ≤ value graph.now }
    ensures { IsTrue result → weight ≤ value graph.now }
{
    weight <= low || is_dense(graph, weight)
}

/// A minimum cut of a graph of two or more vertices, if it weighs less than a bound, by one sweep
/// (Hao and Orlin, 1994). `known` is a number that no cut weighs less than, 0 if nothing is known:
/// the sweep ends as soon as it meets a cut of that weight.
///
/// The cost is that of `least_weight_below`. It is refused only when out of memory.
pub fn lightest_cut_below(
    alloc: Global,
    graph: &Graph,
    known: u64,
    bound: u64,
) -> Result<Option<LightestCut>, NoMemory>
    requires enough { 2 ≤ graph.now.vertices }
    requires known { known ≤ value graph.now }
    ensures some { IfOk result (λ found. IfSome found (IsLightestCut graph.now)) }
    ensures below { IfOk result (λ found. IfSome found (λ c. c.weight < bound)) }
    ensures none { IfOk result (λ found. IfNone found (bound ≤ value graph.now)) }
{
    // known by this call: the graph is an edge list
    let _n = graph.n();
    let low = lower_bound(alloc, graph, known)?;
    let mut best = vertex_below(alloc, graph, bound)?;
    if is_least(graph, limit(&best, bound), low) {
        return Ok(best);
    }
    let mut flow = RegionFlow::new(alloc, graph)?;
    let mut front = Front::new(alloc, graph)?;
    flow.enter(graph, 1);
    front.put_neighbours(graph, 1);
    'sweep: while limit(&best, bound) > low {
        let Some(t) = front.next(&flow) else {
            break;
        };
        let least = limit(&best, bound);
        best = enter_with_cut(alloc, graph, &mut flow, t, least)?.or(best);
        front.put_neighbours(graph, t);
    }
    Ok(best)
}
