//! Where the edges are light beside the degrees.

ghost use Rattle.std.specs.Prelude.{◌≡◌, ◌↔◌, ℕ, ◌+◌, ◌-◌, ◌*◌, ◌/◌, ◌^◌, ◌<◌, ◌≤◌, if◌then◌else◌, IfOk, IfSome, IsSome, IsTrue, length, slice_index};
ghost use Rattle.std.specs.List.{All, sum_by};
ghost use Rattle.cut_definitions.specs.declared.edge_list.Edge.{Edge};
ghost use Rattle.cut_definitions.specs.Cuts.{value};
ghost use Rattle.cut_definitions.specs.Degrees.{IsLeastDegree};
ghost use Rattle.cut_definitions.specs.Graph.{IsEdgeWithin};
ghost use Rattle.cut_definitions.specs.Scan.{single};
ghost use Rattle.cut_definitions.specs.Weight.{parts, weight};
ghost use Rattle.least_cut.specs.Dense.{IsDense};
ghost use Rattle.least_cut.specs.Sweep.{AreLight};

use cut_definitions::{Edge, EdgeList, NoMemory};
use std::alloc::Global;

/// Whether the number of vertices times the weight of each edge is at most twice a weight. It
/// looks no further than the first edge that is heavier.
pub(crate) fn are_light(n: u32, edges: &[Edge], weight: u64) -> bool
    requires some { 1 ≤ n }
    requires fits { weight ≤ 2 ^ 61 }
    ensures { IsTrue result ↔ AreLight (2 * weight / n) edges.now }
{
    let most = 2 * weight / u64::from(n);
    for edge in edges {
        if edge.w > most {
            return false;
        }
    }
    true
}

/// Whether there are edges, but too few for a dense graph: each edge lies at two vertices, so in a
/// dense graph four times the number of edges is at least the square of the number of vertices.
fn has_few_edges(list: &EdgeList) -> bool
    ensures exact { IsTrue result ↔ ((1 ≤ length list.now.edges) × (4 * length list.now.edges < list.now.vertices * list.now.vertices)) }
    ensures sparse { IsTrue result → ¬ IsDense list.now }
{
    let n = u64::from(list.n());
    let edges = list.len() as u64;
    edges >= 1 && 4 * edges < n * n
}

/// Adds the weight of each edge to the degrees of its ends.
fn add_degrees(edges: &[Edge], degrees: &mut [u64])
    requires within { All (IsEdgeWithin (length degrees.old - 1)) edges.now }
    requires total { sum_by (λ (e : Edge). e.w) edges.now ≤ 2 ^ 61 }
    requires zero { (v : ℕ) → slice_index degrees.old v ≡ 0 }
    ensures { (v : ℕ) → slice_index degrees.new v ≡ sum_by (λ (e : Edge). if parts (single v) e.u e.v then e.w else 0) edges.now }
{
    for edge in edges {
        degrees[edge.u as usize] += edge.w;
        degrees[edge.v as usize] += edge.w;
    }
}

/// The place of a least number of a list, but for the place 0.
pub(crate) fn place_of_least(numbers: &[u64]) -> usize
    requires { 2 ≤ length numbers.now }
    ensures from_one { 1 ≤ result }
    ensures there { result < length numbers.now }
    ensures least { (k : ℕ) → 1 ≤ k → k < length numbers.now → slice_index numbers.now result ≤ slice_index numbers.now k }
{
    let mut place = 1;
    for k in 1..numbers.len() {
        if numbers[k] < numbers[place] {
            place = k;
        }
    }
    place
}

/// The degrees of all vertices, each in the place of its number, from one pass over the
/// edges; 0 in the place 0. It takes 8 bytes of memory for each vertex and 8 more; want of
/// memory is its only refusal.
pub fn degrees_of(alloc: Global, list: &EdgeList) -> Result<Vec<u64>, NoMemory>
    ensures long { IfOk result (λ degrees. length degrees.items ≡ list.now.vertices + 1) }
    ensures each { IfOk result (λ degrees. (v : ℕ) → slice_index degrees.items v ≡ weight list.now (single v)) }
{
    let mut degrees = vec![in alloc; 0u64; list.n() as usize + 1]?;
    add_degrees(list.edges(), &mut degrees);
    Ok(degrees)
}

/// The least degree of a vertex, which is the weight of a cut.
///
/// It goes once over the list of edges and takes 8 bytes of memory for each vertex and 8 more;
/// want of memory is its only refusal.
pub fn least_degree(alloc: Global, list: &EdgeList) -> Result<u64, NoMemory>
    requires { 2 ≤ list.now.vertices }
    ensures { IfOk result (IsLeastDegree list.now) }
{
    let degrees = degrees_of(alloc, list)?;
    let place = place_of_least(&degrees);
    Ok(degrees[place])
}

/// Whether a graph of two or more vertices is dense, as `value_of_dense` tells it, by the least
/// degree, which is given. If so, that is the value.
pub fn degree_is_value(list: &EdgeList, least: u64) -> bool
    requires enough { 2 ≤ list.now.vertices }
    requires least { IsLeastDegree list.now least }
    ensures dense { IsTrue result ↔ IsDense list.now }
    ensures value { IsTrue result → least ≡ value list.now }
{
    !has_few_edges(list) && are_light(list.n(), list.edges(), least)
}

/// The value of a graph of two or more vertices, where it is dense: the number of vertices times
/// the heaviest edge is at most twice the least degree. Then the least degree is the value (after
/// Chartrand, 1966). None where the graph is not dense.
///
/// It goes once or twice over the list of edges and takes 8 bytes of memory for each vertex and 8
/// more; want of memory is its only refusal. Where there are edges, but fewer than a quarter of
/// the square of the number of vertices, it answers none at once, without memory.
pub fn value_of_dense(alloc: Global, list: &EdgeList) -> Result<Option<u64>, NoMemory>
    requires { 2 ≤ list.now.vertices }
    ensures some { IfOk result (λ found. IfSome found (λ weight. weight ≡ value list.now)) }
    ensures dense { IfOk result (λ found. IsSome found ↔ IsDense list.now) }
{
    if has_few_edges(list) {
        return Ok(None);
    }
    let least = least_degree(alloc, list)?;
    if are_light(list.n(), list.edges(), least) {
        Ok(Some(least))
    } else {
        Ok(None)
    }
}
