//! The edge list after an insertion.

ghost use Rattle.std.specs.Prelude.{IsTrue, ◌↔◌, length, ◌≡◌, ◌≢◌, ◌≤◌, ◌+◌, ◌^◌, if◌then◌else◌, true, false, IfOk};
ghost use Rattle.std.specs.List.{AllPairs, sum_by};
ghost use Rattle.std.specs.List.Sorted.{IsPartitionPoint};
ghost use Rattle.cut_definitions.specs.Graph.{IsBefore, IsEdgeList};
ghost use Rattle.cactus_growth.specs.Insertion.{comes_before, edge_between, enlarged, inserted, is_joined, same_ends, weight_there};

use cut_definitions::{Edge, EdgeList, MOST_EDGES, MOST_WEIGHT, NoMemory};
use std::alloc::Global;

/// Whether an edge comes before another by its ends.
fn comes_before(first: &Edge, second: &Edge) -> bool
    ensures { result ≡ comes_before first.now second.now }
{
    first.u < second.u || (first.u == second.u && first.v < second.v)
}

/// Whether two edges have the same ends.
fn has_same_ends(first: &Edge, second: &Edge) -> bool
    ensures { result ≡ same_ends first.now second.now }
{
    first.u == second.u && first.v == second.v
}

/// The weight of an edge if it has the ends of another, and 0 otherwise.
fn weight_at(edge: &Edge, ends: &Edge) -> u64
    ensures { result ≡ (if same_ends edge.now ends.now then edge.now.w else 0) }
{
    if has_same_ends(edge, ends) { edge.w } else { 0 }
}

/// The weight of the edges of a list that have the ends of an edge.
fn weight_between(edges: &[Edge], ends: &Edge) -> u64
    requires { sum_by (λ d. d.w) edges.now ≤ 2 ^ 61 }
    ensures { result ≡ weight_there ends.now edges.now }
{
    let mut weight = 0;
    'edges: for edge in edges {
        weight += weight_at(edge, ends);
    }
    weight
}

/// The number of the edges of an ascending list that come before an edge. They are its first ones.
fn place_before(edges: &[Edge], ends: &Edge) -> usize
    requires { AllPairs IsBefore edges.now }
    ensures within { result ≤ length edges.now }
    ensures parted { IsPartitionPoint (λ d. comes_before d ends.now ≡ true) (λ d. comes_before d ends.now ≡ false) edges.now result }
{
    edges.partition_point(|edge| comes_before(edge, ends))
}

/// The place in an ascending list from which on its edges come after an edge.
fn place_behind(edges: &[Edge], ends: &Edge) -> usize
    requires { AllPairs IsBefore edges.now }
    ensures within { result ≤ length edges.now }
    ensures parted { IsPartitionPoint (λ d. comes_before ends.now d ≡ false) (λ d. comes_before ends.now d ≡ true) edges.now result }
{
    edges.partition_point(|edge| !comes_before(ends, edge))
}

/// The edge between two vertices, the smaller first.
fn edge_between(u: u32, v: u32, w: u64) -> Edge
    ensures { result ≡ edge_between u v w }
{
    Edge {
        u: u.min(v),
        v: u.max(v),
        w,
    }
}

/// The ascending list with an edge put in its place. If there is an edge with its ends, their
/// weights are added.
///
/// The place is found by binary search, and the edges before and after it are copied.
fn inserted(alloc: Global, edges: &[Edge], added: &Edge) -> Result<Vec<Edge>, NoMemory>
    requires ascending { AllPairs IsBefore edges.now }
    requires total { sum_by (λ d. d.w) edges.now ≤ 2 ^ 61 }
    requires room { added.now.w + weight_there added.now edges.now ≤ 2 ^ 61 }
    ensures { IfOk result (λ l. l.items ≡ inserted added.now edges.now) }
{
    let first = place_before(edges, added);
    let end = place_behind(edges, added);
    let weight = added.w + weight_between(&edges[first..end], added);
    let mut list = Vec::with_capacity(alloc, edges.len() + 1)?;
    list.extend_from_slice(&edges[..first])?;
    list.push(Edge {
        u: added.u,
        v: added.v,
        w: weight,
    })?;
    list.extend_from_slice(&edges[end..])?;
    Ok(list)
}

/// The weight of all edges of a list, in O(m).
pub fn total_weight(list: &EdgeList) -> u64
    ensures value { result ≡ sum_by (λ d. d.w) list.now.edges }
    ensures edge_list { IsEdgeList list.now }
{
    let mut weight = 0;
    let edges = list.edges();
    'edges: for edge in edges {
        weight += edge.w;
    }
    weight
}

/// Whether an edge of a list joins `u` and `v`, by binary search in O(log m).
pub fn has_edge(list: &EdgeList, u: u32, v: u32) -> bool
    ensures { result ≡ is_joined (edge_between u v 0) list.now.edges }
{
    let ends = edge_between(u, v, 0);
    let edges = list.edges();
    let first = place_before(edges, &ends);
    let end = place_behind(edges, &ends);
    first < end
}

/// Whether the list with the weight `w` added between `u` and `v` is within the limits of a graph,
/// so that `with_edge` may be called. Its weights may add up to at most 2^61, and it may have at
/// most 16,777,216 edges.
///
/// It takes O(m), and no memory.
pub fn is_within_limits(list: &EdgeList, u: u32, v: u32, w: u64) -> bool
    requires u_from_one { 1 ≤ u }
    requires u_to_n { u ≤ list.now.vertices }
    requires v_from_one { 1 ≤ v }
    requires v_to_n { v ≤ list.now.vertices }
    requires different { u ≢ v }
    requires weight { 1 ≤ w }
    ensures { IsTrue result ↔ IsEdgeList (enlarged list.now (edge_between u v w)) }
{
    let weight = total_weight(list);
    let joined = has_edge(list, u, v);
    w <= MOST_WEIGHT - weight && (joined || list.len() < MOST_EDGES as usize)
}

/// The list with the weight `w` added between `u` and `v`, to the edge that joins them or as a new
/// edge. It takes O(m) steps and memory, and fails only if it runs out of memory.
pub fn with_edge(
    alloc: Global,
    list: &EdgeList,
    u: u32,
    v: u32,
    w: u64,
) -> Result<EdgeList, NoMemory>
    requires u_from_one { 1 ≤ u }
    requires u_to_n { u ≤ list.now.vertices }
    requires v_from_one { 1 ≤ v }
    requires v_to_n { v ≤ list.now.vertices }
    requires different { u ≢ v }
    requires weight { 1 ≤ w }
    requires fits { IsEdgeList (enlarged list.now (edge_between u v w)) }
    ensures { IfOk result (λ l. l ≡ enlarged list.now (edge_between u v w)) }
{
    let n = list.n();
    let added = edge_between(u, v, w);
    let edges = inserted(alloc, list.edges(), &added)?;
    Ok(EdgeList::from_edges(n, edges))
}
