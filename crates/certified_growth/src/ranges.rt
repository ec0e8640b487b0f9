//! Ranges of vertices, as many as there are workers, and the vertices from which their sets grow.

ghost use Rattle.std.specs.Prelude.{◌≡◌, ◌+◌, ◌<◌, ◌≤◌, All, IfOk, IfSome, IsTrue, length, slice_index};
ghost use Rattle.cut_definitions.specs.Graph.{IsEdgeWithin};
ghost use Rattle.certified_growth.specs.GrownSets.{IsDivided, IsSetNamed};

use crate::effort::Limits;
use crate::grown_set::Share;
use cut_definitions::{Edge, NoMemory};
use std::alloc::Global;
use weighted_graph::Graph;

/// The ranges of the vertices: how many there are, and how many vertices each has. The last has
/// the vertices that are left over too.
#[derive(Clone, Copy)]
struct Ranges {
    count: u32,
    size: u32,
}

/// One range for each worker, or fewer where they would be too many or too small.
/// None where two would be too small.
fn ranges_for(n: u32, workers: u32, limits: Limits) -> Option<Ranges>
    ensures { IfSome result (λ r. 1 ≤ r.count) }
{
    let large = n / limits.least_range.max(1);
    if large < 2 {
        return None;
    }
    let count = workers.min(limits.most_ranges).min(large).max(1);
    Some(Ranges {
        count,
        size: n / count,
    })
}

/// The range of the vertex that so many come before.
fn range_after(before: u32, ranges: Ranges) -> u32
    requires { 1 ≤ ranges.count }
    ensures { result < ranges.count }
{
    (before / ranges.size.max(1)).min(ranges.count - 1)
}

/// For each vertex from 0 on the range in which it is.
fn owners_by(alloc: Global, n: u32, ranges: Ranges) -> Result<Vec<u32>, NoMemory>
    requires { 1 ≤ ranges.count }
    ensures long { IfOk result (λ owners. length owners.items ≡ n + 1) }
    ensures owned { IfOk result (λ owners. All (λ own. own < ranges.count) owners.items) }
{
    let mut owners = Vec::with_capacity(alloc, n as usize + 1)?;
    owners.push(0)?;
    for before in 0..n {
        owners.push(range_after(before, ranges))?;
    }
    Ok(owners)
}

/// How many edges join two ranges, or vertices that are more than a quarter of all numbers apart.
fn edges_across(edges: &[Edge], n: u32, owners: &[u32]) -> u64
    requires within { All (IsEdgeWithin n) edges.now }
    requires long { length owners.now ≡ n + 1 }
{
    let mut across = 0u64;
    for edge in edges {
        let is_far = edge.v.saturating_sub(edge.u) > n / 4;
        if is_far || owners[edge.u as usize] != owners[edge.v as usize] {
            across = across.saturating_add(1);
        }
    }
    across
}

/// Whether so few edges join ranges or lead far away that most vertices can be
/// certified inside theirs.
fn are_few(across: u64, n: u32, limits: Limits) -> bool {
    across.saturating_mul(1_000) <= limits.most_across.saturating_mul(u64::from(n))
}

/// Whether a number is that of a vertex in a range.
fn is_in_range(graph: &Graph, owners: &[u32], own: u32, v: u32) -> bool
    requires { length owners.now ≡ graph.now.vertices + 1 }
    ensures { IsTrue result → (1 ≤ v) × (v ≤ graph.now.vertices) × (slice_index owners.now v ≡ own) }
{
    v > 0 && v <= graph.n() && owners[v as usize] == own
}

/// The vertex of a range from which its set is to grow: one that weighs more than the value, if
/// there is one, the first after the middle; else the middle one, unless it stands in a chain, as
/// on a ring, where no vertex can be certified.
fn root_of(graph: &Graph, owners: &[u32], own: u32, ranges: Ranges, value: u64) -> Option<u32>
    requires { length owners.now ≡ graph.now.vertices + 1 }
    ensures { IfSome result (λ r. (1 ≤ r) × (r ≤ graph.now.vertices) × (slice_index owners.now r ≡ own)) }
{
    let size = ranges.size.max(1);
    let half = size / 2;
    let first = own.saturating_mul(size).saturating_add(1);
    for further in 0..size {
        let v = first.saturating_add(half.saturating_add(further) % size);
        if is_in_range(graph, owners, own, v) && graph.degree(v) > value {
            return Some(v);
        }
    }
    let middle = first.saturating_add(half);
    if is_in_range(graph, owners, own, middle) && graph.row(middle).len() > 2 {
        return Some(middle);
    }
    None
}

/// A share for each range, the last range first. None where a range has no vertex.
fn shares_by(
    alloc: Global,
    graph: &Graph,
    owners: &[u32],
    ranges: Ranges,
    value: u64,
) -> Result<Option<Vec<Share>>, NoMemory>
    requires { length owners.now ≡ graph.now.vertices + 1 }
    ensures { IfOk result (λ found. IfSome found (λ shares. All (IsSetNamed graph.now owners.now) shares.items)) }
{
    let mut shares = Vec::new(alloc);
    for before in 0..ranges.count {
        let own = ranges.count - 1 - before;
        let Some(root) = root_of(graph, owners, own, ranges, value) else {
            return Ok(None);
        };
        shares.push(Share {
            own,
            root,
            grown: None,
        })?;
    }
    Ok(Some(shares))
}

/// For each vertex of a graph from 0 on the range in which it is, of so many, and a share for each
/// of these, the last one first.
#[derive(Drop)]
pub(crate) struct Divided {
    pub(crate) count: u32,
    pub(crate) owners: Vec<u32>,
    pub(crate) shares: Vec<Share>,
}

/// The graph divided into ranges for so many workers. None where it is too small for that, or too
/// many edges join ranges or lead far away.
pub(crate) fn divide(
    alloc: Global,
    graph: &Graph,
    value: u64,
    workers: u32,
    limits: Limits,
) -> Result<Option<Divided>, NoMemory>
    ensures { IfOk result (λ found. IfSome found (IsDivided graph.now)) }
{
    let n = graph.n();
    let Some(ranges) = ranges_for(n, workers, limits) else {
        return Ok(None);
    };
    let owners = owners_by(alloc, n, ranges)?;
    if !are_few(edges_across(graph.list().edges(), n, &owners), n, limits) {
        return Ok(None);
    }
    let Some(shares) = shares_by(alloc, graph, &owners, ranges, value)? else {
        return Ok(None);
    };
    Ok(Some(Divided {
        count: ranges.count,
        owners,
        shares,
    }))
}
