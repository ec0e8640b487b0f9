//! The tree of the minimum cuts by sets that workers grow side by side.

ghost use Rattle.std.specs.Prelude.{◌≡◌, ◌≤◌, IfOk, IfSome};
ghost use Rattle.cut_definitions.specs.Components.{IsConnected};
ghost use Rattle.cut_definitions.specs.Cuts.{value as least_value};
ghost use Rattle.certified_growth.specs.GrownSets.{IsGrownSmaller};
ghost use Rattle.node_tree.specs.Finished.{IsFinished};

use certified_growth::{Grown, Limits, grown_kernel, tree_with_leaves};
use cut_definitions::NoMemory;
use node_tree::HomedTree;
use region_sweep::tree_at_amount;
use std::alloc::Global;
use std::thread::Threads;
use weighted_graph::Graph;

/// Where sets are grown, and how much work may go into them: each range is worth a flow of its
/// own, of which four take as much memory as is bearable, and searches go along a few times as
/// many arcs as where they gain.
pub const LIMITS: Limits = Limits {
    most_ranges: 4,
    least_range: 100_000,
    most_across: 33,
    searches: 4,
    most_vertices: 1_000,
    most_tries: 4,
    first_tries: 300,
};

/// The tree of the minimum cuts of a graph, by that of the graph on grown sets and the
/// vertices that were noted.
fn tree_by_grown<R: Threads + Sync>(
    rt: &R,
    alloc: Global,
    graph: &Graph,
    grown: Grown,
    value: u64,
    workers: u32,
) -> Result<HomedTree, NoMemory>
    requires connected { IsConnected graph.now }
    requires enough { 2 ≤ graph.now.vertices }
    requires value { value ≡ least_value graph.now }
    requires grown { IsGrownSmaller graph.now grown }
    requires workers { 1 ≤ workers }
    ensures { IfOk result (IsFinished graph.now) }
{
    // known by this call: the graph is an edge list
    let _n = graph.n();
    let tree = tree_at_amount(rt, alloc, &grown.graph, value, workers)?;
    tree_with_leaves(alloc, graph, &grown.labels, tree, &grown.leaves)
}

/// The tree of the minimum cuts of a connected graph of two or more vertices, whose value is
/// given, by sets that workers grow side by side, each in a range of the vertices, and a sweep
/// over what is left. None where `grown_kernel` leaves nothing smaller by these limits. It is
/// refused only where memory is wanting.
pub fn tree_by_growth<R: Threads + Sync>(
    rt: &R,
    alloc: Global,
    graph: &Graph,
    value: u64,
    workers: u32,
    limits: Limits,
) -> Result<Option<HomedTree>, NoMemory>
    requires connected { IsConnected graph.now }
    requires enough { 2 ≤ graph.now.vertices }
    requires value { value ≡ least_value graph.now }
    requires workers { 1 ≤ workers }
    ensures { IfOk result (λ found. IfSome found (IsFinished graph.now)) }
{
    // known by this call: the graph is an edge list
    let _n = graph.n();
    let Some(grown) = grown_kernel(rt, alloc, graph, value, workers, limits)? else {
        return Ok(None);
    };
    let tree = tree_by_grown(rt, alloc, graph, grown, value, workers)?;
    Ok(Some(tree))
}
