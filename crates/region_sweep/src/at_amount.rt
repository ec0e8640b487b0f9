//! The tree of the cuts that weigh an amount, which no cut is below.

ghost use Rattle.std.specs.Prelude.{◌≡◌, ◌^◌, ◌≤◌, IfOk};
ghost use Rattle.cut_definitions.specs.Components.{IsConnected};
ghost use Rattle.cut_definitions.specs.Cuts.{value};
ghost use Rattle.region_sweep.specs.Shares.{IsPartTree};

use crate::shares::is_heavier;
use crate::sweep::tree_by_workers;
use cut_definitions::NoMemory;
use node_tree::HomedTree;
use std::alloc::Global;
use std::thread::Threads;
use weighted_graph::Graph;

/// The tree of the cuts of a connected graph that weigh an amount, which is at most the value:
/// that of the minimum cuts as `tree_by_workers` makes it, or the root alone where the value is
/// greater, or the graph has one vertex. It is refused only where memory is wanting.
pub fn tree_at_amount<R: Threads + Sync>(
    rt: &R,
    alloc: Global,
    graph: &Graph,
    amount: u64,
    workers: u32,
) -> Result<HomedTree, NoMemory>
    requires connected { IsConnected graph.now }
    requires small { amount ≤ 2 ^ 62 }
    requires no_less { 2 ≤ graph.now.vertices → amount ≤ value graph.now }
    requires workers { 1 ≤ workers }
    ensures { IfOk result (IsPartTree amount graph.now) }
{
    let n = graph.n();
    if n < 2 {
        return HomedTree::of_root(alloc, n);
    }
    if is_heavier(alloc, graph, amount)? {
        return HomedTree::of_root(alloc, n);
    }
    tree_by_workers(rt, alloc, graph, amount, workers)
}
