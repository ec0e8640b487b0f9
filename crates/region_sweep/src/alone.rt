//! The cactus of the minimum cuts, without a thread.

ghost use Rattle.std.specs.Prelude.{◌≡◌, ◌≤◌, IfOk};
ghost use Rattle.cut_definitions.specs.Components.{IsConnected};
ghost use Rattle.cut_definitions.specs.Cuts.{value as least_value};
ghost use Rattle.node_tree.specs.Finished.{IsFinished};
ghost use Rattle.rooted_cactus.specs.Solving.{IsSolved};

use crate::finishing::cactus_by_tree;
use crate::tree_of;
use cut_definitions::NoMemory;
use node_tree::{HomedTree, tree_of_branches};
use rooted_cactus::Solved;
use std::alloc::Global;
use weighted_graph::Graph;

/// The tree of the minimum cuts of a graph whose value is given: read off the graph where it is a
/// tree whose edges all have the value, and else by a sweep.
fn tree_alone(alloc: Global, graph: &Graph, value: u64) -> Result<HomedTree, NoMemory>
    requires connected { IsConnected graph.now }
    requires enough { 2 ≤ graph.now.vertices }
    requires value { value ≡ least_value graph.now }
    ensures { IfOk result (IsFinished graph.now) }
{
    match tree_of_branches(alloc, graph, value)? {
        Some(tree) => Ok(tree),
        None => tree_of(alloc, graph, value),
    }
}

/// The value of a connected graph of two or more vertices, which is given, and the cactus of its
/// minimum cuts, in its normal form: no thread is started, and no runtime is asked for. Nothing is
/// contracted before, so this is the sweep over regions on the whole graph. Memory is in
/// proportion to n + m. It is refused only where that is wanting.
pub fn solve_alone(alloc: Global, graph: &Graph, value: u64) -> Result<Solved, NoMemory>
    requires connected { IsConnected graph.now }
    requires enough { 2 ≤ graph.now.vertices }
    requires value { value ≡ least_value graph.now }
    ensures { IfOk result (IsSolved graph.now) }
{
    let tree = tree_alone(alloc, graph, value)?;
    let solved = cactus_by_tree(alloc, graph.list(), value, tree)?;
    Ok(solved)
}
