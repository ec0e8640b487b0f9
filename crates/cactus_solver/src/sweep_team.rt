//! The sweep over regions, by several workers or by one.

ghost use Rattle.std.specs.Prelude.{◌≡◌, ◌≤◌, IfOk};
ghost use Rattle.cut_definitions.specs.Components.{IsConnected};
ghost use Rattle.cut_definitions.specs.Cuts.{value as least_value};
ghost use Rattle.node_tree.specs.Finished.{IsFinished};

use crate::by_growth::{LIMITS, tree_by_growth};
use cut_definitions::NoMemory;
use node_tree::HomedTree;
use region_sweep::{tree_by_workers, tree_of};
use std::thread::Threads;
use weighted_graph::Graph;
use worker_team::{Alone, Team, Threaded};

/// Workers who can also sweep over regions.
pub trait SweepTeam: Team {
    /// The tree of the minimum cuts of a connected graph whose value is given: `tree_by_growth`,
    /// where that gives one, and else `region_sweep::tree_by_workers`; of the calling thread alone
    /// `region_sweep::tree_of`. It is refused only where memory is wanting.
    fn sweep(&self, graph: &Graph, value: u64) -> Result<HomedTree, NoMemory>
        requires ready { Self.ready self.now }
        requires connected { IsConnected graph.now }
        requires enough { 2 ≤ graph.now.vertices }
        requires value { value ≡ least_value graph.now }
        ensures { IfOk result (IsFinished graph.now) };
}

impl<'a, R: Threads + Sync> SweepTeam for Threaded<'a, R> {
    fn sweep(&self, graph: &Graph, value: u64) -> Result<HomedTree, NoMemory> {
        let workers = self.workers();
        match tree_by_growth(self.rt, self.alloc, graph, value, workers, LIMITS) {
            Ok(Some(tree)) => Ok(tree),
            // where memory is wanting for several flows, there may be enough for one
            Ok(None) | Err(_) => tree_by_workers(self.rt, self.alloc, graph, value, workers),
        }
    }
}

impl SweepTeam for Alone {
    fn sweep(&self, graph: &Graph, value: u64) -> Result<HomedTree, NoMemory> {
        tree_of(self.alloc, graph, value)
    }
}
