//! Threads of a runtime.

ghost use Rattle.std.specs.Prelude.{◌≡◌, ◌≤◌, max, min};
ghost use Rattle.std.specs.Thread.{IsSync};

use crate::team::Team;
use cut_definitions::{EdgeList, MOST_WORKERS, NoMemory};
use mark_board::Marks;
use outside::OpenGate;
use round_contract::contracted_list;
use round_workers::{Threshold, scan_round};
use row_ranges::graph_of_list;
use std::alloc::Global;
use std::thread::Threads;
use weighted_graph::{Graph, Labels};

/// Threads of a runtime, one for each worker. A number below 1 counts as 1, and one above 64 as
/// 64.
#[derive(Clone, Copy)]
pub struct Threaded<'a, R> {
    pub rt: &'a R,
    pub alloc: Global,
    pub workers: u32,
}

impl<'a, R: Threads + Sync> Team for Threaded<'a, R> {
    ghost ready = { λ t. IsSync R.row };

    fn alloc(&self) -> Global {
        self.alloc
    }

    fn workers(&self) -> u32
        ensures range { (1 ≤ result) × (result ≤ 64) }
        ensures number { result ≡ min (max self.now.workers 1) 64 }
    {
        self.workers.max(1).min(MOST_WORKERS)
    }

    fn graph(&self, list: EdgeList) -> Result<Graph, NoMemory> {
        graph_of_list(self.rt, self.alloc, list, self.workers)
    }

    fn contracted_list(&self, graph: &Graph, labels: &Labels) -> Result<EdgeList, NoMemory> {
        contracted_list(self.rt, self.alloc, graph, labels, self.workers)
    }

    fn scan_round(
        &self,
        graph: &Graph,
        opening: Threshold,
        workers: u32,
    ) -> Result<(u64, Marks), NoMemory> {
        let workers = workers.max(1).min(MOST_WORKERS);
        scan_round(self.rt, self.alloc, graph, opening, workers, &OpenGate)
    }
}
