//! The calling thread alone.

ghost use Rattle.std.specs.Prelude.{◌≡◌, ◌≤◌, ⊤};

use crate::team::Team;
use cut_definitions::{EdgeList, NoMemory};
use mark_board::Marks;
use round_contract::contracted_alone;
use round_workers::Threshold;
use std::alloc::Global;
use weighted_graph::{Graph, Labels};

/// One worker, the calling thread, which needs no runtime.
#[derive(Clone, Copy)]
pub struct Alone {
    pub alloc: Global,
}

impl Team for Alone {
    ghost ready = { λ t. ⊤ };

    fn alloc(&self) -> Global {
        self.alloc
    }

    fn workers(&self) -> u32
        ensures range { (1 ≤ result) × (result ≤ 64) }
        ensures number { result ≡ 1 }
    {
        1
    }

    fn graph(&self, list: EdgeList) -> Result<Graph, NoMemory> {
        Graph::from_list(self.alloc, list)
    }

    fn contracted_list(&self, graph: &Graph, labels: &Labels) -> Result<EdgeList, NoMemory> {
        contracted_alone(self.alloc, graph, labels)
    }

    fn scan_round(
        &self,
        graph: &Graph,
        opening: Threshold,
        _workers: u32,
    ) -> Result<(u64, Marks), NoMemory> {
        let marks = Marks::none(self.alloc, graph.edges())?;
        Ok((opening.bound, marks))
    }
}
