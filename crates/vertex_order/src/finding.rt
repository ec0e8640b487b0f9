//! A search that numbers the vertices as it finds them.

ghost use Rattle.std.specs.Prelude.{◌≡◌, ℕ, ◌<◌, ◌≤◌, All, IfOk, OnOk, length};
ghost use Rattle.weighted_graph.specs.declared.graph.Arc.{Arc};
ghost use Rattle.weighted_graph.specs.Rows.{row_of};
ghost use Rattle.vertex_order.specs.Finding.{IsFinding, number_of, vertex_at};

use cut_definitions::NoMemory;
use std::alloc::Global;
use weighted_graph::Graph;

/// The vertices that were found, in their order, and for each vertex its number in that order,
/// from 1 on, or 0.
#[derive(Drop)]
pub struct Finding {
    pub order: Vec<u32>,
    pub numbers: Vec<u32>,
}

impl Finding {
    /// Vertex 1 found, and no other.
    pub(crate) fn new(alloc: Global, n: u32) -> Result<Finding, NoMemory>
        requires { 1 ≤ n }
        ensures { IfOk result (IsFinding n) }
    {
        let mut numbers = vec![in alloc; 0u32; n as usize]?;
        numbers[0] = 1;
        let order = vec![in alloc; 1u32; 1]?;
        Ok(Finding { order, numbers })
    }

    /// Gives a vertex the next number, unless it has one. If it runs out of memory, this may be
    /// half done.
    fn find(&mut self, v: u32) -> Result<(), NoMemory>
        requires from_one { 1 ≤ v }
        requires to_n { v ≤ length self.old.numbers.items }
        requires few { length self.old.numbers.items ≤ 4194304 }
        requires finding { IsFinding (length self.old.numbers.items) self.old }
        ensures finding { OnOk result (IsFinding (length self.old.numbers.items) self.new) }
        ensures numbered { OnOk result (1 ≤ number_of self.new v) }
        ensures still { OnOk result ((u : ℕ) → 1 ≤ u → 1 ≤ number_of self.old u → 1 ≤ number_of self.new u) }
        ensures more { length self.old.order.items ≤ length self.new.order.items }
    {
        let place = v as usize - 1;
        if self.numbers[place] == 0 {
            self.order.push(v)?;
            self.numbers[place] = self.order.len() as u32;
        }
        Ok(())
    }

    /// The number of vertices found.
    pub(crate) fn count(&self) -> usize
        ensures { result ≡ length self.now.order.items }
    {
        self.order.len()
    }

    /// Gives numbers to the vertices beside the one at a place of the order. If it runs out of
    /// memory, this may be half done.
    pub(crate) fn find_beside(&mut self, graph: &Graph, place: usize) -> Result<(), NoMemory>
        requires place { place < length self.old.order.items }
        requires finding { IsFinding graph.now.vertices self.old }
        ensures finding { OnOk result (IsFinding graph.now.vertices self.new) }
        ensures numbered { OnOk result (All (λ (a : Arc). 1 ≤ number_of self.new a.to) (row_of graph.now (vertex_at self.old place))) }
        ensures more { length self.old.order.items ≤ length self.new.order.items }
    {
        // known by this call: the graph is an edge list
        let _n = graph.n();
        for arc in graph.row(self.order[place]) {
            self.find(arc.to)?;
        }
        Ok(())
    }
}
