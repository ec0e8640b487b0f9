//! The nodes of the vertices while regions are left.

ghost use Rattle.std.specs.Prelude.{◌≡◌, ◌+◌, ◌<◌, IfOk, length, slice_index, slice_set, replicate};
ghost use Rattle.node_tree.specs.Homes.{HomesState};

use cut_definitions::NoMemory;
use std::alloc::Global;
use std::marker::Model;

/// The node of each vertex: kept for itself once it has entered, and before for its region.
#[derive(Drop)]
pub struct Homes {
    entered: Vec<usize>,
    regions: Vec<usize>,
}

impl Model for Homes {
    ghost use Rattle.node_tree.specs.Homes.{HomesState};

    ghost Value = { HomesState };

    ghost view = { λ h. record { entered = h.entered.items; regions = h.regions.items } };
}

impl Homes {
    /// All in the root, for vertices 1 to n and labels 0 to n + 1.
    pub fn new(alloc: Global, n: u32) -> Result<Homes, NoMemory>
        ensures entered { IfOk result (λ h. h.entered ≡ replicate (n + 1) 0) }
        ensures regions { IfOk result (λ h. h.regions ≡ replicate (n + 2) 0) }
    {
        let entered = vec![in alloc; 0usize; n as usize + 1]?;
        let regions = vec![in alloc; 0usize; n as usize + 2]?;
        Ok(Homes { entered, regions })
    }

    /// The node of the region of a label.
    pub fn of_region(&self, label: u32) -> usize
        requires { label < length self.now.regions }
        ensures { result ≡ slice_index self.now.regions label }
    {
        self.regions[label as usize]
    }

    /// The node that each vertex has entered, taken over.
    pub fn into_entered(self) -> Vec<usize>
        ensures { result.items ≡ self.entered }
    {
        self.entered
    }

    /// Puts a vertex that enters into a node.
    pub fn enter(&mut self, v: u32, node: usize)
        requires { v < length self.old.entered }
        ensures { self.new ≡ record { entered = slice_set self.old.entered v node; regions = self.old.regions } }
    {
        self.entered[v as usize] = node;
    }

    /// Puts the region of a label into a node.
    pub fn put_region(&mut self, label: u32, node: usize)
        requires { label < length self.old.regions }
        ensures { self.new ≡ record { entered = self.old.entered; regions = slice_set self.old.regions label node } }
    {
        self.regions[label as usize] = node;
    }
}
