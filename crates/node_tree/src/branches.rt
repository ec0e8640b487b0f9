//! A graph that is a tree, all of whose edges weigh the value:
//! each edge is a minimum cut, and there is no other.

ghost use Rattle.std.specs.Prelude.{◌≡◌, ◌↔◌, ◌+◌, ◌<◌, ◌≤◌, ℕ, IfOk, IfSome, IsTrue, OnOk, length};
ghost use Rattle.cut_definitions.specs.Components.{IsConnected};
ghost use Rattle.cut_definitions.specs.Cuts.{value as least_value};
ghost use Rattle.node_tree.specs.Branches.{AddsBranch, found, IsAbove, IsBranching, IsFound, IsPutAlong, IsSearch};
ghost use Rattle.node_tree.specs.Finished.{IsFinished};

use crate::homed_tree::HomedTree;
use cut_definitions::NoMemory;
use std::alloc::Global;
use weighted_graph::{Arc, Graph};

/// The vertex in the root.
const ROOT: u32 = 1;

/// A tree of nodes with one vertex each, and the vertices in the order of the nodes,
/// in which they were found.
#[derive(Drop)]
pub struct Branches {
    pub order: Vec<u32>,
    pub made: HomedTree,
}

impl Branches {
    /// Vertex 1 in the root, and no other vertex found.
    fn new(alloc: Global, n: u32) -> Result<Branches, NoMemory>
        requires { 1 ≤ n }
        ensures search { IfOk result (IsSearch n) }
    {
        let order = vec![in alloc; ROOT; 1]?;
        let made = HomedTree::of_root(alloc, n)?;
        Ok(Branches { order, made })
    }

    /// Whether a vertex was found.
    fn has(&self, v: u32) -> bool
        requires { v < length self.now.made.homes.items }
        ensures { IsTrue result ↔ IsFound self.now v }
    {
        v == ROOT || self.made.homes[v as usize] != 0
    }

    /// Whether a vertex is in the node from which a node hangs.
    fn is_above(&self, node: usize, v: u32) -> bool
        requires search { (n : ℕ) × IsSearch n self.now }
        requires within { node < found self.now }
        ensures { IsTrue result ↔ IsAbove self.now node v }
    {
        node > 0 && self.order[self.made.tree.upper(node)] == v
    }

    /// Puts a vertex into a new node that hangs from another.
    /// Where memory is wanting, part of that was done.
    fn put(&mut self, v: u32, upper: usize) -> Result<(), NoMemory>
        requires { v < length self.old.made.homes.items }
        ensures { OnOk result (AddsBranch self.old self.new v upper) }
    {
        let node = self.made.tree.hang(upper)?;
        self.made.homes[v as usize] = node;
        self.order.push(v)?;
        Ok(())
    }

    /// Puts the vertex that an arc of a node leads to into a new node that hangs from it,
    /// unless it is above. Answers false where the arc has another weight, or leads to a vertex
    /// that was found elsewhere.
    fn put_arc(&mut self, arc: Arc, node: usize, weight: u64) -> Result<bool, NoMemory>
        requires search { (n : ℕ) × IsSearch n self.old × (1 ≤ arc.to) × (arc.to ≤ n) }
        requires within { node < found self.old }
        ensures { IfOk result (λ all. IsTrue all → (n : ℕ) → IsSearch n self.old → 1 ≤ arc.to → arc.to ≤ n → IsPutAlong n weight self.old self.new node arc) }
    {
        if arc.weight != weight {
            return Ok(false);
        }
        if self.is_above(node, arc.to) {
            return Ok(true);
        }
        if self.has(arc.to) {
            return Ok(false);
        }
        self.put(arc.to, node)?;
        Ok(true)
    }

    /// Puts the vertices beside that of a node, but the one above, into new nodes that
    /// hang from it. Answers false where an edge has another weight, or leads to a vertex
    /// that was found elsewhere.
    fn put_row(&mut self, graph: &Graph, node: usize, weight: u64) -> Result<bool, NoMemory>
        requires within { node < found self.old }
        requires branching { IsBranching graph.now weight self.old node }
        ensures { IfOk result (λ all. IsTrue all → IsBranching graph.now weight self.new (node + 1)) }
    {
        let _n = graph.n();
        for arc in graph.row(self.order[node]) {
            if !self.put_arc(*arc, node, weight)? {
                return Ok(false);
            }
        }
        Ok(true)
    }
}

/// The tree of the minimum cuts of a connected graph that is a tree itself, all of whose edges
/// have the value: each vertex is in a node of its own. None where the graph is no such tree; no
/// answer rests on that, since a sweep finds the tree of any graph.
///
/// Breadth-first search (Moore, 1959), in O(n). It is refused only where memory is wanting.
pub fn tree_of_branches(
    alloc: Global,
    graph: &Graph,
    value: u64,
) -> Result<Option<HomedTree>, NoMemory>
    requires connected { IsConnected graph.now }
    requires enough { 2 ≤ graph.now.vertices }
    requires value { value ≡ least_value graph.now }
    ensures { IfOk result (λ found. IfSome found (IsFinished graph.now)) }
{
    let n = graph.n() as usize;
    if graph.edges() >= n {
        return Ok(None);
    }
    let mut branches = Branches::new(alloc, graph.n())?;
    for node in 0..n {
        if node >= branches.order.len() || !branches.put_row(graph, node, value)? {
            return Ok(None);
        }
    }
    if branches.order.len() != n {
        return Ok(None);
    }
    Ok(Some(branches.made))
}
