//! The tree of nodes, in arrays.

ghost use Rattle.std.specs.Prelude.{◌≡◌, ◌+◌, ◌-◌, ◌^◌, ◌<◌, ◌≤◌, ◌∷◌, [], ℕ, true, false, IfOk, OnOk, length, slice_index};
ghost use Rattle.node_tree.specs.Flat.{AddsAfter, AddsBelow, AddsBeyond, AddsNode, is_follower};
ghost use Rattle.node_tree.specs.Grafted.{grafted_at, IsGrafted};

use cut_definitions::NoMemory;
use std::alloc::Global;
use std::marker::Model;

/// How the next part hangs from a part.
#[derive(Clone, Copy)]
pub enum Hanging {
    /// The part is no minimum cut, and the next hangs from its node.
    Bridged,
    /// The next part follows the part in a cycle.
    Followed,
    /// The part is the last of its cycle but for a node without vertices,
    /// from which the next hangs.
    Touching,
}

/// Nodes from 0 (the root) on: each but the root hangs below one with a lesser number, or follows
/// the node before it in a cycle below the same node.
#[derive(Drop)]
pub struct FlatTree {
    uppers: Vec<usize>,
    follows: Vec<bool>,
}

impl Model for FlatTree {
    ghost use Rattle.std.specs.Prelude.{◌≡◌, length};
    ghost use Rattle.node_tree.specs.Flat.{TreeLinks, AreLaid};

    ghost Value = { TreeLinks };

    ghost view = { λ t. record { uppers = t.uppers.items; follows = t.follows.items } };

    ghost invariant = { λ t. AreLaid t.uppers.items t.follows.items };
}

/// Where a node of another tree stands that was grafted on a node of a tree of so many nodes.
pub fn grafted_at(node: usize, count: usize, i: usize) -> usize
    requires from_one { 1 ≤ count }
    requires fits { count - 1 + i < 2 ^ 64 }
    ensures { result ≡ grafted_at node count i }
{
    if i == 0 { node } else { count - 1 + i }
}

impl FlatTree {
    /// The tree of the root alone.
    pub fn new(alloc: Global) -> Result<FlatTree, NoMemory>
        ensures { IfOk result (λ t. t ≡ record { uppers = 0 ∷ []; follows = false ∷ [] }) }
    {
        let uppers = vec![in alloc; 0usize; 1]?;
        let follows = vec![in alloc; false; 1]?;
        Ok(FlatTree { uppers, follows })
    }

    /// The number of nodes.
    pub fn len(&self) -> usize
        ensures uppers { result ≡ length self.now.uppers }
        ensures follows { result ≡ length self.now.follows }
    {
        self.uppers.len()
    }

    /// The node from which a node hangs.
    pub fn upper(&self, node: usize) -> usize
        requires { node < length self.now.uppers }
        ensures { result ≡ slice_index self.now.uppers node }
    {
        self.uppers[node]
    }

    /// Whether a node follows the one before it in a cycle.
    pub fn is_follower(&self, node: usize) -> bool
        requires { node < length self.now.uppers }
        ensures { result ≡ is_follower self.now.follows node }
    {
        self.follows[node]
    }

    /// A new node below another, with no vertex.
    pub fn hang(&mut self, upper: usize) -> Result<usize, NoMemory>
        ensures { IfOk result (λ node. AddsNode self.old self.new node upper false) }
    {
        self.add(upper, false)
    }

    /// A new node, with no vertex.
    fn add(&mut self, upper: usize, follower: bool) -> Result<usize, NoMemory>
        ensures { IfOk result (λ node. AddsNode self.old self.new node upper follower) }
    {
        let node = self.uppers.len();
        self.follows.push(follower)?;
        if let Err(error) = self.uppers.push(upper) {
            let _last = self.follows.pop();
            return Err(error.into());
        }
        Ok(node)
    }

    /// Puts the nodes of another tree but its root behind those of this one. What hangs from
    /// that root then hangs from a node of this tree. One step for each node; where memory
    /// is wanting, some were put.
    pub fn graft(&mut self, node: usize, other: &FlatTree) -> Result<(), NoMemory>
        requires old { 1 ≤ length self.old.uppers }
        requires some { 1 ≤ length other.now.uppers }
        requires upper { (i : ℕ) → 1 ≤ i → i < length other.now.uppers → slice_index other.now.uppers i < i }
        ensures { OnOk result (IsGrafted node self.old other.now self.new) }
    {
        let count = self.len();
        for i in 1..other.len() {
            // known by this call: the numbers of the nodes fit
            let _nodes = self.len();
            let upper = grafted_at(node, count, other.upper(i));
            self.add(upper, other.is_follower(i))?;
        }
        Ok(())
    }

    /// A new node that follows the last one in a cycle, with no vertex.
    fn follow(&mut self) -> Result<usize, NoMemory>
        requires { 1 ≤ length self.old.uppers }
        ensures { IfOk result (λ node. AddsNode self.old self.new node (slice_index self.old.uppers (length self.old.uppers - 1)) true) }
    {
        let upper = self.uppers[self.uppers.len() - 1];
        self.add(upper, true)
    }

    /// The node of the part after that of the last node, as it hangs from it.
    pub fn hang_next(&mut self, hanging: Hanging) -> Result<usize, NoMemory>
        requires { 1 ≤ length self.old.uppers }
        ensures below { hanging ≡ Hanging.Bridged → IfOk result (AddsBelow self.old self.new) }
        ensures after { hanging ≡ Hanging.Followed → IfOk result (AddsAfter self.old self.new) }
        ensures beyond { hanging ≡ Hanging.Touching → IfOk result (AddsBeyond self.old self.new) }
    {
        let last = self.uppers.len() - 1;
        match hanging {
            Hanging::Bridged => self.hang(last),
            Hanging::Followed => self.follow(),
            Hanging::Touching => {
                let empty = self.follow()?;
                self.hang(empty)
            }
        }
    }
}
