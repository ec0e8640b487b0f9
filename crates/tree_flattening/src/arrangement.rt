//! A tree in arrays whose blocks and cycles are in the order of a canonical cactus.

ghost use Rattle.std.specs.Prelude.{◌≡◌, ◌-◌, ◌<◌, ◌≤◌, length, slice_index};
ghost use Rattle.std.specs.List.{range_with_len};
ghost use Rattle.tree_flattening.specs.Arranged.{plan_of, run_list};
ghost use Rattle.tree_flattening.specs.Plans.{run_of};

use crate::groups::Groups;
use node_tree::FlatTree;

/// Nodes of a block, from one number up to before another. If they are turned, they go from the
/// last to the first.
#[derive(Clone, Copy)]
pub struct Run {
    first: usize,
    end: usize,
    is_turned: bool,
}

impl Run {
    /// The number of nodes.
    pub fn len(self) -> usize
        requires { self.first ≤ self.end }
        ensures { result ≡ length (run_list self) }
    {
        self.end - self.first
    }

    /// The node at a place, counted from 0.
    pub fn at(self, place: usize) -> usize
        requires { place < length (run_list self) }
        ensures { result ≡ slice_index (run_list self) place }
    {
        if self.is_turned {
            self.end - 1 - place
        } else {
            self.first + place
        }
    }
}

/// A tree with the vertices of each node, and the least vertex at or under it. `heads` has the
/// first nodes of the blocks below each node, in the order of the least vertices of the blocks.
#[derive(Drop)]
pub struct Arranged<'a> {
    tree: &'a FlatTree,
    members: Groups,
    heads: Groups,
    leasts: Vec<u32>,
}

impl<'a> Arranged<'a> {
    /// The arrangement with these parts.
    pub fn new(tree: &'a FlatTree, members: Groups, heads: Groups, leasts: Vec<u32>) -> Arranged<'a>
        ensures tree { result.tree.now ≡ tree.now }
        ensures members { result.members ≡ members }
        ensures heads { result.heads ≡ heads }
        ensures leasts { result.leasts.items ≡ leasts.items }
    {
        Arranged {
            tree,
            members,
            heads,
            leasts,
        }
    }

    /// The number of nodes.
    pub fn len(&self) -> usize
        ensures { result ≡ (plan_of self.now).count }
    {
        self.tree.len()
    }

    /// The vertices of a node.
    pub fn own(&self, node: usize) -> &[u32]
        requires { node < length self.now.members }
        ensures { result.now ≡ (plan_of self.now).own node }
    {
        self.members.at(node)
    }

    /// The first nodes of the blocks below a node.
    pub fn heads(&self, node: usize) -> &[u32]
        requires { node < length self.now.heads }
        ensures { result.now ≡ (plan_of self.now).heads node }
    {
        self.heads.at(node)
    }

    /// The number after the last node that follows a node in its block.
    fn end_of_run(&self, head: usize) -> usize
        requires { head < length self.now.tree.now.uppers }
        ensures ordered { head < result }
        ensures within { result ≤ length self.now.tree.now.uppers }
        ensures run { run_of self.now.tree.now head ≡ range_with_len head (result - head) }
    {
        let count = self.tree.len();
        let mut end = head + 1;
        'followers: while end < count && self.tree.is_follower(end) {
            end += 1;
        }
        end
    }

    /// The nodes of the block that begins with a node.
    pub fn run(&self, head: usize) -> Run
        requires within { head < (plan_of self.now).count }
        requires leasts { length self.now.leasts.items ≡ (plan_of self.now).count }
        ensures ordered { result.first ≤ result.end }
        ensures run { run_list result ≡ (plan_of self.now).run head }
    {
        let end = self.end_of_run(head);
        let is_turned = self.leasts[end - 1] < self.leasts[head];
        Run {
            first: head,
            end,
            is_turned,
        }
    }
}
