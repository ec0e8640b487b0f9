//! The number of minimum cuts, from the tree of them in arrays.

ghost use Rattle.std.specs.Prelude.{◌≡◌, ◌<◌, ◌≤◌, ◌-◌, ◌⊎◌, IfNone, IfOk, IfSome, length};
ghost use Rattle.cut_definitions.specs.Cuts.{mincuts};
ghost use Rattle.node_tree.specs.Finished.{IsFinished, arrays_of};
ghost use Rattle.rooted_cactus.specs.Different.{HasDifferent};
ghost use Rattle.tree_flattening.specs.Arranged.{AreFilled};
ghost use Rattle.tree_flattening.specs.Counted.{places_to};

use crate::arranging::members_of;
use cut_definitions::{EdgeList, NoMemory};
use node_tree::{FlatTree, HomedTree};
use std::alloc::Global;

/// The sum of the places of all nodes but the root in their blocks, counted from 1.
fn sum_of_places(tree: &FlatTree) -> u64
    requires { length tree.now.uppers ≤ 4194304 }
    ensures { result ≡ places_to tree.now.follows (length tree.now.uppers - 1) }
{
    let mut place = 0;
    let mut sum = 0;
    'nodes: for node in 1..tree.len() {
        place = if tree.is_follower(node) { place + 1 } else { 1 };
        sum += place;
    }
    sum
}

/// The number of the minimum cuts of a connected graph, from the tree of these cuts. It returns
/// `None` if the tree has more nodes than the graph has vertices, or a node has no vertex.
///
/// A side has all that is under some adjacent nodes of one block. So as many sides end with a node
/// as its place in its block says, and no two are the same if each node has a vertex. It takes one
/// step for each node and vertex, and memory in proportion to n. It fails only if it runs out of
/// memory.
pub fn count_of_tree(
    alloc: Global,
    list: &EdgeList,
    tree: &HomedTree,
) -> Result<Option<u64>, NoMemory>
    requires enough { 2 ≤ list.now.vertices }
    requires finished { IsFinished list.now tree.now }
    ensures count { IfOk result (λ o. IfSome o (λ count. HasDifferent count (mincuts list.now))) }
    ensures none { IfOk result (λ o. IfNone o ((list.now.vertices < length tree.now.tree.uppers) ⊎ ¬ (AreFilled list.now.vertices (arrays_of tree.now)))) }
{
    let Some(_members) = members_of(alloc, tree, list.n())? else {
        return Ok(None);
    };
    Ok(Some(sum_of_places(&tree.tree)))
}
