//! From a tree in arrays to its flat canonical cactus.

ghost use Rattle.std.specs.Prelude.{◌≡◌, ◌+◌, ◌≤◌, IfNone, IfOk, IfSome, length, slice_index};
ghost use Rattle.node_tree.specs.Finished.{arrays_of};
ghost use Rattle.node_tree.specs.Flat.{AreNodes};
ghost use Rattle.tree_flattening.specs.Arranged.{IsUnfit};
ghost use Rattle.tree_flattening.specs.CanonicalFlats.{IsCanonicalFlat};

use crate::arranging::arrange;
use crate::walking::flatten_arranged;
use cut_definitions::NoMemory;
use flat_cactus::FlatCactus;
use node_tree::HomedTree;
use std::alloc::Global;

/// The flat canonical cactus over the vertices 1 to n whose sides are those of a tree in arrays.
/// It returns `None` exactly if there are more nodes than vertices, a node has no vertex, or a
/// cycle has three nodes with the one above. In these cases the canonical cactus has other nodes
/// than the tree.
///
/// The tree has a home for each of the vertices 1 to n. Its arrays are those of a tree of nodes in
/// which an upper node comes before its lower ones, and the home of vertex 1 is the root.
///
/// Blocks are put in the order of the least vertices below them. Cycles are turned so that the
/// least vertex at or under their first node below the upper one is less than that at or under the
/// last. Then nodes are numbered in the order in which the tree is entered.
///
/// It takes O(n log n), or O(n) if the blocks of each node are in order already. It works by
/// loops, so that a deep tree does not overflow the call stack. It takes memory in proportion to
/// n, and fails only if it runs out of memory.
pub fn canonical_flat(
    alloc: Global,
    tree: &HomedTree,
    n: u32,
) -> Result<Option<FlatCactus>, NoMemory>
    requires some { 1 ≤ n }
    requires homes { length tree.now.homes.items ≡ n + 1 }
    requires nodes { AreNodes (arrays_of tree.now) }
    requires one { slice_index tree.now.homes.items 1 ≡ 0 }
    ensures flat { IfOk result (λ o. IfSome o (IsCanonicalFlat n (arrays_of tree.now))) }
    ensures fit { IfOk result (λ o. IfSome o (λ f. ¬ (IsUnfit n (arrays_of tree.now)))) }
    ensures none { IfOk result (λ o. IfNone o (IsUnfit n (arrays_of tree.now))) }
{
    let Some(arranged) = arrange(alloc, tree, n)? else {
        return Ok(None);
    };
    let flat = flatten_arranged(alloc, &arranged, n)?;
    Ok(Some(flat))
}
