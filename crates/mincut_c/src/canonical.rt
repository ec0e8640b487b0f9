//! From the tree of all minimum cuts to their canonical cactus, made flat.

ghost use Rattle.std.specs.Prelude.{◌≤◌, IfOk, IfSome};
ghost use Rattle.node_tree.specs.Finished.{IsFinished};
ghost use Rattle.mincut_c.specs.Shown.{IsCanonicalOf};

use canonical_cactus::canonical;
use cut_definitions::{EdgeList, NoMemory};
use flat_cactus::{FlatCactus, flatten};
use node_tree::{HomedTree, cactus_of_tree};
use std::alloc::Global;
use tree_flattening::canonical_flat;

/// The flat canonical cactus by the arrays of the tree, where that has just its nodes.
fn flat_by_arrays(
    alloc: Global,
    list: &EdgeList,
    tree: &HomedTree,
) -> Result<Option<FlatCactus>, NoMemory>
    requires enough { 2 ≤ list.now.vertices }
    requires finished { IsFinished list.now tree.now }
    ensures { IfOk result (λ o. IfSome o (IsCanonicalOf list.now)) }
{
    canonical_flat(alloc, tree, list.n())
}

/// The flat canonical cactus by a cactus in memory.
fn flat_by_cactus(alloc: Global, list: &EdgeList, tree: HomedTree) -> Result<FlatCactus, NoMemory>
    requires enough { 2 ≤ list.now.vertices }
    requires finished { IsFinished list.now tree }
    ensures { IfOk result (IsCanonicalOf list.now) }
{
    let made = cactus_of_tree(alloc, tree, list.n())?;
    let cactus = canonical(alloc, made.cactus)?;
    // known by this call: that it is a cactus
    let _n = cactus.n();
    let flat = flatten(alloc, &cactus)?;
    Ok(flat)
}

/// The flat canonical cactus of a connected graph, whose tree of minimum cuts is given. No node of
/// a cactus is made where the tree has just its nodes.
pub(crate) fn flat_of_tree(
    alloc: Global,
    list: &EdgeList,
    tree: HomedTree,
) -> Result<FlatCactus, NoMemory>
    requires enough { 2 ≤ list.now.vertices }
    requires finished { IsFinished list.now tree }
    ensures { IfOk result (IsCanonicalOf list.now) }
{
    match flat_by_arrays(alloc, list, &tree)? {
        Some(flat) => Ok(flat),
        None => flat_by_cactus(alloc, list, tree),
    }
}
