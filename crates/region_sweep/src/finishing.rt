//! From the tree of the minimum cuts to their cactus.

ghost use Rattle.std.specs.Prelude.{◌≡◌, ◌≤◌, IfOk};
ghost use Rattle.cut_definitions.specs.Cuts.{value as least_value};
ghost use Rattle.node_tree.specs.Finished.{IsFinished};
ghost use Rattle.rooted_cactus.specs.Solving.{IsSolved};

use cut_definitions::{EdgeList, NoMemory};
use node_tree::{HomedTree, cactus_of_tree, normal_form};
use rooted_cactus::Solved;
use std::alloc::Global;

/// The cactus of the minimum cuts of a graph, in its normal form, made of the tree of these cuts
/// and beside the value, which is given; rows are not needed. Time and memory are in proportion to
/// the nodes of the tree and the vertices. It is refused only where memory is wanting.
pub fn cactus_by_tree(
    alloc: Global,
    list: &EdgeList,
    value: u64,
    tree: HomedTree,
) -> Result<Solved, NoMemory>
    requires enough { 2 ≤ list.now.vertices }
    requires value { value ≡ least_value list.now }
    requires finished { IsFinished list.now tree }
    ensures { IfOk result (IsSolved list.now) }
{
    let n = list.n();
    let made = cactus_of_tree(alloc, tree, n)?;
    let cactus = normal_form(alloc, made)?;
    Ok(Solved { value, cactus })
}
