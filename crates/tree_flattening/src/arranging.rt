//! The blocks of a tree in the order of their least vertices.

ghost use Rattle.std.specs.Prelude.{ℕ, ◌≡◌, ◌+◌, ◌-◌, ◌<◌, ◌≤◌, ◌^◌, ◌⊎◌, [], IfOk, IfSome, IfNone, IsFalse, IsTrue, length, not, slice_index, slice_index_or};
ghost use Rattle.std.specs.List.{filter, range_with_len};
ghost use Rattle.std.specs.List.Sorted.{IsNonDecreasingBy, IsPermutation};
ghost use Rattle.node_tree.specs.Finished.{arrays_of};
ghost use Rattle.node_tree.specs.Flat.{AreNodes, is_follower};
ghost use Rattle.tree_flattening.specs.Arranged.{AreFilled, AreOwn, HasNoTriangle, IsOrdered, IsSorted, IsUnfit};

use crate::arrangement::Arranged;
use crate::groups::Groups;
use crate::leasts::{Leasts, leasts_of};
use cut_definitions::NoMemory;
use node_tree::{FlatTree, HomedTree};
use std::alloc::Global;

/// The vertices 1 to n.
fn vertices_to(alloc: Global, n: u32) -> Result<Vec<u32>, NoMemory>
    ensures { IfOk result (λ v. v.items ≡ range_with_len 1 n) }
{
    let mut vertices = Vec::with_capacity(alloc, n as usize)?;
    'vertices: for before in 0..n {
        vertices.push(before + 1)?;
    }
    Ok(vertices)
}

/// The node from which each node hangs.
fn uppers_in(alloc: Global, tree: &FlatTree) -> Result<Vec<usize>, NoMemory>
    ensures { IfOk result (λ v. v.items ≡ tree.now.uppers) }
{
    let mut uppers = Vec::with_capacity(alloc, tree.len())?;
    'nodes: for node in 0..tree.len() {
        uppers.push(tree.upper(node))?;
    }
    Ok(uppers)
}

/// The nodes that are the first of a block: those that follow no other, but for the root.
fn heads_in(alloc: Global, tree: &FlatTree) -> Result<Vec<u32>, NoMemory>
    requires { length tree.now.uppers < 2 ^ 32 }
    ensures { IfOk result (λ v. v.items ≡ filter (λ h. not (is_follower tree.now.follows h)) (range_with_len 1 (length tree.now.uppers - 1))) }
{
    let mut heads = Vec::new(alloc);
    'nodes: for node in 1..tree.len() {
        if !tree.is_follower(node) {
            heads.push(node as u32)?;
        }
    }
    Ok(heads)
}

/// Whether no group is empty.
fn are_filled(groups: &Groups) -> bool
    ensures yes { IsTrue result → (i : ℕ) → i < length groups.now → 1 ≤ length (slice_index_or groups.now i []) }
    ensures no { IsFalse result → ¬ ((i : ℕ) → i < length groups.now → 1 ≤ length (slice_index_or groups.now i [])) }
{
    'groups: for group in 0..groups.len() {
        if groups.at(group).is_empty() {
            return false;
        }
    }
    true
}

/// Whether somewhere exactly two nodes follow each other. With the node above they form a cycle of
/// three nodes.
fn has_triangle(tree: &FlatTree) -> bool
    ensures yes { IsTrue result → ¬ (HasNoTriangle tree.now) }
    ensures no { IsFalse result → HasNoTriangle tree.now }
{
    let count = tree.len();
    'nodes: for node in 2..count {
        let is_last = node + 1 == count || !tree.is_follower(node + 1);
        if is_last && tree.is_follower(node) && !tree.is_follower(node - 1) {
            return true;
        }
    }
    false
}

/// Sorts the first nodes of the blocks below each node by the least vertices of the blocks.
fn sort_heads(heads: &mut Groups, blocks: &[u32])
    ensures len { length heads.new ≡ length heads.old }
    ensures moved { (i : ℕ) → i < length heads.old → IsPermutation (slice_index_or heads.old i []) (slice_index_or heads.new i []) }
    ensures sorted { (i : ℕ) → i < length heads.old → IsNonDecreasingBy (slice_index blocks.now) (slice_index_or heads.new i []) }
{
    'nodes: for node in 0..heads.len() {
        heads.sort(node, blocks);
    }
}

/// The tree, arranged, whose nodes have these vertices.
fn arrange_filled<'a>(
    alloc: Global,
    tree: &'a FlatTree,
    members: Groups,
) -> Result<Arranged<'a>, NoMemory>
    requires few { length tree.now.uppers < 2 ^ 32 }
    requires upper { (i : ℕ) → 1 ≤ i → i < length tree.now.uppers → slice_index tree.now.uppers i < i }
    requires members { length members ≡ length tree.now.uppers }
    requires filled { (i : ℕ) → i < length members → 1 ≤ length (slice_index_or members i []) }
    ensures { IfOk result (IsSorted tree.now members) }
{
    let firsts = heads_in(alloc, tree)?;
    let uppers = uppers_in(alloc, tree)?;
    let mut heads = Groups::of(alloc, &firsts, &uppers, tree.len())?;
    let Leasts { nodes, blocks } = leasts_of(alloc, tree, &members, &heads)?;
    sort_heads(&mut heads, &blocks);
    Ok(Arranged::new(tree, members, heads, nodes))
}

/// The vertices of each node of a tree, which are 1 to n, or `None` if there are more nodes than
/// vertices, or a node has no vertex. It takes one step for each node and vertex and memory in
/// proportion to n, and fails only if it runs out of memory.
pub fn members_of(alloc: Global, tree: &HomedTree, n: u32) -> Result<Option<Groups>, NoMemory>
    requires homes { length tree.now.homes.items ≡ n + 1 }
    requires nodes { AreNodes (arrays_of tree.now) }
    ensures own { IfOk result (λ o. IfSome o (AreOwn n (arrays_of tree.now))) }
    ensures none { IfOk result (λ o. IfNone o ((n < length tree.now.tree.uppers) ⊎ ¬ (AreFilled n (arrays_of tree.now)))) }
{
    let count = tree.tree.len();
    if count > n as usize {
        return Ok(None);
    }
    let vertices = vertices_to(alloc, n)?;
    let members = Groups::of(alloc, &vertices, &tree.homes, count)?;
    if !are_filled(&members) {
        return Ok(None);
    }
    Ok(Some(members))
}

/// A tree over the vertices 1 to n whose blocks are in the order of their least vertices. It
/// returns `None` if there are more nodes than vertices, a node has no vertex, or a cycle has
/// three nodes with the one above.
///
/// It takes O(n log n), and memory in proportion to n. It fails only if it runs out of memory.
pub fn arrange<'a>(
    alloc: Global,
    tree: &'a HomedTree,
    n: u32,
) -> Result<Option<Arranged<'a>>, NoMemory>
    requires homes { length tree.now.homes.items ≡ n + 1 }
    requires nodes { AreNodes (arrays_of tree.now) }
    ensures ordered { IfOk result (λ o. IfSome o (IsOrdered n (arrays_of tree.now))) }
    ensures unfit { IfOk result (λ o. IfNone o (IsUnfit n (arrays_of tree.now))) }
{
    if has_triangle(&tree.tree) {
        return Ok(None);
    }
    let Some(members) = members_of(alloc, tree, n)? else {
        return Ok(None);
    };
    let arranged = arrange_filled(alloc, &tree.tree, members)?;
    Ok(Some(arranged))
}
