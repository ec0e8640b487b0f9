//! The nodes of the parts of a region.

ghost use Rattle.std.specs.Prelude.{◌≡◌, ◌<◌, ◌≤◌, ◌⊎◌, ℕ, IfOk, length, slice_index};
ghost use Rattle.cut_definitions.specs.Graph.{Graph};
ghost use Rattle.cut_definitions.specs.Weight.{VertexSet};
ghost use Rattle.node_tree.specs.Flat.{AreLinked};
ghost use Rattle.node_tree.specs.Linked.{IsWeighedChain, AreSmall, MayHang};

use crate::kind::hanging;
use crate::tree::{FlatTree, Hanging};
use cut_definitions::NoMemory;

/// How the part after an inner one hangs from it, by what lies between the parts.
fn hanging_after(i: u32, count: u32, later: &[u64], next: &[u64], value: u64) -> Hanging
    requires from_two { 2 ≤ i }
    requires below_count { i < count }
    requires later { count < length later.now }
    requires next { count < length next.now }
    requires small { AreSmall count value later.now next.now }
    ensures { (g : Graph) (region : VertexSet) (t : ℕ) (part : ℕ → ℕ) → IsWeighedChain g region t count part value later.now next.now → MayHang g count part i result }
{
    let inner = i + 1 < count;
    let after = if inner { 2 * later[i as usize + 1] } else { 0 };
    hanging(2 * later[i as usize], inner, after, next[i as usize], value)
}

/// Hangs a node for each part from the second on, the second below the node of the region, which
/// is that of the first part, and writes the node of each of them.
///
/// `nodes[1]` is the node of the region; those of the other parts are written behind it, and no
/// other place changes. `later` and `next` are what `weigh_parts` wrote of a chain. Each part
/// takes one step. Want of memory is its only refusal, and then nodes may have been hung.
pub fn hang_parts(
    tree: &mut FlatTree,
    count: u32,
    later: &[u64],
    next: &[u64],
    value: u64,
    nodes: &mut [usize],
) -> Result<(), NoMemory>
    requires node { slice_index nodes.old 1 < length tree.old.uppers }
    requires two { 2 ≤ count }
    requires later { count < length later.now }
    requires next { count < length next.now }
    requires nodes { count < length nodes.old }
    requires small { AreSmall count value later.now next.now }
    ensures long { length nodes.new ≡ length nodes.old }
    ensures kept { (j : ℕ) → (j ≤ 1) ⊎ (count < j) → slice_index nodes.new j ≡ slice_index nodes.old j }
    ensures within { IfOk result (λ _. (i : ℕ) → 1 ≤ i → i ≤ count → slice_index nodes.new i < length tree.new.uppers) }
    ensures linked { IfOk result (λ _. (g : Graph) (region : VertexSet) (t : ℕ) (part : ℕ → ℕ) → IsWeighedChain g region t count part value later.now next.now →
        AreLinked g count part (λ i. slice_index nodes.new i) (slice_index nodes.old 1) tree.old tree.new) }
{
    let _nodes = tree.len();
    let second = tree.hang(nodes[1])?;
    nodes[2] = second;
    for i in 2..count {
        let hanging = hanging_after(i, count, later, next, value);
        let last = tree.hang_next(hanging)?;
        nodes[i as usize + 1] = last;
    }
    Ok(())
}
