//! The outline of a tree, in the order of entering: for each node how many nodes are right below
//! it, and from that the sizes of the subtrees.

ghost use Rattle.std.specs.Prelude.{◌≡◌, ℕ, ◌+◌, ◌++◌, ◌<◌, ◌≤◌, length, map, OnOk, IfOk};
ghost use Rattle.std.specs.List.{flat_map};
ghost use Rattle.rooted_cactus.specs.Trees.{blocks_in};
ghost use Rattle.rooted_cactus.specs.Outlines.{Hops, all_outlines, block_entries, block_outline, outline, outlined, sizes};
ghost use Rattle.rooted_cactus.specs.Heads.{entries_waiting};

use super::{Blocks, Node};
use cut_definitions::NoMemory;
use std::alloc::Global;

/// A node in the order of entering.
#[derive(Clone, Copy)]
pub struct NodeOutline {
    /// The number of the nodes right below it.
    pub children: usize,
    /// If this node is the first one of a block, the number of the nodes of that block; 0
    /// otherwise.
    pub head: usize,
}

/// A node that is still to be entered, with the head that its entry gets.
#[derive(Drop)]
struct Seen<'a> {
    node: &'a Node,
    head: usize,
}

/// The head of a node of a block: the number of the nodes for the first, and 0 for the others.
fn head_at(place: usize, count: usize) -> usize
    ensures first { place ≡ 0 → result ≡ count }
    ensures others { 0 < place → result ≡ 0 }
{
    if place == 0 { count } else { 0 }
}

/// Puts the nodes of a block on the stack, the first on top.
fn stack_nodes<'a>(stack: &mut Vec<Seen<'a>>, nodes: &'a [Node]) -> Result<(), NoMemory>
    ensures entries { OnOk result (entries_waiting stack.new.items ≡ block_entries (map outline nodes.now) ++ entries_waiting stack.old.items) }
    ensures length { OnOk result (length stack.new.items ≡ length stack.old.items + length nodes.now) }
{
    let count = nodes.len();
    let mut i = count;
    'back: while i > 0 {
        i -= 1;
        stack.push(Seen {
            node: &nodes[i],
            head: head_at(i, count),
        })?;
    }
    Ok(())
}

/// Puts the nodes of the blocks on the stack, the first on top.
fn stack_blocks<'a>(stack: &mut Vec<Seen<'a>>, blocks: &'a Blocks) -> Result<(), NoMemory>
    ensures entries { OnOk result (entries_waiting stack.new.items ≡ flat_map block_entries (map block_outline (blocks_in blocks.now)) ++ entries_waiting stack.old.items) }
    ensures length { OnOk result (length stack.new.items ≡ length stack.old.items + length (all_outlines (map block_outline (blocks_in blocks.now)))) }
{
    let mut i = blocks.items.len();
    'back: while i > 0 {
        i -= 1;
        stack_nodes(stack, blocks.items[i].nodes())?;
    }
    Ok(())
}

/// The entries of all nodes of a tree, in the order of entering.
///
/// It takes one step for each node and block, in a loop with a stack, and memory in proportion to
/// the nodes. It fails only if it runs out of memory. Room for `expected` nodes is reserved at
/// once. There may be more of them, or fewer.
pub fn outline_of(alloc: Global, root: &Node, expected: usize) -> Result<Vec<NodeOutline>, NoMemory>
    ensures { IfOk result (λ v. v.items ≡ outlined root.now) }
{
    let mut entries = Vec::with_capacity(alloc, expected)?;
    let mut stack = Vec::with_capacity(alloc, expected)?;
    stack.push(Seen {
        node: root,
        head: 0,
    })?;
    'walk: while let Some(seen) = stack.pop() {
        let before = stack.len();
        stack_blocks(&mut stack, &seen.node.blocks)?;
        entries.push(NodeOutline {
            children: stack.len() - before,
            head: seen.head,
        })?;
    }
    Ok(entries)
}

/// The place at which the last of `count` subtrees ends that follow one another from a place on.
fn end_of(sizes: &[usize], from: usize, count: usize) -> usize
    requires { (to : ℕ) × (to ≤ length sizes.now) × Hops sizes.now count from to }
    ensures { Hops sizes.now count from result }
{
    let mut to = from;
    let mut left = count;
    'subtrees: while left > 0 {
        to += sizes[to];
        left -= 1;
    }
    to
}

/// The numbers of the nodes right below each node.
fn child_counts(alloc: Global, entries: &[NodeOutline]) -> Result<Vec<usize>, NoMemory>
    ensures { IfOk result (λ v. v.items ≡ map (λ (e : NodeOutline). e.children) entries.now) }
{
    let mut counts = Vec::with_capacity(alloc, entries.len())?;
    'entries: for i in 0..entries.len() {
        counts.push(entries[i].children)?;
    }
    Ok(counts)
}

/// The sizes of the subtrees of a tree from the entries of its nodes: for each node, in the order
/// of entering, how many nodes there are from it down.
///
/// It goes from the last node to the first, so the sizes of the subtrees right below a node are
/// known before its own. It takes one step and 8 bytes for each node, and fails only if it runs
/// out of memory.
pub fn sizes_along(alloc: Global, entries: &[NodeOutline]) -> Result<Vec<usize>, NoMemory>
    requires { (x : Node) × (entries.now ≡ outlined x) }
    ensures { (x : Node) → entries.now ≡ outlined x → IfOk result (λ v. v.items ≡ sizes x) }
{
    let mut sizes = child_counts(alloc, entries)?;
    let mut i = sizes.len();
    'back: while i > 0 {
        i -= 1;
        let end = end_of(&sizes, i + 1, sizes[i]);
        sizes[i] = end - i;
    }
    Ok(sizes)
}

/// The sizes of the subtrees of a tree: for each node, in the order of entering, how many nodes
/// there are from it down.
///
/// It takes three loops, of one step for each node and block, so that a deep tree does not
/// overflow the call stack. It takes memory in proportion to the nodes, and fails only if it runs
/// out of memory. Room for `expected` nodes is reserved at once. There may be more of them, or
/// fewer.
pub fn subtree_sizes(alloc: Global, root: &Node, expected: usize) -> Result<Vec<usize>, NoMemory>
    ensures { IfOk result (λ v. v.items ≡ sizes root.now) }
{
    let entries = outline_of(alloc, root, expected)?;
    let sizes = sizes_along(alloc, &entries)?;
    Ok(sizes)
}
