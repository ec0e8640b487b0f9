//! A tree put together from its entries, from the last to the first.

ghost use Rattle.std.specs.Prelude.{List, ℕ, ◌≡◌, ◌∷◌, [], ◌≤◌, ◌<◌, length, take, drop, OnOk, IfOk, slice_index_or};
ghost use Rattle.cut_definitions.specs.Weight.{VertexSet};
ghost use Rattle.rooted_cactus.specs.Entries.{Read, IsReady, all_drawn, bridge_read, cycle_read, drawn, left, nothing_read, read_entries, top_first, used, wanted};
ghost use Rattle.rooted_cactus.specs.Trims.{Each};

use super::Node;
use super::entries::{Joint, ShedNode};
use super::maker::Maker;
use cut_definitions::NoMemory;
use std::alloc::Global;

/// The block that stands for a bridge to the node on top of the stack.
fn draw_bridge<M: Maker>(stack: &mut Vec<M::Node>, place: Box<Node>) -> M::Block
    requires { 0 < length stack.old.items }
    ensures block { (sets : List ℕ → VertexSet) (rs : List Read) → Each (M.node_is sets) rs (top_first stack.old.items) → M.block_is sets (bridge_read (slice_index_or rs 0 nothing_read)) result }
    ensures stack { top_first stack.new.items ≡ drop 1 (top_first stack.old.items) }
{
    let node = stack.pop().unwrap();
    M::bridge(node, place)
}

/// The block that stands for a cycle through `count` nodes from the top of the stack.
fn draw_cycle<M: Maker>(
    alloc: Global,
    stack: &mut Vec<M::Node>,
    count: usize,
) -> Result<M::Block, NoMemory>
    requires { count ≤ length stack.old.items }
    ensures block { IfOk result (λ b. (sets : List ℕ → VertexSet) (rs : List Read) → Each (M.node_is sets) rs (top_first stack.old.items) → M.block_is sets (cycle_read (take count rs)) b) }
    ensures stack { OnOk result (top_first stack.new.items ≡ drop count (top_first stack.old.items)) }
{
    let nodes = stack.split_off(stack.len() - count)?;
    let block = M::cycle(alloc, nodes)?;
    Ok(block)
}

/// A block through the nodes on top of the stack.
fn draw_block<M: Maker>(
    alloc: Global,
    stack: &mut Vec<M::Node>,
    joint: Joint,
) -> Result<M::Block, NoMemory>
    requires { used joint ≤ length stack.old.items }
    ensures block { IfOk result (λ b. (sets : List ℕ → VertexSet) (rs : List Read) → M.may_read sets → Each (M.node_is sets) rs (top_first stack.old.items) → M.block_is sets (drawn sets joint rs) b) }
    ensures stack { OnOk result (top_first stack.new.items ≡ drop (used joint) (top_first stack.old.items)) }
{
    match joint {
        Joint::Bridge(place) => Ok(draw_bridge::<M>(stack, place)),
        Joint::Leaf(place) => Ok(M::leaf(alloc, place)),
        Joint::Cycle(count) => {
            let block = draw_cycle::<M>(alloc, stack, count)?;
            Ok(block)
        }
    }
}

/// Takes the nodes of several blocks from the top of the stack, and makes a row of the blocks.
/// They are listed with the last first.
fn draw_blocks<M: Maker>(
    alloc: Global,
    stack: &mut Vec<M::Node>,
    joints: Vec<Joint>,
    row: &mut Vec<M::Block>,
) -> Result<(), NoMemory>
    requires enough { wanted (top_first joints.items) ≤ length stack.old.items }
    requires empty { row.old.items ≡ [] }
    ensures blocks { OnOk result ((sets : List ℕ → VertexSet) (rs : List Read) → M.may_read sets → Each (M.node_is sets) rs (top_first stack.old.items) → Each (M.block_is sets) (all_drawn sets (top_first joints.items) rs) row.new.items) }
    ensures stack { OnOk result (top_first stack.new.items ≡ drop (wanted (top_first joints.items)) (top_first stack.old.items)) }
{
    let mut joints = joints;
    row.reserve_exact(joints.len())?;
    'draw: while let Some(joint) = joints.pop() {
        let block = draw_block::<M>(alloc, stack, joint)?;
        row.push(block)?;
    }
    Ok(())
}

/// What a maker makes of the entries of a tree.
///
/// It goes from the last entry to the first, so the nodes below an entry are finished before it,
/// and a deep tree does not overflow the call stack. All entries share one row of blocks.
///
/// It takes one step for each node and block, and memory for the nodes and for the blocks of one
/// node, besides what the maker takes. It fails only if it runs out of memory; everything is
/// dropped then.
pub fn put_together<M: Maker>(alloc: Global, entries: Vec<ShedNode>) -> Result<M::Node, NoMemory>
    requires ready { IsReady entries.items 0 }
    requires one { left entries.items 0 ≡ 1 }
    ensures { IfOk result (λ x. (sets : List ℕ → VertexSet) (r : Read) → M.may_read sets → read_entries sets entries.items [] ≡ r ∷ [] → M.node_is sets r x) }
{
    let mut entries = entries;
    let mut finished = Vec::with_capacity(alloc, entries.len())?;
    let mut row = Vec::new(alloc);
    'up: while let Some(entry) = entries.pop() {
        let ShedNode { vertices, joints } = entry;
        draw_blocks::<M>(alloc, &mut finished, joints, &mut row)?;
        let node = M::node(alloc, vertices, &mut row)?;
        finished.push(node)?;
    }
    Ok(finished.pop().unwrap())
}
