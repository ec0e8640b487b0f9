//! Whether a tree is normal, so that no node and no block of it can be spared.

ghost use Rattle.std.specs.Prelude.{◌≡◌, ◌==◌, ◌∷◌, length, map, IfOk};
ghost use Rattle.std.specs.List.{list_all};
ghost use Rattle.rooted_cactus.specs.Trees.{blocks, blocks_in, vertices};
ghost use Rattle.rooted_cactus.specs.Normal.{shape, block_shape, well_placed};
ghost use Rattle.rooted_cactus.specs.Placed.{is_placed};

use super::number::stack_inner;
use super::{Block, Blocks, Node};
use cut_definitions::NoMemory;
use std::alloc::Global;

/// Whether a node below a block has a vertex or lies in enough blocks.
fn is_well_placed(node: &Node, above_is_cycle: bool) -> bool
    ensures { result ≡ well_placed (length (vertices node.now) == 0) (above_is_cycle ∷ map (λ b. (block_shape b).is_cycle) (blocks node.now)) }
{
    if node.vertices.len() > 0 {
        return true;
    }
    match node.blocks.items.len() {
        0 => false,
        1 => above_is_cycle && is_cycle(&node.blocks.items[0]),
        _ => true,
    }
}

/// Whether a block is a cycle.
pub fn is_cycle(block: &Block) -> bool
    ensures { result ≡ (block_shape block.now).is_cycle }
{
    match block {
        Block::Bridge(_) => false,
        Block::Cycle(_) => true,
    }
}

/// Whether the nodes of a block below its upper node are well placed, and whether a cycle has two
/// or more of them.
fn block_is_placed(block: &Block) -> bool
    ensures { result ≡ is_placed block.now }
{
    let above_is_cycle = is_cycle(block);
    let nodes = block.nodes();
    'each_node: for i in 0..nodes.len() {
        if !is_well_placed(&nodes[i], above_is_cycle) {
            return false;
        }
    }
    !above_is_cycle || nodes.len() >= 2
}

/// Whether `block_is_placed` holds for all blocks.
fn blocks_are_placed(blocks: &Blocks) -> bool
    ensures { result ≡ list_all is_placed (blocks_in blocks.now) }
{
    'each_block: for i in 0..blocks.len() {
        if !block_is_placed(blocks.at(i)) {
            return false;
        }
    }
    true
}

/// Whether all below the upper node of some blocks is normal. It takes one step for each node and
/// no memory, and calls itself once for each level of the tree.
#[cycle(normal)]
pub fn blocks_are_normal(blocks: &Blocks) -> bool
    ensures { result ≡ list_all (λ b. (block_shape b).fine) (blocks_in blocks.now) }
{
    'each_block: for i in 0..blocks.items.len() {
        if !block_is_normal(&blocks.items[i]) {
            return false;
        }
    }
    true
}

#[cycle(normal)]
fn block_is_normal(block: &Block) -> bool
    ensures { result ≡ (block_shape block.now).fine }
{
    block_is_placed(block) && nodes_are_normal(block.nodes())
}

/// Whether all below each of some nodes is normal.
#[cycle(normal)]
fn nodes_are_normal(nodes: &[Node]) -> bool
    ensures { result ≡ list_all (λ x. (shape x).fine) nodes.now }
{
    'each_node: for i in 0..nodes.len() {
        if !blocks_are_normal(&nodes[i].blocks) {
            return false;
        }
    }
    true
}

/// Whether all below a node is normal, as from `blocks_are_normal`, by a loop with a stack. It
/// takes one step for each node and block, and fails only if it runs out of memory.
pub fn is_normal_below(alloc: Global, root: &Node) -> Result<bool, NoMemory>
    ensures { IfOk result (λ b. b ≡ list_all (λ b. (block_shape b).fine) (blocks root.now)) }
{
    let mut stack = Vec::new(alloc);
    stack.push(root)?;
    'walk: while let Some(node) = stack.pop() {
        if !blocks_are_placed(&node.blocks) {
            return Ok(false);
        }
        stack_inner(&mut stack, &node.blocks)?;
    }
    Ok(true)
}
