//! Nodes and bridges that can be spared, and what takes their place.

ghost use Rattle.std.specs.Prelude.{◌≡◌, ◌∷◌, [], true, false, length};
ghost use Rattle.rooted_cactus.specs.Trees.{blocks, blocks_in, vertices};
ghost use Rattle.rooted_cactus.specs.Normal.{block_shape};
ghost use Rattle.rooted_cactus.specs.Entries.{nodes_of};
ghost use Rattle.rooted_cactus.specs.Trims.{IsBridgeTo, is_spare, is_above_bridge, trimmed_node};

use super::normal::is_cycle;
use super::{Block, Blocks, Node};
use std::alloc::Global;

/// Whether a node has no vertex and only one block.
pub fn is_spare(node: &Node) -> bool
    ensures { result ≡ is_spare (vertices node.now) (blocks node.now) }
{
    node.vertices.len() == 0 && node.blocks.len() == 1
}

/// Whether a node has no vertex and only one block, a bridge.
fn is_above_a_bridge(node: &Node) -> bool
    ensures { result ≡ is_above_bridge (vertices node.now) (blocks node.now) }
{
    is_spare(node) && !is_cycle(node.blocks.at(0))
}

/// The one block of some blocks.
fn only_block(blocks: Blocks) -> Block
    requires { length (blocks_in blocks) ≡ 1 }
    ensures { blocks_in blocks ≡ result ∷ [] }
{
    let mut blocks = blocks;
    blocks.pop().unwrap()
}

/// The node below a bridge.
fn below_bridge(block: Block) -> Node
    requires { (block_shape block).is_cycle ≡ false }
    ensures { nodes_of block ≡ result ∷ [] }
{
    match block {
        Block::Bridge(child) => Box::into_inner(child),
        Block::Cycle(_) => unreachable!(),
    }
}

/// A bridge to the node, in the box that is passed to it. What was in the box is dropped.
pub fn bridge_to(node: Node, place: Box<Node>) -> Block
    ensures { IsBridgeTo result node }
{
    let mut child = place;
    *child = node;
    Block::Bridge(child)
}

/// The bridge to a node without blocks, which stays in its box.
pub fn leaf_bridge(alloc: Global, place: Box<Node>) -> Block
    ensures { (leaf : Node) × IsBridgeTo result leaf × (vertices leaf ≡ vertices place.value) × (blocks leaf ≡ []) }
{
    let mut leaf = place;
    leaf.blocks = Blocks::new(alloc);
    Block::Bridge(leaf)
}

/// A bridge to the node, in the box that is passed to it. If the node has no vertex and only one
/// block, it returns that block instead.
pub fn hung(node: Node, place: Box<Node>) -> Block
    ensures spare { is_spare (vertices node) (blocks node) ≡ true → blocks node ≡ result ∷ [] }
    ensures bridge { is_spare (vertices node) (blocks node) ≡ false → IsBridgeTo result node }
{
    if is_spare(&node) {
        return only_block(node.blocks);
    }
    bridge_to(node, place)
}

/// The node as it may be in a cycle. If the node has no vertex and only one block, a bridge, it
/// returns the node below that bridge instead.
pub fn trimmed(node: Node) -> Node
    ensures { result ≡ trimmed_node node }
{
    if is_above_a_bridge(&node) {
        below_bridge(only_block(node.blocks))
    } else {
        node
    }
}
