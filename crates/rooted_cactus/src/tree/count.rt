//! The number of nodes of a tree.

ghost use Rattle.std.specs.Prelude.{◌≡◌, ◌-◌, ◌^◌, length, min};
ghost use Rattle.std.specs.List.{flat_map};
ghost use Rattle.rooted_cactus.specs.Trees.{blocks_in, nodes_in};
ghost use Rattle.rooted_cactus.specs.Entered.{entered, entered_block};

use super::{Block, Blocks, Children, Node};

/// The number of a node and all nodes below it, or 2^64 - 1 if there are more. It takes one step
/// for each node and no memory, and calls itself once for each level of the tree.
#[cycle(count)]
pub fn count_node(node: &Node) -> u64
    ensures { result ≡ min (length (entered node.now)) (2 ^ 64 - 1) }
{
    count_blocks(&node.blocks).saturating_add(1)
}

#[cycle(count)]
fn count_blocks(blocks: &Blocks) -> u64
    ensures { result ≡ min (length (flat_map entered_block (blocks_in blocks.now))) (2 ^ 64 - 1) }
{
    let mut count: u64 = 0;
    'each_block: for i in 0..blocks.items.len() {
        count = count.saturating_add(count_block(&blocks.items[i]));
    }
    count
}

#[cycle(count)]
fn count_block(block: &Block) -> u64
    ensures { result ≡ min (length (entered_block block.now)) (2 ^ 64 - 1) }
{
    match block {
        Block::Bridge(node) => count_node(node),
        Block::Cycle(nodes) => count_nodes(nodes),
    }
}

#[cycle(count)]
fn count_nodes(nodes: &Children) -> u64
    ensures { result ≡ min (length (flat_map entered (nodes_in nodes.now))) (2 ^ 64 - 1) }
{
    let mut count: u64 = 0;
    'each_node: for i in 0..nodes.items.len() {
        count = count.saturating_add(count_node(&nodes.items[i]));
    }
    count
}
