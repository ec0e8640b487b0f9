//! The number of the different sides of a normal cactus.

ghost use Rattle.std.specs.Prelude.{◌≡◌, ◌<◌, ◌++◌, ◌∷◌, [], ◌^◌, map, OnOk, IfOk};
ghost use Rattle.std.specs.List.{filter, flat_map};
ghost use Rattle.rooted_cactus.specs.Entries.{nodes_of};
ghost use Rattle.rooted_cactus.specs.Trees.{blocks, blocks_in, vertices};
ghost use Rattle.rooted_cactus.specs.Numbers.{number, total, tally, between, all_own, all_under, own_of, seen, is_inner};

use super::normal::is_cycle;
use super::spare::is_spare;
use super::{Block, Blocks, Node};
use cut_definitions::NoMemory;
use std::alloc::Global;

/// The number of the cuts of a block.
fn cuts_of_block(block: &Block) -> u64
    requires { (tally block.now).own < 2 ^ 63 }
    ensures { result ≡ (tally block.now).own }
{
    let count = block.nodes().len() as u64;
    count * (count + 1) / 2
}

/// The number of the cuts of some blocks.
fn cuts_of_blocks(blocks: &Blocks) -> u64
    requires { all_own (map tally (blocks_in blocks.now)) < 2 ^ 63 }
    ensures { result ≡ all_own (map tally (blocks_in blocks.now)) }
{
    let mut count: u64 = 0;
    'each_block: for i in 0..blocks.len() {
        count += cuts_of_block(blocks.at(i));
    }
    count
}

/// Whether a node has no vertex and only one block, a cycle.
fn is_between(node: &Node) -> bool
    ensures { result ≡ between (vertices node.now) (map tally (blocks node.now)) }
{
    is_spare(node) && is_cycle(node.blocks.at(0))
}

/// The number of the cuts of the blocks of a node, less one if it is between two cycles.
fn own_cuts(node: &Node) -> u64
    requires { all_own (map tally (blocks node.now)) < 2 ^ 63 }
    ensures { result ≡ own_of (vertices node.now) (map tally (blocks node.now)) }
{
    let cuts = cuts_of_blocks(&node.blocks);
    if is_between(node) {
        cuts.saturating_sub(1)
    } else {
        cuts
    }
}

/// Puts a node on the stack if it has a block below it.
fn stack_node<'a>(stack: &mut Vec<&'a Node>, node: &'a Node) -> Result<(), NoMemory>
    ensures { OnOk result (seen stack.new.items ≡ seen stack.old.items ++ filter is_inner (node.now ∷ [])) }
{
    if node.blocks.len() > 0 {
        stack.push(node)?;
    }
    Ok(())
}

/// Puts the nodes that have a block below them on the stack.
fn stack_nodes<'a>(stack: &mut Vec<&'a Node>, nodes: &'a [Node]) -> Result<(), NoMemory>
    ensures { OnOk result (seen stack.new.items ≡ seen stack.old.items ++ filter is_inner nodes.now) }
{
    'each_node: for i in 0..nodes.len() {
        stack_node(stack, &nodes[i])?;
    }
    Ok(())
}

/// Puts the nodes of some blocks on the stack, in order, except those with no block below them. So
/// a long cycle of such nodes takes no memory.
///
/// It takes one step for each node of these blocks, and memory only if the stack has no room. It
/// fails only if it runs out of memory.
pub fn stack_inner<'a>(stack: &mut Vec<&'a Node>, blocks: &'a Blocks) -> Result<(), NoMemory>
    ensures { OnOk result (seen stack.new.items ≡ seen stack.old.items ++ filter is_inner (flat_map nodes_of (blocks_in blocks.now))) }
{
    'each_block: for i in 0..blocks.len() {
        stack_nodes(stack, blocks.at(i).nodes())?;
    }
    Ok(())
}

/// The number of the cuts of a tree, less one for each empty node above only one block, a cycle.
/// It takes one step for each node and block, and fails only if it runs out of memory.
pub fn count_cuts(alloc: Global, root: &Node) -> Result<u64, NoMemory>
    requires { number root.now < 2 ^ 62 }
    ensures { IfOk result (λ k. k ≡ number root.now) }
{
    let mut count: u64 = 0;
    let mut stack = Vec::new(alloc);
    stack.push(root)?;
    'walk: while let Some(node) = stack.pop() {
        count += own_cuts(node);
        stack_inner(&mut stack, &node.blocks)?;
    }
    Ok(count)
}

/// The number of the cuts of a tree, as from `count_cuts`. It takes no memory, and calls itself
/// once for each level of the tree.
#[cycle(number)]
pub fn number_of(node: &Node) -> u64
    requires { number node.now < 2 ^ 62 }
    ensures { result ≡ number node.now }
{
    own_cuts(node) + number_below(&node.blocks)
}

#[cycle(number)]
fn number_below(blocks: &Blocks) -> u64
    requires { all_under (map tally (blocks_in blocks.now)) < 2 ^ 62 }
    ensures { result ≡ all_under (map tally (blocks_in blocks.now)) }
{
    let mut count: u64 = 0;
    'each_block: for i in 0..blocks.items.len() {
        count += number_of_all(blocks.items[i].nodes());
    }
    count
}

#[cycle(number)]
fn number_of_all(nodes: &[Node]) -> u64
    requires { total (map number nodes.now) < 2 ^ 62 }
    ensures { result ≡ total (map number nodes.now) }
{
    let mut count: u64 = 0;
    'each_node: for i in 0..nodes.len() {
        count += number_of(&nodes[i]);
    }
    count
}
