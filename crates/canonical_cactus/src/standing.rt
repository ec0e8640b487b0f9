//! Whether the blocks and the cycles of a tree are in order, by loops, so that a deep tree does
//! not overflow the call stack.

ghost use Rattle.std.specs.Prelude.{List, Option, ℕ, ◌≡◌, ◌&&◌, [], ◌∷◌, ◌++◌, IfOk, length, map, nat_le};
ghost use Rattle.std.specs.List.{filter, flat_map, list_all};
ghost use Rattle.rooted_cactus.specs.Entries.{nodes_of};
ghost use Rattle.rooted_cactus.specs.Numbers.{is_inner, seen};
ghost use Rattle.rooted_cactus.specs.Trees.{blocks_in, nodes_in};
ghost use Rattle.canonical_cactus.specs.Canonical.{all_vertices, arranged, arranged_block, ascend, leasts, rises};
ghost use Rattle.canonical_cactus.specs.Inner.{AreInner, IsWalk, inner_below, least_of, leasts_of, is_turned, stands};
ghost use Rattle.canonical_cactus.specs.Standing.{least_in};

use crate::order::{Standing, comes_after, first_of, least_vertex, lesser, vertex_or_zero};
use cut_definitions::NoMemory;
use rooted_cactus::{Block, Blocks, Children, Node, stack_inner};
use std::alloc::Global;

/// The root, and all nodes that have a block below them, each before those below it. Room for
/// `expected` nodes is reserved at once.
fn inner_nodes<'a>(
    alloc: Global,
    root: &'a Node,
    expected: usize,
) -> Result<Vec<&'a Node>, NoMemory>
    ensures { IfOk result (λ v. AreInner root.now (seen v.items)) }
{
    let mut nodes = Vec::with_capacity(alloc, expected)?;
    let mut stack = Vec::with_capacity(alloc, expected)?;
    stack.push(root)?;
    'walk: while let Some(node) = stack.pop() {
        nodes.push(node)?;
        stack_inner(&mut stack, &node.blocks)?;
    }
    Ok(nodes)
}

/// The least vertex at or under a node. If the node has a block below it, it is taken off the
/// stack.
fn draw_least(known: &mut Vec<Option<u32>>, node: &Node) -> Option<u32>
    requires { (rest : List (Option ℕ)) × (known.old.items ≡ rest ++ leasts_of (filter is_inner (node.now ∷ []))) }
    ensures least { result ≡ least_of node.now }
    ensures known { (rest : List (Option ℕ)) → known.old.items ≡ rest ++ leasts_of (filter is_inner (node.now ∷ [])) → known.new.items ≡ rest }
{
    if node.blocks.len() == 0 {
        return least_vertex(&node.vertices);
    }
    known.pop().unwrap()
}

/// The least vertex of a cycle below its upper node. It also says whether the cycle has three or
/// more nodes there, the first with a smaller least vertex than the last.
fn draw_cycle(known: &mut Vec<Option<u32>>, nodes: &Children) -> Standing
    requires { (rest : List (Option ℕ)) × (known.old.items ≡ rest ++ leasts_of (filter is_inner (nodes_in nodes.now))) }
    ensures least { result.least ≡ least_in (all_vertices (map arranged (nodes_in nodes.now))) }
    ensures in_order { result.in_order ≡ (nat_le 3 (length (nodes_in nodes.now)) && rises (leasts (map arranged (nodes_in nodes.now)))) }
    ensures known { (rest : List (Option ℕ)) → known.old.items ≡ rest ++ leasts_of (filter is_inner (nodes_in nodes.now)) → known.new.items ≡ rest }
{
    let count = nodes.len();
    let mut least = None;
    let mut first = 0;
    let mut last = 0;
    let mut i = count;
    'back: while i > 0 {
        i -= 1;
        let node = draw_least(known, nodes.at(i));
        first = vertex_or_zero(node);
        last = first_of(count - 1 - i, last, first);
        least = lesser(node, least);
    }
    Standing {
        least,
        in_order: count >= 3 && first < last,
    }
}

/// The least vertex below a block, and whether it is a bridge, or a cycle that is in order.
fn draw_block(known: &mut Vec<Option<u32>>, block: &Block) -> Standing
    requires { (rest : List (Option ℕ)) × (known.old.items ≡ rest ++ leasts_of (filter is_inner (nodes_of block.now))) }
    ensures least { result.least ≡ least_in (arranged_block block.now).vertices }
    ensures in_order { result.in_order ≡ is_turned block.now }
    ensures known { (rest : List (Option ℕ)) → known.old.items ≡ rest ++ leasts_of (filter is_inner (nodes_of block.now)) → known.new.items ≡ rest }
{
    match block {
        Block::Bridge(node) => Standing {
            least: draw_least(known, node),
            in_order: true,
        },
        Block::Cycle(nodes) => draw_cycle(known, nodes),
    }
}

/// The least vertex below some blocks, and whether they ascend by their least vertices and each of
/// them is in order.
fn draw_blocks(known: &mut Vec<Option<u32>>, blocks: &Blocks) -> Standing
    requires { (rest : List (Option ℕ)) × (known.old.items ≡ rest ++ leasts_of (filter is_inner (flat_map nodes_of (blocks_in blocks.now)))) }
    ensures least { result.least ≡ least_in (all_vertices (map arranged_block (blocks_in blocks.now))) }
    ensures in_order { result.in_order ≡ (ascend (leasts (map arranged_block (blocks_in blocks.now))) && list_all is_turned (blocks_in blocks.now)) }
    ensures known { (rest : List (Option ℕ)) → known.old.items ≡ rest ++ leasts_of (filter is_inner (flat_map nodes_of (blocks_in blocks.now))) → known.new.items ≡ rest }
{
    let count = blocks.len();
    let mut least = None;
    let mut next = 0;
    let mut ascends = true;
    let mut each = true;
    let mut i = count;
    'back: while i > 0 {
        i -= 1;
        let block = draw_block(known, blocks.at(i));
        let vertex = vertex_or_zero(block.least);
        ascends &= comes_after(count - 1 - i, vertex, next);
        each &= block.in_order;
        next = vertex;
        least = lesser(block.least, least);
    }
    Standing {
        least,
        in_order: ascends & each,
    }
}

/// The least vertex at or under a node, and whether its blocks are in order, whatever is below
/// their nodes.
fn draw_node(known: &mut Vec<Option<u32>>, node: &Node) -> Standing
    requires { (rest : List (Option ℕ)) × (known.old.items ≡ rest ++ leasts_of (inner_below node.now)) }
    ensures least { result.least ≡ least_of node.now }
    ensures in_order { result.in_order ≡ stands node.now }
    ensures known { (rest : List (Option ℕ)) → known.old.items ≡ rest ++ leasts_of (inner_below node.now) → known.new.items ≡ rest }
{
    let own = least_vertex(&node.vertices);
    let below = draw_blocks(known, &node.blocks);
    Standing {
        least: lesser(own, below.least),
        in_order: below.in_order,
    }
}

/// Whether the blocks of each of some nodes are in order. It goes from the last node to the first,
/// so the least vertices at or under the nodes below one are known before. It ends with the first
/// node whose blocks are not in order.
fn all_stand(alloc: Global, nodes: Vec<&Node>) -> Result<bool, NoMemory>
    requires { (root : Node) × IsWalk (root ∷ []) (seen nodes.items) [] }
    ensures { IfOk result (λ all. all ≡ list_all stands (seen nodes.entry.items)) }
{
    let mut nodes = nodes;
    let mut known = Vec::with_capacity(alloc, nodes.len())?;
    'up: while let Some(node) = nodes.pop() {
        let standing = draw_node(&mut known, node);
        if !standing.in_order {
            return Ok(false);
        }
        known.push(standing.least)?;
    }
    Ok(true)
}

/// Whether all in a tree is in order. It takes one step for each node and vertex. It takes memory
/// for the nodes that have blocks, at most 32 bytes each, and fails only if it runs out of memory.
/// Room for `expected` nodes is reserved at once.
pub fn stands_in_order(alloc: Global, root: &Node, expected: usize) -> Result<bool, NoMemory>
    ensures { IfOk result (λ all. all ≡ (arranged root.now).in_order) }
{
    let nodes = inner_nodes(alloc, root, expected)?;
    let all = all_stand(alloc, nodes)?;
    Ok(all)
}
