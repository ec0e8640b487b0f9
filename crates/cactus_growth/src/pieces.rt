//! Pieces of trees: nodes with more blocks, lists of nodes taken apart and put together.

ghost use Rattle.std.specs.Prelude.{ℕ, ◌≡◌, ◌≤◌, ◌<◌, ◌++◌, ◌∷◌, length, map, take, slice_get, IfOk, OnOk};
ghost use Rattle.std.specs.List.{All, flat_map};
ghost use Rattle.cut_definitions.specs.Cuts.{has, IsAscendingWithin};
ghost use Rattle.rooted_cactus.specs.Entered.{entered, entered_block};
ghost use Rattle.rooted_cactus.specs.Entries.{nodes_of};
ghost use Rattle.rooted_cactus.specs.Sides.{block_part, cycle_of, part, with_below};
ghost use Rattle.rooted_cactus.specs.Trees.{blocks, blocks_in, nodes_in, vertices};
ghost use Rattle.rooted_cactus.specs.Widths.{block_widths, widths};
ghost use Rattle.cactus_growth.specs.Growth.{AreHung, IsArcHung, IsSorted, IsTakenIn};

use cut_definitions::NoMemory;
use rooted_cactus::{Block, Blocks, Children, Node, VertexList};
use std::alloc::Global;

/// Hangs one more block below a node.
fn hang(node: Node, block: Block) -> Result<Node, NoMemory>
    ensures part { IfOk result (λ x. part x ≡ with_below (part node) (block_part block)) }
    ensures entered { IfOk result (λ x. entered x ≡ entered node ++ entered_block block) }
    ensures widths { IfOk result (λ x. widths x ≡ widths node ++ block_widths block) }
    ensures vertices { IfOk result (λ x. vertices x ≡ vertices node) }
{
    let mut node = node;
    node.blocks.push(block)?;
    Ok(node)
}

/// The closed walk through the node above and some nodes in their order: a cycle, or a bridge if
/// there is only one node.
fn closed(alloc: Global, nodes: Children) -> Result<Block, NoMemory>
    requires { 0 < length (nodes_in nodes) }
    ensures part { IfOk result (λ b. block_part b ≡ cycle_of (map part (nodes_in nodes))) }
    ensures entered { IfOk result (λ b. entered_block b ≡ flat_map entered (nodes_in nodes)) }
    ensures wide { IfOk result (λ b. All (λ k. 2 ≤ k) (flat_map widths (nodes_in nodes)) → All (λ k. 2 ≤ k) (block_widths b)) }
{
    let mut nodes = nodes;
    if nodes.len() == 1 {
        let child = nodes.pop().unwrap();
        return Ok(Block::Bridge(Box::new(alloc, child)?));
    }
    Ok(Block::Cycle(nodes))
}

/// The node with the closed walk through it and some nodes in their order below it. The walk is no
/// block, a bridge or a cycle.
pub fn hang_arc(alloc: Global, node: Node, nodes: Children) -> Result<Node, NoMemory>
    ensures { IfOk result (λ x. IsArcHung node (nodes_in nodes) x) }
{
    if nodes.len() == 0 {
        return Ok(node);
    }
    let block = closed(alloc, nodes)?;
    let node = hang(node, block)?;
    Ok(node)
}

/// Hangs all of some blocks below a node.
pub fn hang_all(node: Node, blocks: Blocks) -> Result<Node, NoMemory>
    ensures { IfOk result (λ x. AreHung node (blocks_in blocks) x) }
{
    let mut node = node;
    let mut blocks = blocks;
    'each_block: while let Some(block) = blocks.pop() {
        node = hang(node, block)?;
    }
    Ok(node)
}

/// Appends the vertices of another list.
fn append(list: &mut VertexList, more: &VertexList) -> Result<(), NoMemory>
    ensures { OnOk result (list.new ≡ list.old ++ more.now) }
{
    'vertices: for i in 0..more.len() {
        list.push(more.at(i))?;
    }
    Ok(())
}

/// One node made of two, with the blocks of both. The vertices of the second come after those of
/// the first.
pub fn take_in(node: Node, other: Node) -> Result<Node, NoMemory>
    ensures { IfOk result (λ x. IsTakenIn node other x) }
{
    let mut node = node;
    let Node { vertices, blocks } = other;
    append(&mut node.vertices, &vertices)?;
    let node = hang_all(node, blocks)?;
    Ok(node)
}

/// The vertices of a list in ascending order, each once.
fn ascending(alloc: Global, list: &VertexList) -> Result<VertexList, NoMemory>
    ensures members { IfOk result (λ l. (v : ℕ) → has l v ≡ has list.now v) }
    ensures ascending { IfOk result (λ l. (n : ℕ) → All (λ v. (1 ≤ v) × (v ≤ n)) list.now → IsAscendingWithin 1 n l) }
{
    let mut items = Vec::new(alloc);
    items.extend_from_slice(list.as_slice())?;
    items.sort_unstable();
    items.dedup();
    Ok(VertexList::from_vec(items))
}

/// The node with its vertices in ascending order.
pub fn sorted(alloc: Global, node: Node) -> Result<Node, NoMemory>
    ensures { IfOk result (λ x. IsSorted node x) }
{
    let Node { vertices, blocks } = node;
    let vertices = ascending(alloc, &vertices)?;
    Ok(Node { vertices, blocks })
}

/// The blocks before a place, the one there, and those after it.
pub fn taken_block(blocks: Blocks, place: usize) -> Result<(Blocks, Block, Blocks), NoMemory>
    requires { place < length (blocks_in blocks) }
    ensures parts { IfOk result (λ r. blocks_in blocks ≡ blocks_in r.0 ++ r.1 ∷ blocks_in r.2) }
    ensures here { IfOk result (λ r. slice_get (blocks_in blocks) place ≡ Some r.1) }
{
    let mut front = blocks;
    let behind = front.split_off(place + 1)?;
    let block = front.pop().unwrap();
    Ok((front, block, behind))
}

/// The children before a place, the one there, and those after it.
pub fn taken_out(nodes: Children, place: usize) -> Result<(Children, Node, Children), NoMemory>
    requires { place < length (nodes_in nodes) }
    ensures parts { IfOk result (λ r. nodes_in nodes ≡ nodes_in r.0 ++ r.1 ∷ nodes_in r.2) }
    ensures before { IfOk result (λ r. nodes_in r.0 ≡ take place (nodes_in nodes)) }
    ensures here { IfOk result (λ r. slice_get (nodes_in nodes) place ≡ Some r.1) }
{
    let mut before = nodes;
    let after = before.split_off(place + 1)?;
    let child = before.pop().unwrap();
    Ok((before, child, after))
}

/// The nodes of a block, without the node above.
pub fn nodes_of_block(alloc: Global, block: Block) -> Result<Children, NoMemory>
    ensures { IfOk result (λ c. nodes_in c ≡ nodes_of block) }
{
    match block {
        Block::Bridge(child) => {
            let mut nodes = Children::with_capacity(alloc, 1)?;
            nodes.push(Box::into_inner(child))?;
            Ok(nodes)
        }
        Block::Cycle(nodes) => Ok(nodes),
    }
}

/// The nodes of two lists with a node between them.
pub fn put_between(before: Children, child: Node, after: Children) -> Result<Children, NoMemory>
    ensures { IfOk result (λ c. nodes_in c ≡ nodes_in before ++ child ∷ nodes_in after) }
{
    let mut nodes = before;
    nodes.push(child)?;
    nodes.append(after)?;
    Ok(nodes)
}
