//! The order in which a tree is entered: a node, then its blocks in order.

ghost use Rattle.std.specs.Prelude.{◌≡◌, ◌++◌, OnOk, IfOk};
ghost use Rattle.std.specs.List.{flat_map, concat};
ghost use Rattle.rooted_cactus.specs.Trees.{blocks_in};
ghost use Rattle.rooted_cactus.specs.Entered.{entered};
ghost use Rattle.rooted_cactus.specs.Entries.{nodes_of};
ghost use Rattle.rooted_cactus.specs.Numbers.{waiting};
ghost use Rattle.rooted_cactus.specs.Places.{places_from};

use super::{Blocks, Node};
use cut_definitions::NoMemory;
use std::alloc::Global;

/// Puts the nodes on the stack, the first on top.
fn stack_nodes<'a>(stack: &mut Vec<&'a Node>, nodes: &'a [Node]) -> Result<(), NoMemory>
    ensures { OnOk result (waiting stack.new.items ≡ nodes.now ++ waiting stack.old.items) }
{
    let mut i = nodes.len();
    'back: while i > 0 {
        i -= 1;
        stack.push(&nodes[i])?;
    }
    Ok(())
}

/// Puts the nodes of some blocks on the stack, the first on top, so that they are taken off in the
/// order of entering.
///
/// It takes one step for each of these blocks and nodes, and memory only if the stack has no room.
/// It fails only if it runs out of memory.
pub fn stack_blocks<'a>(stack: &mut Vec<&'a Node>, blocks: &'a Blocks) -> Result<(), NoMemory>
    ensures { OnOk result (waiting stack.new.items ≡ flat_map nodes_of (blocks_in blocks.now) ++ waiting stack.old.items) }
{
    let mut i = blocks.items.len();
    'back: while i > 0 {
        i -= 1;
        stack_nodes(stack, blocks.items[i].nodes())?;
    }
    Ok(())
}

/// All vertices of a tree, and the places at which the nodes begin.
#[derive(Drop)]
pub struct InOrder {
    /// The vertices of all nodes, in the order of entering.
    pub vertices: Vec<u32>,
    /// For each node, in this order, the place of its first vertex; and last the number of all
    /// vertices.
    pub places: Vec<usize>,
}

/// The vertices of all nodes in the order of entering, with the place at which each node begins.
///
/// It takes one step for each vertex and node, in a loop with a stack, so that a deep tree does
/// not overflow the call stack. It takes 4 bytes a vertex and 16 a node, and fails only if it runs
/// out of memory. Room for `expected` vertices and nodes is reserved at once. There may be more of
/// them, or fewer.
pub fn in_order(alloc: Global, root: &Node, expected: usize) -> Result<InOrder, NoMemory>
    ensures vertices { IfOk result (λ r. r.vertices.items ≡ concat (entered root.now)) }
    ensures places { IfOk result (λ r. r.places.items ≡ places_from 0 (entered root.now)) }
{
    let mut vertices = Vec::with_capacity(alloc, expected)?;
    let mut places = Vec::with_capacity(alloc, expected)?;
    let mut stack = Vec::new(alloc);
    stack.push(root)?;
    'walk: while let Some(node) = stack.pop() {
        places.push(vertices.len())?;
        vertices.extend_from_slice(node.vertices.as_slice())?;
        stack_blocks(&mut stack, &node.blocks)?;
    }
    places.push(vertices.len())?;
    Ok(InOrder { vertices, places })
}

/// The vertices of all nodes, in the order in which the tree is entered: a node, then its blocks
/// in order. It costs as much as `in_order`, and fails only if it runs out of memory.
pub fn vertices_in_order(alloc: Global, root: &Node) -> Result<Vec<u32>, NoMemory>
    ensures { IfOk result (λ v. v.items ≡ concat (entered root.now)) }
{
    let listed = in_order(alloc, root, 0)?;
    Ok(listed.vertices)
}
