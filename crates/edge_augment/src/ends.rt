//! The end nodes of a tree: those that lie in exactly one block.

ghost use Rattle.std.specs.Prelude.{◌≡◌, ◌++◌, OnOk, IfOk, slice_index};
ghost use Rattle.rooted_cactus.specs.Trees.{vertices};
ghost use Rattle.edge_augment.specs.Ends.{alone_if, end_sets};

use cut_definitions::NoMemory;
use rooted_cactus::{Node, VertexList, stack_blocks};
use std::alloc::Global;

/// Appends the vertices of a node if it is an end node.
fn push_end(
    alloc: Global,
    ends: &mut Vec<VertexList>,
    node: &Node,
    is_end: bool,
) -> Result<(), NoMemory>
    ensures { OnOk result (ends.new.items ≡ ends.old.items ++ alone_if is_end (vertices node.now)) }
{
    if is_end {
        let list = node.vertices.as_slice().to_vec(alloc)?;
        ends.push(VertexList::from_vec(list))?;
    }
    Ok(())
}

/// The vertices of each end node of a cactus, in the order of entering.
///
/// A node below a block is an end node if no block is below it, and the root if exactly one is. It
/// takes one step for each node, block and vertex, in a loop with a stack, so that a deep tree
/// does not overflow the call stack. It fails only if it runs out of memory.
pub fn list_ends(alloc: Global, root: &Node) -> Result<Vec<VertexList>, NoMemory>
    ensures { IfOk result (λ v. v.items ≡ end_sets root.now) }
{
    let mut ends = Vec::new(alloc);
    push_end(alloc, &mut ends, root, root.blocks.len() == 1)?;
    let mut stack = Vec::new(alloc);
    stack_blocks(&mut stack, &root.blocks)?;
    'walk: while let Some(node) = stack.pop() {
        push_end(alloc, &mut ends, node, node.blocks.len() == 0)?;
        stack_blocks(&mut stack, &node.blocks)?;
    }
    Ok(ends)
}

/// The first vertex of a list, which is the least one of an ascending list, or 0 if it is empty.
pub fn first_vertex(list: &VertexList) -> u32
    ensures { result ≡ slice_index list.now 0 }
{
    match list.as_slice().first() {
        Some(v) => *v,
        None => 0,
    }
}
