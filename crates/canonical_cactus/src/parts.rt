//! Finished parts of a tree: nodes that may be below a block, and blocks that may hang from a
//! node.

ghost use Rattle.std.specs.Prelude.{IfOk};
ghost use Rattle.rooted_cactus.specs.Entries.{Read, bridge_read};
ghost use Rattle.canonical_cactus.specs.Making.{IsBlockOf, IsNodeOf};

use cut_definitions::NoMemory;
use rooted_cactus::{Block, Node, bare_node, hung};
use std::alloc::Global;

/// A finished node, with the least vertex at or under it, if there is one.
#[derive(Drop)]
pub struct Placed {
    pub node: Node,
    pub least: Option<u32>,
}

/// A finished block, with the least vertex below it, if there is one.
#[derive(Drop)]
pub struct Hung {
    pub block: Block,
    pub least: Option<u32>,
}

/// A bridge to the node, in the box that is passed to it. If the node has no vertex and only one
/// block, it returns that block instead.
pub fn hang_in(placed: Placed, place: Box<Node>) -> Hung
    ensures { (r : Read) → IsNodeOf r placed → IsBlockOf (bridge_read r) result }
{
    let Placed { node, least } = placed;
    let block = hung(node, place);
    Hung { block, least }
}

/// A bridge to the node, or the node's only block if it has no vertex and one block. It fails only
/// if it runs out of memory.
pub fn hang(alloc: Global, placed: Placed) -> Result<Hung, NoMemory>
    ensures { IfOk result (λ b. (r : Read) → IsNodeOf r placed → IsBlockOf (bridge_read r) b) }
{
    let place = Box::new(alloc, bare_node(alloc))?;
    Ok(hang_in(placed, place))
}
