//! A tree taken apart into its nodes, in the order in which it is entered.

ghost use Rattle.std.specs.Prelude.{List, ◌≡◌, ◌==◌, ◌&&◌, [], ◌++◌, length, OnOk, IfOk};
ghost use Rattle.rooted_cactus.specs.Trees.{blocks, blocks_in, nodes_in, vertices};
ghost use Rattle.rooted_cactus.specs.Entries.{AreShed, IsShed, Shows, kept, top_first};

use super::{Block, Blocks, Children, Node};
use crate::vertex_list::VertexList;
use cut_definitions::NoMemory;
use std::alloc::Global;
use std::mem;

/// A block without its nodes.
#[derive(Drop)]
pub enum Joint {
    /// A bridge, and a box for the node below it.
    Bridge(Box<Node>),
    /// A bridge down to a node without blocks, which stays in its box.
    Leaf(Box<Node>),
    /// A cycle with this number of nodes below its upper one.
    Cycle(usize),
}

/// A node without the nodes below it: its vertices, and its blocks, the last first.
#[derive(Drop)]
pub struct ShedNode {
    pub vertices: VertexList,
    pub joints: Vec<Joint>,
}

/// A node without vertices and blocks. It takes no memory.
pub fn bare_node(alloc: Global) -> Node
    ensures vertices { vertices result ≡ [] }
    ensures blocks { blocks result ≡ [] }
{
    Node {
        vertices: VertexList::new(alloc),
        blocks: Blocks::new(alloc),
    }
}

/// Moves the nodes of a cycle onto the stack, the first on top.
fn shed_nodes(stack: &mut Vec<Node>, nodes: Children) -> Result<(), NoMemory>
    ensures { OnOk result (top_first stack.new.items ≡ nodes_in nodes ++ top_first stack.old.items) }
{
    let mut nodes = nodes;
    'back: while let Some(node) = nodes.pop() {
        stack.push(node)?;
    }
    Ok(())
}

/// Whether a node below a bridge is a leaf that stays.
fn stays(node: &Node, leaves_stay: bool) -> bool
    ensures { result ≡ (leaves_stay && (length (blocks node.now) == 0)) }
{
    leaves_stay && node.blocks.len() == 0
}

/// Moves the nodes of a block onto the stack, the first on top. If `leaves_stay`, a leaf below a
/// bridge stays in its box. The box of another bridge stays too, with a bare node in it.
fn shed_block(
    alloc: Global,
    stack: &mut Vec<Node>,
    block: Block,
    leaves_stay: bool,
) -> Result<Joint, NoMemory>
    ensures { IfOk result (λ j. (xs : List Node) × IsShed leaves_stay block j xs × (top_first stack.new.items ≡ xs ++ top_first stack.old.items)) }
{
    match block {
        Block::Bridge(node) => {
            if stays(&node, leaves_stay) {
                return Ok(Joint::Leaf(node));
            }
            let mut place = node;
            stack.push(mem::replace(&mut *place, bare_node(alloc)))?;
            Ok(Joint::Bridge(place))
        }
        Block::Cycle(nodes) => {
            let count = nodes.len();
            shed_nodes(stack, nodes)?;
            Ok(Joint::Cycle(count))
        }
    }
}

/// Moves the nodes of some blocks onto the stack, the first on top, and lists the blocks, the last
/// first. If `leaves_stay`, leaves below bridges stay in their boxes.
///
/// It takes one step for each node of these blocks, and fails only if it runs out of memory.
pub fn shed_blocks(
    alloc: Global,
    stack: &mut Vec<Node>,
    blocks: Blocks,
    leaves_stay: bool,
) -> Result<Vec<Joint>, NoMemory>
    ensures { IfOk result (λ j. (xs : List Node) × AreShed leaves_stay (blocks_in blocks) (top_first j.items) xs × (top_first stack.new.items ≡ xs ++ top_first stack.old.items)) }
{
    let mut blocks = blocks;
    let mut joints = Vec::with_capacity(alloc, blocks.len())?;
    'back: while let Some(block) = blocks.pop() {
        let joint = shed_block(alloc, stack, block, leaves_stay)?;
        joints.push(joint)?;
    }
    Ok(joints)
}

/// The entries of a tree, in the order in which it is entered. Leaves below bridges have none, but
/// stay in their boxes.
///
/// It takes one step for each node and block, in a loop with a stack, and memory in proportion to
/// the nodes. It fails only if it runs out of memory. Room for `expected` nodes is reserved at
/// once, since a long list that grows is copied again and again. There may be more nodes, or
/// fewer.
pub fn entries_of(alloc: Global, root: Node, expected: usize) -> Result<Vec<ShedNode>, NoMemory>
    ensures { IfOk result (λ e. Shows kept root e.items []) }
{
    let mut entries = Vec::with_capacity(alloc, expected)?;
    let mut stack = Vec::with_capacity(alloc, expected)?;
    stack.push(root)?;
    'walk: while let Some(node) = stack.pop() {
        let Node { vertices, blocks } = node;
        let joints = shed_blocks(alloc, &mut stack, blocks, true)?;
        entries.push(ShedNode { vertices, joints })?;
    }
    Ok(entries)
}
