//! The tree of a cactus: nodes, and the bridges and cycles that join them.

ghost use Rattle.std.specs.Prelude.{◌≡◌, [], ◌∷◌, ◌++◌, ◌<◌, length, option_to_list, IsSome, ◌↔◌, OnOk, OnErr, IfOk, slice_get, take, drop, ◌≤◌};
ghost use Rattle.rooted_cactus.specs.Trees.{blocks_in, nodes_in};
ghost use Rattle.rooted_cactus.specs.Entries.{nodes_of};

use crate::vertex_list::VertexList;
use cut_definitions::NoMemory;
use std::alloc::Global;
use std::slice;

mod border;
mod count;
mod entries;
mod maker;
mod normal;
mod number;
mod order;
mod outline;
mod plain;
mod put;
mod rename;
mod spare;
mod spread;
mod trimming;

pub use border::Border;
pub use count::count_node;
pub use entries::{Joint, ShedNode, bare_node, entries_of};
pub use maker::Maker;
pub use normal::{blocks_are_normal, is_normal_below};
pub use number::{count_cuts, number_of, stack_inner};
pub use order::{InOrder, in_order, stack_blocks, vertices_in_order};
pub use outline::{NodeOutline, outline_of, sizes_along, subtree_sizes};
pub use put::put_together;
pub use rename::rename_node;
pub use spare::{hung, leaf_bridge, trimmed};
pub use spread::{spread_node, vertices_by_class};
pub use trimming::TrimmingMaker;

/// A node: its vertices, and the blocks below it.
#[cycle(tree)]
#[derive(Drop)]
pub struct Node {
    pub vertices: VertexList,
    pub blocks: Blocks,
}

/// A bridge to one node, or a cycle through two or more nodes and the node above.
#[cycle(tree)]
#[derive(Drop)]
pub enum Block {
    Bridge(Box<Node>),
    Cycle(Children),
}

/// The blocks below a node, in order.
#[cycle(tree)]
pub struct Blocks {
    items: Vec<Block>,
}

/// The nodes of a cycle below its upper node, in order.
#[cycle(tree)]
#[derive(Drop)]
pub struct Children {
    items: Vec<Node>,
}

impl Drop for Blocks {
    /// Takes the tree apart in a loop, so that a deep one does not overflow the call stack.
    #[cycle(drop)]
    fn drop(self) {
        let Blocks { mut items } = self;
        while let Some(block) = items.pop() {
            match block {
                Block::Bridge(node) => {
                    let mut node = Box::into_inner(node);
                    let _moved = items.append(&mut node.blocks.items);
                }
                Block::Cycle(mut nodes) => {
                    while let Some(mut node) = nodes.items.pop() {
                        let _moved = items.append(&mut node.blocks.items);
                    }
                }
            }
        }
    }
}

impl Block {
    /// The nodes below the upper node, in order, lent without a copy.
    pub fn nodes(&self) -> &[Node]
        ensures { result.now ≡ nodes_of self.now }
    {
        match self {
            Block::Bridge(node) => slice::from_ref(&**node),
            Block::Cycle(nodes) => nodes.as_slice(),
        }
    }
}

impl Blocks {
    /// The empty list. It takes no memory.
    pub fn new(alloc: Global) -> Blocks
        ensures { blocks_in result ≡ [] }
    {
        Blocks {
            items: Vec::new(alloc),
        }
    }

    /// The empty list with room for `count` blocks. With no room it takes no memory. It fails only
    /// if it runs out of memory.
    pub fn with_capacity(alloc: Global, count: usize) -> Result<Blocks, NoMemory>
        ensures { IfOk result (λ b. blocks_in b ≡ []) }
    {
        let items = Vec::with_capacity(alloc, count)?;
        Ok(Blocks { items })
    }

    /// The list of these blocks, taken over without a copy.
    pub fn from_vec(items: Vec<Block>) -> Blocks
        ensures { blocks_in result ≡ items.items }
    {
        Blocks { items }
    }

    /// Appends a block. It fails only if it runs out of memory; the list then stays as it was, and
    /// the block is dropped.
    pub fn push(&mut self, item: Block) -> Result<(), NoMemory>
        ensures ok { OnOk result (blocks_in self.new ≡ blocks_in self.old ++ item ∷ []) }
        ensures err { OnErr result (blocks_in self.new ≡ blocks_in self.old) }
    {
        self.items.push(item)?;
        Ok(())
    }

    /// Removes and returns the last block, or returns `None` if the list is empty.
    pub fn pop(&mut self) -> Option<Block>
        ensures items { blocks_in self.old ≡ blocks_in self.new ++ option_to_list result }
        ensures some { IsSome result ↔ (0 < length (blocks_in self.old)) }
    {
        self.items.pop()
    }

    /// Removes the blocks from the place `at` on, and returns them in order as a list of their
    /// own. It takes memory for that list, and fails only if it runs out of memory; the list then
    /// stays as it was.
    pub fn split_off(&mut self, at: usize) -> Result<Blocks, NoMemory>
        requires { at ≤ length (blocks_in self.old) }
        ensures front { OnOk result (blocks_in self.new ≡ take at (blocks_in self.old)) }
        ensures back { IfOk result (λ b. blocks_in b ≡ drop at (blocks_in self.old)) }
        ensures err { OnErr result (blocks_in self.new ≡ blocks_in self.old) }
    {
        let behind = self.items.split_off(at)?;
        Ok(Blocks { items: behind })
    }

    /// The number of blocks.
    pub fn len(&self) -> usize
        ensures { result ≡ length (blocks_in self.now) }
    {
        self.items.len()
    }

    /// The block at a place, counted from 0.
    pub fn at(&self, i: usize) -> &Block
        requires { i < length (blocks_in self.now) }
        ensures { slice_get (blocks_in self.now) i ≡ Some result.now }
    {
        &self.items[i]
    }
}

impl Children {
    /// The empty list. It takes no memory.
    pub fn new(alloc: Global) -> Children
        ensures { nodes_in result ≡ [] }
    {
        Children {
            items: Vec::new(alloc),
        }
    }

    /// The empty list with room for `count` nodes. With no room it takes no memory. It fails only
    /// if it runs out of memory.
    pub fn with_capacity(alloc: Global, count: usize) -> Result<Children, NoMemory>
        ensures { IfOk result (λ c. nodes_in c ≡ []) }
    {
        let items = Vec::with_capacity(alloc, count)?;
        Ok(Children { items })
    }

    /// The list of these nodes, taken over without a copy.
    pub fn from_vec(items: Vec<Node>) -> Children
        ensures { nodes_in result ≡ items.items }
    {
        Children { items }
    }

    /// Appends a node. It fails only if it runs out of memory; the list then stays as it was, and
    /// the node is dropped.
    pub fn push(&mut self, item: Node) -> Result<(), NoMemory>
        ensures ok { OnOk result (nodes_in self.new ≡ nodes_in self.old ++ item ∷ []) }
        ensures err { OnErr result (nodes_in self.new ≡ nodes_in self.old) }
    {
        self.items.push(item)?;
        Ok(())
    }

    /// Appends the nodes of another list, in order. It fails only if it runs out of memory; the
    /// list then stays as it was, and the other nodes are dropped.
    pub fn append(&mut self, more: Children) -> Result<(), NoMemory>
        ensures ok { OnOk result (nodes_in self.new ≡ nodes_in self.old ++ nodes_in more) }
        ensures err { OnErr result (nodes_in self.new ≡ nodes_in self.old) }
    {
        let Children { mut items } = more;
        self.items.append(&mut items)?;
        Ok(())
    }

    /// Removes and returns the last node, or returns `None` if the list is empty.
    pub fn pop(&mut self) -> Option<Node>
        ensures items { nodes_in self.old ≡ nodes_in self.new ++ option_to_list result }
        ensures some { IsSome result ↔ (0 < length (nodes_in self.old)) }
    {
        self.items.pop()
    }

    /// Removes the nodes from the place `at` on, and returns them in order as a list of their own.
    /// It takes memory for that list, and fails only if it runs out of memory; the list then stays
    /// as it was.
    pub fn split_off(&mut self, at: usize) -> Result<Children, NoMemory>
        requires { at ≤ length (nodes_in self.old) }
        ensures front { OnOk result (nodes_in self.new ≡ take at (nodes_in self.old)) }
        ensures back { IfOk result (λ c. nodes_in c ≡ drop at (nodes_in self.old)) }
        ensures err { OnErr result (nodes_in self.new ≡ nodes_in self.old) }
    {
        let items = self.items.split_off(at)?;
        Ok(Children { items })
    }

    /// The number of nodes.
    pub fn len(&self) -> usize
        ensures { result ≡ length (nodes_in self.now) }
    {
        self.items.len()
    }

    /// All nodes, lent without a copy.
    pub fn as_slice(&self) -> &[Node]
        ensures { result.now ≡ nodes_in self.now }
    {
        &self.items
    }

    /// The node at a place, counted from 0.
    pub fn at(&self, i: usize) -> &Node
        requires { i < length (nodes_in self.now) }
        ensures { slice_get (nodes_in self.now) i ≡ Some result.now }
    {
        &self.items[i]
    }
}
