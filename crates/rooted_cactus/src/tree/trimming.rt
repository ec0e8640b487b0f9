//! Nodes and blocks put together without what can be spared.

ghost use Rattle.std.specs.Prelude.{List, ℕ, ◌≡◌, IfOk, map};
ghost use Rattle.cut_definitions.specs.Weight.{VertexSet};
ghost use Rattle.cut_definitions.specs.Cuts.{has};
ghost use Rattle.rooted_cactus.specs.Trees.{nodes_in};
ghost use Rattle.rooted_cactus.specs.Entries.{Read, cycle_read, top_first};
ghost use Rattle.rooted_cactus.specs.Trims.{Each, IsNodeOf, IsBlockOf, trimmed_node};

use super::maker::Maker;
use super::plain::node_with;
use super::spare::{hung, leaf_bridge, trimmed};
use super::{Block, Children, Node};
use crate::vertex_list::VertexList;
use cut_definitions::NoMemory;
use std::alloc::Global;

/// The nodes as they may be in a cycle, in order. They are listed with the last first.
fn trimmed_nodes(alloc: Global, nodes: Vec<Node>) -> Result<Children, NoMemory>
    ensures { IfOk result (λ c. nodes_in c ≡ map trimmed_node (top_first nodes.items)) }
{
    let mut nodes = nodes;
    let mut children = Children::with_capacity(alloc, nodes.len())?;
    'close: while let Some(node) = nodes.pop() {
        children.push(trimmed(node))?;
    }
    Ok(children)
}

/// Puts a tree together without the nodes and bridges that can be spared.
pub struct TrimmingMaker;

impl Maker for TrimmingMaker {
    type Node = Node;

    type Block = Block;

    ghost may_read = { λ sets. sets ≡ has };

    ghost node_is = { λ sets. IsNodeOf };

    ghost block_is = { λ sets. IsBlockOf };

    fn bridge(node: Node, place: Box<Node>) -> Block {
        hung(node, place)
    }

    fn leaf(alloc: Global, place: Box<Node>) -> Block {
        leaf_bridge(alloc, place)
    }

    fn cycle(alloc: Global, nodes: Vec<Node>) -> Result<Block, NoMemory>
        ensures { IfOk result (λ b. (sets : List ℕ → VertexSet) (rs : List Read) → Each IsNodeOf rs (top_first nodes.items) → IsBlockOf (cycle_read rs) b) }
    {
        let children = trimmed_nodes(alloc, nodes)?;
        Ok(Block::Cycle(children))
    }

    fn node(
        alloc: Global,
        vertices: VertexList,
        blocks: &mut Vec<Block>,
    ) -> Result<Node, NoMemory> {
        Ok(node_with(alloc, vertices, blocks))
    }
}
