//! Nodes and blocks put together as they were.

ghost use Rattle.std.specs.Prelude.{List, ℕ, ◌≡◌, [], ⊤, IfOk};
ghost use Rattle.cut_definitions.specs.Weight.{VertexSet};
ghost use Rattle.rooted_cactus.specs.Trees.{blocks, vertices};
ghost use Rattle.rooted_cactus.specs.Entries.{BlockReads, NodeReads, Read, cycle_read, top_first};
ghost use Rattle.rooted_cactus.specs.Trims.{Each};

use super::maker::Maker;
use super::spare::{bridge_to, leaf_bridge};
use super::{Block, Blocks, Children, Node};
use crate::vertex_list::VertexList;
use cut_definitions::NoMemory;
use std::alloc::Global;
use std::mem;

/// The node with some vertices and blocks, which are taken out of their list. It takes no memory.
pub fn node_with(alloc: Global, own: VertexList, row: &mut Vec<Block>) -> Node
    ensures vertices { vertices result ≡ own }
    ensures blocks { blocks result ≡ row.old.items }
    ensures empty { row.new.items ≡ [] }
{
    let items = mem::replace(row, Vec::new(alloc));
    Node {
        vertices: own,
        blocks: Blocks::from_vec(items),
    }
}

/// Puts a tree together as it was: what is read off each node and block stays the same.
pub struct PlainMaker;

impl Maker for PlainMaker {
    type Node = Node;

    type Block = Block;

    ghost may_read = { λ sets. ⊤ };

    ghost node_is = { NodeReads };

    ghost block_is = { BlockReads };

    fn bridge(node: Node, place: Box<Node>) -> Block {
        bridge_to(node, place)
    }

    fn leaf(alloc: Global, place: Box<Node>) -> Block {
        leaf_bridge(alloc, place)
    }

    #[tactic(auto, using(crate::proofs::Stands::reversed_reads))]
    fn cycle(_alloc: Global, nodes: Vec<Node>) -> Result<Block, NoMemory>
        ensures { IfOk result (λ b. (sets : List ℕ → VertexSet) (rs : List Read) → Each (NodeReads sets) rs (top_first nodes.items) → BlockReads sets (cycle_read rs) b) }
    {
        let mut nodes = nodes;
        nodes.reverse();
        Ok(Block::Cycle(Children::from_vec(nodes)))
    }

    #[tactic(auto, using(crate::proofs::Stands::node_reads))]
    fn node(
        alloc: Global,
        vertices: VertexList,
        blocks: &mut Vec<Block>,
    ) -> Result<Node, NoMemory> {
        Ok(node_with(alloc, vertices, blocks))
    }
}
