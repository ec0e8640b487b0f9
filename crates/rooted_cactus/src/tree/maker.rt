//! What becomes of the nodes and blocks of a tree that is put together from its entries.

ghost use Rattle.std.specs.Prelude.{List, ℕ, ◌≡◌, [], IfOk, OnOk};
ghost use Rattle.cut_definitions.specs.Weight.{VertexSet};
ghost use Rattle.rooted_cactus.specs.Trees.{vertices};
ghost use Rattle.rooted_cactus.specs.Entries.{Read, bridge_read, cycle_read, node_read, top_first};
ghost use Rattle.rooted_cactus.specs.Trims.{Each};

use super::Node;
use crate::vertex_list::VertexList;
use cut_definitions::NoMemory;
use std::alloc::Global;

/// How nodes and blocks are finished, each once all below it is finished. A finished one stands
/// for what was read off the node or block of the tree that was taken apart. The maker decides in
/// which way it does so. Each call fails only if it runs out of memory.
pub trait Maker {
    /// A finished node.
    type Node: Drop;

    /// A finished block.
    type Block: Drop;

    /// The ways in which lists of vertices may be read as sets.
    ghost may_read: { (List ℕ → VertexSet) → Type 0 };

    /// A finished node stands for what was read.
    ghost node_is: { (List ℕ → VertexSet) → Read → Self.Node → Type 0 };

    /// A finished block stands for what was read.
    ghost block_is: { (List ℕ → VertexSet) → Read → Self.Block → Type 0 };

    /// The block that stands for a bridge to the node. It uses the box that is passed to it.
    fn bridge(node: Self::Node, place: Box<Node>) -> Self::Block
        ensures { (sets : List ℕ → VertexSet) (r : Read) → node_is sets r node → block_is sets (bridge_read r) result };

    /// The block that stands for a bridge to a node without blocks, which stays in its box.
    fn leaf(alloc: Global, place: Box<Node>) -> Self::Block
        ensures { (sets : List ℕ → VertexSet) → may_read sets → block_is sets (bridge_read (node_read sets (vertices place.value) [])) result };

    /// The block that stands for a cycle through the nodes and the one above. They are listed with
    /// the last first.
    fn cycle(alloc: Global, nodes: Vec<Self::Node>) -> Result<Self::Block, NoMemory>
        ensures { IfOk result (λ b. (sets : List ℕ → VertexSet) (rs : List Read) → Each (node_is sets) rs (top_first nodes.items) → block_is sets (cycle_read rs) b) };

    /// The node with some vertices, and with the blocks below it, which are taken out of their
    /// list.
    fn node(
        alloc: Global,
        vertices: VertexList,
        blocks: &mut Vec<Self::Block>,
    ) -> Result<Self::Node, NoMemory>
        ensures node { IfOk result (λ x. (sets : List ℕ → VertexSet) (rs : List Read) → may_read sets → Each (block_is sets) rs blocks.old.items → node_is sets (node_read sets vertices rs) x) }
        ensures empty { OnOk result (blocks.new.items ≡ []) };
}
