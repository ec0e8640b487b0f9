//! Nodes and blocks put together in the canonical form.

ghost use Rattle.std.specs.Prelude.{List, ℕ, ◌≡◌, IfOk};
ghost use Rattle.cut_definitions.specs.Weight.{VertexSet};
ghost use Rattle.cut_definitions.specs.Cuts.{has};
ghost use Rattle.rooted_cactus.specs.Entries.{Read, cycle_read, top_first};
ghost use Rattle.canonical_cactus.specs.Making.{AreNodesOf, IsBlockOf, IsNodeOf};

use crate::order::least_vertex;
use crate::parts::{Hung, Placed, hang_in};
use crate::rows::{cycle_of, node_of, star_of};
use cut_definitions::NoMemory;
use rooted_cactus::{Maker, Node, VertexList, leaf_bridge};
use std::alloc::Global;

/// Puts a tree together in its canonical form.
pub struct CanonicalMaker;

impl Maker for CanonicalMaker {
    type Node = Placed;

    type Block = Hung;

    ghost may_read = { λ sets. sets ≡ has };

    ghost node_is = { λ sets. IsNodeOf };

    ghost block_is = { λ sets. IsBlockOf };

    fn bridge(node: Placed, place: Box<Node>) -> Hung {
        hang_in(node, place)
    }

    fn leaf(alloc: Global, place: Box<Node>) -> Hung {
        let least = least_vertex(&place.vertices);
        Hung {
            block: leaf_bridge(alloc, place),
            least,
        }
    }

    fn cycle(alloc: Global, nodes: Vec<Placed>) -> Result<Hung, NoMemory>
        ensures { IfOk result (λ b. (sets : List ℕ → VertexSet) (rs : List Read) → AreNodesOf rs (top_first nodes.items) → IsBlockOf (cycle_read rs) b) }
    {
        let block = if nodes.len() == 2 {
            star_of(alloc, nodes)?
        } else {
            cycle_of(alloc, nodes)?
        };
        Ok(block)
    }

    fn node(
        alloc: Global,
        vertices: VertexList,
        blocks: &mut Vec<Hung>,
    ) -> Result<Placed, NoMemory> {
        let node = node_of(alloc, vertices, blocks)?;
        Ok(node)
    }
}
