//! The blocks of a node in the order of their least vertices, and each cycle in its canonical
//! direction.

ghost use Rattle.std.specs.Prelude.{◌≡◌, ◌≢◌, [], length, IfOk, OnOk, List};
ghost use Rattle.std.specs.List.Sorted.{IsPermutation, IsNonDecreasingBy};
ghost use Rattle.cut_definitions.specs.Cuts.{has};
ghost use Rattle.rooted_cactus.specs.Entries.{Read, cycle_read, node_read, top_first};
ghost use Rattle.canonical_cactus.specs.Making.{AreBlocksOf, AreNodesOf, IsBlockOf, IsNodeOf, key_of, ends_rise, faced};

use crate::order::{least_vertex, lesser, vertex_or_zero};
use crate::parts::{Hung, Placed, hang};
use cut_definitions::NoMemory;
use rooted_cactus::{Block, Blocks, Children, Node, VertexList, trimmed};
use std::alloc::Global;

/// Sorts blocks by their least vertices, the greatest first.
fn sort_down(row: &mut Vec<Hung>)
    ensures same { IsPermutation row.old.items (top_first row.new.items) }
    ensures sorted { IsNonDecreasingBy key_of (top_first row.new.items) }
{
    row.sort_unstable_by_key(|block| vertex_or_zero(block.least));
    row.reverse();
}

/// The node with some vertices, and with the blocks of a row below it in the order of their least
/// vertices. The row is empty afterwards. It takes O(k log k) for k blocks, and fails only if it
/// runs out of memory.
pub fn node_of(alloc: Global, vertices: VertexList, row: &mut Vec<Hung>) -> Result<Placed, NoMemory>
    ensures node { IfOk result (λ p. (rs : List Read) → AreBlocksOf rs row.old.items → IsNodeOf (node_read has vertices rs) p) }
    ensures empty { OnOk result (row.new.items ≡ []) }
{
    sort_down(row);
    let mut least = least_vertex(&vertices);
    let mut blocks = Blocks::with_capacity(alloc, row.len())?;
    'fill: while let Some(next) = row.pop() {
        least = lesser(least, next.least);
        blocks.push(next.block)?;
    }
    Ok(Placed {
        node: Node { vertices, blocks },
        least,
    })
}

/// Whether the least vertex at or under the first node is less than that at or under the last.
/// They are listed with the last first.
fn rises(nodes: &[Placed]) -> bool
    ensures { result ≡ ends_rise (top_first nodes.now) }
{
    if nodes.is_empty() {
        return false;
    }
    vertex_or_zero(nodes[nodes.len() - 1].least) < vertex_or_zero(nodes[0].least)
}

/// Reverses the nodes, which are listed with the last first, if the cycle has to run from the last
/// to the first.
fn face(nodes: &mut Vec<Placed>)
    ensures { top_first nodes.new.items ≡ faced (top_first nodes.old.items) }
{
    if !rises(nodes) {
        nodes.reverse();
    }
}

/// The cycle through three or more nodes, in the direction in which the least vertex at or under
/// the first is less than that at or under the last. They are listed with the last first. It takes
/// one step for each node, and fails only if it runs out of memory.
pub fn cycle_of(alloc: Global, nodes: Vec<Placed>) -> Result<Hung, NoMemory>
    requires { length nodes.items ≢ 2 }
    ensures { IfOk result (λ b. (rs : List Read) → AreNodesOf rs (top_first nodes.items) → IsBlockOf (cycle_read rs) b) }
{
    let mut nodes = nodes;
    face(&mut nodes);
    let mut least = None;
    let mut children = Children::with_capacity(alloc, nodes.len())?;
    'close: while let Some(next) = nodes.pop() {
        least = lesser(least, next.least);
        children.push(trimmed(next.node))?;
    }
    Ok(Hung {
        block: Block::Cycle(children),
        least,
    })
}

/// A bridge to an empty node with two bridges, which stands for a cycle through two nodes and the
/// node above. They are listed with the last first. It fails only if it runs out of memory.
pub fn star_of(alloc: Global, nodes: Vec<Placed>) -> Result<Hung, NoMemory>
    requires { length nodes.items ≡ 2 }
    ensures { IfOk result (λ b. (rs : List Read) → AreNodesOf rs (top_first nodes.items) → IsBlockOf (cycle_read rs) b) }
{
    let mut nodes = nodes;
    let first = nodes.pop().unwrap();
    let second = nodes.pop().unwrap();
    let first = hang(alloc, first)?;
    let second = hang(alloc, second)?;
    let mut blocks = Vec::with_capacity(alloc, 2)?;
    blocks.push(first)?;
    blocks.push(second)?;
    let none = VertexList::new(alloc);
    let middle = node_of(alloc, none, &mut blocks)?;
    let block = hang(alloc, middle)?;
    Ok(block)
}
