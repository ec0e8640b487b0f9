//! The join of the nodes of a chain, from its far end.

ghost use Rattle.std.specs.Prelude.{◌≡◌, ◌<◌, ◌≤◌, [], ◌∷◌, ◌++◌, length, map, slice_index_or, take, drop, OnOk, IfOk};
ghost use Rattle.rooted_cactus.specs.Trees.{nodes_in, vertices};
ghost use Rattle.rooted_cactus.specs.Sides.{part, block_part, all_of, belows, with_below, bridge_of, cycle_of};
ghost use Rattle.cactus_merge.specs.Joined.{joined_cuts, SameSets, IsRuns, IsFarEnd, bridges, held, block_held, IsWide, IsWideBlock};
ghost use Rattle.std.specs.List.{All, flat_map};

use cut_definitions::NoMemory;
use residual_chain::Run;
use rooted_cactus::{Block, Blocks, Children, Node, VertexList};
use std::alloc::Global;

/// Attaches one more block below a node.
fn hang(node: Node, block: Block) -> Result<Node, NoMemory>
    ensures part { IfOk result (λ x. part x ≡ with_below (part node) (block_part block)) }
    ensures held { IfOk result (λ x. held x ≡ held node ++ block_held block) }
    ensures wide { IfOk result (λ x. IsWide node → IsWideBlock block → IsWide x) }
    ensures vertices { IfOk result (λ x. vertices x ≡ vertices node) }
{
    let mut node = node;
    node.blocks.push(block)?;
    Ok(node)
}

/// A bridge to a node below it.
fn bridge_to(alloc: Global, node: Node) -> Result<Block, NoMemory>
    ensures part { IfOk result (λ b. block_part b ≡ bridge_of (part node)) }
    ensures held { IfOk result (λ b. block_held b ≡ held node) }
    ensures wide { IfOk result (λ b. IsWide node → IsWideBlock b) }
{
    let child = Box::new(alloc, node)?;
    Ok(Block::Bridge(child))
}

/// The node at the far end of a run: the one below a bridge, or otherwise an empty one above the
/// cycle of the next run.
fn far_end(alloc: Global, hanging: Block) -> Result<Node, NoMemory>
    ensures part { IfOk result (λ x. IsFarEnd (block_part hanging) (part x)) }
    ensures held { IfOk result (λ x. held x ≡ block_held hanging) }
    ensures wide { IfOk result (λ x. IsWideBlock hanging → IsWide x) }
{
    match hanging {
        Block::Bridge(node) => Ok(Box::into_inner(node)),
        Block::Cycle(nodes) => {
            let node = Node {
                vertices: VertexList::new(alloc),
                blocks: Blocks::new(alloc),
            };
            Ok(hang(node, Block::Cycle(nodes))?)
        }
    }
}

/// The cycle of a run, which takes its nodes from the end of the list.
fn draw_run(nodes: &mut Children, first: usize, end: Node) -> Result<Block, NoMemory>
    requires { first ≤ length (nodes_in nodes.old) }
    ensures rest { OnOk result (nodes_in nodes.new ≡ take first (nodes_in nodes.old)) }
    ensures cycle { IfOk result (λ b. block_part b ≡ cycle_of (map part (drop first (nodes_in nodes.old) ++ end ∷ []))) }
    ensures held { IfOk result (λ b. block_held b ≡ flat_map held (drop first (nodes_in nodes.old)) ++ held end) }
    ensures wide { IfOk result (λ b. first < length (nodes_in nodes.old) → All IsWide (nodes_in nodes.old) → IsWide end → IsWideBlock b) }
{
    let mut cycle = nodes.split_off(first)?;
    cycle.push(end)?;
    Ok(Block::Cycle(cycle))
}

/// Joins the nodes after the first `until` by bridges, above what hangs below the last.
fn bridge_down(
    alloc: Global,
    nodes: &mut Children,
    until: usize,
    hanging: Block,
) -> Result<Block, NoMemory>
    requires { until ≤ length (nodes_in nodes.old) }
    ensures rest { OnOk result (nodes_in nodes.new ≡ take until (nodes_in nodes.old)) }
    ensures joined { IfOk result (λ b. block_part b ≡ bridges (map part (drop until (nodes_in nodes.old))) (block_part hanging)) }
    ensures held { IfOk result (λ b. block_held b ≡ flat_map held (drop until (nodes_in nodes.old)) ++ block_held hanging) }
    ensures wide { IfOk result (λ b. All IsWide (nodes_in nodes.old) → IsWideBlock hanging → IsWideBlock b) }
{
    let mut hanging = hanging;
    'down: while nodes.len() > until {
        let node = nodes.pop().unwrap();
        let node = hang(node, hanging)?;
        hanging = bridge_to(alloc, node)?;
    }
    Ok(hanging)
}

/// Joins the nodes of a chain into a tree: neighbours by bridges, and each run by a cycle with its
/// two outer neighbours.
///
/// The cuts of the result are, as sets, those of the chain, the intervals inside the runs, and the
/// cuts of the nodes. The tree is built from its far end, with one block that hangs below the
/// nodes that are left. If two runs touch, an empty node is between their cycles. It takes memory
/// for each bridge, empty node and cycle, moves the nodes, and takes one step for each node and
/// run. If it runs out of memory, the nodes are dropped.
pub fn join(alloc: Global, nodes: Children, runs: &[Run]) -> Result<Node, NoMemory>
    requires enough { 2 ≤ length (nodes_in nodes) }
    requires runs { IsRuns (length (nodes_in nodes)) runs.now }
    ensures below { IfOk result (λ x. (part x).below ≡ all_of (belows (map part (nodes_in nodes)))) }
    ensures cuts { IfOk result (λ x. SameSets (part x).cuts (joined_cuts (map part (nodes_in nodes)) runs.now)) }
    ensures held { IfOk result (λ x. held x ≡ flat_map held (nodes_in nodes)) }
    ensures wide { IfOk result (λ x. All IsWide (nodes_in nodes) → IsWide x) }
    ensures root { IfOk result (λ x. vertices x ≡ vertices (slice_index_or (nodes_in nodes) 0 x)) }
{
    let mut nodes = nodes;
    let last = nodes.pop().unwrap();
    let mut hanging = bridge_to(alloc, last)?;
    let mut left = runs.len();
    'runs: while left > 0 {
        left -= 1;
        let run = runs[left];
        let below = bridge_down(alloc, &mut nodes, run.last as usize, hanging)?;
        let end = far_end(alloc, below)?;
        hanging = draw_run(&mut nodes, run.first as usize - 1, end)?;
    }
    hanging = bridge_down(alloc, &mut nodes, 1, hanging)?;
    let root = nodes.pop().unwrap();
    let tree = hang(root, hanging)?;
    Ok(tree)
}
