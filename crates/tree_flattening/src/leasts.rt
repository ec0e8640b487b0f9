//! The least vertices at or below nodes and blocks.

ghost use Rattle.std.specs.Prelude.{ℕ, ◌≡◌, ◌<◌, ◌≤◌, ◌++◌, ◌∷◌, [], IfOk, length, map, slice_index, slice_index_or};
ghost use Rattle.std.specs.List.{All};
ghost use Rattle.cut_definitions.specs.Cuts.{least};
ghost use Rattle.tree_flattening.specs.Arranged.{AreBelow, IsLeastOfBlock, IsLeastOfNode};
ghost use Rattle.tree_flattening.specs.Plans.{run_of};

use crate::groups::Groups;
use cut_definitions::NoMemory;
use node_tree::FlatTree;
use std::alloc::Global;

/// The least vertex at or below each node, and for the first node of each block the least vertex
/// below the block.
#[derive(Drop)]
pub struct Leasts {
    pub nodes: Vec<u32>,
    pub blocks: Vec<u32>,
}

/// The least of a number and some others.
fn least_among(first: u32, numbers: &[u32]) -> u32
    ensures { result ≡ least (first ∷ numbers.now) }
{
    let mut least = first;
    'numbers: for number in numbers {
        least = least.min(*number);
    }
    least
}

/// The least of a number and those that a table has at some places.
fn least_at(first: u32, places: &[u32], table: &[u32]) -> u32
    requires { All (λ place. place < length table.now) places.now }
    ensures { result ≡ least (first ∷ map (slice_index table.now) places.now) }
{
    let mut least = first;
    'places: for place in places {
        least = least.min(table[*place as usize]);
    }
    least
}

/// The least vertex at or below a node, from those below its blocks.
fn least_of_node(own: &[u32], heads: &[u32], blocks: &[u32]) -> u32
    requires some { 1 ≤ length own.now }
    requires known { All (λ head. head < length blocks.now) heads.now }
    ensures { result ≡ least (own.now ++ map (slice_index blocks.now) heads.now) }
{
    let least = least_among(own[0], own);
    least_at(least, heads, blocks)
}

/// The least vertex below a block, from those at or below its nodes.
fn least_of_block(tree: &FlatTree, nodes: &[u32], head: usize) -> u32
    requires within { head < length tree.now.uppers }
    requires known { length nodes.now ≡ length tree.now.uppers }
    ensures { result ≡ least (map (slice_index nodes.now) (run_of tree.now head)) }
{
    let count = tree.len();
    let mut least = nodes[head];
    let mut node = head + 1;
    'followers: while node < count && tree.is_follower(node) {
        least = least.min(nodes[node]);
        node += 1;
    }
    least
}

/// Finds the least vertices of all nodes and blocks of a tree, from its last node to the root.
fn find_leasts(
    tree: &FlatTree,
    members: &Groups,
    heads: &Groups,
    nodes: &mut [u32],
    blocks: &mut [u32],
)
    requires members { length members.now ≡ length tree.now.uppers }
    requires heads { length heads.now ≡ length tree.now.uppers }
    requires filled { (i : ℕ) → i < length tree.now.uppers → 1 ≤ length (slice_index_or members.now i []) }
    requires below { AreBelow (length tree.now.uppers) heads.now }
    requires len { length nodes.old ≡ length tree.now.uppers }
    requires long { length blocks.old ≡ length tree.now.uppers }
    ensures len { length nodes.new ≡ length tree.now.uppers }
    ensures long { length blocks.new ≡ length tree.now.uppers }
    ensures nodes { (i : ℕ) → i < length tree.now.uppers → IsLeastOfNode members.now heads.now nodes.new blocks.new i }
    ensures blocks { (h : ℕ) → h < length tree.now.uppers → IsLeastOfBlock tree.now nodes.new blocks.new h }
{
    let mut node = tree.len();
    'nodes: while node > 0 {
        node -= 1;
        nodes[node] = least_of_node(members.at(node), heads.at(node), blocks);
        if !tree.is_follower(node) {
            blocks[node] = least_of_block(tree, nodes, node);
        }
    }
}

/// The least vertices of all nodes and blocks of a tree. It takes one step and 8 bytes for each
/// node, and one step for each vertex. It fails only if it runs out of memory.
pub fn leasts_of(
    alloc: Global,
    tree: &FlatTree,
    members: &Groups,
    heads: &Groups,
) -> Result<Leasts, NoMemory>
    requires members { length members.now ≡ length tree.now.uppers }
    requires heads { length heads.now ≡ length tree.now.uppers }
    requires filled { (i : ℕ) → i < length tree.now.uppers → 1 ≤ length (slice_index_or members.now i []) }
    requires below { AreBelow (length tree.now.uppers) heads.now }
    ensures len { IfOk result (λ l. length l.nodes.items ≡ length tree.now.uppers) }
    ensures long { IfOk result (λ l. length l.blocks.items ≡ length tree.now.uppers) }
    ensures nodes { IfOk result (λ l. (i : ℕ) → i < length tree.now.uppers → IsLeastOfNode members.now heads.now l.nodes.items l.blocks.items i) }
    ensures blocks { IfOk result (λ l. (h : ℕ) → h < length tree.now.uppers → IsLeastOfBlock tree.now l.nodes.items l.blocks.items h) }
{
    let mut nodes = vec![in alloc; 0u32; tree.len()]?;
    let mut blocks = vec![in alloc; 0u32; tree.len()]?;
    find_leasts(
        tree,
        members,
        heads,
        nodes.as_mut_slice(),
        blocks.as_mut_slice(),
    );
    Ok(Leasts { nodes, blocks })
}
