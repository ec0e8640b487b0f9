//! The cactus of a finished tree.

ghost use Rattle.std.specs.Prelude.{ℕ, ◌≡◌, ◌↔◌, ◌+◌, ◌<◌, ◌≤◌, [], true, IfOk, IsFalse, IsTrue, OnOk, length, reverse, slice_index, take, drop};
ghost use Rattle.std.specs.List.{All, Contains, filter, range_with_len};
ghost use Rattle.cut_definitions.specs.Weight.{VertexSet};
ghost use Rattle.rooted_cactus.specs.Different.{HaveSameSides, HasNoEmptySide};
ghost use Rattle.rooted_cactus.specs.Normal.{is_normal};
ghost use Rattle.rooted_cactus.specs.Trees.{blocks, nodes_in, vertices};
ghost use Rattle.rooted_cactus.specs.Rooted.{sides_of};
ghost use Rattle.node_tree.specs.Finished.{arrays_of};
ghost use Rattle.node_tree.specs.Flat.{AreNodes, sets_of};
ghost use Rattle.node_tree.specs.Forest.{AddsBlock, AddsVertex, AreFrom, IsBlockOf, IsChangedAt, IsFilled, IsPlaced};
ghost use Rattle.node_tree.specs.TreeSets.{IsTreeSide};

use crate::homed_tree::HomedTree;
use crate::tree::FlatTree;
use cut_definitions::NoMemory;
use rooted_cactus::{Block, Blocks, Cactus, Children, Node, VertexList};
use std::alloc::Global;

/// How often each number below a count is in a list.
fn tally(alloc: Global, count: usize, numbers: &[usize]) -> Result<Vec<u32>, NoMemory>
    requires { All (λ number. number < count) numbers.now }
    ensures { IfOk result (λ times. length times.items ≡ count) }
{
    let mut times = vec![in alloc; 0u32; count]?;
    let counts = times.as_mut_slice();
    for number in numbers {
        counts[*number] = counts[*number].saturating_add(1);
    }
    Ok(times)
}

/// How many blocks hang below each node: one for each node that follows no other.
fn blocks_below(alloc: Global, tree: &FlatTree) -> Result<Vec<u32>, NoMemory>
    requires { (i : ℕ) → 1 ≤ i → i < length tree.now.uppers → slice_index tree.now.uppers i < i }
    ensures { IfOk result (λ times. length times.items ≡ length tree.now.uppers) }
{
    let mut times = vec![in alloc; 0u32; tree.len()]?;
    let counts = times.as_mut_slice();
    for node in 1..tree.len() {
        if !tree.is_follower(node) {
            let upper = tree.upper(node);
            counts[upper] = counts[upper].saturating_add(1);
        }
    }
    Ok(times)
}

/// A node without vertices and blocks, with room for so many of them.
fn empty_node(alloc: Global, members: u32, children: u32) -> Result<Node, NoMemory>
    ensures vertices { IfOk result (λ x. vertices x ≡ []) }
    ensures blocks { IfOk result (λ x. blocks x ≡ []) }
{
    let vertices = VertexList::with_capacity(alloc, members as usize)?;
    let blocks = Blocks::with_capacity(alloc, children as usize)?;
    Ok(Node { vertices, blocks })
}

/// Nodes without vertices and blocks, each with room for so many of them.
fn empty_nodes(alloc: Global, vertices: &[u32], blocks: &[u32]) -> Result<Vec<Node>, NoMemory>
    requires { length blocks.now ≡ length vertices.now }
    ensures len { IfOk result (λ nodes. length nodes.items ≡ length vertices.now) }
    ensures empty { IfOk result (λ nodes. (homes : ℕ → ℕ) → AreFrom (IsPlaced 0 homes) 0 nodes.items) }
{
    let mut nodes = Vec::with_capacity(alloc, vertices.len())?;
    'nodes: for i in 0..vertices.len() {
        let node = empty_node(alloc, vertices[i], blocks[i])?;
        nodes.push(node)?;
    }
    Ok(nodes)
}

/// The nodes of a tree without vertices and blocks, with just the room that they need. (The root
/// has one place too many.)
fn bare_nodes(alloc: Global, tree: &FlatTree, homes: &[usize]) -> Result<Vec<Node>, NoMemory>
    requires within { All (λ home. home < length tree.now.uppers) homes.now }
    requires upper { (i : ℕ) → 1 ≤ i → i < length tree.now.uppers → slice_index tree.now.uppers i < i }
    ensures len { IfOk result (λ nodes. length nodes.items ≡ length tree.now.uppers) }
    ensures empty { IfOk result (λ nodes. (homes : ℕ → ℕ) → AreFrom (IsPlaced 0 homes) 0 nodes.items) }
{
    let vertices = tally(alloc, tree.len(), homes)?;
    let blocks = blocks_below(alloc, tree)?;
    empty_nodes(alloc, &vertices, &blocks)
}

/// Puts a vertex at the end of the list of a node.
fn put(nodes: &mut [Node], home: usize, vertex: u32) -> Result<(), NoMemory>
    requires { home < length nodes.old }
    ensures { OnOk result (IsChangedAt home (AddsVertex vertex) nodes.old nodes.new) }
{
    nodes[home].vertices.push(vertex)?;
    Ok(())
}

/// The nodes with their vertices, ascending, and without blocks.
fn filled_nodes(
    alloc: Global,
    tree: &FlatTree,
    homes: Vec<usize>,
    n: u32,
) -> Result<Vec<Node>, NoMemory>
    requires homes { length homes.items ≡ n + 1 }
    requires within { All (λ home. home < length tree.now.uppers) homes.items }
    requires upper { (i : ℕ) → 1 ≤ i → i < length tree.now.uppers → slice_index tree.now.uppers i < i }
    ensures len { IfOk result (λ nodes. length nodes.items ≡ length tree.now.uppers) }
    ensures placed { IfOk result (λ nodes. AreFrom (IsPlaced n (slice_index homes.items)) 0 nodes.items) }
{
    let mut nodes = bare_nodes(alloc, tree, &homes)?;
    'vertices: for before in 0..n {
        let vertex = before + 1;
        put(nodes.as_mut_slice(), homes[vertex as usize], vertex)?;
    }
    Ok(nodes)
}

/// Takes the nodes from one on for a cycle, the last first:
/// read backwards it has the same intervals.
fn take_cycle(alloc: Global, nodes: &mut Vec<Node>, first: usize) -> Result<Children, NoMemory>
    requires { first ≤ length nodes.old.items }
    ensures rest { OnOk result (nodes.new.items ≡ take first nodes.old.items) }
    ensures taken { IfOk result (λ cycle. nodes_in cycle ≡ reverse (drop first nodes.old.items)) }
{
    let mut cycle = Children::with_capacity(alloc, nodes.len() - first)?;
    'taken: while nodes.len() > first {
        let node = nodes.pop().unwrap();
        cycle.push(node)?;
    }
    Ok(cycle)
}

/// Takes the nodes from one on as a block: a bridge where it is the last, and else a cycle.
fn take_block(alloc: Global, nodes: &mut Vec<Node>, first: usize) -> Result<Block, NoMemory>
    requires { first < length nodes.old.items }
    ensures rest { OnOk result (nodes.new.items ≡ take first nodes.old.items) }
    ensures block { IfOk result (IsBlockOf (drop first nodes.old.items)) }
{
    let alone = nodes.len() - first == 1;
    if alone {
        let node = nodes.pop().unwrap();
        let child = Box::new(alloc, node)?;
        return Ok(Block::Bridge(child));
    }
    let cycle = take_cycle(alloc, nodes, first)?;
    Ok(Block::Cycle(cycle))
}

/// Hangs one more block below a node.
fn hang(nodes: &mut [Node], upper: usize, block: Block) -> Result<(), NoMemory>
    requires { upper < length nodes.old }
    ensures { OnOk result (IsChangedAt upper (AddsBlock block) nodes.old nodes.new) }
{
    nodes[upper].blocks.push(block)?;
    Ok(())
}

/// Hangs the nodes from one on below an earlier one.
fn hang_from(
    alloc: Global,
    nodes: &mut Vec<Node>,
    first: usize,
    upper: usize,
) -> Result<(), NoMemory>
    requires first { first < length nodes.old.items }
    requires upper { upper < first }
    ensures { OnOk result ((b : Block) × IsBlockOf (drop first nodes.old.items) b × IsChangedAt upper (AddsBlock b) (take first nodes.old.items) nodes.new.items) }
{
    let block = take_block(alloc, nodes, first)?;
    hang(nodes.as_mut_slice(), upper, block)?;
    Ok(())
}

/// Whether each node has a vertex.
fn have_vertices(nodes: &[Node]) -> bool
    ensures yes { IsTrue result → All IsFilled nodes.now }
    ensures no { IsFalse result → ¬ (All IsFilled nodes.now) }
{
    for node in nodes {
        if node.vertices.len() == 0 {
            return false;
        }
    }
    true
}

/// A cactus, and whether each of its nodes has a vertex.
#[derive(Drop)]
pub struct MadeCactus {
    pub cactus: Cactus,
    pub is_filled: bool,
}

/// The cactus of a finished tree over the vertices 1 to n, whose sides are those of the tree.
///
/// Nodes that follow each other are in one cycle, and a node alone hangs by a bridge; the node of
/// vertex 1 is the root. So each cycle has three nodes or more, and where no node is empty the
/// cactus is normal. Each list has just the room that it needs. It takes memory in proportion to
/// the nodes and vertices, and is refused only where that is wanting. One step for each node and
/// vertex, in loops, so that a deep tree does not run out of stack.
pub fn cactus_of_tree(alloc: Global, tree: HomedTree, n: u32) -> Result<MadeCactus, NoMemory>
    requires some { 1 ≤ n }
    requires homes { length tree.homes.items ≡ n + 1 }
    requires nodes { AreNodes (arrays_of tree) }
    requires one { slice_index tree.homes.items 1 ≡ 0 }
    ensures n { IfOk result (λ m. m.cactus.vertices ≡ n) }
    ensures sides { IfOk result (λ m. (x : VertexSet) → Contains (sides_of m.cactus) (filter x (range_with_len 1 n)) ↔ IsTreeSide n (sets_of (arrays_of tree)) x) }
    ensures filled { IfOk result (λ m. IsTrue m.is_filled → is_normal m.cactus.root ≡ true) }
{
    let HomedTree { tree, homes } = tree;
    let mut first = tree.len();
    let mut nodes = filled_nodes(alloc, &tree, homes, n)?;
    let is_filled = have_vertices(&nodes);
    'nodes: while first > 1 {
        first -= 1;
        if tree.is_follower(first) {
            continue;
        }
        hang_from(alloc, &mut nodes, first, tree.upper(first))?;
    }
    let root = nodes.pop().unwrap();
    let cactus = Cactus::from_root(n, root);
    Ok(MadeCactus { cactus, is_filled })
}

/// The normal form of a cactus that was made of a tree: where each node has a vertex, and else
/// where it is normal, the cactus as it is.
///
/// It costs one step for each node and block where a node has no vertex,
/// and memory in proportion to the nodes.
pub fn normal_form(alloc: Global, made: MadeCactus) -> Result<Cactus, NoMemory>
    requires filled { IsTrue made.is_filled → is_normal made.cactus.root ≡ true }
    requires sides { HasNoEmptySide made.cactus }
    ensures n { IfOk result (λ c. c.vertices ≡ made.cactus.vertices) }
    ensures normal { IfOk result (λ c. is_normal c.root ≡ true) }
    ensures sides { IfOk result (λ c. HaveSameSides c made.cactus) }
{
    let MadeCactus { cactus, is_filled } = made;
    if is_filled {
        return Ok(cactus);
    }
    let is_normal = cactus.is_normal_within(alloc)?;
    if is_normal {
        return Ok(cactus);
    }
    cactus.normal(alloc)
}
