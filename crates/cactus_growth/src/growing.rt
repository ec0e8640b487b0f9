//! What becomes of a tree if two of its nodes become one: the cuts that separate them go, and all
//! others stay.

ghost use Rattle.std.specs.Prelude.{ℕ, ◌≡◌, ◌≢◌, ◌<◌, ◌++◌, ◌∷◌, false, true, take, slice_get, IfOk};
ghost use Rattle.rooted_cactus.specs.declared.tree.Node.{Node};
ghost use Rattle.rooted_cactus.specs.declared.tree.Block.{Block};
ghost use Rattle.rooted_cactus.specs.Entered.{entered};
ghost use Rattle.rooted_cactus.specs.Entries.{nodes_of, top_first};
ghost use Rattle.rooted_cactus.specs.Sides.{below};
ghost use Rattle.rooted_cactus.specs.Trees.{blocks, nodes_in};
ghost use Rattle.cactus_growth.specs.Growth.{AreOnce, IsArcHung, IsGrown, IsOpened, IsPulled, IsToward};
ghost use Rattle.cactus_growth.specs.Levels.{AreAbove};
ghost use Rattle.cactus_growth.specs.Ways.{HasChild, IsWay, LeadsTo};

use crate::pieces::{
    hang_all, hang_arc, nodes_of_block, put_between, sorted, take_in, taken_block, taken_out,
};
use crate::ways::{Step, shared_steps, way_to};
use cut_definitions::NoMemory;
use rooted_cactus::{Blocks, Children, Node, VertexList};
use std::alloc::Global;

/// A node from which one of the nodes right below it was taken out.
#[derive(Drop)]
pub struct Opened {
    /// The node with its other blocks.
    pub top: Node,
    /// The nodes of the block before the one that was taken out.
    pub before: Children,
    /// The nodes of the block after it.
    pub after: Children,
}

/// Takes the node to which a step leads out of the node above it.
fn open(alloc: Global, node: Node, step: Step) -> Result<(Opened, Node), NoMemory>
    requires { (y : Node) × HasChild node step y }
    ensures opened { IfOk result (λ r. IsOpened node r.0.top (nodes_in r.0.before) r.1 (nodes_in r.0.after)) }
    ensures child { IfOk result (λ r. HasChild node step r.1) }
    ensures before { IfOk result (λ r. (b : Block) → slice_get (blocks node) step.block ≡ Some b → nodes_in r.0.before ≡ take step.child (nodes_of b)) }
{
    let Node { vertices, blocks } = node;
    let bare = Node {
        vertices,
        blocks: Blocks::new(alloc),
    };
    let (front, block, behind) = taken_block(blocks, step.block)?;
    let top = hang_all(bare, front)?;
    let top = hang_all(top, behind)?;
    let nodes = nodes_of_block(alloc, block)?;
    let (before, child, after) = taken_out(nodes, step.child)?;
    Ok((Opened { top, before, after }, child))
}

/// Puts a node into the place of the one that was taken out.
fn close(alloc: Global, opened: Opened, child: Node) -> Result<Node, NoMemory>
    ensures { IfOk result (λ x. IsArcHung opened.top (nodes_in opened.before ++ child ∷ nodes_in opened.after) x) }
{
    let Opened { top, before, after } = opened;
    let nodes = put_between(before, child, after)?;
    let node = hang_arc(alloc, top, nodes)?;
    Ok(node)
}

/// Merges a node, without the node to which a step leads, with one above. It returns the merged
/// node, and the node to which the step leads.
fn dissolve(alloc: Global, top: Node, node: Node, step: Step) -> Result<(Node, Node), NoMemory>
    requires { (y : Node) × HasChild node step y }
    ensures child { IfOk result (λ r. HasChild node step r.1) }
    ensures toward { IfOk result (λ r. (v : ℕ) (old : Node) → AreOnce (entered old) → below r.1 v ≡ true → IsToward v old top node → IsToward v old r.0 r.1) }
{
    let (opened, child) = open(alloc, node, step)?;
    let Opened {
        top: own,
        before,
        after,
    } = opened;
    let top = take_in(top, own)?;
    let top = hang_arc(alloc, top, before)?;
    let top = hang_arc(alloc, top, after)?;
    Ok((top, child))
}

/// The node that has a vertex, to which the way leads, merged with all nodes above it up to the
/// given one.
///
/// It moves only the blocks and nodes beside the way, in a loop.
pub fn pull(alloc: Global, node: Node, v: u32, way: &[Step]) -> Result<Node, NoMemory>
    requires way { LeadsTo v node way.now }
    requires once { AreOnce (entered node) }
    ensures { IfOk result (λ x. IsPulled v node x) }
{
    let mut top = Node {
        vertices: VertexList::new(alloc),
        blocks: Blocks::new(alloc),
    };
    let mut rest = node;
    'steps: for i in 0..way.len() {
        let (merged, child) = dissolve(alloc, top, rest, way[i])?;
        top = merged;
        rest = child;
    }
    let top = take_in(top, rest)?;
    let top = sorted(alloc, top)?;
    Ok(top)
}

/// Whether two ways begin with steps into one block.
fn begin_in_one_block(first: &[Step], second: &[Step]) -> bool
    ensures yes { result ≡ true → (s t : Step) × (slice_get first.now 0 ≡ Some s) × (slice_get second.now 0 ≡ Some t) × (s.block ≡ t.block) }
    ensures no { result ≡ false → (s t : Step) → slice_get first.now 0 ≡ Some s → slice_get second.now 0 ≡ Some t → s.block ≢ t.block }
{
    first.len() > 0 && second.len() > 0 && first[0].block == second[0].block
}

/// A node of which one block has the ways to two vertices, by different nodes; the way to `u`
/// leads by the earlier one. These two nodes become one.
fn join_children(
    alloc: Global,
    node: Node,
    u: u32,
    v: u32,
    u_way: &[Step],
    v_way: &[Step],
) -> Result<Node, NoMemory>
    requires u_way { LeadsTo u node u_way.now }
    requires v_way { LeadsTo v node v_way.now }
    requires once { AreOnce (entered node) }
    requires ordered { (s t : Step) × (slice_get u_way.now 0 ≡ Some s) × (slice_get v_way.now 0 ≡ Some t) × (s.block ≡ t.block) × (s.child < t.child) }
    ensures { IfOk result (λ x. IsGrown u v node x) }
{
    let (opened, far) = open(alloc, node, v_way[0])?;
    let Opened { top, before, after } = opened;
    let (before, near, between) = taken_out(before, u_way[0].child)?;
    let near = pull(alloc, near, u, &u_way[1..])?;
    let far = pull(alloc, far, v, &v_way[1..])?;
    let joint = take_in(near, far)?;
    let joint = sorted(alloc, joint)?;
    let joint = hang_arc(alloc, joint, between)?;
    let node = close(alloc, Opened { top, before, after }, joint)?;
    Ok(node)
}

/// A node at which the ways to two vertices separate, without the cuts that separate the vertices.
fn join(
    alloc: Global,
    node: Node,
    u: u32,
    v: u32,
    u_way: &[Step],
    v_way: &[Step],
) -> Result<Node, NoMemory>
    requires u_way { LeadsTo u node u_way.now }
    requires v_way { LeadsTo v node v_way.now }
    requires once { AreOnce (entered node) }
    requires apart { (s t : Step) → slice_get u_way.now 0 ≡ Some s → slice_get v_way.now 0 ≡ Some t → s ≢ t }
    ensures { IfOk result (λ x. IsGrown u v node x) }
{
    if !begin_in_one_block(u_way, v_way) {
        let node = pull(alloc, node, u, u_way)?;
        let way = way_to(alloc, &node, v)?;
        let node = pull(alloc, node, v, &way)?;
        return Ok(node);
    }
    if u_way[0].child < v_way[0].child {
        let node = join_children(alloc, node, u, v, u_way, v_way)?;
        return Ok(node);
    }
    let node = join_children(alloc, node, v, u, v_way, u_way)?;
    Ok(node)
}

/// Opens the nodes of a way, the uppermost first, and takes out the node to which the way leads.
fn descend(alloc: Global, root: Node, way: &[Step]) -> Result<(Vec<Opened>, Node), NoMemory>
    requires way { (y : Node) × IsWay root way.now y }
    requires once { AreOnce (entered root) }
    ensures above { IfOk result (λ r. AreAbove root (top_first r.0.items) r.1) }
    ensures way { IfOk result (λ r. IsWay root way.now r.1) }
    ensures once { IfOk result (λ r. AreOnce (entered r.1)) }
{
    let mut levels = Vec::new(alloc);
    let mut node = root;
    'steps: for i in 0..way.len() {
        let (opened, child) = open(alloc, node, way[i])?;
        levels.push(opened)?;
        node = child;
    }
    Ok((levels, node))
}

/// Puts a node into the place of the one that was taken out, below the opened nodes.
fn ascend(alloc: Global, levels: Vec<Opened>, node: Node) -> Result<Node, NoMemory>
    ensures { IfOk result (λ x. (u v : ℕ) (root old : Node) → AreAbove root (top_first levels.items) old → below old u ≡ true → below old v ≡ true → IsGrown u v old node → IsGrown u v root x) }
{
    let mut levels = levels;
    let mut node = node;
    'levels: while let Some(opened) = levels.pop() {
        node = close(alloc, opened, node)?;
    }
    Ok(node)
}

/// A node and all below it, without the cuts that separate two vertices that are in it or below
/// it.
///
/// It looks for the two nodes, and then moves the blocks and the nodes beside the ways to them.
/// All is done by loops.
pub fn grow_node(alloc: Global, root: Node, u: u32, v: u32) -> Result<Node, NoMemory>
    requires u_inside { below root u ≡ true }
    requires v_inside { below root v ≡ true }
    requires once { AreOnce (entered root) }
    ensures { IfOk result (λ x. IsGrown u v root x) }
{
    let u_way = way_to(alloc, &root, u)?;
    let v_way = way_to(alloc, &root, v)?;
    let shared = shared_steps(&u_way, &v_way);
    let (levels, node) = descend(alloc, root, &u_way[..shared])?;
    let node = join(alloc, node, u, v, &u_way[shared..], &v_way[shared..])?;
    let node = ascend(alloc, levels, node)?;
    Ok(node)
}
