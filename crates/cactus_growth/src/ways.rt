//! The way from a node down to the node below it that has a vertex, found by a loop over the tree.

ghost use Rattle.std.specs.Prelude.{◌≡◌, ◌≢◌, ◌≤◌, take, length, slice_get, true, [], ◌∷◌, IfOk, IfSome, IfNone};
ghost use Rattle.std.specs.List.{flat_map};
ghost use Rattle.cut_definitions.specs.Cuts.{has};
ghost use Rattle.rooted_cactus.specs.declared.tree.Node.{Node};
ghost use Rattle.rooted_cactus.specs.declared.tree.Block.{Block};
ghost use Rattle.rooted_cactus.specs.Entries.{nodes_of};
ghost use Rattle.rooted_cactus.specs.Sides.{below};
ghost use Rattle.rooted_cactus.specs.Trees.{blocks};
ghost use Rattle.cactus_growth.specs.Ways.{AreVisited, HasChild, IsStepTo, LeadsTo, same_step};

use cut_definitions::NoMemory;
use rooted_cactus::{Node, VertexList};
use std::alloc::Global;

/// A step from a node to a node right below it.
#[derive(Clone, Copy)]
pub struct Step {
    /// The place of the block among those of the upper node.
    pub block: usize,
    /// The place of the lower node in that block, 0 below a bridge.
    pub child: usize,
}

/// A node with blocks, below which the search still has to look.
#[derive(Drop)]
pub struct Visit<'a> {
    pub node: &'a Node,
    /// The number of steps down to the node above it.
    pub depth: usize,
    /// The step from there.
    pub step: Step,
}

/// Whether a list has a vertex.
fn has_vertex(list: &VertexList, v: u32) -> bool
    ensures { result ≡ has list.now v }
{
    let mut found = false;
    'vertices: for i in 0..list.len() {
        found |= list.at(i) == v;
    }
    found
}

/// Looks at a node. If it has the vertex, it returns the step to it. Otherwise the node is put on
/// the stack if it has a block below it.
fn visit_node<'a>(
    stack: &mut Vec<Visit<'a>>,
    node: &'a Node,
    depth: usize,
    step: Step,
    v: u32,
) -> Result<Option<Step>, NoMemory>
    ensures found { IfOk result (λ f. IfSome f (λ s. (x : Node) → HasChild x step node.now → IsStepTo v x s)) }
    ensures none { IfOk result (λ f. IfNone f ((x : Node) → HasChild x step node.now → AreVisited v x depth (node.now ∷ []) stack.old.items stack.new.items)) }
{
    if has_vertex(&node.vertices, v) {
        return Ok(Some(step));
    }
    if node.blocks.len() > 0 {
        stack.push(Visit { node, depth, step })?;
    }
    Ok(None)
}

/// Looks at the nodes of a block. If one has the vertex, it returns the step to it. Otherwise
/// those with a block below them are put on the stack.
fn visit_nodes<'a>(
    stack: &mut Vec<Visit<'a>>,
    nodes: &'a [Node],
    block: usize,
    depth: usize,
    v: u32,
) -> Result<Option<Step>, NoMemory>
    ensures found { IfOk result (λ f. IfSome f (λ s. (x : Node) (b : Block) → slice_get (blocks x) block ≡ Some b → nodes_of b ≡ nodes.now → IsStepTo v x s)) }
    ensures none { IfOk result (λ f. IfNone f ((x : Node) (b : Block) → slice_get (blocks x) block ≡ Some b → nodes_of b ≡ nodes.now → AreVisited v x depth nodes.now stack.old.items stack.new.items)) }
{
    'each_node: for child in 0..nodes.len() {
        let step = Step { block, child };
        if let Some(found) = visit_node(stack, &nodes[child], depth, step, v)? {
            return Ok(Some(found));
        }
    }
    Ok(None)
}

/// Looks at the nodes right below a node, to which `depth` steps lead. If one has the vertex, it
/// returns the step to it. Otherwise those with a block below them are put on the stack.
fn visit_below<'a>(
    stack: &mut Vec<Visit<'a>>,
    node: &'a Node,
    depth: usize,
    v: u32,
) -> Result<Option<Step>, NoMemory>
    ensures found { IfOk result (λ f. IfSome f (λ s. IsStepTo v node.now s)) }
    ensures none { IfOk result (λ f. IfNone f (AreVisited v node.now depth (flat_map nodes_of (blocks node.now)) stack.old.items stack.new.items)) }
{
    'each_block: for place in 0..node.blocks.len() {
        if let Some(found) = visit_nodes(stack, node.blocks.at(place).nodes(), place, depth, v)? {
            return Ok(Some(found));
        }
    }
    Ok(None)
}

/// The steps from a node to the node that has a vertex, which is the node itself or below it.
///
/// It takes one step for each node and vertex until it is found, in a loop with a stack. Each node
/// is looked at before it would be put on the stack, and one with no block below it never is. So
/// it takes memory in proportion to the steps and to the nodes with a block below them that were
/// looked at. It fails only if it runs out of memory.
pub fn way_to(alloc: Global, root: &Node, v: u32) -> Result<Vec<Step>, NoMemory>
    requires { below root.now v ≡ true }
    ensures { IfOk result (λ way. LeadsTo v root.now way.items) }
{
    let mut way: Vec<Step> = Vec::new(alloc);
    if has_vertex(&root.vertices, v) {
        return Ok(way);
    }
    let mut stack = Vec::new(alloc);
    if let Some(step) = visit_below(&mut stack, root, 0, v)? {
        way.push(step)?;
        return Ok(way);
    }
    'search: while let Some(visit) = stack.pop() {
        way.truncate(visit.depth);
        way.push(visit.step)?;
        if let Some(step) = visit_below(&mut stack, visit.node, way.len(), v)? {
            way.push(step)?;
            return Ok(way);
        }
    }
    unreachable!()
}

/// Whether two steps lead to the same node.
fn is_same(a: &Step, b: &Step) -> bool
    ensures { result ≡ same_step a.now b.now }
{
    a.block == b.block && a.child == b.child
}

/// The number of first steps that two ways have in common.
pub fn shared_steps(first: &[Step], second: &[Step]) -> usize
    ensures first { result ≤ length first.now }
    ensures second { result ≤ length second.now }
    ensures same { take result first.now ≡ take result second.now }
    ensures apart { (s t : Step) → slice_get first.now result ≡ Some s → slice_get second.now result ≡ Some t → s ≢ t }
{
    let count = first.len().min(second.len());
    'steps: for i in 0..count {
        if !is_same(&first[i], &second[i]) {
            return i;
        }
    }
    count
}
