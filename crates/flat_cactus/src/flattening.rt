//! Flattening: the nodes of a cactus are numbered in the order of entering, and its bridges and
//! cycles use these numbers.

ghost use Rattle.std.specs.Prelude.{◌≡◌, ℕ, List, ◌++◌, map, length, drop, OnOk, IfOk};
ghost use Rattle.std.specs.List.{flat_map};
ghost use Rattle.rooted_cactus.specs.Trees.{blocks, blocks_in, nodes_in};
ghost use Rattle.rooted_cactus.specs.Outlines.{sizes, block_sizes};
ghost use Rattle.flat_cactus.specs.Flattened.{flat_of};
ghost use Rattle.flat_cactus.specs.Tasks.{node, block, pending, pendings, pending_sizes, with_node, with_cycle, gained, next_of};

use crate::flat::FlatCactus;
use cut_definitions::NoMemory;
use rooted_cactus::{Block, Blocks, Cactus, Children, Node, subtree_sizes};
use std::alloc::Global;

/// What is still to be entered: a node of a cycle, or a block below the node with a number.
#[derive(Drop)]
enum Task<'a> {
    Enter(&'a Node),
    Hang(&'a Block, u64),
}

/// Puts the nodes of a cycle on the stack, the first on top.
fn stack_nodes<'a>(stack: &mut Vec<Task<'a>>, nodes: &'a Children) -> Result<(), NoMemory>
    ensures { OnOk result (pendings stack.new.items ≡ map node (nodes_in nodes.now) ++ pendings stack.old.items) }
{
    let mut i = nodes.len();
    'back: while i > 0 {
        i -= 1;
        stack.push(Task::Enter(nodes.at(i)))?;
    }
    Ok(())
}

/// Puts the blocks below the node with a number on the stack, the first on top.
fn stack_blocks<'a>(stack: &mut Vec<Task<'a>>, up: u64, items: &'a Blocks) -> Result<(), NoMemory>
    ensures { OnOk result (pendings stack.new.items ≡ map (block up) (blocks_in items.now) ++ pendings stack.old.items) }
{
    let mut i = items.len();
    'back: while i > 0 {
        i -= 1;
        stack.push(Task::Hang(items.at(i), up))?;
    }
    Ok(())
}

/// Appends a node with its vertices.
fn add_node(flat: &mut FlatCactus, item: &Node) -> Result<(), NoMemory>
    ensures { OnOk result (flat.new ≡ with_node flat.old item.now) }
{
    flat.push_node()?;
    'vertices: for v in item.vertices.as_slice() {
        flat.push_vertex(*v)?;
    }
    Ok(())
}

/// Appends the cycle through the node `up` and the roots of the trees, whose nodes have the next
/// numbers.
fn add_cycle(
    flat: &mut FlatCactus,
    up: u64,
    nodes: &Children,
    subtrees: &[usize],
) -> Result<(), NoMemory>
    requires { (rest : List ℕ) × (drop (length flat.old.nodes) subtrees.now ≡ flat_map sizes (nodes_in nodes.now) ++ rest) }
    ensures { OnOk result (flat.new ≡ with_cycle flat.old up (nodes_in nodes.now)) }
{
    let mut root = flat.nodes();
    flat.push_cycle()?;
    flat.push_member(up)?;
    'members: for _i in 0..nodes.len() {
        flat.push_member(root as u64)?;
        root += subtrees[root];
    }
    Ok(())
}

/// Appends a node, and puts the blocks below it on the stack.
fn enter_node<'a>(
    flat: &mut FlatCactus,
    stack: &mut Vec<Task<'a>>,
    item: &'a Node,
) -> Result<(), NoMemory>
    ensures flat { OnOk result (flat.new ≡ with_node flat.old item.now) }
    ensures stack { OnOk result (pendings stack.new.items ≡ map (block (length flat.old.nodes)) (blocks item.now) ++ pendings stack.old.items) }
{
    let number = flat.nodes() as u64;
    add_node(flat, item)?;
    stack_blocks(stack, number, &item.blocks)?;
    Ok(())
}

/// Appends a bridge with the node below it, or a cycle, and puts what is below on the stack.
fn enter_block<'a>(
    flat: &mut FlatCactus,
    stack: &mut Vec<Task<'a>>,
    subtrees: &[usize],
    item: &'a Block,
    up: u64,
) -> Result<(), NoMemory>
    requires { (rest : List ℕ) × (drop (length flat.old.nodes) subtrees.now ≡ block_sizes item.now ++ rest) }
    ensures flat { OnOk result (flat.new ≡ gained flat.old (block up item.now)) }
    ensures stack { OnOk result (pendings stack.new.items ≡ next_of (length flat.old.nodes) (block up item.now) ++ pendings stack.old.items) }
{
    match item {
        Block::Bridge(child) => {
            let number = flat.nodes() as u64;
            flat.push_bridge(up, number)?;
            enter_node(flat, stack, child)?;
            Ok(())
        }
        Block::Cycle(nodes) => {
            add_cycle(flat, up, nodes, subtrees)?;
            stack_nodes(stack, nodes)?;
            Ok(())
        }
    }
}

/// Enters what was taken from the stack.
fn enter<'a>(
    flat: &mut FlatCactus,
    stack: &mut Vec<Task<'a>>,
    subtrees: &[usize],
    task: Task<'a>,
) -> Result<(), NoMemory>
    requires { (rest : List ℕ) × (drop (length flat.old.nodes) subtrees.now ≡ pending_sizes (pending task) ++ rest) }
    ensures flat { OnOk result (flat.new ≡ gained flat.old (pending task.entry)) }
    ensures stack { OnOk result (pendings stack.new.items ≡ next_of (length flat.old.nodes) (pending task.entry) ++ pendings stack.old.items) }
{
    match task {
        Task::Enter(item) => {
            enter_node(flat, stack, item)?;
            Ok(())
        }
        Task::Hang(item, up) => {
            enter_block(flat, stack, subtrees, item, up)?;
            Ok(())
        }
    }
}

/// The flat cactus of a cactus. Its nodes are numbered from 0 in the order in which the tree is
/// entered, a node before its children and children in order. Its bridges ascend by the lower
/// node. Its cycles ascend by the first child, each with the node above first.
///
/// It takes one step for each node, block and vertex, in loops with a stack, so that a deep tree
/// does not overflow the call stack. It takes memory in proportion to the nodes and to n, and
/// fails only if it runs out of memory.
pub fn flatten(alloc: Global, cactus: &Cactus) -> Result<FlatCactus, NoMemory>
    ensures { IfOk result (λ f. f ≡ flat_of cactus.now) }
{
    let root = cactus.root();
    let subtrees = subtree_sizes(alloc, root, cactus.n() as usize)?;
    let mut flat = FlatCactus::with_capacity(alloc, cactus.n(), subtrees.len())?;
    let mut stack = Vec::with_capacity(alloc, subtrees.len())?;
    stack.push(Task::Enter(root))?;
    'walk: while let Some(task) = stack.pop() {
        enter(&mut flat, &mut stack, &subtrees, task)?;
    }
    Ok(flat)
}
