//! Flattening by the numbers of nodes.

ghost use Rattle.std.specs.Prelude.{◌≡◌, ◌<◌, ◌≤◌, ◌+◌, ◌++◌, ◌∷◌, ℕ, map, length, OnOk, IfOk};
ghost use Rattle.std.specs.List.{All};
ghost use Rattle.rooted_cactus.specs.declared.tree.Node.{Node};
ghost use Rattle.rooted_cactus.specs.declared.tree.Block.{Block};
ghost use Rattle.rooted_cactus.specs.Entries.{top_first};
ghost use Rattle.flat_cactus.specs.Flattened.{flat_of};
ghost use Rattle.tree_flattening.specs.Arranged.{HasAll, plan_of, run_list};
ghost use Rattle.tree_flattening.specs.Plans.{IsDrawn, IsPlan};
ghost use Rattle.tree_flattening.specs.Walked.{AreSizes, hang, number_of, roots_at, run_gained, run_next, size_below, sizes_at, task_gained, task_next, with_own, with_ring};
ghost use Rattle.tree_flattening.specs.declared.walking.Task.TheVariants as Tasks;

use crate::arrangement::{Arranged, Run};
use cut_definitions::NoMemory;
use flat_cactus::FlatCactus;
use std::alloc::{AllocError, Global};

/// What is still to be entered: a node, or the block that begins with a node, below the node with
/// a number.
#[derive(Clone, Copy)]
enum Task {
    Enter(usize),
    Hang(usize, u64),
}

/// Puts the nodes of a cycle on the stack, the first on top.
fn stack_run(stack: &mut Vec<Task>, run: Run) -> Result<(), NoMemory>
    requires { run.first ≤ run.end }
    ensures { OnOk result (top_first stack.new.items ≡ map Tasks.Enter (run_list run) ++ top_first stack.old.items) }
{
    let mut i = run.len();
    'back: while i > 0 {
        i -= 1;
        stack.push(Task::Enter(run.at(i)))?;
    }
    Ok(())
}

/// Puts the blocks below the node with a number on the stack, the first on top.
fn stack_heads(stack: &mut Vec<Task>, up: u64, heads: &[u32]) -> Result<(), NoMemory>
    ensures { OnOk result (top_first stack.new.items ≡ map (hang up) heads.now ++ top_first stack.old.items) }
{
    let mut i = heads.len();
    'back: while i > 0 {
        i -= 1;
        stack.push(Task::Hang(heads[i] as usize, up))?;
    }
    Ok(())
}

/// Appends a node with its vertices.
fn add_node(flat: &mut FlatCactus, own: &[u32]) -> Result<(), NoMemory>
    ensures { OnOk result (flat.new ≡ with_own flat.old own.now) }
{
    flat.push_node()?;
    'vertices: for v in own {
        flat.push_vertex(*v)?;
    }
    Ok(())
}

/// Appends the cycle through the node `up` and the roots of the trees of a run, whose nodes have
/// the next numbers.
fn add_cycle(flat: &mut FlatCactus, up: u64, run: Run, sizes: &[usize]) -> Result<(), NoMemory>
    requires ordered { run.first ≤ run.end }
    requires known { All (λ j. j < length sizes.now) (run_list run) }
    ensures { OnOk result (flat.new ≡ with_ring flat.old (up ∷ roots_at sizes.now (length flat.old.nodes) (run_list run))) }
{
    let mut root = flat.nodes();
    flat.push_cycle()?;
    flat.push_member(up)?;
    'members: for i in 0..run.len() {
        flat.push_member(root as u64)?;
        root = root.checked_add(sizes[run.at(i)]).ok_or(AllocError)?;
    }
    Ok(())
}

/// Appends a node, and puts the blocks below it on the stack.
fn enter_node(
    flat: &mut FlatCactus,
    stack: &mut Vec<Task>,
    plan: &Arranged,
    node: usize,
) -> Result<(), NoMemory>
    requires all { HasAll plan.now }
    requires within { node < (plan_of plan.now).count }
    ensures flat { OnOk result (flat.new ≡ with_own flat.old ((plan_of plan.now).own node)) }
    ensures stack { OnOk result (top_first stack.new.items ≡ map (hang (length flat.old.nodes)) ((plan_of plan.now).heads node) ++ top_first stack.old.items) }
{
    let number = flat.nodes() as u64;
    add_node(flat, plan.own(node))?;
    stack_heads(stack, number, plan.heads(node))
}

/// Appends a bridge with the node below it, or a cycle, and puts what is below on the stack.
fn enter_block(
    flat: &mut FlatCactus,
    stack: &mut Vec<Task>,
    plan: &Arranged,
    sizes: &[usize],
    head: usize,
    up: u64,
) -> Result<(), NoMemory>
    requires plan { IsPlan (plan_of plan.now) }
    requires all { HasAll plan.now }
    requires known { length sizes.now ≡ (plan_of plan.now).count }
    requires within { head < (plan_of plan.now).count }
    ensures flat { OnOk result (flat.new ≡ run_gained (plan_of plan.now) sizes.now flat.old up ((plan_of plan.now).run head)) }
    ensures stack { OnOk result (top_first stack.new.items ≡ run_next (plan_of plan.now) (length flat.old.nodes) ((plan_of plan.now).run head) ++ top_first stack.old.items) }
{
    let run = plan.run(head);
    if run.len() == 1 {
        flat.push_bridge(up, flat.nodes() as u64)?;
        return enter_node(flat, stack, plan, run.at(0));
    }
    add_cycle(flat, up, run, sizes)?;
    stack_run(stack, run)
}

/// Enters what was taken off the stack.
fn enter(
    flat: &mut FlatCactus,
    stack: &mut Vec<Task>,
    plan: &Arranged,
    sizes: &[usize],
    task: Task,
) -> Result<(), NoMemory>
    requires plan { IsPlan (plan_of plan.now) }
    requires all { HasAll plan.now }
    requires known { length sizes.now ≡ (plan_of plan.now).count }
    requires within { number_of task < (plan_of plan.now).count }
    ensures flat { OnOk result (flat.new ≡ task_gained (plan_of plan.now) sizes.now flat.old task) }
    ensures stack { OnOk result (top_first stack.new.items ≡ task_next (plan_of plan.now) (length flat.old.nodes) task ++ top_first stack.old.items) }
{
    match task {
        Task::Enter(node) => enter_node(flat, stack, plan, node),
        Task::Hang(head, up) => enter_block(flat, stack, plan, sizes, head, up),
    }
}

/// The number of nodes of all trees of a run, added to another number.
fn size_of_run(sizes: &[usize], run: Run, before: usize) -> Result<usize, NoMemory>
    requires ordered { run.first ≤ run.end }
    requires known { All (λ j. j < length sizes.now) (run_list run) }
    ensures { IfOk result (λ s. s ≡ before + sizes_at sizes.now (run_list run)) }
{
    let mut size = before;
    'nodes: for i in 0..run.len() {
        size = size.checked_add(sizes[run.at(i)]).ok_or(AllocError)?;
    }
    Ok(size)
}

/// The number of nodes at and below a node, from those below its blocks. A number that does not
/// fit into a word cannot occur, since the nodes are in memory; it would count as being out of
/// memory.
fn size_of_node(plan: &Arranged, sizes: &[usize], node: usize) -> Result<usize, NoMemory>
    requires plan { IsPlan (plan_of plan.now) }
    requires all { HasAll plan.now }
    requires known { length sizes.now ≡ (plan_of plan.now).count }
    requires within { node < (plan_of plan.now).count }
    ensures { IfOk result (λ s. s ≡ 1 + size_below (plan_of plan.now) sizes.now node) }
{
    let mut size = 1;
    'each: for head in plan.heads(node) {
        size = size_of_run(sizes, plan.run(*head as usize), size)?;
    }
    Ok(size)
}

/// The number of nodes at and below each node.
fn sizes_of(alloc: Global, plan: &Arranged) -> Result<Vec<usize>, NoMemory>
    requires plan { IsPlan (plan_of plan.now) }
    requires all { HasAll plan.now }
    ensures { IfOk result (λ s. AreSizes (plan_of plan.now) s.items) }
{
    let mut sizes = vec![in alloc; 0usize; plan.len()]?;
    let mut node = plan.len();
    'nodes: while node > 0 {
        node -= 1;
        let size = size_of_node(plan, &sizes, node)?;
        sizes[node] = size;
    }
    Ok(sizes)
}

/// The flat cactus of an arranged tree over the vertices 1 to n. Its nodes are numbered from 0 in
/// the order in which the tree is entered, a node before its children and children in order.
///
/// It takes one step for each node, block and vertex, in loops with a stack, so that a deep tree
/// does not overflow the call stack. It takes memory in proportion to the nodes and to n, and
/// fails only if it runs out of memory.
pub fn flatten_arranged(alloc: Global, plan: &Arranged, n: u32) -> Result<FlatCactus, NoMemory>
    requires plan { IsPlan (plan_of plan.now) }
    requires all { HasAll plan.now }
    requires some { 0 < (plan_of plan.now).count }
    ensures { IfOk result (λ f. (node : ℕ → Node) (block : ℕ → Block) → IsDrawn (plan_of plan.now) node block → f ≡ flat_of (record { vertices = n; root = node 0 })) }
{
    let sizes = sizes_of(alloc, plan)?;
    let mut flat = FlatCactus::with_capacity(alloc, n, plan.len())?;
    let mut stack = Vec::new(alloc);
    stack.push(Task::Enter(0))?;
    'walk: while let Some(task) = stack.pop() {
        enter(&mut flat, &mut stack, plan, &sizes, task)?;
    }
    Ok(flat)
}
