//! Contraction of a dense graph: the weights between classes are added up along the rows of each
//! class.

ghost use Rattle.std.specs.Prelude.{◌≡◌, ℕ, ◌+◌, ◌-◌, ◌*◌, ◌<◌, ◌≤◌, ◌^◌, ◌++◌, All, IfOk, IsTrue, OnOk, length, min, slice_index};
ghost use Rattle.std.specs.List.{flat_map};
ghost use Rattle.std.specs.Result.{IsOk};
ghost use Rattle.cut_definitions.specs.Contraction.{class, classes, classes as classes_of, relabel};
ghost use Rattle.cut_definitions.specs.Weight.{between};
ghost use Rattle.weighted_graph.specs.declared.graph.Arc.{Arc};
ghost use Rattle.round_contract.specs.Rows.{AreFirst, AreMembers, AreNext, IsNext, edges_by, found_edges, run_rows, toward};

use crate::threads::relabel_in_threads;
use cut_definitions::{Edge, EdgeList, MOST_WORKERS, NoMemory};
use row_ranges::graph_of_list;
use std::alloc::Global;
use std::thread;
use std::thread::Threads;
use weighted_graph::{Arc, Graph, Labels, relabel_list};

/// The greatest number of classes for which rows are added up, since an edge may join any two of
/// them.
const MANY_CLASSES: u32 = 4096;

/// On a list of fewer edges rayon's calls gain nothing.
const EDGES_FOR_THREADS: usize = 4_194_304;

/// On a dense graph of fewer edges threads cost more than they save.
const EDGES_FOR_RUNS: usize = 1_048_576;

/// Writes for each class its first vertex, and for each vertex the next one of its class, or 0 if
/// there is none.
fn link(labels: &Labels, first: &mut [u32], next: &mut [u32])
    requires classes { length first.old ≡ classes labels.now + 1 }
    requires vertices { length next.old ≡ length labels.now + 1 }
    requires zero { (c : ℕ) → slice_index first.old c ≡ 0 }
    ensures classes { length first.new ≡ length first.old }
    ensures vertices { length next.new ≡ length next.old }
    ensures first { AreFirst labels.now 1 first.new }
    ensures next { AreNext labels.now 1 next.new }
{
    let mut v = labels.n();
    while v > 0 {
        let class = labels.label(v) as usize;
        next[v as usize] = first[class];
        first[class] = v;
        v -= 1;
    }
}

/// Adds the weight of each arc of a row to the sum of the class of its end, if that class has a
/// greater number than `lesser`.
fn add_row(row: &[Arc], labels: &Labels, lesser: u32, sums: &mut [u64])
    requires ends { All (λ (a : Arc). (1 ≤ a.to) × (a.to ≤ length labels.now)) row.now }
    requires long { length sums.old ≡ classes labels.now + 1 }
    requires small { (b : ℕ) → lesser < b → b ≤ classes labels.now → slice_index sums.old b + toward labels.now b row.now ≤ 2 ^ 61 }
    ensures long { length sums.new ≡ length sums.old }
    ensures sums { (b : ℕ) → lesser < b → b ≤ classes labels.now → slice_index sums.new b ≡ slice_index sums.old b + toward labels.now b row.now }
{
    for arc in row {
        let other = labels.label(arc.to);
        if other > lesser {
            sums[other as usize] += arc.weight;
        }
    }
}

/// Adds up the weights between a class and each greater one, along the rows of the class.
fn add_class(
    graph: &Graph,
    labels: &Labels,
    next: &[u32],
    first: u32,
    lesser: u32,
    sums: &mut [u64],
)
    requires labels { length labels.now ≡ graph.now.vertices }
    requires vertices { length next.now ≡ length labels.now + 1 }
    requires next { AreNext labels.now 1 next.now }
    requires first { IsNext labels.now lesser 1 first }
    requires long { length sums.old ≡ classes labels.now + 1 }
    requires zero { (b : ℕ) → slice_index sums.old b ≡ 0 }
    ensures long { length sums.new ≡ length sums.old }
    ensures sums { (b : ℕ) → lesser < b → b ≤ classes labels.now → slice_index sums.new b ≡ between graph.now (class labels.now lesser) (class labels.now b) }
{
    // known by this call: the graph is an edge list
    let _n = graph.n();
    let mut v = first;
    while v != 0 {
        add_row(graph.row(v), labels, lesser, sums);
        v = next[v as usize];
    }
}

/// Appends an edge from a class to each class with a greater number to which there is a weight.
fn append_row(class: u32, sums: &[u64], edges: &mut Vec<Edge>) -> Result<(), NoMemory>
    requires class { class < length sums.now }
    requires few { length sums.now ≤ 4194305 }
    ensures { OnOk result (edges.new.items ≡ edges.old.items ++ edges_by sums.now class (length sums.now - 1 - class)) }
{
    for b in class as usize + 1..sums.len() {
        let weight = sums[b];
        if weight > 0 {
            edges.push(Edge {
                u: class,
                v: b as u32,
                w: weight,
            })?;
        }
    }
    Ok(())
}

/// For each class its first vertex, and for each vertex the next one of its class, or 0 if there
/// is none.
#[derive(Clone, Copy)]
pub(crate) struct Members<'a> {
    pub(crate) first: &'a [u32],
    pub(crate) next: &'a [u32],
}

/// The two lists of `Members`.
fn linked(alloc: Global, labels: &Labels) -> Result<(Vec<u32>, Vec<u32>), NoMemory>
    ensures { IfOk result (λ lists. AreMembers labels.now lists.0.items lists.1.items) }
{
    let mut first = vec![in alloc; 0u32; labels.classes() as usize + 1]?;
    let mut next = vec![in alloc; 0u32; labels.n() as usize + 1]?;
    link(labels, first.as_mut_slice(), next.as_mut_slice());
    Ok((first, next))
}

/// The edges of the contracted graph whose class of smaller number is after `from` and at most
/// `to`, in their order.
fn edges_of_run(
    alloc: Global,
    graph: &Graph,
    labels: &Labels,
    members: Members,
    from: u32,
    to: u32,
) -> Result<Vec<Edge>, NoMemory>
    requires labels { length labels.now ≡ graph.now.vertices }
    requires members { AreMembers labels.now members.first.now members.next.now }
    requires order { from ≤ to }
    requires classes { to ≤ classes labels.now }
    ensures { IfOk result (λ edges. edges.items ≡ run_rows graph.now labels.now from (to - from)) }
{
    let mut room = vec![in alloc; 0u64; labels.classes() as usize + 1]?;
    let sums = room.as_mut_slice();
    let mut edges = Vec::new(alloc);
    for before in from..to {
        let class = before + 1;
        let start = members.first[class as usize];
        sums.fill(0);
        add_class(graph, labels, members.next, start, class, sums);
        append_row(class, sums, &mut edges)?;
    }
    Ok(edges)
}

/// The edges of the runs, one run after another. It fails if one of the runs has failed.
fn joined(alloc: Global, runs: Vec<Result<Vec<Edge>, NoMemory>>) -> Result<Vec<Edge>, NoMemory>
    ensures edges { IfOk result (λ edges. edges.items ≡ flat_map found_edges runs.items) }
    ensures whole { OnOk result (All (λ run. IsOk run) runs.items) }
{
    let mut edges = Vec::new(alloc);
    for run in runs {
        let mut found = run?;
        edges.append(&mut found)?;
    }
    Ok(edges)
}

/// The edges of the contracted graph, in their order. Each worker makes those of a run of classes.
fn edges_by_workers<R: Threads + Sync>(
    rt: &R,
    alloc: Global,
    graph: &Graph,
    labels: &Labels,
    members: Members,
    workers: u32,
) -> Result<Vec<Edge>, NoMemory>
    requires labels { length labels.now ≡ graph.now.vertices }
    requires members { AreMembers labels.now members.first.now members.next.now }
    requires workers { 1 ≤ workers }
    ensures { IfOk result (λ edges. edges.items ≡ (relabel graph.now labels.now).edges) }
{
    let classes = labels.classes();
    let size = u64::from(classes.div_ceil(workers));
    let runs = thread::map_indices(
        rt,
        alloc,
        workers as usize,
        &|i: usize| -> Result<Vec<Edge>, NoMemory>
            requires { (length labels.now ≡ graph.now.vertices) × AreMembers labels.now members.first.now members.next.now × (classes ≡ classes_of labels.now) × (i < 4294967296) × (size < 4294967296) }
            ensures { IfOk result (λ edges. edges.items ≡ run_rows graph.entry.now labels.entry.now (min (i * size) classes) (min ((i + 1) * size) classes - min (i * size) classes)) }
        {
            let from = (i as u64 * size).min(u64::from(classes)) as u32;
            let to = ((i as u64 + 1) * size).min(u64::from(classes)) as u32;
            edges_of_run(alloc, graph, labels, members, from, to)
        },
    )?;
    joined(alloc, runs)
}

/// The list of all edges of the graph on a few classes.
fn list_of_edges(graph: &Graph, labels: &Labels, edges: Vec<Edge>) -> EdgeList
    requires labels { length labels.now ≡ graph.now.vertices }
    requires few { classes labels.now ≤ 4096 }
    requires edges { edges.items ≡ (relabel graph.now labels.now).edges }
    ensures { result ≡ relabel graph.now labels.now }
{
    // known by this call: the graph is an edge list
    let _n = graph.n();
    EdgeList::from_edges(labels.classes(), edges)
}

/// The list of edges of the graph on a few classes, by the rows of each class.
fn list_by_rows(alloc: Global, graph: &Graph, labels: &Labels) -> Result<EdgeList, NoMemory>
    requires labels { length labels.now ≡ graph.now.vertices }
    requires few { classes labels.now ≤ 4096 }
    ensures { IfOk result (λ l. l ≡ relabel graph.now labels.now) }
{
    let (first, next) = linked(alloc, labels)?;
    let members = Members {
        first: &first,
        next: &next,
    };
    let edges = edges_of_run(alloc, graph, labels, members, 0, labels.classes())?;
    Ok(list_of_edges(graph, labels, edges))
}

/// The list of edges of the graph on a few classes. Each worker makes the edges of a run of
/// classes.
fn list_by_workers<R: Threads + Sync>(
    rt: &R,
    alloc: Global,
    graph: &Graph,
    labels: &Labels,
    workers: u32,
) -> Result<EdgeList, NoMemory>
    requires labels { length labels.now ≡ graph.now.vertices }
    requires few { classes labels.now ≤ 4096 }
    requires workers { 1 ≤ workers }
    ensures { IfOk result (λ l. l ≡ relabel graph.now labels.now) }
{
    let (first, next) = linked(alloc, labels)?;
    let members = Members {
        first: &first,
        next: &next,
    };
    let edges = edges_by_workers(rt, alloc, graph, labels, members, workers)?;
    Ok(list_of_edges(graph, labels, edges))
}

/// Whether there are few classes, and so many edges may be left between them that looking at all
/// pairs of classes is cheap.
fn is_dense(graph: &Graph, labels: &Labels) -> bool
    ensures { IsTrue result → classes labels.now ≤ 4096 }
{
    let classes = labels.classes();
    if classes > MANY_CLASSES {
        return false;
    }
    let pairs = u64::from(classes) * u64::from(classes);
    let is_little_smaller = u64::from(graph.n()) <= 4 * u64::from(classes);
    is_little_smaller && pairs / 8 <= graph.edges() as u64
}

/// The list of edges of the graph on the classes of labels, of which there is one for each vertex.
/// It is the list that `relabel_list` makes; the calling thread works alone.
///
/// A dense graph that becomes little smaller is not sorted. With k classes it takes
/// O(n + m + k^2), where k^2 is at most in proportion to m, and memory in proportion to n + m. All
/// others take O(m log m). It fails only if it runs out of memory.
pub fn contracted_alone(alloc: Global, graph: &Graph, labels: &Labels) -> Result<EdgeList, NoMemory>
    requires { length labels.now ≡ graph.now.vertices }
    ensures { IfOk result (λ l. l ≡ relabel graph.now labels.now) }
{
    if is_dense(graph, labels) {
        return list_by_rows(alloc, graph, labels);
    }
    let list = relabel_list(alloc, graph.list(), labels)?;
    Ok(list)
}

/// The list of edges that `contracted_alone` makes, by several threads if there are at least two
/// workers and enough edges.
///
/// In a dense graph that becomes little smaller and has 1,048,576 edges or more, each worker makes
/// the edges of a run of classes. More than 64 workers count as 64, and each has memory in
/// proportion to the number of classes and to its edges. In all other graphs, 4,194,304 edges or
/// more are mapped and sorted by rayon's calls. These start threads for the processors of the
/// machine, whatever the number of workers.
///
/// In all it costs as much as `contracted_alone`, and it fails only if it runs out of memory.
pub fn contracted_list<R: Threads + Sync>(
    rt: &R,
    alloc: Global,
    graph: &Graph,
    labels: &Labels,
    workers: u32,
) -> Result<EdgeList, NoMemory>
    requires { length labels.now ≡ graph.now.vertices }
    ensures { IfOk result (λ l. l ≡ relabel graph.now labels.now) }
{
    if workers < 2 || graph.edges() < EDGES_FOR_RUNS {
        return contracted_alone(alloc, graph, labels);
    }
    if is_dense(graph, labels) {
        return list_by_workers(rt, alloc, graph, labels, workers.min(MOST_WORKERS));
    }
    if graph.edges() >= EDGES_FOR_THREADS {
        return relabel_in_threads(rt, alloc, graph.list(), labels);
    }
    let list = relabel_list(alloc, graph.list(), labels)?;
    Ok(list)
}

/// The graph of `contracted_list`, with rows. It takes O(m log m), and fails only if it runs out
/// of memory.
pub fn contracted<R: Threads + Sync>(
    rt: &R,
    alloc: Global,
    graph: &Graph,
    labels: &Labels,
    workers: u32,
) -> Result<Graph, NoMemory>
    requires { length labels.now ≡ graph.now.vertices }
    ensures { IfOk result (λ g. g ≡ relabel graph.now labels.now) }
{
    let list = contracted_list(rt, alloc, graph, labels, workers)?;
    graph_of_list(rt, alloc, list, workers)
}
