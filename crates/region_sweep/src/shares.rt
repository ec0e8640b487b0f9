//! Regions that are solved side by side, each as a graph of its own.

ghost use Rattle.std.specs.Prelude.{◌≡◌, ◌+◌, ◌^◌, ◌<◌, ◌≤◌, ℕ, None, All, IfOk, IsTrue, IsFalse, OnOk, length, slice_index, slice_index_or};
ghost use Rattle.cut_definitions.specs.Components.{IsConnected};
ghost use Rattle.cut_definitions.specs.Contraction.{relabel};
ghost use Rattle.cut_definitions.specs.Cuts.{value as least_value};
ghost use Rattle.cut_definitions.specs.Scan.{single};
ghost use Rattle.cut_definitions.specs.Weight.{weight};
ghost use Rattle.weighted_graph.specs.ContractionLaws.{IsLabelled};
ghost use Rattle.region_sweep.specs.Shares.{AddsClass, IsPartTree, IsShare, IsSolvedFrom};

use crate::sweep::tree_of;
use cut_definitions::NoMemory;
use least_cut::least_weight_below;
use node_tree::HomedTree;
use region_flow::RegionFlow;
use std::alloc::Global;
use std::thread;
use std::thread::Threads;
use weighted_graph::{Graph, Labels};

/// A region, its vertices as those from 2 on of a graph in which vertex 1 stands for all others,
/// and the tree of that graph once it was looked for.
#[derive(Drop)]
pub struct Share {
    pub region: u32,
    pub own: Vec<u32>,
    pub classes: Labels,
    pub tree: Option<Result<HomedTree, NoMemory>>,
}

/// Gives the next vertex its class: the next one from 2 on where it is in the
/// region, and 1 elsewhere.
fn add_class(
    own: &mut Vec<u32>,
    classes: &mut Vec<u32>,
    v: u32,
    is_own: bool,
) -> Result<(), NoMemory>
    requires next { length own.old.items < v }
    requires few { v ≤ 4194304 }
    ensures { OnOk result (AddsClass v is_own own.old.items own.new.items classes.old.items classes.new.items) }
{
    if !is_own {
        classes.push(1)?;
        return Ok(());
    }
    own.push(v)?;
    classes.push(own.len() as u32 + 1)?;
    Ok(())
}

/// A region that is to be solved. It takes four bytes for each vertex of the
/// graph and of the region.
pub fn share_of(
    alloc: Global,
    graph: &Graph,
    flow: &RegionFlow,
    region: u32,
) -> Result<Share, NoMemory>
    requires labels { length flow.now.labels ≡ graph.now.vertices + 1 }
    requires root { slice_index flow.now.labels 1 ≡ 0 }
    requires some { 1 ≤ graph.now.vertices }
    requires outside { 1 ≤ region }
    ensures share { IfOk result (IsShare graph.now flow.now.labels) }
    ensures region { IfOk result (λ s. s.region ≡ region) }
    ensures tree { IfOk result (λ s. s.tree ≡ None) }
{
    let n = graph.n();
    let mut own = Vec::new(alloc);
    let mut classes = Vec::with_capacity(alloc, n as usize)?;
    for before in 0..n {
        let v = before + 1;
        add_class(&mut own, &mut classes, v, flow.label(v) == region)?;
    }
    Ok(Share {
        region,
        own,
        classes: Labels::from_list(classes),
        tree: None,
    })
}

/// Whether some vertex has at most a degree.
fn has_degree(graph: &Graph, degree: u64) -> bool
    requires { 2 ≤ graph.now.vertices }
    ensures value { IsTrue result → least_value graph.now ≤ degree }
    ensures some { IsTrue result → (v : ℕ) × (1 ≤ v) × (v ≤ graph.now.vertices) × (weight graph.now (single v) ≤ degree) }
    ensures none { IsFalse result → (v : ℕ) → 1 ≤ v → v ≤ graph.now.vertices → degree < weight graph.now (single v) }
{
    let n = graph.n();
    for v in 0..n {
        if graph.degree(v + 1) <= degree {
            return true;
        }
    }
    false
}

/// Whether all cuts of a graph weigh more than a weight.
/// It looks at the degrees first, which mostly tell.
pub(crate) fn is_heavier(alloc: Global, graph: &Graph, weight: u64) -> Result<bool, NoMemory>
    requires enough { 2 ≤ graph.now.vertices }
    requires small { weight ≤ 2 ^ 62 }
    ensures yes { IfOk result (λ heavier. IsTrue heavier → weight < least_value graph.now) }
    ensures no { IfOk result (λ heavier. IsFalse heavier → least_value graph.now ≤ weight) }
{
    if has_degree(graph, weight) {
        return Ok(false);
    }
    let least = least_weight_below(alloc, graph, weight + 1)?;
    Ok(least > weight)
}

/// The tree of the cuts of a region's graph that weigh the value of the whole graph.
fn tree_of_part(
    alloc: Global,
    graph: &Graph,
    value: u64,
    labels: &Labels,
) -> Result<HomedTree, NoMemory>
    requires connected { IsConnected graph.now }
    requires enough { 2 ≤ graph.now.vertices }
    requires value { value ≡ least_value graph.now }
    requires labelled { IsLabelled graph.now labels.now }
    ensures { IfOk result (IsPartTree value (relabel graph.now labels.now)) }
{
    // known by this call: the graph is an edge list
    let _n = graph.n();
    let part = graph.relabel(alloc, labels)?;
    let n = part.n();
    if n < 2 {
        return HomedTree::of_root(alloc, n);
    }
    if is_heavier(alloc, &part, value)? {
        return HomedTree::of_root(alloc, n);
    }
    tree_of(alloc, &part, value)
}

/// Looks for the tree of a share.
fn solve_share(alloc: Global, graph: &Graph, value: u64, share: &mut Share)
    requires connected { IsConnected graph.now }
    requires enough { 2 ≤ graph.now.vertices }
    requires value { value ≡ least_value graph.now }
    requires labelled { IsLabelled graph.now share.old.classes }
    ensures { IsSolvedFrom graph.now share.old share.new }
{
    share.tree = Some(tree_of_part(alloc, graph, value, &share.classes));
}

/// Looks for the trees of the shares side by side, by so many workers: the list and the workers
/// are halved until one worker or one share is left.
pub fn solve_shares<R: Threads + Sync>(
    rt: &R,
    alloc: Global,
    graph: &Graph,
    value: u64,
    shares: &mut [Share],
    workers: u32,
)
    requires connected { IsConnected graph.now }
    requires enough { 2 ≤ graph.now.vertices }
    requires value { value ≡ least_value graph.now }
    requires workers { 1 ≤ workers }
    requires labelled { All (λ (s : Share). IsLabelled graph.now s.classes) shares.old }
    ensures long { length shares.new ≡ length shares.old }
    ensures solved { (i : ℕ) (d : Share) → i < length shares.old → IsSolvedFrom graph.now (slice_index_or shares.old i d) (slice_index_or shares.new i d) }
{
    thread::for_each_mut(
        rt,
        shares,
        workers as usize,
        &|_place: usize, share: &mut Share|
            requires { IsConnected graph.now × (2 ≤ graph.now.vertices) × (value ≡ least_value graph.now) × IsLabelled graph.now share.now.classes }
        { solve_share(alloc, graph, value, share) },
    );
}
