//! Sets that have grown, and the classes that they make.

ghost use Rattle.std.specs.Prelude.{◌≡◌, ◌+◌, ◌<◌, ◌≤◌, ◌↔◌, ℕ, All, IfOk, IfSome, length, slice_index, slice_index_or};
ghost use Rattle.cut_definitions.specs.Components.{IsConnected};
ghost use Rattle.cut_definitions.specs.Contraction.{label};
ghost use Rattle.weighted_graph.specs.ContractionLaws.{IsLabelled};
ghost use Rattle.certified_growth.specs.Turns.{MayNote};
ghost use Rattle.certified_growth.specs.GrownSets.{AreSets, IsGrownFrom, IsGrownSet, IsSetNamed, sets_at};
ghost use Rattle.certified_growth.specs.Sets.{class_in};

use crate::certificate::Rule;
use crate::growing::Growing;
use cut_definitions::NoMemory;
use std::alloc::Global;
use std::thread;
use std::thread::Threads;
use vertex_classes::Classes;
use weighted_graph::{Graph, Labels};

/// A set that has grown: the vertex that came first, how many came, for each vertex from 0 on when
/// it came, from 1 on, or 0, and the noted ones.
#[derive(Drop)]
pub struct GrownSet {
    pub root: u32,
    pub count: u32,
    pub turns: Vec<u32>,
    pub leaves: Vec<u32>,
}

/// The vertices of one owner, and the set that has grown of them, once it was looked for.
#[derive(Drop)]
pub struct Share {
    pub own: u32,
    pub root: u32,
    pub grown: Option<Result<GrownSet, NoMemory>>,
}

/// The set that grows from one vertex.
fn grow(
    alloc: Global,
    graph: &Graph,
    owners: &[u32],
    own: u32,
    root: u32,
    rule: Rule,
) -> Result<GrownSet, NoMemory>
    requires connected { IsConnected graph.now }
    requires from_one { 1 ≤ root }
    requires to_n { root ≤ graph.now.vertices }
    requires owners { length owners.now ≡ graph.now.vertices + 1 }
    requires own { slice_index owners.now root ≡ own }
    requires may { MayNote graph.now rule }
    ensures { IfOk result (IsGrownSet graph.now rule.least owners.now own) }
{
    let mut growing = Growing::start(alloc, graph, owners, own, root)?;
    growing.pair_root(graph, owners, rule)?;
    growing.run(graph, owners, rule)?;
    Ok(growing.into_set())
}

/// Looks for the set of a share.
fn grow_share(alloc: Global, graph: &Graph, owners: &[u32], rule: Rule, share: &mut Share)
    requires connected { IsConnected graph.now }
    requires owners { length owners.now ≡ graph.now.vertices + 1 }
    requires named { IsSetNamed graph.now owners.now share.old }
    requires may { MayNote graph.now rule }
    ensures { IsGrownFrom graph.now rule.least owners.now share.old share.new }
{
    share.grown = Some(grow(alloc, graph, owners, share.own, share.root, rule));
}

/// Looks for the sets of the shares side by side, by so many workers.
pub fn grow_shares<R: Threads + Sync>(
    rt: &R,
    alloc: Global,
    graph: &Graph,
    owners: &[u32],
    rule: Rule,
    shares: &mut [Share],
    workers: u32,
)
    requires connected { IsConnected graph.now }
    requires owners { length owners.now ≡ graph.now.vertices + 1 }
    requires named { All (IsSetNamed graph.now owners.now) shares.old }
    requires may { MayNote graph.now rule }
    requires workers { 1 ≤ workers }
    ensures long { length shares.new ≡ length shares.old }
    ensures grown { (i : ℕ) (d : Share) → i < length shares.old → IsGrownFrom graph.now rule.least owners.now (slice_index_or shares.old i d) (slice_index_or shares.new i d) }
{
    thread::for_each_mut(
        rt,
        shares,
        workers as usize,
        &|_place: usize, share: &mut Share|
            requires { IsConnected graph.now × (length owners.now ≡ graph.now.vertices + 1) × MayNote graph.now rule × IsSetNamed graph.now owners.now share.now }
        { grow_share(alloc, graph, owners, rule, share) },
    );
}

/// The class of a vertex: the first vertex of the set of its owner where it came, else itself.
fn class_of(owners: &[u32], sets: &[GrownSet], v: u32) -> u32
    requires within { v < length owners.now }
    requires owned { slice_index owners.now v < length sets.now }
    requires turned { v < length (sets_at sets.now (slice_index owners.now v)).turns }
    ensures { result ≡ class_in (sets_at sets.now) owners.now v }
{
    let set = &sets[owners[v as usize] as usize];
    if set.turns[v as usize] > 0 {
        set.root
    } else {
        v
    }
}

/// The labels of the classes that sets make:
/// each set is a class, and each vertex of no set is one.
pub fn labels_of_sets(
    alloc: Global,
    graph: &Graph,
    owners: &[u32],
    sets: &[GrownSet],
    least: u64,
) -> Result<Labels, NoMemory>
    requires sets { AreSets graph.now least owners.now sets.now }
    ensures labelled { IfOk result (IsLabelled graph.now) }
    ensures same { IfOk result (λ l. (u v : ℕ) → 1 ≤ u → u ≤ graph.now.vertices → 1 ≤ v → v ≤ graph.now.vertices →
        (label l u ≡ label l v) ↔ (class_in (sets_at sets.now) owners.now u ≡ class_in (sets_at sets.now) owners.now v)) }
{
    let n = graph.n();
    let _least = least;
    let mut classes = Classes::new(alloc, n)?;
    for before in 0..n {
        let v = before + 1;
        classes.join(class_of(owners, sets, v), v);
    }
    Labels::of_classes(alloc, &classes)
}
