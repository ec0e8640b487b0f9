//! The sweep over regions.

ghost use Rattle.std.specs.Prelude.{◌≡◌, ◌+◌, ◌≤◌, ◌∷◌, [], ℕ, None, true, false, IfOk, IfSome, OnOk, length, replicate, slice_index, slice_set};
ghost use Rattle.cut_definitions.specs.Components.{IsConnected};
ghost use Rattle.cut_definitions.specs.Cuts.{value as least_value};
ghost use Rattle.region_flow.specs.Inflow.{IsStopReached};
ghost use Rattle.cut_definitions.specs.Regions.{IsOpenAt};
ghost use Rattle.node_tree.specs.Finished.{IsFinished};
ghost use Rattle.region_fronts.specs.Fronts.{AreFew, HasEnds, KeepsAll};
ghost use Rattle.region_fronts.specs.Listed.{AreListed, IsPartList, part_in, part_list};
ghost use Rattle.region_parts.specs.Split.{IsReady};
ghost use Rattle.region_flow.specs.Parted.{AreLightParts};
ghost use Rattle.region_sweep.specs.UnderWay.{IsLeastWeight, IsStarted, IsUnderWay};

use crate::across::open_across;
use crate::parted_region::PartedRegion;
use crate::regroup::regroup;
use crate::supply::Supply;
use crate::surplus::Surplus;
use crate::weights::weigh_parts;
use cut_definitions::NoMemory;
use node_tree::{FlatTree, HomedTree, Homes, hang_parts};
use region_flow::RegionFlow;
use region_fronts::{Fronts, Parts, open_beside, order_of_entering};
use region_parts::Splitter;
use std::alloc::Global;
use std::thread::Threads;
use weighted_graph::Graph;

/// The vertex from which the sweep starts.
const ROOT: u32 = 1;

/// Regions that are left, the tree of the minimum cuts that lie in none of them,
/// and memory for the steps.
#[derive(Drop)]
pub struct Sweep {
    pub(crate) flow: RegionFlow,
    pub(crate) fronts: Fronts,
    splitter: Splitter,
    pub(crate) parts: Parts,
    pub(crate) tree: FlatTree,
    pub(crate) homes: Homes,

    // for each part its node, and what lies between it and all later parts, and the next
    nodes: Vec<usize>,
    later: Vec<u64>,
    next: Vec<u64>,

    // no region had this label yet, nor a greater one
    fresh: u32,
    surplus: Surplus,
    supply: Supply,
}

/// Puts the open ends of the rows of all vertices that are listed.
fn put_listed(
    graph: &Graph,
    flow: &RegionFlow,
    fronts: &mut Fronts,
    parts: &Parts,
) -> Result<(), NoMemory>
    requires labels { length flow.now.labels ≡ graph.now.vertices + 1 }
    requires few { AreFew graph.now.vertices flow.now.labels }
    requires vertices { fronts.old.vertices ≡ graph.now.vertices }
    requires numbers { length parts.now.numbers ≡ graph.now.vertices + 1 }
    requires lists { (i : ℕ) → 1 ≤ i → i ≤ parts.now.count → IsPartList parts.now.numbers i (part_list parts.now i) }
    ensures vertices { fronts.new.vertices ≡ fronts.old.vertices }
    ensures kept { KeepsAll fronts.old fronts.new }
    ensures ends { OnOk result ((v : ℕ) → 1 ≤ slice_index parts.now.numbers v → slice_index parts.now.numbers v ≤ parts.now.count → HasEnds graph.now flow.now.labels fronts.new v) }
{
    for before in 0..parts.count() {
        fronts.put_all_ends(graph, flow.labels(), parts.part(before + 1))?;
    }
    Ok(())
}

/// The flow and its fronts as the sweep starts:
/// vertex 1 has entered, and all others are in one region.
fn enter_first(alloc: Global, graph: &Graph) -> Result<(RegionFlow, Fronts), NoMemory>
    requires { 1 ≤ graph.now.vertices }
    ensures { IfOk result (λ start. IsStarted graph.now start.0 start.1) }
{
    let n = graph.n();
    let mut flow = RegionFlow::new(alloc, graph)?;
    flow.enter(graph, ROOT);
    let mut fronts = Fronts::new(alloc, n, order_of_entering(graph))?;
    fronts.put_ends(graph, flow.labels(), ROOT)?;
    Ok((flow, fronts))
}

/// Memory for the search for parts of n vertices, and for its answer.
fn part_search(alloc: Global, n: u32) -> Result<(Splitter, Parts), NoMemory>
    ensures splitter { IfOk result (λ search. IsReady n search.0) }
    ensures numbers { IfOk result (λ search. length search.1.numbers ≡ n + 1) }
{
    let parts = Parts::new(alloc, n)?;
    let splitter = Splitter::new(alloc, n)?;
    Ok((splitter, parts))
}

/// A tree of one node, which is the home of n vertices and of their regions.
fn first_node(alloc: Global, n: u32) -> Result<(FlatTree, Homes), NoMemory>
    ensures tree { IfOk result (λ first. first.0 ≡ record { uppers = 0 ∷ []; follows = false ∷ [] }) }
    ensures entered { IfOk result (λ first. first.1.entered ≡ replicate (n + 1) 0) }
    ensures regions { IfOk result (λ first. first.1.regions ≡ replicate (n + 2) 0) }
{
    let tree = FlatTree::new(alloc)?;
    let homes = Homes::new(alloc, n)?;
    Ok((tree, homes))
}

/// Memory for the parts of a region of n vertices: their nodes, and what lies between each and all
/// later parts, and the next.
fn part_rows(alloc: Global, n: u32) -> Result<(Vec<usize>, Vec<u64>, Vec<u64>), NoMemory>
    ensures nodes { IfOk result (λ rows. length rows.0.items ≡ n + 2) }
    ensures later { IfOk result (λ rows. length rows.1.items ≡ n + 2) }
    ensures next { IfOk result (λ rows. length rows.2.items ≡ n + 2) }
{
    let size = n as usize + 2;
    let nodes = vec![in alloc; 0usize; size]?;
    let later = vec![in alloc; 0u64; size]?;
    let next = vec![in alloc; 0u64; size]?;
    Ok((nodes, later, next))
}

impl Sweep {
    /// Vertex 1 has entered, and all others are in one region.
    fn new(alloc: Global, graph: &Graph) -> Result<Sweep, NoMemory>
        requires { 1 ≤ graph.now.vertices }
        ensures { IfOk result (IsUnderWay graph.now) }
    {
        let n = graph.n();
        let rows = part_rows(alloc, n)?;
        let first = first_node(alloc, n)?;
        let start = enter_first(alloc, graph)?;
        let (splitter, parts) = part_search(alloc, n)?;
        let (flow, fronts) = start;
        let (tree, homes) = first;
        let (nodes, later, next) = rows;
        Ok(Sweep {
            flow,
            fronts,
            splitter,
            parts,
            tree,
            homes,
            nodes,
            later,
            next,
            fresh: 2,
            surplus: Surplus::new(),
            supply: Supply::new(),
        })
    }

    /// Lists the parts of the region of `t`, if a set around `t` in its
    /// region weighs just the value.
    fn find_parts(&mut self, graph: &Graph, t: u32, value: u64) -> Result<bool, NoMemory>
        requires under_way { IsUnderWay graph.now self.old }
        requires connected { IsConnected graph.now }
        requires least { IsLeastWeight graph.now value }
        requires open { IsOpenAt graph.now self.old.flow.labels t }
        ensures under_way { OnOk result (IsUnderWay graph.now self.new) }
        ensures labels { self.new.flow.labels ≡ self.old.flow.labels }
        ensures none { IfOk result (λ some. some ≡ false → IsStopReached graph.now self.new.flow.labels t (value + 1)) }
        ensures listed { IfOk result (λ some. some ≡ true → AreListed graph.now.vertices self.new.flow.labels (slice_index self.new.flow.labels t) self.new.parts) }
        ensures light { IfOk result (λ some. some ≡ true →
            AreLightParts graph.now self.new.flow.labels t self.new.parts.count value (part_in self.new.parts self.new.flow.labels (slice_index self.new.flow.labels t))) }
    {
        // no set around `t` weighs less, so it is fed the value
        let _fed = self.flow.flow(graph, t, value);
        if self.flow.feed(t) > value {
            return Ok(false);
        }
        self.splitter
            .split(graph, &self.flow, &mut self.fronts, t, &mut self.parts)
    }

    /// Brings an open vertex of the region of `t` something that others than `t` there are fed: as
    /// much as is wanted of it. Answers whether it is fed more than before.
    fn bring_to(&mut self, graph: &Graph, v: u32, t: u32) -> bool
        requires under_way { IsUnderWay graph.now self.old }
        requires open { IsOpenAt graph.now self.old.flow.labels v }
        ensures under_way { IsUnderWay graph.now self.new }
        ensures labels { self.new.flow.labels ≡ self.old.flow.labels }
    {
        let before = self.flow.feed(v);
        let stop = self.supply.wanted(before);
        let most = self.supply.most();
        self.flow.feed_past(graph, v, t, stop, most);
        self.supply = self.supply.after_feeding();
        self.flow.feed(v) > before
    }

    /// Brings an open vertex beside `t` something that others than `t` in its region are fed.
    /// Answers whether one is fed more than before.
    fn feed_beside(&mut self, graph: &Graph, t: u32) -> bool
        requires under_way { IsUnderWay graph.now self.old }
        requires open { IsOpenAt graph.now self.old.flow.labels t }
        ensures under_way { IsUnderWay graph.now self.new }
        ensures labels { self.new.flow.labels ≡ self.old.flow.labels }
    {
        let Some(arc) = open_beside(graph, self.flow.labels(), t) else {
            return false;
        };
        self.bring_to(graph, arc.to, t)
    }

    /// Brings the newest open vertex of the region but `t`, if there is one,
    /// something that others than `t` there are fed.
    fn feed_newest(&mut self, graph: &Graph, t: u32)
        requires under_way { IsUnderWay graph.now self.old }
        requires open { IsOpenAt graph.now self.old.flow.labels t }
        ensures under_way { IsUnderWay graph.now self.new }
        ensures labels { self.new.flow.labels ≡ self.old.flow.labels }
    {
        let Some(v) = self.fronts.newest_but(graph, self.flow.labels(), t) else {
            return;
        };
        let _more = self.bring_to(graph, v, t);
    }

    /// Feeds `t` the value and a vertex beside it a little, where what its region is fed lies far
    /// away; and where that does not help and searches went very far, another new open vertex.
    ///
    /// So the searches for parts need not go there, nor for those after it. No answer rests on it.
    fn feed_near(&mut self, graph: &Graph, t: u32, value: u64)
        requires under_way { IsUnderWay graph.now self.old }
        requires open { IsOpenAt graph.now self.old.flow.labels t }
        ensures under_way { IsUnderWay graph.now self.new }
        ensures labels { self.new.flow.labels ≡ self.old.flow.labels }
    {
        if !self.supply.is_far() {
            return;
        }
        let _fed = self.flow.flow(graph, t, value);
        if !self.feed_beside(graph, t) && self.supply.went_far() {
            self.feed_newest(graph, t);
        }
    }

    /// Feeds a vertex more than the value, where no set around it in its region weighs the value.
    ///
    /// When it enters it hands that on to the vertices beside it. Without it, each of them
    /// might have to be fed anew from far away, or be shown by searches that meet far away to
    /// have no such set around it.
    fn feed_more(&mut self, graph: &Graph, t: u32, value: u64)
        requires under_way { IsUnderWay graph.now self.old }
        requires open { IsOpenAt graph.now self.old.flow.labels t }
        ensures under_way { IsUnderWay graph.now self.new }
        ensures labels { self.new.flow.labels ≡ self.old.flow.labels }
    {
        if value < self.flow.feed(t) {
            return;
        }
        let outcome = self.flow.flow(graph, t, self.surplus.above(value));
        self.surplus = self.surplus.after(outcome);
    }

    /// Lets a vertex enter around which no set in its region weighs the value.
    fn enter_alone(&mut self, graph: &Graph, t: u32) -> Result<(), NoMemory>
        requires under_way { IsUnderWay graph.now self.old }
        requires open { IsOpenAt graph.now self.old.flow.labels t }
        requires heavy { (amount : ℕ) × IsLeastWeight graph.now amount × IsStopReached graph.now self.old.flow.labels t (amount + 1) }
        ensures under_way { OnOk result (IsUnderWay graph.now self.new) }
        ensures labels { self.new.flow.labels ≡ slice_set self.old.flow.labels t 0 }
    {
        let _n = graph.n();
        let region = self.flow.label(t);
        let node = self.homes.of_region(region);
        self.homes.enter(t, node);
        self.flow.enter(graph, t);
        self.fronts.put_ends(graph, self.flow.labels(), t)?;
        Ok(())
    }

    /// Hangs the parts that are listed into the tree, gives them regions of their
    /// own, and lets `t` enter.
    fn split_region(&mut self, graph: &Graph, t: u32, value: u64) -> Result<(), NoMemory>
        requires under_way { IsUnderWay graph.now self.old }
        requires open { IsOpenAt graph.now self.old.flow.labels t }
        requires least { IsLeastWeight graph.now value }
        requires listed { AreListed graph.now.vertices self.old.flow.labels (slice_index self.old.flow.labels t) self.old.parts }
        requires light { AreLightParts graph.now self.old.flow.labels t self.old.parts.count value (part_in self.old.parts self.old.flow.labels (slice_index self.old.flow.labels t)) }
        ensures under_way { OnOk result (IsUnderWay graph.now self.new) }
        ensures entered { OnOk result (slice_index self.new.flow.labels t ≡ 0) }
        ensures stay { OnOk result ((v : ℕ) → slice_index self.old.flow.labels v ≡ 0 → slice_index self.new.flow.labels v ≡ 0) }
    {
        let _n = graph.n();
        let region = self.flow.label(t);
        let node = self.homes.of_region(region);
        let later = self.later.as_mut_slice();
        let next = self.next.as_mut_slice();
        let parted = PartedRegion {
            graph,
            region,
            parts: &self.parts,
        };
        weigh_parts(parted, &self.flow, later, next);
        let count = self.parts.count();
        let nodes = self.nodes.as_mut_slice();
        nodes[1] = node;
        hang_parts(&mut self.tree, count, later, next, value, nodes)?;
        self.fresh = regroup(
            parted,
            &mut self.flow,
            &mut self.homes,
            nodes,
            t,
            self.fresh,
        );
        put_listed(graph, &self.flow, &mut self.fronts, &self.parts)?;
        self.fronts.put_ends(graph, self.flow.labels(), t)?;
        Ok(())
    }

    /// Whether a vertex is to enter although searches go far: a vertex beside it may be fed first.
    fn may_be_helped(&self, graph: &Graph, t: u32) -> bool
        requires labels { length self.now.flow.labels ≡ graph.now.vertices + 1 }
        requires to_n { t ≤ graph.now.vertices }
    {
        self.supply.is_far() && open_beside(graph, self.flow.labels(), t).is_some()
    }

    /// The vertex that is to enter in place of the newest open one, where the searches of late
    /// went far: one across, if nothing beside the newest can be fed, or that did not help. So a
    /// sweep that goes along one side of a band comes back for what it left behind. No answer
    /// rests on which open vertex it is.
    fn choose(&self, graph: &Graph, newest: u32) -> u32
        requires labels { length self.now.flow.labels ≡ graph.now.vertices + 1 }
        requires open { IsOpenAt graph.now self.now.flow.labels newest }
        ensures { IsOpenAt graph.now self.now.flow.labels result }
    {
        if !self.supply.went_far() || self.may_be_helped(graph, newest) {
            return newest;
        }
        match open_across(graph, self.flow.labels(), newest) {
            Some(v) => v,
            None => newest,
        }
    }

    /// The next vertex that is to enter; none where all have.
    pub(crate) fn next(&mut self, graph: &Graph) -> Option<u32>
        requires under_way { IsUnderWay graph.now self.old }
        requires connected { IsConnected graph.now }
        ensures under_way { IsUnderWay graph.now self.new }
        ensures labels { self.new.flow.labels ≡ self.old.flow.labels }
        ensures some { IfSome result (IsOpenAt graph.now self.old.flow.labels) }
        ensures none { result ≡ None → (v : ℕ) → slice_index self.old.flow.labels v ≡ 0 }
    {
        let _n = graph.n();
        let Some(newest) = self.fronts.next(graph, self.flow.labels()) else {
            return None;
        };
        Some(self.choose(graph, newest))
    }

    /// Lets `t` enter, and before that splits its region where a minimum cut inside it has `t`. It
    /// answers whether there was one.
    pub(crate) fn step(&mut self, graph: &Graph, t: u32, value: u64) -> Result<bool, NoMemory>
        requires under_way { IsUnderWay graph.now self.old }
        requires connected { IsConnected graph.now }
        requires least { IsLeastWeight graph.now value }
        requires open { IsOpenAt graph.now self.old.flow.labels t }
        ensures under_way { OnOk result (IsUnderWay graph.now self.new) }
        ensures entered { OnOk result (slice_index self.new.flow.labels t ≡ 0) }
        ensures stay { OnOk result ((v : ℕ) → slice_index self.old.flow.labels v ≡ 0 → slice_index self.new.flow.labels v ≡ 0) }
    {
        self.feed_near(graph, t, value);
        if self.find_parts(graph, t, value)? {
            self.supply = self.supply.after_split(self.splitter.reach());
            self.split_region(graph, t, value)?;
            return Ok(true);
        }
        self.feed_more(graph, t, value);
        self.enter_alone(graph, t)?;
        Ok(false)
    }

    /// Goes on until all vertices have entered.
    pub(crate) fn run(&mut self, graph: &Graph, value: u64) -> Result<(), NoMemory>
        requires under_way { IsUnderWay graph.now self.old }
        requires connected { IsConnected graph.now }
        requires least { IsLeastWeight graph.now value }
        ensures under_way { OnOk result (IsUnderWay graph.now self.new) }
        ensures all { OnOk result ((v : ℕ) → slice_index self.new.flow.labels v ≡ 0) }
    {
        'steps: while let Some(t) = self.next(graph) {
            self.step(graph, t, value)?;
        }
        Ok(())
    }

    /// The tree and the nodes of the vertices, which are those of the minimum cuts once all have
    /// entered. All other memory of the sweep is given back.
    fn into_tree(self, graph: &Graph) -> HomedTree
        requires { 1 ≤ graph.now.vertices }
        ensures { IsUnderWay graph.now self → ((v : ℕ) → slice_index self.flow.labels v ≡ 0) → IsFinished graph.now result }
    {
        // known by this call: the graph is an edge list
        let _n = graph.n();
        let tree = self.tree;
        let homes = self.homes;
        let homes = homes.into_entered();
        HomedTree { tree, homes }
    }
}

/// The tree of the minimum cuts of a connected graph of two or more
/// vertices, whose value is given.
///
/// Its sides are just the minimum cuts, and some may be sides twice.
/// It is refused only where memory is wanting.
pub fn tree_of(alloc: Global, graph: &Graph, value: u64) -> Result<HomedTree, NoMemory>
    requires connected { IsConnected graph.now }
    requires enough { 2 ≤ graph.now.vertices }
    requires value { value ≡ least_value graph.now }
    ensures { IfOk result (IsFinished graph.now) }
{
    // known by this call: the graph is an edge list
    let _n = graph.n();
    let mut sweep = Sweep::new(alloc, graph)?;
    let done = sweep.run(graph, value);
    // taken before the outcome is asked, so that only here a sweep is taken apart
    let tree = sweep.into_tree(graph);
    done?;
    Ok(tree)
}

/// The tree of the minimum cuts as `tree_of` makes it, by so many workers, of whom each takes some
/// of the large regions, where a split leaves two or more of them.
pub fn tree_by_workers<R: Threads + Sync>(
    rt: &R,
    alloc: Global,
    graph: &Graph,
    value: u64,
    workers: u32,
) -> Result<HomedTree, NoMemory>
    requires connected { IsConnected graph.now }
    requires enough { 2 ≤ graph.now.vertices }
    requires value { value ≡ least_value graph.now }
    requires workers { 1 ≤ workers }
    ensures { IfOk result (IsFinished graph.now) }
{
    // known by this call: the graph is an edge list
    let _n = graph.n();
    let mut sweep = Sweep::new(alloc, graph)?;
    let done = sweep.run_shared(rt, alloc, graph, value, workers);
    let tree = sweep.into_tree(graph);
    done?;
    Ok(tree)
}
