//! The flow, its regions, and the memory for searches.

ghost use Rattle.std.specs.Prelude.{◌≡◌, ◌≢◌, ◌↔◌, ◌-◌, ◌^◌, ◌<◌, ◌≤◌, ◌⊎◌, ℕ, None, IfOk, IfSome, length, slice_index, slice_set};
ghost use Rattle.region_flow.specs.Outcome.{IfBest};
ghost use Rattle.region_flow.specs.Regions.{RegionState, IsRegionFlow};
ghost use Rattle.cut_definitions.specs.Regions.{IsOpenAt};
ghost use Rattle.region_flow.specs.Inflow.{IsStopReached, ShowsLeast};
ghost use Rattle.region_flow.specs.CutOff.{MayBeCutOff, relabelled};

use crate::Outcome;
use crate::cutting::{Residual, cut_off};
use crate::residual::start;
use crate::searching::{search, search_past};
use crate::task::{Detour, Task};
use crate::tree::{SearchTree, clear};
use cut_definitions::NoMemory;
use std::alloc::Global;
use std::marker::Model;
use weighted_graph::Graph;

/// A flow from a source that grows, with the vertices outside in regions,
/// and the memory for searches.
///
/// It keeps no copy of its graph.
#[derive(Drop)]
pub struct RegionFlow {
    labels: Vec<u32>,
    feed: Vec<u64>,
    toward: Vec<u64>,

    // that of the last search; no vertex is marked between two
    tree: SearchTree,

    // the lengths of all rows that searches went along, added up
    looked: usize,
}

impl Model for RegionFlow {
    ghost use Rattle.std.specs.Prelude.{length};
    ghost use Rattle.region_flow.specs.Regions.{RegionState};
    ghost use Rattle.region_flow.specs.Tree.{IsReady};

    ghost Value = { RegionState };

    ghost view = { λ f. record {
      labels = f.labels.items;
      feed = f.feed.items;
      toward = f.toward.items;
      found = f.tree.order.items;
    } };

    ghost invariant = { λ f. IsReady (length f.labels.items) f.tree };
}

impl RegionFlow {
    /// A flow in a graph in which no vertex has entered the source,
    /// and all are in region 1 and not fed.
    ///
    /// It takes time and memory O(n + m), and all the memory that the flow ever takes. Want of
    /// memory is its only refusal.
    pub fn new(alloc: Global, graph: &Graph) -> Result<RegionFlow, NoMemory>
        ensures flow { IfOk result (IsRegionFlow graph.now) }
        ensures one { IfOk result (λ f. (v : ℕ) → 1 ≤ v → v ≤ graph.now.vertices → slice_index f.labels v ≡ 1) }
        ensures dry { IfOk result (λ f. (v : ℕ) → slice_index f.feed v ≡ 0) }
    {
        let size = graph.n() as usize + 1;
        let mut toward = vec![in alloc; 0u64; graph.edges()]?;
        start(graph, toward.as_mut_slice());
        let mut labels = vec![in alloc; 1u32; size]?;
        labels[0] = 0;
        let feed = vec![in alloc; 0u64; size]?;
        let tree = SearchTree::new(alloc, size)?;
        Ok(RegionFlow {
            labels,
            feed,
            toward,
            tree,
            looked: 0,
        })
    }

    /// The label of a vertex of 1 to n: 0 where it has entered the source,
    /// else that of its region.
    pub fn label(&self, v: u32) -> u32
        requires { v < length self.now.labels }
        ensures { result ≡ slice_index self.now.labels v }
    {
        self.labels[v as usize]
    }

    /// The labels of all vertices from 0 on, lent without a copy; that of 0 is 0.
    pub fn labels(&self) -> &[u32]
        ensures { result.now ≡ self.now.labels }
    {
        self.labels.as_slice()
    }

    /// What a vertex of 1 to n is fed: its excess.
    pub fn feed(&self, v: u32) -> u64
        requires { v < length self.now.feed }
        ensures { result ≡ slice_index self.now.feed v }
    {
        self.feed[v as usize]
    }

    /// What is left toward the greater end of the edge at a place of the graph's list; toward the
    /// lesser end it is the rest of twice the edge's weight.
    pub fn toward(&self, edge: usize) -> u64
        requires { edge < length self.now.toward }
        ensures { result ≡ slice_index self.now.toward edge }
    {
        self.toward[edge]
    }

    /// The vertices that the last search found, lent without a copy.
    pub fn found(&self) -> &[u32]
        ensures { result.now ≡ self.now.found }
    {
        self.tree.order.as_slice()
    }

    /// Lets a vertex outside the source enter it: its neighbours in its region are fed what it can
    /// send them, and no other vertex outside the source is fed anything else than before. It
    /// takes one step for each arc, and no memory.
    pub fn enter(&mut self, graph: &Graph, t: u32)
        requires flow { IsRegionFlow graph.now self.old }
        requires to_n { t ≤ graph.now.vertices }
        requires outside { 1 ≤ slice_index self.old.labels t }
        ensures flow { IsRegionFlow graph.now self.new }
        ensures labels { self.new.labels ≡ slice_set self.old.labels t 0 }
        ensures toward { self.new.toward ≡ self.old.toward }
        ensures found { self.new.found ≡ self.old.found }
        ensures fed { (v : ℕ) → 1 ≤ slice_index self.new.labels v → (slice_index self.new.feed v ≡ slice_index self.old.feed v) ⊎ IsOpenAt graph.now self.new.labels v }
    {
        let region = self.labels[t as usize];
        self.cut_off(graph, &[t], region, 0);
    }

    /// Cuts different vertices off from their region, and gives them a label that no vertex has;
    /// or lets them enter the source, by the label 0. Outside the source the feed changes only at
    /// vertices that an edge joins to another region or to the source. It takes one step for each
    /// of their arcs, and no memory.
    pub fn cut_off(&mut self, graph: &Graph, moved: &[u32], region: u32, fresh: u32)
        requires flow { IsRegionFlow graph.now self.old }
        requires may { MayBeCutOff self.old.labels moved.now region fresh }
        ensures flow { IsRegionFlow graph.now self.new }
        ensures labels { (v : ℕ) → slice_index self.new.labels v ≡ relabelled self.old.labels moved.now fresh v }
        ensures toward { self.new.toward ≡ self.old.toward }
        ensures found { self.new.found ≡ self.old.found }
        ensures fed { (v : ℕ) → 1 ≤ slice_index self.new.labels v → (slice_index self.new.feed v ≡ slice_index self.old.feed v) ⊎ IsOpenAt graph.now self.new.labels v }
    {
        let residual = Residual {
            graph,
            toward: self.toward.as_slice(),
        };
        let labels = self.labels.as_mut_slice();
        let feed = self.feed.as_mut_slice();
        cut_off(residual, labels, feed, moved, region, fresh);
    }

    /// One search from `t`: it brings `t` something, or finds the least set around
    /// `t` whose weight is least.
    fn pass(&mut self, graph: &Graph, t: u32, stop: u64)
        requires flow { IsRegionFlow graph.now self.old }
        requires to_n { t ≤ graph.now.vertices }
        requires outside { 1 ≤ slice_index self.old.labels t }
        requires wanting { slice_index self.old.feed t < stop }
        ensures flow { IsRegionFlow graph.now self.new }
        ensures labels { self.new.labels ≡ self.old.labels }
        ensures grown { slice_index self.old.feed t ≤ slice_index self.new.feed t }
        ensures others { (v : ℕ) → v ≢ t → slice_index self.new.feed v ≤ slice_index self.old.feed v }
        ensures shows { slice_index self.new.feed t ≡ slice_index self.old.feed t → ShowsLeast graph.now t (slice_index self.new.feed t) self.new }
    {
        let _n = graph.n();
        let task = Task {
            graph,
            labels: self.labels.as_slice(),
            stop,
        };
        let feed = self.feed.as_mut_slice();
        let toward = self.toward.as_mut_slice();
        let tree = &mut self.tree;
        let looked = search(task, feed, toward, tree, t);
        clear(tree.marks.as_mut_slice(), tree.order.as_slice());
        self.looked = self.looked.saturating_add(looked);
    }

    /// Feeds `t` as `flow` does, but answers None where all searches of this flow so far went
    /// along rows of more arcs than `most`, which comes only where that is below 2^64 - 1. What
    /// the searches moved stays moved.
    pub fn flow_within(&mut self, graph: &Graph, t: u32, stop: u64, most: usize) -> Option<Outcome>
        requires flow { IsRegionFlow graph.now self.old }
        requires to_n { t ≤ graph.now.vertices }
        requires outside { 1 ≤ slice_index self.old.labels t }
        ensures flow { IsRegionFlow graph.now self.new }
        ensures labels { self.new.labels ≡ self.old.labels }
        ensures others { (v : ℕ) → v ≢ t → slice_index self.new.feed v ≤ slice_index self.old.feed v }
        ensures stopped { IfSome result (λ outcome. (outcome ≡ Outcome.AtLeast) ↔ IsStopReached graph.now self.new.labels t stop) }
        ensures reached { IfSome result (λ outcome. outcome ≡ Outcome.AtLeast → stop ≤ slice_index self.new.feed t) }
        ensures best { IfSome result (λ outcome. IfBest outcome (λ amount. ShowsLeast graph.now t amount self.new)) }
        ensures cut_short { result ≡ None → most < 2 ^ 64 - 1 }
    {
        while self.feed[t as usize] < stop {
            if self.looked > most {
                return None;
            }
            let before = self.feed[t as usize];
            self.pass(graph, t, stop);
            if self.feed[t as usize] == before {
                return Some(Outcome::Best(before));
            }
        }
        Some(Outcome::AtLeast)
    }

    /// The least weight of a set inside the region of `t` with `t`, if it is below the stop.
    ///
    /// `AtLeast` comes just where each such set weighs at least the stop. After `Best` the
    /// vertices that were found are the least such set whose weight is least, and `t` is fed just
    /// that weight. After `AtLeast` it is fed the stop or more. No other vertex is fed more than
    /// before. It moves feed inside the region alone, and takes no memory. Each search goes at
    /// most once along the rows of the vertices that it finds.
    pub fn flow(&mut self, graph: &Graph, t: u32, stop: u64) -> Outcome
        requires flow { IsRegionFlow graph.now self.old }
        requires to_n { t ≤ graph.now.vertices }
        requires outside { 1 ≤ slice_index self.old.labels t }
        ensures flow { IsRegionFlow graph.now self.new }
        ensures labels { self.new.labels ≡ self.old.labels }
        ensures others { (v : ℕ) → v ≢ t → slice_index self.new.feed v ≤ slice_index self.old.feed v }
        ensures stopped { (result ≡ Outcome.AtLeast) ↔ IsStopReached graph.now self.new.labels t stop }
        ensures reached { result ≡ Outcome.AtLeast → stop ≤ slice_index self.new.feed t }
        ensures best { IfBest result (λ amount. ShowsLeast graph.now t amount self.new) }
    {
        match self.flow_within(graph, t, stop, usize::MAX) {
            Some(outcome) => outcome,
            // without a limit this does not come
            None => Outcome::AtLeast,
        }
    }

    /// Brings a vertex outside the source what others of its region are fed, as far as
    /// its stop, by one search that never comes to `t`. It ends where it went along rows
    /// of more arcs than `most`.
    ///
    /// No other vertex is fed more than before, and `t` is fed the same. It moves feed inside the
    /// region alone, and takes no memory.
    pub fn feed_past(&mut self, graph: &Graph, v: u32, t: u32, stop: u64, most: usize)
        requires flow { IsRegionFlow graph.now self.old }
        requires to_n { v ≤ graph.now.vertices }
        requires outside { 1 ≤ slice_index self.old.labels v }
        ensures flow { IsRegionFlow graph.now self.new }
        ensures labels { self.new.labels ≡ self.old.labels }
        ensures others { (u : ℕ) → u ≢ v → slice_index self.new.feed u ≤ slice_index self.old.feed u }
        ensures kept { t ≢ v → slice_index self.new.feed t ≡ slice_index self.old.feed t }
    {
        let _n = graph.n();
        let task = Task {
            graph,
            labels: self.labels.as_slice(),
            stop,
        };
        let detour = Detour {
            task,
            past: t,
            most,
        };
        let feed = self.feed.as_mut_slice();
        let toward = self.toward.as_mut_slice();
        let tree = &mut self.tree;
        search_past(detour, feed, toward, tree, v);
        clear(tree.marks.as_mut_slice(), tree.order.as_slice());
    }
}
