//! A sweep whose large regions are solved side by side.
//!
//! No answer rests on which regions are shared: each that is left is split as ever.

ghost use Rattle.std.specs.Prelude.{◌≡◌, ◌≢◌, ◌+◌, ◌-◌, ◌^◌, ◌<◌, ◌≤◌, ℕ, All, IfOk, IfSome, OnOk, length, slice_index, slice_set};
ghost use Rattle.cut_definitions.specs.Contraction.{label, classes as classes_of};
ghost use Rattle.node_tree.specs.Grafted.{grafted_at};
ghost use Rattle.std.specs.List.{AllPairs};
ghost use Rattle.cut_definitions.specs.Components.{IsConnected};
ghost use Rattle.cut_definitions.specs.Cuts.{value as least_value};
ghost use Rattle.region_fronts.specs.Listed.{part_list};
ghost use Rattle.region_sweep.specs.Shares.{AreShares, ArePutAway, HasLeft, HaveLeft, IsLargePart, IsSolvedShare, regions_of};
ghost use Rattle.region_sweep.specs.UnderWay.{IsUnderWay};

use crate::shares::{Share, share_of, solve_shares};
use crate::sweep::Sweep;
use cut_definitions::NoMemory;
use node_tree::{Homes, grafted_at};
use region_flow::RegionFlow;
use std::alloc::Global;
use std::thread::Threads;
use weighted_graph::{Graph, Labels};

/// A region of fewer vertices is not worth a graph of its own.
const LARGE: usize = 20_000;

/// Nor is one of less than so manieth of all vertices, since each is looked for among all of them.
const MANY: usize = 16;

/// Shares of regions, one for each.
fn shares_of(
    alloc: Global,
    graph: &Graph,
    flow: &RegionFlow,
    regions: &[u32],
) -> Result<Vec<Share>, NoMemory>
    requires labels { length flow.now.labels ≡ graph.now.vertices + 1 }
    requires root { slice_index flow.now.labels 1 ≡ 0 }
    requires some { 1 ≤ graph.now.vertices }
    requires outside { All (λ region. 1 ≤ region) regions.now }
    requires ascending { AllPairs (λ p q. p < q) regions.now }
    ensures shares { IfOk result (λ shares. AreShares graph.now flow.now.labels shares.items) }
    ensures regions { IfOk result (λ shares. regions_of shares.items ≡ regions.now) }
{
    let mut shares = Vec::new(alloc);
    for region in regions {
        let share = share_of(alloc, graph, flow, *region)?;
        shares.push(share)?;
    }
    Ok(shares)
}

/// Puts each vertex of a region into the node of its class in a tree that was grafted on a node.
fn put_away(homes: &mut Homes, classes: &Labels, nodes: &[usize], node: usize, count: usize)
    requires entered { length homes.old.entered ≡ length classes.now + 1 }
    requires nodes { (c : ℕ) → c ≤ classes_of classes.now → c < length nodes.now }
    requires some { 1 ≤ count }
    requires fits { (c : ℕ) → count - 1 + slice_index nodes.now c < 2 ^ 64 }
    ensures { ArePutAway (length classes.now) classes.now nodes.now node count homes.old homes.new }
{
    for v in 0..classes.n() {
        put_one(homes, classes, nodes, node, count, v + 1);
    }
}

/// Puts one vertex, if it is in the region, into the node of its class in a tree
/// that was grafted on a node.
fn put_one(homes: &mut Homes, classes: &Labels, nodes: &[usize], node: usize, count: usize, v: u32)
    requires from_one { 1 ≤ v }
    requires to_n { v ≤ length classes.now }
    requires entered { v < length homes.old.entered }
    requires nodes { label classes.now v < length nodes.now }
    requires some { 1 ≤ count }
    requires fits { (c : ℕ) → count - 1 + slice_index nodes.now c < 2 ^ 64 }
    ensures inside { 2 ≤ label classes.now v → homes.new ≡ record { entered = slice_set homes.old.entered v (grafted_at node count (slice_index nodes.now (label classes.now v))); regions = homes.old.regions } }
    ensures outside { label classes.now v ≤ 1 → homes.new ≡ homes.old }
{
    let class = classes.label(v);
    if class > 1 {
        let home = grafted_at(node, count, nodes[class as usize]);
        homes.enter(v, home);
    }
}

impl Sweep {
    /// The regions of the parts that are listed last, of those with at least so
    /// many vertices, ascending.
    fn large_regions(&self, alloc: Global, n: u32, least: usize) -> Result<Vec<u32>, NoMemory>
        requires { length self.now.flow.labels ≡ n + 1 }
        ensures outside { IfOk result (λ regions. All (λ region. 1 ≤ region) regions.items) }
        ensures ascending { IfOk result (λ regions. AllPairs (λ p q. p < q) regions.items) }
        ensures large { IfOk result (λ regions. All (λ region. (part : ℕ) × (part ≤ self.now.parts.count) × IsLargePart self.now.flow.labels (part_list self.now.parts part) least region) regions.items) }
    {
        let mut regions = Vec::new(alloc);
        let mut last = 0;
        for before in 0..self.parts.count() {
            let Some(region) = self.large_region(before + 1, n, least) else {
                continue;
            };
            if region > last {
                regions.push(region)?;
                last = region;
            }
        }
        Ok(regions)
    }

    /// The region of a part with at least so many vertices. The vertex that entered when the parts
    /// were made is not the last one of its list.
    fn large_region(&self, part: u32, n: u32, least: usize) -> Option<u32>
        requires part { part ≤ self.now.parts.count }
        requires labels { length self.now.flow.labels ≡ n + 1 }
        ensures { IfSome result (IsLargePart self.now.flow.labels (part_list self.now.parts part) least) }
    {
        let list = self.parts.part(part);
        match list.last() {
            Some(v) if *v <= n && list.len() >= least => Some(self.flow.label(*v)),
            _ => None,
        }
    }

    /// Lets a region enter, with the tree of its share grafted on its node.
    fn graft(&mut self, graph: &Graph, share: &Share) -> Result<(), NoMemory>
        requires enough { 2 ≤ graph.now.vertices }
        requires under_way { IsUnderWay graph.now self.old }
        requires share { IsSolvedShare graph.now self.old.flow.labels share.now }
        ensures under_way { OnOk result (IsUnderWay graph.now self.new) }
        ensures left { OnOk result (HasLeft self.old.flow.labels share.now.region self.new.flow.labels) }
    {
        let _n = graph.n();
        let found = match share.tree.as_ref().unwrap() {
            Ok(found) => found,
            Err(refusal) => return Err(*refusal),
        };
        if share.own.is_empty() {
            return Ok(());
        }
        let node = self.homes.of_region(share.region);
        let count = self.tree.len();
        self.tree.graft(node, &found.tree)?;
        // known by this call: the numbers of the nodes fit
        let _nodes = self.tree.len();
        put_away(&mut self.homes, &share.classes, &found.homes, node, count);
        self.flow.cut_off(graph, &share.own, share.region, 0);
        self.fronts
            .put_all_ends(graph, self.flow.labels(), &share.own)?;
        Ok(())
    }

    /// Grafts the tree of a share, and lets the share go.
    fn graft_owned(&mut self, graph: &Graph, share: Share) -> Result<(), NoMemory>
        requires enough { 2 ≤ graph.now.vertices }
        requires under_way { IsUnderWay graph.now self.old }
        requires share { IsSolvedShare graph.now self.old.flow.labels share }
        ensures under_way { OnOk result (IsUnderWay graph.now self.new) }
        ensures left { OnOk result (HasLeft self.old.flow.labels share.region self.new.flow.labels) }
    {
        self.graft(graph, &share)
    }

    /// Grafts the trees of all shares, which are of different regions.
    fn graft_all(&mut self, graph: &Graph, mut shares: Vec<Share>) -> Result<(), NoMemory>
        requires enough { 2 ≤ graph.now.vertices }
        requires under_way { IsUnderWay graph.now self.old }
        requires shares { All (IsSolvedShare graph.now self.old.flow.labels) shares.items }
        requires apart { AllPairs (λ (p q : Share). p.region ≢ q.region) shares.items }
        ensures under_way { OnOk result (IsUnderWay graph.now self.new) }
        ensures left { OnOk result (HaveLeft self.old.flow.labels (regions_of shares.items) self.new.flow.labels) }
    {
        'shares: while let Some(share) = shares.pop() {
            self.graft_owned(graph, share)?;
        }
        Ok(())
    }

    /// Solves the large regions that the last split listed side by side,
    /// where there are two or more of them.
    fn share_large<R: Threads + Sync>(
        &mut self,
        rt: &R,
        alloc: Global,
        graph: &Graph,
        value: u64,
        workers: u32,
    ) -> Result<(), NoMemory>
        requires connected { IsConnected graph.now }
        requires enough { 2 ≤ graph.now.vertices }
        requires value { value ≡ least_value graph.now }
        requires workers { 1 ≤ workers }
        requires under_way { IsUnderWay graph.now self.old }
        ensures under_way { OnOk result (IsUnderWay graph.now self.new) }
        ensures stay { OnOk result ((v : ℕ) → slice_index self.old.flow.labels v ≡ 0 → slice_index self.new.flow.labels v ≡ 0) }
    {
        let n = graph.n();
        let least = LARGE.max(n as usize / MANY);
        let regions = self.large_regions(alloc, n, least)?;
        if regions.len() < 2 {
            return Ok(());
        }
        let mut shares = shares_of(alloc, graph, &self.flow, &regions)?;
        solve_shares(rt, alloc, graph, value, shares.as_mut_slice(), workers);
        self.graft_all(graph, shares)
    }

    /// Goes on until all vertices have entered, with large regions solved side by side where there
    /// are two or more workers.
    pub fn run_shared<R: Threads + Sync>(
        &mut self,
        rt: &R,
        alloc: Global,
        graph: &Graph,
        value: u64,
        workers: u32,
    ) -> Result<(), NoMemory>
        requires connected { IsConnected graph.now }
        requires enough { 2 ≤ graph.now.vertices }
        requires value { value ≡ least_value graph.now }
        requires workers { 1 ≤ workers }
        requires under_way { IsUnderWay graph.now self.old }
        ensures under_way { OnOk result (IsUnderWay graph.now self.new) }
        ensures all { OnOk result ((v : ℕ) → slice_index self.new.flow.labels v ≡ 0) }
    {
        // known by this call: the graph is an edge list
        let _n = graph.n();
        if workers == 1 {
            return self.run(graph, value);
        }
        'steps: while let Some(t) = self.next(graph) {
            let is_split = self.step(graph, t, value)?;
            if is_split {
                self.share_large(rt, alloc, graph, value, workers)?;
            }
        }
        Ok(())
    }
}
