//! A set that one worker grows.

ghost use Rattle.std.specs.Prelude.{◌≡◌, ◌+◌, ◌≤◌, ◌<◌, ◌^◌, ◌++◌, [], ℕ, List, IfOk, IfSome, IsFalse, OnOk, length, slice_index};
ghost use Rattle.cut_definitions.specs.Components.{IsConnected};
ghost use Rattle.cut_definitions.specs.Graph.{Graph as EdgeGraph};
ghost use Rattle.certified_growth.specs.Turns.{IsNext, MayNote};
ghost use Rattle.certified_growth.specs.Growing.{AreOwned, IsGrowing};
ghost use Rattle.certified_growth.specs.GrownSets.{IsGrownSet};

use crate::certificate::{Kind, Rule, certify};
use crate::effort::{Effort, Limits};
use crate::grown_set::GrownSet;
use crate::pair::{Pair, shows_pair};
use crate::reach::Reach;
use cut_definitions::NoMemory;
use region_flow::RegionFlow;
use std::alloc::Global;
use weighted_graph::Graph;

/// A root that has more neighbours is paired with none of them.
const MOST_NEIGHBOURS: usize = 64;

/// A set that grows from one vertex by certified ones of the same owner, and what it takes to go
/// on. Each vertex has an owner, whose numbers stand in a list from vertex 0 on.
#[derive(Drop)]
pub(crate) struct Growing {
    flow: RegionFlow,
    reach: Reach,

    // for each vertex from 0 on when it came, from 1 on, and 0 where it did not
    turns: Vec<u32>,
    leaves: Vec<u32>,
    count: u32,

    // vertices that may be tried, and for each vertex from 0 on how often it was
    waiting: Vec<u32>,
    tries: Vec<u8>,
    effort: Effort,

    // of whose vertices it is made, and the one that came first
    own: u32,
    root: u32,
}

/// Lets a vertex wait.
fn put(waiting: &mut Vec<u32>, v: u32) -> Result<(), NoMemory>
    ensures { (n : ℕ) (owners : List ℕ) (own : ℕ) → AreOwned n owners own waiting.old.items → v ≤ n → slice_index owners v ≡ own → AreOwned n owners own waiting.new.items }
{
    waiting.push(v)?;
    Ok(())
}

/// Lets the neighbours of a vertex wait that have one owner.
fn wait_beside(
    graph: &Graph,
    v: u32,
    waiting: &mut Vec<u32>,
    owners: &[u32],
    own: u32,
) -> Result<(), NoMemory>
    requires to_n { v ≤ graph.now.vertices }
    requires owners { length owners.now ≡ graph.now.vertices + 1 }
    requires waiting { AreOwned graph.now.vertices owners.now own waiting.old.items }
    ensures { OnOk result (AreOwned graph.now.vertices owners.now own waiting.new.items) }
{
    let _n = graph.n();
    for arc in graph.row(v) {
        if owners[arc.to as usize] != own {
            continue;
        }
        put(waiting, arc.to)?;
    }
    Ok(())
}

/// Takes the newest vertex that waits.
fn take_newest(waiting: &mut Vec<u32>) -> Option<u32>
    ensures rest { (n : ℕ) (owners : List ℕ) (own : ℕ) → AreOwned n owners own waiting.old.items → AreOwned n owners own waiting.new.items }
    ensures some { IfSome result (λ v. (n : ℕ) (owners : List ℕ) (own : ℕ) → AreOwned n owners own waiting.old.items → (v ≤ n) × (slice_index owners v ≡ own)) }
{
    waiting.pop()
}

/// Lists more vertices.
pub(crate) fn add_all(all: &mut Vec<u32>, more: &[u32]) -> Result<(), NoMemory>
    ensures { OnOk result (all.new.items ≡ all.old.items ++ more.now) }
{
    for v in more {
        all.push(*v)?;
    }
    Ok(())
}

/// Counts one more try of a vertex, unless it was tried so often.
fn take_try(tries: &mut Vec<u8>, v: u32, most: u8) -> bool {
    let place = v as usize;
    if place >= tries.len() || tries[place] >= most {
        return false;
    }
    tries[place] += 1;
    true
}

impl Growing {
    /// The set of one vertex.
    pub(crate) fn start(
        alloc: Global,
        graph: &Graph,
        owners: &[u32],
        own: u32,
        root: u32,
    ) -> Result<Growing, NoMemory>
        requires from_one { 1 ≤ root }
        requires to_n { root ≤ graph.now.vertices }
        requires owners { length owners.now ≡ graph.now.vertices + 1 }
        requires own { slice_index owners.now root ≡ own }
        ensures growing { (least : ℕ) → IfOk result (IsGrowing graph.now least owners.now) }
        ensures own { IfOk result (λ s. s.own ≡ own) }
        ensures begun { IfOk result (λ s. s.count ≡ 1) }
        ensures none { IfOk result (λ s. s.leaves.items ≡ []) }
    {
        let n = graph.n();
        let mut flow = RegionFlow::new(alloc, graph)?;
        flow.enter(graph, root);
        let reach = Reach::new(alloc, n)?;
        let mut turns = vec![in alloc; 0u32; n as usize + 1]?;
        turns[root as usize] = 1;
        let tries = vec![in alloc; 0u8; n as usize + 1]?;
        let mut growing = Growing {
            flow,
            reach,
            turns,
            leaves: Vec::new(alloc),
            count: 1,
            waiting: Vec::new(alloc),
            tries,
            effort: Effort::new(),
            own,
            root,
        };
        wait_beside(graph, root, &mut growing.waiting, owners, own)?;
        Ok(growing)
    }

    /// Lets a certified vertex enter, notes what is to be noted with it,
    /// and lets its neighbours wait.
    fn enter(
        &mut self,
        graph: &Graph,
        owners: &[u32],
        t: u32,
        least: u64,
        noted: &[u32],
    ) -> Result<(), NoMemory>
        requires growing { IsGrowing graph.now least owners.now self.old }
        requires to_n { t ≤ graph.now.vertices }
        requires own { slice_index owners.now t ≡ self.old.own }
        requires outside { 1 ≤ slice_index self.old.flow.labels t }
        requires few { self.old.count + 1 < 2 ^ 32 }
        requires next { IsNext graph.now least self.old.turns.items self.old.leaves.items noted.now self.old.count t }
        ensures growing { OnOk result (IsGrowing graph.now least owners.now self.new) }
        ensures own { self.new.own ≡ self.old.own }
    {
        let _n = graph.n();
        add_all(&mut self.leaves, noted)?;
        self.count += 1;
        self.turns[t as usize] = self.count;
        self.flow.enter(graph, t);
        wait_beside(graph, t, &mut self.waiting, owners, self.own)?;
        Ok(())
    }

    /// Tries a vertex, and lets it enter where it is certified.
    fn step(&mut self, graph: &Graph, owners: &[u32], t: u32, rule: Rule) -> Result<(), NoMemory>
        requires connected { IsConnected graph.now }
        requires growing { IsGrowing graph.now rule.least owners.now self.old }
        requires to_n { t ≤ graph.now.vertices }
        requires own { slice_index owners.now t ≡ self.old.own }
        requires may { MayNote graph.now rule }
        ensures growing { OnOk result (IsGrowing graph.now rule.least owners.now self.new) }
        ensures own { self.new.own ≡ self.old.own }
    {
        let _n = graph.n();
        if self.flow.label(t) == 0 || self.count == u32::MAX {
            return Ok(());
        }
        if !take_try(&mut self.tries, t, rule.limits.most_tries) {
            return Ok(());
        }
        self.effort = self.effort.next();
        let kind = certify(graph, &mut self.flow, &mut self.reach, t, rule)?;
        match kind {
            Kind::Heavy => self.enter(graph, owners, t, rule.least, &[])?,
            Kind::Leaf => self.enter(graph, owners, t, rule.least, &[t])?,
            Kind::Open => {}
        }
        Ok(())
    }

    /// Lets a neighbour of the root enter next, and notes both, where a flow shows that they may
    /// begin a set. Answers whether it did.
    fn enter_pair(
        &mut self,
        graph: &Graph,
        owners: &[u32],
        t: u32,
        rule: Rule,
    ) -> Result<bool, NoMemory>
        requires connected { IsConnected graph.now }
        requires growing { IsGrowing graph.now rule.least owners.now self.old }
        requires to_n { t ≤ graph.now.vertices }
        requires own { slice_index owners.now t ≡ self.old.own }
        requires may { MayNote graph.now rule }
        requires begun { self.old.count ≡ 1 }
        requires none { self.old.leaves.items ≡ [] }
        ensures growing { OnOk result (IsGrowing graph.now rule.least owners.now self.new) }
        ensures own { self.new.own ≡ self.old.own }
        ensures alone { IfOk result (λ yes. IsFalse yes → (self.new.count ≡ 1) × (self.new.leaves.items ≡ [])) }
    {
        let _n = graph.n();
        if self.flow.label(t) == 0 {
            return Ok(false);
        }
        let pair = Pair {
            root: self.root,
            next: t,
        };
        if !shows_pair(graph, &mut self.flow, &mut self.reach, pair, rule)? {
            return Ok(false);
        }
        self.enter(graph, owners, t, rule.least, &[pair.root, t])?;
        Ok(true)
    }

    /// Where the root weighs no more than the value, no vertex can be certified while it is alone:
    /// one of its neighbours enters beside it, if one can.
    pub(crate) fn pair_root(
        &mut self,
        graph: &Graph,
        owners: &[u32],
        rule: Rule,
    ) -> Result<(), NoMemory>
        requires connected { IsConnected graph.now }
        requires growing { IsGrowing graph.now rule.least owners.now self.old }
        requires may { MayNote graph.now rule }
        requires begun { self.old.count ≡ 1 }
        requires none { self.old.leaves.items ≡ [] }
        ensures growing { OnOk result (IsGrowing graph.now rule.least owners.now self.new) }
        ensures own { self.new.own ≡ self.old.own }
    {
        let _n = graph.n();
        let root = self.root;
        let row = graph.row(root);
        if graph.degree(root) > rule.leaf_weight || row.len() > MOST_NEIGHBOURS {
            return Ok(());
        }
        for arc in row {
            if owners[arc.to as usize] != self.own {
                continue;
            }
            if self.enter_pair(graph, owners, arc.to, rule)? {
                return Ok(());
            }
        }
        Ok(())
    }

    /// Takes the newest vertex that waits; none where the work is in vain.
    fn next(&mut self, limits: Limits) -> Option<u32>
        ensures growing { (g : EdgeGraph) (least : ℕ) (owners : List ℕ) → IsGrowing g least owners self.old → IsGrowing g least owners self.new }
        ensures some { IfSome result (λ v. (g : EdgeGraph) (least : ℕ) (owners : List ℕ) → IsGrowing g least owners self.old → (v ≤ g.vertices) × (slice_index owners v ≡ self.old.own)) }
        ensures own { self.new.own ≡ self.old.own }
    {
        if self.effort.is_vain(self.count, limits) {
            return None;
        }
        take_newest(&mut self.waiting)
    }

    /// Goes on until no vertex waits, or the work is in vain.
    pub(crate) fn run(&mut self, graph: &Graph, owners: &[u32], rule: Rule) -> Result<(), NoMemory>
        requires connected { IsConnected graph.now }
        requires growing { IsGrowing graph.now rule.least owners.now self.old }
        requires may { MayNote graph.now rule }
        ensures growing { OnOk result (IsGrowing graph.now rule.least owners.now self.new) }
        ensures own { self.new.own ≡ self.old.own }
    {
        'steps: for _step in 0..u64::MAX {
            let Some(t) = self.next(rule.limits) else {
                break;
            };
            self.step(graph, owners, t, rule)?;
        }
        Ok(())
    }

    /// The set, without what it took to grow it.
    pub(crate) fn into_set(self) -> GrownSet
        ensures { (g : EdgeGraph) (least : ℕ) (owners : List ℕ) → IsGrowing g least owners self → IsGrownSet g least owners self.own result }
    {
        GrownSet {
            root: self.root,
            count: self.count,
            turns: self.turns,
            leaves: self.leaves,
        }
    }
}
