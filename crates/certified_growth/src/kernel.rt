//! What is left of a graph once a set has grown in each of several ranges, side by side.

ghost use Rattle.std.specs.Prelude.{◌≡◌, ◌+◌, ◌<◌, ◌≤◌, ◌^◌, All, IfOk, IfSome, length};
ghost use Rattle.cut_definitions.specs.Components.{IsConnected};
ghost use Rattle.cut_definitions.specs.Cuts.{value as least_value};
ghost use Rattle.certified_growth.specs.GrownSets.{AreInOrder, IsFoundShare, IsGrownSet, IsGrownSmaller, IsSetNamed};
ghost use Rattle.certified_growth.specs.Turns.{MayNote};

use crate::certificate::Rule;
use crate::contraction::{Grown, contract_sets};
use crate::effort::Limits;
use crate::grown_set::{GrownSet, Share, grow_shares};
use crate::ranges::{Divided, divide};
use cut_definitions::NoMemory;
use std::alloc::Global;
use std::thread::Threads;
use weighted_graph::Graph;

/// The set of a share, where it was found.
fn set_in(graph: &Graph, owners: &[u32], least: u64, share: Share) -> Result<GrownSet, NoMemory>
    requires { IsFoundShare graph.now least owners.now share }
    ensures { IfOk result (IsGrownSet graph.now least owners.now share.own) }
{
    // the contract alone speaks of these
    let (_graph, _owners, _least) = (graph, owners, least);
    share.grown.unwrap()
}

/// The sets of shares, in the order of their owners from 0 on. None where the last share is not
/// that of the first owner, or another one not that of the next.
fn sets_of_shares(
    alloc: Global,
    graph: &Graph,
    owners: &[u32],
    least: u64,
    mut shares: Vec<Share>,
) -> Result<Option<Vec<GrownSet>>, NoMemory>
    requires { All (IsFoundShare graph.now least owners.now) shares.items }
    ensures { IfOk result (λ found. IfSome found (λ sets. AreInOrder graph.now least owners.now sets.items)) }
{
    let mut sets = Vec::new(alloc);
    'shares: while let Some(share) = shares.pop() {
        if share.own as usize != sets.len() {
            return Ok(None);
        }
        let set = set_in(graph, owners, least, share)?;
        sets.push(set)?;
    }
    Ok(Some(sets))
}

/// The sets of shares, in the order of their owners, once they have grown side by side.
fn grow_all<R: Threads + Sync>(
    rt: &R,
    alloc: Global,
    graph: &Graph,
    owners: &[u32],
    rule: Rule,
    mut shares: Vec<Share>,
    workers: u32,
) -> Result<Option<Vec<GrownSet>>, NoMemory>
    requires connected { IsConnected graph.now }
    requires owners { length owners.now ≡ graph.now.vertices + 1 }
    requires named { All (IsSetNamed graph.now owners.now) shares.items }
    requires may { MayNote graph.now rule }
    requires workers { 1 ≤ workers }
    ensures { IfOk result (λ found. IfSome found (λ sets. AreInOrder graph.now rule.least owners.now sets.items)) }
{
    grow_shares(
        rt,
        alloc,
        graph,
        owners,
        rule,
        shares.as_mut_slice(),
        workers,
    );
    sets_of_shares(alloc, graph, owners, rule.least, shares)
}

/// Whether the vertices that came into sets are a tenth of all or more.
fn are_many(sets: &[GrownSet], n: u32) -> bool {
    let mut came = 0u32;
    for set in sets {
        came = came.saturating_add(set.count);
    }
    came >= n / 10
}

/// The graph in which each of several grown sets is one vertex, the labels, and the vertices
/// that were noted as leaves: the minimum cuts are these, each alone, and those cuts of that
/// graph that weigh the value.
///
/// The vertices are divided into runs of numbers, one for each of some workers, and each of these
/// lets a set grow from a vertex of its run, by vertices that a flow certifies: no set around one
/// of them that avoids what came before weighs at most the value, but itself alone, which is noted
/// then. Certificates stay true while the set grows, so workers share nothing. None comes where
/// the graph is too small, too many edges join runs or lead far away, or fewer than a tenth of the
/// vertices came. The source that grows is that of Hao and Orlin (1994).
///
/// Searches for one vertex go no further than the limits say, and a set ends early where most
/// vertices are tried in vain. Each worker has a flow, which takes memory in proportion to n + m.
/// It is refused only where memory is wanting.
pub fn grown_kernel<R: Threads + Sync>(
    rt: &R,
    alloc: Global,
    graph: &Graph,
    value: u64,
    workers: u32,
    limits: Limits,
) -> Result<Option<Grown>, NoMemory>
    requires connected { IsConnected graph.now }
    requires enough { 2 ≤ graph.now.vertices }
    requires value { value ≡ least_value graph.now }
    requires fits { value + 1 < 2 ^ 64 }
    requires workers { 1 ≤ workers }
    ensures { IfOk result (λ found. IfSome found (IsGrownSmaller graph.now)) }
{
    let n = graph.n();
    let Some(divided) = divide(alloc, graph, value, workers, limits)? else {
        return Ok(None);
    };
    let Divided {
        count,
        owners,
        shares,
    } = divided;
    let rule = Rule {
        least: value + 1,
        leaf_weight: value,
        limits,
    };
    let Some(sets) = grow_all(rt, alloc, graph, &owners, rule, shares, workers)? else {
        return Ok(None);
    };
    if sets.len() != count as usize || !are_many(&sets, n) {
        return Ok(None);
    }
    let grown = contract_sets(alloc, graph, &owners, &sets, value)?;
    Ok(Some(grown))
}
