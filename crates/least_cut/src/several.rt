//! Several cuts that weigh less than a bound, by a sweep whose bound stays while there is room.
//!
//! The set that a flow into a vertex shows has this vertex and none of those that entered before.
//! So what is met at different steps are different cuts.

ghost use Rattle.std.specs.Prelude.{◌≡◌, ◌≤◌, IfOk, IfSome, OnOk, if◌then◌else◌, length};
ghost use Rattle.least_cut.specs.CutsBelow.{AreCutsBelow, IsKeptBeside, IsPutBehind, with_best};
ghost use Rattle.least_cut.specs.Lightest.{limit_of};

use crate::front::Front;
use crate::lightest::{LightestCut, enter_with_cut, limit, lower_bound};
use cut_definitions::NoMemory;
use region_flow::RegionFlow;
use std::alloc::Global;
use weighted_graph::Graph;

/// Puts a cut behind others while they are fewer than `most`, and in place of the last after that.
fn put_behind(others: &mut Vec<LightestCut>, most: usize, cut: LightestCut) -> Result<(), NoMemory>
    requires { length others.old.items ≤ most }
    ensures few { OnOk result (length others.new.items ≤ most) }
    ensures put { OnOk result (IsPutBehind cut others.old.items others.new.items) }
{
    if most == 0 {
        return Ok(());
    }
    if others.len() == most {
        others.pop();
    }
    others.push(cut)?;
    Ok(())
}

/// Keeps a cut that was found beside the best and others, and returns the lighter of it and the
/// best.
fn keep(
    best: Option<LightestCut>,
    others: &mut Vec<LightestCut>,
    most: usize,
    found: LightestCut,
) -> Result<LightestCut, NoMemory>
    requires { length others.old.items ≤ most }
    ensures few { OnOk result (length others.new.items ≤ most) }
    ensures kept { IfOk result (λ kept. IsKeptBeside best found kept others.old.items others.new.items) }
{
    let Some(best) = best else {
        return Ok(found);
    };
    if found.weight < best.weight {
        put_behind(others, most, best)?;
        Ok(found)
    } else {
        put_behind(others, most, found)?;
        Ok(best)
    }
}

/// What the next cut has to weigh less than: the bound while there is room, and then the least
/// weight that is known.
fn stop(best: &Option<LightestCut>, bound: u64, has_room: bool) -> u64
    ensures { result ≡ (if has_room then bound else limit_of best.now bound) }
{
    if has_room { bound } else { limit(best, bound) }
}

/// The best cut, if there is one, and behind it the others.
fn with_others(
    best: Option<LightestCut>,
    others: Vec<LightestCut>,
) -> Result<Vec<LightestCut>, NoMemory>
    ensures { IfOk result (λ cuts. cuts.items ≡ with_best best others.items) }
{
    let mut cuts = others;
    if let Some(best) = best {
        cuts.insert(0, best)?;
    }
    Ok(cuts)
}

/// Cuts of a graph of two or more vertices that weigh less than a bound, at most `room` of them
/// and no two the same, by one sweep (Hao and Orlin, 1994). If there is one, the first is a
/// minimum cut; which others there are is free.
///
/// There are at most n flows, each up to the bound, and after `room` cuts up to the least weight
/// that is known. It takes the memory of `lightest_cut_below` and n/8 bytes for each cut, and is
/// refused only when out of memory.
pub fn cuts_below(
    alloc: Global,
    graph: &Graph,
    bound: u64,
    room: usize,
) -> Result<Vec<LightestCut>, NoMemory>
    requires { 2 ≤ graph.now.vertices }
    ensures { IfOk result (λ cuts. AreCutsBelow graph.now bound room cuts.items) }
{
    let mut others = Vec::new(alloc);
    if room == 0 {
        return Ok(others);
    }
    let most = room - 1;
    // known by this call: the graph is an edge list
    let _n = graph.n();
    let low = lower_bound(alloc, graph, 0)?;
    let mut best = None;
    let mut flow = RegionFlow::new(alloc, graph)?;
    let mut front = Front::new(alloc, graph)?;
    flow.enter(graph, 1);
    front.put_neighbours(graph, 1);
    'sweep: while stop(&best, bound, others.len() < most) > low {
        let Some(t) = front.next(&flow) else {
            break;
        };
        let below = stop(&best, bound, others.len() < most);
        if let Some(found) = enter_with_cut(alloc, graph, &mut flow, t, below)? {
            best = Some(keep(best, &mut others, most, found)?);
        }
        front.put_neighbours(graph, t);
    }
    with_others(best, others)
}
