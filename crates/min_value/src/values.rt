//! The value of a graph by sweeps of flows.

ghost use Rattle.std.specs.Prelude.{◌≡◌, ◌≤◌, ◌^◌, IfOk, min};
ghost use Rattle.cut_definitions.specs.Cuts.{value};
ghost use Rattle.min_value.specs.Left.{IsToTell, TellsLesser};

use crate::scans::{Shrunk, scan_or_sweep, value_of_shrunk};
use cut_definitions::{MOST_WEIGHT, NoMemory};
use least_cut::{Swept, least_weight_within};
use std::alloc::Global;
use weighted_graph::Graph;
use worker_team::Team;

/// The lesser of a bound and the value of a graph, by a sweep of flows, which are local on most
/// graphs. It is cut short where they go along each row more than four times on the average.
pub(crate) fn sweep(alloc: Global, graph: &Graph, bound: u64) -> Result<Swept, NoMemory>
    requires { 2 ≤ graph.now.vertices }
    ensures { IfOk result (TellsLesser graph.now bound) }
{
    // known by this call: the graph is an edge list, so no cut weighs more than 2^61
    let _n = graph.n();
    let most = graph.edges().saturating_mul(8);
    let swept = least_weight_within(alloc, graph, bound.min(MOST_WEIGHT), most)?;
    Ok(swept)
}

/// A sweep, and where that is cut short one scan:
/// what is left to be told of the lesser of a bound and the value.
fn sweep_or_scan<T: Team>(team: &T, graph: &Graph, bound: u64) -> Result<Shrunk, NoMemory>
    requires ready { T.ready team.now }
    requires enough { 2 ≤ graph.now.vertices }
    ensures small { IfOk result (λ s. s.best ≤ 2 ^ 62) }
    ensures told { IfOk result (λ s. IsToTell (min bound (value graph.now)) s.best s.smaller) }
{
    match sweep(team.alloc(), graph, bound)? {
        Swept::Whole(best) => Ok(Shrunk {
            best,
            smaller: None,
        }),
        Swept::Part(best) => scan_or_sweep(team, graph, best),
    }
}

/// A sweep of a graph that is taken over, and where that is cut short one scan; the graph is given
/// back before a smaller one gets its rows.
fn sweep_or_scan_away<T: Team>(team: &T, graph: Graph, bound: u64) -> Result<Shrunk, NoMemory>
    requires ready { T.ready team.now }
    requires enough { 2 ≤ graph.vertices }
    ensures small { IfOk result (λ s. s.best ≤ 2 ^ 62) }
    ensures told { IfOk result (λ s. IsToTell (min bound (value graph)) s.best s.smaller) }
{
    sweep_or_scan(team, &graph, bound)
}

/// The lesser of a bound and the value of a graph that is taken over,
/// and given back as soon as a smaller one is known.
pub(crate) fn lesser_away<T: Team>(team: &T, graph: Graph, bound: u64) -> Result<u64, NoMemory>
    requires ready { T.ready team.now }
    requires enough { 2 ≤ graph.vertices }
    ensures { IfOk result (λ weight. weight ≡ min bound (value graph)) }
{
    let shrunk = sweep_or_scan_away(team, graph, bound)?;
    value_of_shrunk(team, shrunk)
}

/// The value of a graph of two or more vertices, by a sweep,
/// and where that is cut short by scans and a further one.
pub fn value_by_sweeps<T: Team>(team: &T, graph: &Graph) -> Result<u64, NoMemory>
    requires ready { T.ready team.now }
    requires enough { 2 ≤ graph.now.vertices }
    ensures { IfOk result (λ weight. weight ≡ value graph.now) }
{
    // known by this call: the graph is an edge list, so no cut weighs more than 2^61
    let _n = graph.n();
    let shrunk = sweep_or_scan(team, graph, MOST_WEIGHT)?;
    value_of_shrunk(team, shrunk)
}
