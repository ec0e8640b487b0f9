//! The value by the list of edges, where that can be made shorter before a graph has rows.

ghost use Rattle.std.specs.Prelude.{◌≡◌, ◌≤◌, IfOk, IfSome, if◌then◌else◌, min, nat_lt};
ghost use Rattle.cut_definitions.specs.Cuts.{value};
ghost use Rattle.cut_definitions.specs.Degrees.{IsLeastDegree};
ghost use Rattle.cut_definitions.specs.Graph.{Graph as EdgeGraph};
ghost use Rattle.forest_contraction.specs.Left.{AreTies, Tells};

use crate::rounds::value_by_rounds;
use crate::values::lesser_away;
use cut_definitions::{EdgeList, MOST_WEIGHT, NoMemory};
use forest_contraction::{
    Contracted, FEW_EDGES, Ties, WeightRange, WithTies, contract_from_degree, contract_list,
    contract_measured, contract_with_ties,
};
use least_cut::{degree_is_value, value_of_dense};
use outside::Gate;
use std::thread::Threads;
use vertex_order::near_graph;
use weighted_graph::Graph;
use worker_team::{Crew, Team};

/// The graph of a list that is taken over, as it is swept over: in an order by which neighbours
/// are nearer, but that on a graph little denser than a ring flows cost less than another order.
fn graph_to_sweep<T: Team>(team: &T, list: EdgeList) -> Result<Graph, NoMemory>
    requires ready { T.ready team.now }
    requires enough { 2 ≤ list.vertices }
    ensures value { IfOk result (λ graph. value graph ≡ value list) }
    ensures enough { IfOk result (λ graph. 2 ≤ graph.vertices) }
{
    let n = list.n() as usize;
    if list.len() < n + n / 8 {
        return team.graph(list);
    }
    let near = near_graph(team, list)?;
    Ok(near.into_graph())
}

/// The lesser of a bound and the value of a list that is taken over, or the bound where that has
/// fewer than two vertices.
fn lesser_by_rows<T: Team>(team: &T, list: EdgeList, bound: u64) -> Result<u64, NoMemory>
    requires ready { T.ready team.now }
    ensures { IfOk result (λ weight. weight ≡ (if nat_lt list.vertices 2 then bound else min bound (value list))) }
{
    // no cut weighs less than 0, as a vertex without edges does
    if list.n() < 2 || bound == 0 {
        return Ok(bound);
    }
    let graph = graph_to_sweep(team, list)?;
    lesser_away(team, graph, bound)
}

/// The lesser of a bound and the value of a graph of two or more vertices, whose list of
/// edges is taken over. A low bound that the value reaches is told sooner than the value,
/// since each flow ends there.
///
/// Where the graph is dense the list alone tells it. Else a list of more than 1,024 edges is
/// made shorter by forests, which contract what no lighter cut parts, before anything has
/// rows; what is left is swept by flows, and contracted by scans where these look far. No two
/// graphs have rows at a time. It takes memory O(n + m), and is refused only where that is
/// wanting; the list is gone then.
pub fn lesser_of_list<T: Team>(team: &T, list: EdgeList, bound: u64) -> Result<u64, NoMemory>
    requires ready { T.ready team.now }
    requires enough { 2 ≤ list.vertices }
    ensures { IfOk result (λ weight. weight ≡ min bound (value list)) }
{
    if let Some(weight) = value_of_dense(team.alloc(), &list)? {
        return Ok(bound.min(weight));
    }
    if list.len() <= FEW_EDGES {
        return lesser_by_rows(team, list, bound);
    }
    let Contracted {
        bound: most,
        list: smaller,
    } = contract_list(team.alloc(), &list)?;
    lesser_by_rows(team, smaller.unwrap_or(list), bound.min(most))
}

/// The value of a list with few edges.
fn value_of_few<R: Threads + Sync, G: Gate>(
    crew: &Crew<R, G>,
    list: EdgeList,
) -> Result<u64, NoMemory>
    requires { 2 ≤ list.vertices }
    ensures { IfOk result (λ weight. weight ≡ value list) }
{
    if let Some(weight) = value_of_dense(crew.threads.alloc, &list)? {
        return Ok(weight);
    }
    let graph = crew.threads.graph(list)?;
    value_by_rounds(crew, &graph)
}

/// The value of a graph of two or more vertices, whose list of edges is taken over: as `value`
/// tells it where there are at most 1,024 edges, and else as `lesser_of_list`.
pub fn value_of_list<R: Threads + Sync, G: Gate>(
    crew: &Crew<R, G>,
    list: EdgeList,
) -> Result<u64, NoMemory>
    requires { 2 ≤ list.vertices }
    ensures { IfOk result (λ weight. weight ≡ value list) }
{
    if list.len() <= FEW_EDGES {
        return value_of_few(crew, list);
    }
    // known by this call: it is an edge list, so no cut weighs more than 2^61
    let _n = list.n();
    let weight = lesser_of_list(&crew.threads, list, MOST_WEIGHT)?;
    Ok(weight)
}

/// The same, if the least degree and the range of the weights are known, as a reader shows them:
/// then no pass over the edges has to find these. No answer rests on the range.
pub fn value_of_measured<R: Threads + Sync, G: Gate>(
    crew: &Crew<R, G>,
    list: EdgeList,
    range: WeightRange,
    least: u64,
) -> Result<u64, NoMemory>
    requires enough { 2 ≤ list.vertices }
    requires least { IsLeastDegree list least }
    ensures { IfOk result (λ weight. weight ≡ value list) }
{
    if list.len() <= FEW_EDGES {
        return value_of_few(crew, list);
    }
    if degree_is_value(&list, least) {
        return Ok(least);
    }
    let Contracted {
        bound,
        list: smaller,
    } = contract_measured(crew.threads.alloc, &list, range, least)?;
    lesser_by_rows(&crew.threads, smaller.unwrap_or(list), bound)
}

/// The value of a graph, and classes that no minimum cut parts,
/// if the forests for the value came upon such.
#[derive(Drop)]
pub struct ValueWithTies {
    pub value: u64,
    pub ties: Option<Ties>,
}

/// The value of a graph by what contraction leaves of its list of edges,
/// or none where that leaves the list as it is.
fn value_of_contracted<T: Team>(team: &T, left: Contracted) -> Result<Option<u64>, NoMemory>
    requires ready { T.ready team.now }
    ensures { (g : EdgeGraph) → Tells g left → IfOk result (λ found. IfSome found (λ weight. weight ≡ value g)) }
{
    let Contracted { bound, list: found } = left;
    let Some(small) = found else {
        // no cut weighs less than 0, as a vertex without edges does
        return Ok(if bound == 0 { Some(0) } else { None });
    };
    let weight = lesser_by_rows(team, small, bound)?;
    Ok(Some(weight))
}

/// The value of a graph of two or more vertices by its list of edges and its least degree, if
/// forests make the list shorter. None if they do not; the value is that of the graph with rows
/// then. The cost is that of `lesser_of_list` without rows.
pub fn value_by_contraction<T: Team>(
    team: &T,
    list: &EdgeList,
    least: u64,
) -> Result<Option<u64>, NoMemory>
    requires ready { T.ready team.now }
    requires enough { 2 ≤ list.now.vertices }
    requires least { IsLeastDegree list.now least }
    ensures { IfOk result (λ found. IfSome found (λ weight. weight ≡ value list.now)) }
{
    let contracted = contract_from_degree(team.alloc(), list, least)?;
    value_of_contracted(team, contracted)
}

/// The value of a graph of two or more vertices by its list of edges, if that can be told without
/// rows for the whole graph: where the graph is dense, or a vertex has no edge, or forests make
/// the list shorter. With it come classes that no minimum cut parts, where these forests come upon
/// such: the pass over the list that these want besides is saved. None where nothing comes of
/// that; the value is that of the graph with rows then. Whether there are such classes is free.
///
/// It takes memory O(n + m), for most graphs a few bytes for each vertex beside the list, and is
/// refused only where that is wanting.
pub fn value_with_ties<T: Team>(
    team: &T,
    list: &EdgeList,
) -> Result<Option<ValueWithTies>, NoMemory>
    requires ready { T.ready team.now }
    requires enough { 2 ≤ list.now.vertices }
    ensures value { IfOk result (λ found. IfSome found (λ v. v.value ≡ value list.now)) }
    ensures ties { IfOk result (λ found. IfSome found (λ v. IfSome v.ties (AreTies list.now))) }
{
    if let Some(value) = value_of_dense(team.alloc(), list)? {
        return Ok(Some(ValueWithTies { value, ties: None }));
    }
    let WithTies { contracted, ties } = contract_with_ties(team.alloc(), list)?;
    let Some(value) = value_of_contracted(team, contracted)? else {
        return Ok(None);
    };
    Ok(Some(ValueWithTies { value, ties }))
}
