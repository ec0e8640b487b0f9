//! From arrays to the value and the tree of all minimum cuts, to a cactus and to a flat one.

ghost use Rattle.std.specs.Prelude.{◌≡◌, ◌≤◌, IfOk, IfErr};
ghost use Rattle.cut_definitions.specs.Cuts.{value};
ghost use Rattle.edge_arrays.specs.Given.{WeighsAs, given};
ghost use Rattle.rooted_cactus.specs.Solving.{IsSolved};
ghost use Rattle.cactus_solver.specs.SolvedLists.{IsTreeSolved};
ghost use Rattle.flat_cactus.specs.Shown.{ShowsCuts};
ghost use Rattle.mincut_c.specs.Shown.{HasFewParts, IsCanonicalFlat};
ghost use Rattle.mincut_c.specs.Statuses.{HasCuts, IsReason, IsUnsolved, number_of};

use crate::canonical::flat_of_tree;
use crate::status::Fault;
use cactus_solver::{Cuts, SolvedList, SolvedTree, tree_of_cuts, tree_of_long_list};
use cut_definitions::EdgeList;
use edge_arrays::laws::{same_mincuts, same_value};
use edge_arrays::list_of_arrays;
use flat_cactus::FlatCactus;
use flat_cactus::laws::{flat_form, flat_order, flat_sides};
use least_cut::least_weight;
use min_value::FEW_EDGES;
use region_sweep::cactus_by_tree;
use rooted_cactus::Solved;
use rooted_cactus::laws::few_nodes;
use std::alloc::Global;
use weighted_graph::Graph;
use worker_team::Alone;

/// The value of a connected graph, and the tree of its minimum cuts,
/// by sweeps over the graph itself.
fn tree_by_sweeps(alloc: Global, graph: &Graph) -> Result<SolvedTree, Fault>
    requires { 2 ≤ graph.now.vertices }
    ensures solved { IfOk result (IsTreeSolved graph.now) }
    ensures positive { IfOk result (λ s. 1 ≤ value graph.now) }
    ensures unsolved { IfErr result (λ fault. IsUnsolved fault graph.now) }
{
    // known by this call: the graph is an edge list
    let _n = graph.n();
    let least = least_weight(alloc, graph)?;
    if least == 0 {
        return Err(Fault::Disconnected);
    }
    let tree = tree_of_cuts(&Alone { alloc }, graph, least)?;
    Ok(SolvedTree { value: least, tree })
}

/// What `tree_of_list` answers, of a small graph.
fn tree_of_few(alloc: Global, list: EdgeList) -> Result<(EdgeList, SolvedTree), Fault>
    requires { 2 ≤ list.vertices }
    ensures list { IfOk result (λ r. r.0 ≡ list) }
    ensures solved { IfOk result (λ r. IsTreeSolved list r.1) }
    ensures positive { IfOk result (λ r. 1 ≤ value list) }
    ensures unsolved { IfErr result (λ fault. IsUnsolved fault list) }
{
    let graph = Graph::from_list(alloc, list)?;
    let found = tree_by_sweeps(alloc, &graph)?;
    Ok((graph.into_list(), found))
}

/// The list of a connected graph, given back, with the value and the tree of the minimum cuts.
/// A small graph is swept over as it is; a large one is contracted before, as in the program.
fn tree_of_list(alloc: Global, list: EdgeList) -> Result<(EdgeList, SolvedTree), Fault>
    requires { 2 ≤ list.vertices }
    ensures list { IfOk result (λ r. r.0 ≡ list) }
    ensures solved { IfOk result (λ r. IsTreeSolved list r.1) }
    ensures positive { IfOk result (λ r. 1 ≤ value list) }
    ensures unsolved { IfErr result (λ fault. IsUnsolved fault list) }
{
    if list.len() <= FEW_EDGES {
        return tree_of_few(alloc, list);
    }
    // known by this call: it is an edge list
    let _n = list.n();
    let SolvedList { list, cuts } = tree_of_long_list(&Alone { alloc }, list)?;
    match cuts {
        Cuts::Joined(found) => Ok((list, found)),
        Cuts::Apart(_) => Err(Fault::Disconnected),
    }
}

/// The graph of the arrays, where it has a cut.
fn list_with_cuts(
    alloc: Global,
    n: u32,
    us: &[u32],
    vs: &[u32],
    ws: &[u64],
) -> Result<EdgeList, Fault>
    ensures graph { IfOk result (λ list. WeighsAs list (given n us.now vs.now ws.now)) }
    ensures given { IfOk result (λ list. HasCuts n us.now vs.now ws.now) }
    ensures reason { IfErr result (λ fault. IsReason fault n us.now vs.now ws.now) }
    ensures known { IfErr result (λ fault. number_of fault ≤ 7) }
{
    let list = list_of_arrays(alloc, n, us, vs, ws)?;
    if list.n() < 2 {
        return Err(Fault::NoCut);
    }
    Ok(list)
}

/// The graph of the arrays as a list, with its value and the tree of its minimum cuts.
pub(crate) fn tree_of_arrays(
    alloc: Global,
    n: u32,
    us: &[u32],
    vs: &[u32],
    ws: &[u64],
) -> Result<(EdgeList, SolvedTree), Fault>
    ensures graph { IfOk result (λ r. WeighsAs r.0 (given n us.now vs.now ws.now)) }
    ensures solved { IfOk result (λ r. IsTreeSolved r.0 r.1) }
    ensures given { IfOk result (λ r. HasCuts n us.now vs.now ws.now) }
    ensures positive { IfOk result (λ r. 1 ≤ value (given n us.now vs.now ws.now)) }
    ensures reason { IfErr result (λ fault. IsReason fault n us.now vs.now ws.now) }
    ensures known { IfErr result (λ fault. number_of fault ≤ 8) }
{
    same_value();
    let list = list_with_cuts(alloc, n, us, vs, ws)?;
    let found = tree_of_list(alloc, list)?;
    Ok(found)
}

/// The value of the graph of the arrays, and a cactus of its minimum cuts.
pub(crate) fn solved_of_arrays(
    alloc: Global,
    n: u32,
    us: &[u32],
    vs: &[u32],
    ws: &[u64],
) -> Result<Solved, Fault>
    ensures solved { IfOk result (λ s. IsSolved (given n us.now vs.now ws.now) s) }
    ensures given { IfOk result (λ s. HasCuts n us.now vs.now ws.now) }
    ensures positive { IfOk result (λ s. 1 ≤ value (given n us.now vs.now ws.now)) }
    ensures reason { IfErr result (λ fault. IsReason fault n us.now vs.now ws.now) }
    ensures known { IfErr result (λ fault. number_of fault ≤ 8) }
{
    same_value();
    same_mincuts();
    let (list, found) = tree_of_arrays(alloc, n, us, vs, ws)?;
    let SolvedTree { value, tree } = found;
    let solved = cactus_by_tree(alloc, &list, value, tree)?;
    Ok(solved)
}

/// The value of the graph of the arrays, and the flat canonical cactus of its minimum cuts.
pub(crate) fn flat_of_arrays(
    alloc: Global,
    n: u32,
    us: &[u32],
    vs: &[u32],
    ws: &[u64],
) -> Result<(u64, FlatCactus), Fault>
    ensures value { IfOk result (λ r. r.0 ≡ value (given n us.now vs.now ws.now)) }
    ensures cuts { IfOk result (λ r. ShowsCuts (given n us.now vs.now ws.now) r.1) }
    ensures canonical { IfOk result (λ r. IsCanonicalFlat r.1) }
    ensures few { IfOk result (λ r. HasFewParts n r.1) }
    ensures given { IfOk result (λ r. HasCuts n us.now vs.now ws.now) }
    ensures positive { IfOk result (λ r. 1 ≤ value (given n us.now vs.now ws.now)) }
    ensures reason { IfErr result (λ fault. IsReason fault n us.now vs.now ws.now) }
    ensures known { IfErr result (λ fault. number_of fault ≤ 8) }
{
    same_value();
    same_mincuts();
    flat_form();
    flat_order();
    flat_sides();
    few_nodes();
    let (list, found) = tree_of_arrays(alloc, n, us, vs, ws)?;
    let SolvedTree { value, tree } = found;
    let flat = flat_of_tree(alloc, &list, tree)?;
    Ok((value, flat))
}
