//! The value.

ghost use Rattle.std.specs.Prelude.{◌≡◌, ◌≢◌, ◌≤◌, ◌^◌, IfOk, IfErr, min};
ghost use Rattle.cut_definitions.specs.Cuts.{value};
ghost use Rattle.edge_arrays.specs.Given.{given};
ghost use Rattle.mincut_c.specs.Statuses.{HasCuts, IsReason, TellsFault, number_of};

use crate::status::{Fault, OK, status_of};
use cut_definitions::{EdgeList, MOST_WEIGHT, NoMemory};
use edge_arrays::{laws, list_of_arrays};
use least_cut::least_weight_below;
use min_value::{FEW_EDGES, lesser_of_list};
use std::alloc::Global;
use weighted_graph::Graph;
use worker_team::Alone;

/// Whether forests are tried before a sweep: where there are few edges, in all or for each vertex,
/// the sweep costs less. Either answer is right.
pub(crate) fn suits_forests(list: &EdgeList) -> bool {
    let n = list.n() as usize;
    list.len() > FEW_EDGES && list.len() >= n + n / 2
}

/// The lesser of a bound and the value of a list of edges of two or more vertices.
fn least_below(alloc: Global, list: EdgeList, bound: u64) -> Result<u64, NoMemory>
    requires { 2 ≤ list.vertices }
    ensures { IfOk result (λ weight. weight ≡ min bound (value list)) }
{
    if suits_forests(&list) {
        return lesser_of_list(&Alone { alloc }, list, bound);
    }
    let graph = Graph::from_list(alloc, list)?;
    least_weight_below(alloc, &graph, bound)
}

/// The lesser of a bound and the value of the graph of the arrays.
pub(crate) fn lesser_of_arrays(
    alloc: Global,
    n: u32,
    us: &[u32],
    vs: &[u32],
    ws: &[u64],
    bound: u64,
) -> Result<u64, Fault>
    ensures given { IfOk result (λ weight. HasCuts n us.now vs.now ws.now) }
    ensures value { IfOk result (λ weight. weight ≡ min bound (value (given n us.now vs.now ws.now))) }
    ensures fits { IfOk result (λ weight. value (given n us.now vs.now ws.now) ≤ 2 ^ 61) }
    ensures reason { IfErr result (λ fault. IsReason fault n us.now vs.now ws.now) }
    ensures known { IfErr result (λ fault. number_of fault ≤ 7) }
{
    laws::same_value();
    let list = list_of_arrays(alloc, n, us, vs, ws)?;
    if list.n() < 2 {
        return Err(Fault::NoCut);
    }
    let weight = least_below(alloc, list, bound)?;
    Ok(weight)
}

/// The least weight of a cut of the graph with `n` vertices, counted from 0, whose edges the
/// arrays give: 0 where it is not connected.
///
/// The status is 0 where there is an answer. It is 1 where n is 0 or 1, 2 where memory is wanting,
/// 3 where the arrays differ in length, 4 and 5 where there are too many vertices or edges, 6
/// where an end of an edge is n or more, 7 where the edges but for loops weigh more than 2^61; the
/// value is then left as it was. Time O(m log m) and that of one sweep of flows.
#[unsafe(no_mangle)]
pub extern "C" fn mincut_raw_value(
    alloc: Global,
    n: u32,
    us: &[u32],
    vs: &[u32],
    ws: &[u64],
    least: &mut u64,
) -> u32
    ensures given { result ≡ 0 → HasCuts n us.now vs.now ws.now }
    ensures ok { result ≡ 0 → least.new ≡ value (given n us.now vs.now ws.now) }
    ensures left { result ≢ 0 → least.new ≡ least.old }
    ensures fault { result ≢ 0 → TellsFault result n us.now vs.now ws.now }
    ensures known { result ≤ 7 }
{
    match lesser_of_arrays(alloc, n, us, vs, ws, MOST_WEIGHT) {
        Ok(weight) => {
            *least = weight;
            OK
        }
        Err(fault) => status_of(fault),
    }
}
