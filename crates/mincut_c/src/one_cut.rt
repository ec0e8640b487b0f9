//! The value with one minimum cut.

ghost use Rattle.std.specs.Prelude.{◌≡◌, ◌≢◌, ◌<◌, ◌≤◌, ◌^◌, IfErr, IfNone, IfOk, IfSome, MatchOption, ◌⊎◌, length, min};
ghost use Rattle.cut_definitions.specs.Cuts.{value};
ghost use Rattle.edge_arrays.specs.Given.{given};
ghost use Rattle.least_cut.specs.Lightest.{IsLightestCut};
ghost use Rattle.mincut_c.specs.OneCut.{TellsCut, TellsCutFault};
ghost use Rattle.mincut_c.specs.Rows.{TellsSide};
ghost use Rattle.mincut_c.specs.Statuses.{HasCuts, IsReason, number_of};

use crate::balances::put_side;
use crate::status::{Fault, NO_ROOM, OK, status_of};
use crate::values::suits_forests;
use cactus_solver::minimum_cut;
use cut_definitions::{EdgeList, MOST_WEIGHT, NoMemory};
use edge_arrays::{laws, list_of_arrays};
use least_cut::{LightestCut, lightest_cut_below};
use std::alloc::Global;
use weighted_graph::Graph;
use worker_team::Alone;

/// A minimum cut of a list of edges of two or more vertices, if it weighs less than a bound.
fn cut_of_list(alloc: Global, list: EdgeList, bound: u64) -> Result<Option<LightestCut>, NoMemory>
    requires { 2 ≤ list.vertices }
    ensures some { IfOk result (λ found. IfSome found (IsLightestCut list)) }
    ensures below { IfOk result (λ found. IfSome found (λ c. c.weight < bound)) }
    ensures none { IfOk result (λ found. IfNone found (bound ≤ value list)) }
{
    if suits_forests(&list) {
        let cut = minimum_cut(&Alone { alloc }, list)?;
        return Ok(if cut.weight < bound { Some(cut) } else { None });
    }
    let graph = Graph::from_list(alloc, list)?;
    lightest_cut_below(alloc, &graph, 0, bound)
}

/// A minimum cut of the graph of the arrays, if it weighs less than a bound.
fn cut_of_arrays(
    alloc: Global,
    n: u32,
    us: &[u32],
    vs: &[u32],
    ws: &[u64],
    bound: u64,
) -> Result<Option<LightestCut>, Fault>
    ensures given { IfOk result (λ found. HasCuts n us.now vs.now ws.now) }
    ensures some { IfOk result (λ found. IfSome found (IsLightestCut (given n us.now vs.now ws.now))) }
    ensures below { IfOk result (λ found. IfSome found (λ c. c.weight < bound)) }
    ensures none { IfOk result (λ found. IfNone found (bound ≤ value (given n us.now vs.now ws.now))) }
    ensures fits { IfOk result (λ found. value (given n us.now vs.now ws.now) ≤ 2 ^ 61) }
    ensures reason { IfErr result (λ fault. IsReason fault n us.now vs.now ws.now) }
    ensures known { IfErr result (λ fault. number_of fault ≤ 7) }
{
    laws::same_value();
    laws::same_mincuts();
    let list = list_of_arrays(alloc, n, us, vs, ws)?;
    if list.n() < 2 {
        return Err(Fault::NoCut);
    }
    let found = cut_of_list(alloc, list, bound)?;
    Ok(found)
}

/// Puts a cut into the outputs, if there is one, and else the bound alone.
fn put_cut(found: Option<LightestCut>, bound: u64, least: &mut u64, inside: &mut [u8]) -> u32
    ensures least { result ≡ 0 → MatchOption found (least.new ≡ bound) (λ c. least.new ≡ c.weight) }
    ensures told { result ≡ 0 → MatchOption found (inside.new ≡ inside.old) (λ c. TellsSide c.side.vertices c.side.members inside.new) }
    ensures short { result ≡ 9 → MatchOption found ⊥ (λ c. length inside.old < c.side.vertices) }
    ensures left { result ≢ 0 → (least.new ≡ least.old) × (inside.new ≡ inside.old) }
    ensures known { (result ≡ 0) ⊎ (result ≡ 9) }
{
    let Some(cut) = found else {
        *least = bound;
        return OK;
    };
    if !put_side(&cut.side, inside) {
        return NO_ROOM;
    }
    *least = cut.weight;
    OK
}

/// The lesser of a bound and the least weight of a cut of the graph with `n` vertices, counted
/// from 0, whose edges the arrays give, and if the weight is below the bound, one minimum cut.
/// Which of several such cuts is free. `inside` gets a byte for each vertex then: 0 for vertex 0
/// and all on its side, 1 for the others; and else it is left as it was.
///
/// The status is 0 where there is an answer. It is 9 where there is a cut to tell and `inside` has
/// fewer than n entries, and else as that of `mincut_raw_value`. With another status than 0 the
/// outputs are left as they were. Time and memory are those of the value, and on most graphs one
/// pass over the edges more.
#[unsafe(no_mangle)]
pub extern "C" fn mincut_raw_cut_below(
    alloc: Global,
    n: u32,
    us: &[u32],
    vs: &[u32],
    ws: &[u64],
    bound: u64,
    least: &mut u64,
    inside: &mut [u8],
) -> u32
    ensures given { result ≡ 0 → HasCuts n us.now vs.now ws.now }
    ensures ok { result ≡ 0 → least.new ≡ min bound (value (given n us.now vs.now ws.now)) }
    ensures cut { result ≡ 0 → value (given n us.now vs.now ws.now) < bound → TellsCut (given n us.now vs.now ws.now) inside.new }
    ensures none { result ≡ 0 → bound ≤ value (given n us.now vs.now ws.now) → inside.new ≡ inside.old }
    ensures fits { result ≡ 0 → value (given n us.now vs.now ws.now) ≤ 2 ^ 61 }
    ensures short { result ≡ 9 → (length inside.old < n) × (value (given n us.now vs.now ws.now) < bound) }
    ensures left { result ≢ 0 → (least.new ≡ least.old) × (inside.new ≡ inside.old) }
    ensures fault { result ≢ 0 → TellsCutFault result n us.now vs.now ws.now }
    ensures known { result ≤ 9 }
{
    match cut_of_arrays(alloc, n, us, vs, ws, bound) {
        Ok(found) => put_cut(found, bound, least, inside),
        Err(fault) => status_of(fault),
    }
}

/// The least weight of a cut of the graph with `n` vertices, counted from 0, whose edges the
/// arrays give, and one minimum cut, as `mincut_raw_cut_below` tells them without a bound.
#[unsafe(no_mangle)]
pub extern "C" fn mincut_raw_cut(
    alloc: Global,
    n: u32,
    us: &[u32],
    vs: &[u32],
    ws: &[u64],
    least: &mut u64,
    inside: &mut [u8],
) -> u32
    ensures given { result ≡ 0 → HasCuts n us.now vs.now ws.now }
    ensures ok { result ≡ 0 → least.new ≡ value (given n us.now vs.now ws.now) }
    ensures cut { result ≡ 0 → TellsCut (given n us.now vs.now ws.now) inside.new }
    ensures short { result ≡ 9 → length inside.old < n }
    ensures left { result ≢ 0 → (least.new ≡ least.old) × (inside.new ≡ inside.old) }
    ensures fault { result ≢ 0 → TellsCutFault result n us.now vs.now ws.now }
    ensures known { result ≤ 9 }
{
    mincut_raw_cut_below(alloc, n, us, vs, ws, MOST_WEIGHT + 1, least, inside)
}
