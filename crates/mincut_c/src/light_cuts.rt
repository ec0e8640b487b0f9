//! Several cuts that weigh less than a bound.

ghost use Rattle.std.specs.Prelude.{ℕ, ◌≡◌, ◌≢◌, ◌*◌, ◌<◌, ◌≤◌, IfErr, IfOk, length, slice_index};
ghost use Rattle.cut_definitions.specs.Cuts.{value};
ghost use Rattle.edge_arrays.specs.Given.{given};
ghost use Rattle.least_cut.specs.CutsBelow.{AreCutsBelow, sides_in};
ghost use Rattle.mincut_c.specs.LightCuts.{AreOver, BeginsWithWeights, ListsCutsBelow};
ghost use Rattle.mincut_c.specs.Rows.{IsLeftFrom, TellsRows};
ghost use Rattle.mincut_c.specs.Statuses.{HasCuts, IsReason, TellsFault, number_of};

use crate::rows::put_row;
use crate::status::{Fault, OK, status_of};
use crate::values::suits_forests;
use cactus_solver::cuts_below;
use cut_definitions::{EdgeList, NoMemory};
use edge_arrays::{laws, list_of_arrays};
use least_cut::{LightestCut, cuts_below as cuts_by_sweep};
use std::alloc::Global;
use weighted_graph::Graph;

/// Cuts of a list of edges of two or more vertices that weigh less than a bound.
fn cuts_of_list(
    alloc: Global,
    list: EdgeList,
    bound: u64,
    room: usize,
) -> Result<Vec<LightestCut>, NoMemory>
    requires { 2 ≤ list.vertices }
    ensures { IfOk result (λ cuts. AreCutsBelow list bound room cuts.items) }
{
    if suits_forests(&list) {
        return cuts_below(alloc, list, bound, room);
    }
    let graph = Graph::from_list(alloc, list)?;
    cuts_by_sweep(alloc, &graph, bound, room)
}

/// Cuts of the graph of the arrays that weigh less than a bound, and no more than so many; both
/// are given as a pair.
fn cuts_of_arrays(
    alloc: Global,
    n: u32,
    us: &[u32],
    vs: &[u32],
    ws: &[u64],
    wanted: (u64, usize),
) -> Result<Vec<LightestCut>, Fault>
    ensures given { IfOk result (λ cuts. HasCuts n us.now vs.now ws.now) }
    ensures cuts { IfOk result (λ cuts. AreCutsBelow (given n us.now vs.now ws.now) wanted.0 wanted.1 cuts.items) }
    ensures reason { IfErr result (λ fault. IsReason fault n us.now vs.now ws.now) }
    ensures known { IfErr result (λ fault. number_of fault ≤ 7) }
{
    laws::same_value();
    laws::same_mincuts();
    let list = list_of_arrays(alloc, n, us, vs, ws)?;
    if list.n() < 2 {
        return Err(Fault::NoCut);
    }
    let cuts = cuts_of_list(alloc, list, wanted.0, wanted.1)?;
    Ok(cuts)
}

/// How many cuts of n vertices have room in so many weights and bytes.
fn room_in(n: u32, weights: usize, bytes: usize) -> usize
    ensures weights { result ≤ weights }
    ensures bytes { result * n ≤ bytes }
    ensures some { 1 ≤ n → 1 ≤ weights → n ≤ bytes → 1 ≤ result }
{
    if n == 0 {
        return 0;
    }
    weights.min(bytes / n as usize)
}

/// Tells what cuts weigh, in their order.
fn put_weights(cuts: &[LightestCut], weights: &mut [u64])
    requires { length cuts.now ≤ length weights.old }
    ensures told { BeginsWithWeights cuts.now weights.new }
    ensures behind { IsLeftFrom (length cuts.now) weights.old weights.new }
{
    'cuts: for k in 0..cuts.len() {
        weights[k] = cuts[k].weight;
    }
}

/// Tells the sides of cuts over n by a row of n bytes for each, in their order.
fn put_sides(cuts: &[LightestCut], n: u32, inside: &mut [u8])
    requires over_n { AreOver n cuts.now }
    requires room { length cuts.now * n ≤ length inside.old }
    ensures told { TellsRows n (sides_in cuts.now) inside.new }
    ensures behind { IsLeftFrom (length cuts.now * n) inside.old inside.new }
{
    let mut start = 0usize;
    'cuts: for k in 0..cuts.len() {
        put_row(&cuts[k].side, start, inside);
        start += n as usize;
    }
}

/// Cuts of the graph with `n` vertices, counted from 0, whose edges the arrays give, that weigh
/// less than a bound: as many as are found and have room, each once, and first a minimum cut.
/// Which others there are is free. Each has an entry in `weights` and a row of n bytes in
/// `inside`: 0 for vertex 0 and all on its side, 1 for the others. `count` is their number, which
/// is 0 only if no cut weighs less than the bound or there is no room for one. What stands behind
/// the weights and rows is left.
///
/// The statuses are those of `mincut_raw_value`. With another status than 0 the outputs are left
/// as they were. Time and memory are those of the value, with each flow up to the bound while
/// there is room, and n/8 bytes for each cut.
#[unsafe(no_mangle)]
pub extern "C" fn mincut_raw_cuts_below(
    alloc: Global,
    n: u32,
    us: &[u32],
    vs: &[u32],
    ws: &[u64],
    bound: u64,
    count: &mut u64,
    weights: &mut [u64],
    inside: &mut [u8],
) -> u32
    ensures given { result ≡ 0 → HasCuts n us.now vs.now ws.now }
    ensures cuts { result ≡ 0 → ListsCutsBelow (given n us.now vs.now ws.now) bound count.new weights.new inside.new }
    ensures room { result ≡ 0 → (count.new ≤ length weights.old) × (count.new * n ≤ length inside.old) }
    ensures least { result ≡ 0 → 1 ≤ length weights.old → n ≤ length inside.old → value (given n us.now vs.now ws.now) < bound → (1 ≤ count.new) × (slice_index weights.new 0 ≡ value (given n us.now vs.now ws.now)) }
    ensures none { result ≡ 0 → bound ≤ value (given n us.now vs.now ws.now) → count.new ≡ 0 }
    ensures behind { result ≡ 0 → IsLeftFrom count.new weights.old weights.new × IsLeftFrom (count.new * n) inside.old inside.new }
    ensures left { result ≢ 0 → (count.new ≡ count.old) × (weights.new ≡ weights.old) × (inside.new ≡ inside.old) }
    ensures fault { result ≢ 0 → TellsFault result n us.now vs.now ws.now }
    ensures known { result ≤ 7 }
{
    let room = room_in(n, weights.len(), inside.len());
    match cuts_of_arrays(alloc, n, us, vs, ws, (bound, room)) {
        Ok(cuts) => {
            put_weights(&cuts, weights);
            put_sides(&cuts, n, inside);
            *count = cuts.len() as u64;
            OK
        }
        Err(fault) => status_of(fault),
    }
}
