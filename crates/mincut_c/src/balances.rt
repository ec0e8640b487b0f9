//! A most balanced minimum cut.

ghost use Rattle.std.specs.Prelude.{◌≡◌, ◌≢◌, ◌<◌, ◌≤◌, IfOk, IfErr, IsTrue, IsFalse, length};
ghost use Rattle.cut_definitions.specs.Balance.{IsBest, balance};
ghost use Rattle.cut_definitions.specs.Cuts.{mincuts, value};
ghost use Rattle.edge_arrays.specs.Given.{given};
ghost use Rattle.mincut_c.specs.Balanced.{HoldsBalanced};
ghost use Rattle.mincut_c.specs.Rows.{TellsSide};
ghost use Rattle.mincut_c.specs.Statuses.{AreMasses, HasCuts, IsWeighedReason, TellsWeighedFault, masses_for, number_of};

use crate::rows::put_row;
use crate::status::{Fault, NO_ROOM, OK, status_of};
use crate::weighed::weighed_of_arrays;
use balanced_cut::{balance_of, best};
use std::alloc::Global;
use vertex_set::Side;

/// The value, and the balance of a most balanced minimum cut.
#[repr(C)]
#[derive(Clone, Copy, Drop)]
pub struct Balanced {
    pub value: u64,
    pub balance: u64,
}

/// Tells a side by a byte for each vertex, where there is room for n of them,
/// and else writes nothing.
pub(crate) fn put_side(side: &Side, inside: &mut [u8]) -> bool
    ensures told { IsTrue result → TellsSide side.now.vertices side.now.members inside.new }
    ensures short { IsFalse result → length inside.old < side.now.vertices }
    ensures left { IsFalse result → inside.new ≡ inside.old }
{
    if inside.len() < side.n() as usize {
        return false;
    }
    put_row(side, 0, inside);
    true
}

/// A most balanced minimum cut of the graph of the arrays, by its side.
fn balanced_of_arrays(
    alloc: Global,
    n: u32,
    us: &[u32],
    vs: &[u32],
    ws: &[u64],
    masses: &[u64],
) -> Result<(Balanced, Side), Fault>
    ensures given { IfOk result (λ r. HasCuts n us.now vs.now ws.now) }
    ensures positive { IfOk result (λ r. 1 ≤ value (given n us.now vs.now ws.now)) }
    ensures fine { IfOk result (λ r. AreMasses n masses.now) }
    ensures over { IfOk result (λ r. r.1.vertices ≡ n) }
    ensures best { IfOk result (λ r. IsBest (masses_for n masses.now) (mincuts (given n us.now vs.now ws.now)) r.1.members) }
    ensures value { IfOk result (λ r. r.0.value ≡ value (given n us.now vs.now ws.now)) }
    ensures balance { IfOk result (λ r. r.0.balance ≡ balance (masses_for n masses.now) r.1.members) }
    ensures reason { IfErr result (λ fault. IsWeighedReason fault n us.now vs.now ws.now masses.now) }
    ensures known { IfErr result (λ fault. number_of fault ≢ 9) }
    ensures small { IfErr result (λ fault. number_of fault ≤ 10) }
{
    let weighed = weighed_of_arrays(alloc, n, us, vs, ws, masses)?;
    let (solved, weights) = weighed;
    let cactus = solved.cactus;
    let side = best(alloc, &cactus, &weights)?;
    let balance = balance_of(&side, &weights) as u64;
    Ok((
        Balanced {
            value: solved.value,
            balance,
        },
        side,
    ))
}

/// A minimum cut of the connected graph with `n` vertices, counted from 0, whose edges the arrays
/// give, than which none has a greater balance: the lesser of the masses of its two sides.
/// `masses` has n entries, or none, for a mass of 1 each. Which of several such cuts is free.
/// `inside` gets a byte for each vertex: 0 for vertex 0 and all on its side, 1 for the others.
///
/// The status is 0 where there is an answer. The masses are looked at first: it is 3 where they
/// are not as many as the vertices, and 10 where they add up to 2^64 or more. It is 9 where
/// `inside` has fewer than n entries, and else as that of `mincut_raw_count`. With another status
/// than 0 the outputs are left as they were. Time and memory are those of the cactus.
#[unsafe(no_mangle)]
pub extern "C" fn mincut_raw_balanced(
    alloc: Global,
    n: u32,
    us: &[u32],
    vs: &[u32],
    ws: &[u64],
    masses: &[u64],
    balanced: &mut Balanced,
    inside: &mut [u8],
) -> u32
    ensures given { result ≡ 0 → HasCuts n us.now vs.now ws.now }
    ensures ok { result ≡ 0 → HoldsBalanced (given n us.now vs.now ws.now) (masses_for n masses.now) balanced.new inside.new }
    ensures short { result ≡ 9 → length inside.old < n }
    ensures left { result ≢ 0 → (balanced.new ≡ balanced.old) × (inside.new ≡ inside.old) }
    ensures fault { result ≢ 0 → TellsWeighedFault result n us.now vs.now ws.now masses.now }
    ensures known { result ≤ 10 }
{
    match balanced_of_arrays(alloc, n, us, vs, ws, masses) {
        Ok(found) => {
            let (told, side) = found;
            if put_side(&side, inside) {
                *balanced = told;
                OK
            } else {
                NO_ROOM
            }
        }
        Err(fault) => status_of(fault),
    }
}
