//! The fewest unit edges that raise the value, with the sets that show that fewer do not.

ghost use Rattle.std.specs.Prelude.{ℕ, ◌≡◌, ◌≢◌, ◌<◌, ◌≤◌, ◌+◌, IfOk, IfErr, IsTrue, IsFalse, length, slice_index, if◌then◌else◌};
ghost use Rattle.std.specs.List.{All, AllPairs};
ghost use Rattle.cut_definitions.specs.Cuts.{has, value};
ghost use Rattle.edge_arrays.specs.Given.{given};
ghost use Rattle.edge_augment.specs.Augmentations.{Augmentation};
ghost use Rattle.edge_augment.specs.Laws.{AreDisjoint};
ghost use Rattle.edge_augment.specs.Raises.{IsLeastRaise};
ghost use Rattle.cut_definitions.specs.Graph.{IsVertex};
ghost use Rattle.mincut_c.specs.Raised.{CountsRaise, HasEnds, HoldsRaise, IsInOrder, LacksEnds, TellsEnds, TellsSets};
ghost use Rattle.mincut_c.specs.Statuses.{HasCuts, IsReason, TellsFault, number_of};

use crate::solving::solved_of_arrays;
use crate::status::{Fault, NO_ROOM, OK, status_of};
use edge_augment::laws::augmentation;
use edge_augment::{Plan, augment};
use std::alloc::Global;

/// The value, how many edges raise it, and how many sets show that fewer do not.
#[repr(C)]
#[derive(Clone, Copy)]
pub struct Raise {
    pub value: u64,
    pub edges: usize,
    pub sets: usize,
}

/// The value of the graph of the arrays, and the fewest unit edges that raise it.
fn plan_of_arrays(
    alloc: Global,
    n: u32,
    us: &[u32],
    vs: &[u32],
    ws: &[u64],
) -> Result<(u64, Plan), Fault>
    ensures value { IfOk result (λ r. r.0 ≡ value (given n us.now vs.now ws.now)) }
    ensures least { IfOk result (λ r. IsLeastRaise (given n us.now vs.now ws.now) r.1) }
    ensures in_order { IfOk result (λ r. IsInOrder r.1) }
    ensures given { IfOk result (λ r. HasCuts n us.now vs.now ws.now) }
    ensures positive { IfOk result (λ r. 1 ≤ value (given n us.now vs.now ws.now)) }
    ensures reason { IfErr result (λ fault. IsReason fault n us.now vs.now ws.now) }
    ensures known { IfErr result (λ fault. number_of fault ≤ 8) }
{
    augmentation();
    let solved = solved_of_arrays(alloc, n, us, vs, ws)?;
    let plan = augment(alloc, &solved.cactus)?;
    Ok((solved.value, plan))
}

/// Copies the ends of edges to the front of two arrays, counted from 0 there.
fn put_ends(edges: &[(u32, u32)], from: &mut [u32], to: &mut [u32])
    requires from { length edges.now ≤ length from.old }
    requires to { length edges.now ≤ length to.old }
    ensures { TellsEnds edges.now from.new to.new }
{
    'edges: for k in 0..edges.len() {
        let (u, v) = edges[k];
        from[k] = u.saturating_sub(1);
        to[k] = v.saturating_sub(1);
    }
}

/// Gives the vertices of a set, counted from 1, a number.
fn put_set(set: &[u32], number: u64, set_of: &mut [u64])
    requires { All (IsVertex (length set_of.old)) set.now }
    ensures { (v : ℕ) → v < length set_of.old → slice_index set_of.new v ≡ (if has set.now (v + 1) then number else slice_index set_of.old v) }
{
    'members: for k in 0..set.len() {
        set_of[set[k] as usize - 1] = number;
    }
}

/// Gives each vertex the number of its set, from 1, or 0 where it is in none.
fn put_sets(plan: &Plan, n: u32, set_of: &mut [u64])
    requires within { All (λ set. All (IsVertex n) set) plan.now.sets }
    requires disjoint { AllPairs AreDisjoint plan.now.sets }
    requires room { n ≤ length set_of.old }
    ensures { TellsSets n plan.now.sets set_of.new }
{
    'none: for v in 0..n {
        set_of[v as usize] = 0;
    }
    'sets: for k in 0..plan.sets() {
        put_set(plan.set(k), k as u64 + 1, set_of);
    }
}

/// Whether some array is too short for the edges, or for n vertices.
fn lacks_ends(n: u32, raise: &Raise, from: usize, to: usize, set_of: usize) -> bool
    ensures yes { IsTrue result → LacksEnds n raise.now from to set_of }
    ensures no { IsFalse result → HasEnds n raise.now from to set_of }
{
    from < raise.edges || to < raise.edges || set_of < n as usize
}

/// The fewest edges of weight 1 that raise the value of the connected graph with `n` vertices,
/// counted from 0, whose edges the arrays give: edge k joins `from[k]` and `to[k]`, the lesser
/// first, and the edges ascend. `set_of` gets a number for each vertex: that of its set, from 1,
/// or 0. No two of the sets share a vertex, and each is a side of a minimum cut, within which no
/// other such set lies; so whatever edges raise the value, some end in each of them, and there are
/// half as many edges as sets, rounded up.
///
/// The status is 0 where there is an answer. It is 9 where `from` or `to` has fewer entries than
/// there are edges, or `set_of` fewer than n: never where all have n entries; the numbers are
/// told all the same. Else it is as that of `mincut_raw_count`. With another status than 0 the
/// arrays are left as they were, and with another than 0 and 9 the numbers too. Time and memory
/// are those of the cactus.
#[unsafe(no_mangle)]
pub extern "C" fn mincut_raw_augment(
    alloc: Global,
    n: u32,
    us: &[u32],
    vs: &[u32],
    ws: &[u64],
    raise: &mut Raise,
    from: &mut [u32],
    to: &mut [u32],
    set_of: &mut [u64],
) -> u32
    ensures given { result ≡ 0 → HasCuts n us.now vs.now ws.now }
    ensures ok { result ≡ 0 → HoldsRaise (given n us.now vs.now ws.now) raise.new from.new to.new set_of.new }
    ensures needed { result ≡ 9 → (plan : Augmentation) × CountsRaise (given n us.now vs.now ws.now) plan raise.new }
    ensures short { result ≡ 9 → LacksEnds n raise.new (length from.old) (length to.old) (length set_of.old) }
    ensures room { n ≤ length from.old → n ≤ length to.old → n ≤ length set_of.old → result ≢ 9 }
    ensures raise_left { result ≢ 0 → result ≢ 9 → raise.new ≡ raise.old }
    ensures left { result ≢ 0 → (from.new ≡ from.old) × (to.new ≡ to.old) × (set_of.new ≡ set_of.old) }
    ensures fault { result ≢ 0 → TellsFault result n us.now vs.now ws.now }
    ensures known { result ≤ 9 }
{
    match plan_of_arrays(alloc, n, us, vs, ws) {
        Ok(found) => {
            let (value, plan) = found;
            *raise = Raise {
                value,
                edges: plan.edges().len(),
                sets: plan.sets(),
            };
            if lacks_ends(n, raise, from.len(), to.len(), set_of.len()) {
                return NO_ROOM;
            }
            put_ends(plan.edges(), from, to);
            put_sets(&plan, n, set_of);
            OK
        }
        Err(fault) => status_of(fault),
    }
}
