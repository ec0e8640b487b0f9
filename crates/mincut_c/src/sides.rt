//! Lists of minimum cuts: those of a least balance, and those that separate two vertices.

ghost use Rattle.std.specs.Prelude.{◌≡◌, ◌≢◌, ◌⊎◌, ◌*◌, ◌<◌, ◌≤◌, ◌^◌, true, IfOk, IfErr, OnOk, length};
ghost use Rattle.cut_definitions.specs.Cuts.{mincuts, value};
ghost use Rattle.cut_definitions.specs.Graph.{Graph};
ghost use Rattle.edge_arrays.specs.Given.{AreVertices, given};
ghost use Rattle.rooted_cactus.specs.Normal.{is_normal};
ghost use Rattle.rooted_cactus.specs.Solving.{IsSolved};
ghost use Rattle.mincut_c.specs.Listed.{AreListed, CountsCuts, HoldsRows, LackRoom, balanced_cuts, separating_cuts};
ghost use Rattle.mincut_c.specs.Rows.{IsLeftFrom};
ghost use Rattle.mincut_c.specs.Statuses.{HasCuts, IsPairReason, IsPairedReason, TellsPairFault, TellsWeighedFault, masses_for, number_of};

use crate::listings::{Listing, put_listing};
use crate::solving::solved_of_arrays;
use crate::status::{Fault, status_of};
use crate::weighed::weighed_of_arrays;
use cut_definitions::VertexWeights;
use cut_listing::laws::{count_of_minimum_cuts, minimum_cuts_in_order};
use cut_listing::{ListRefusal, list_balanced, list_parting};
use rooted_cactus::Solved;
use std::alloc::Global;
use vertex_set::Side;

/// The minimum cuts of a solved graph whose balance is at least a number.
fn balanced_sides(
    alloc: Global,
    solved: &Solved,
    weights: &VertexWeights,
    least: u64,
) -> Result<Vec<Side>, ListRefusal>
    requires normal { is_normal solved.now.cactus.root ≡ true }
    requires masses { length weights.now ≡ solved.now.cactus.vertices }
    ensures { (g : Graph) → IsSolved g solved.now → AreListed g.vertices (balanced_cuts g weights.now least) result }
{
    minimum_cuts_in_order();
    count_of_minimum_cuts();
    list_balanced(alloc, &solved.cactus, least, weights)
}

/// The minimum cuts of a solved graph that separate two vertices, counted from 0.
fn separating_sides(
    alloc: Global,
    solved: &Solved,
    a: u32,
    b: u32,
) -> Result<Vec<Side>, ListRefusal>
    requires normal { is_normal solved.now.cactus.root ≡ true }
    requires few { solved.now.cactus.vertices ≤ 4194304 }
    requires a { a < 4194304 }
    requires b { b < 4194304 }
    ensures { (g : Graph) → IsSolved g solved.now → AreListed g.vertices (separating_cuts g a b) result }
{
    minimum_cuts_in_order();
    count_of_minimum_cuts();
    list_parting(alloc, &solved.cactus, a + 1, b + 1)
}

/// The minimum cuts of the connected graph with `n` vertices, counted from 0, whose edges the
/// arrays give, whose balance is at least a number: the lesser of the masses of the two sides.
/// Where that number is 0 they are all. `masses` has n entries, or none, for a mass of 1 each. The
/// sides stand in the order of lists, each by a row of n bytes in `inside`: 0 for vertex 0 and all
/// on its side, 1 for the others. What stands behind the rows is left.
///
/// The status is 0 where there is an answer. It is 9 where `inside` has fewer than n bytes for
/// each of these sides, and 11 where their number times n is above 2^30; their number is told all
/// the same. Else it is as that of `mincut_raw_balanced`. With another status than 0 the bytes are
/// left as they were, and with another than 0, 9 and 11 the numbers too. Time: that of the cactus,
/// and for c sides O(c log c) comparisons of n/64 steps, and n steps for each row. Memory: that of
/// the cactus, and n/8 bytes for each side.
#[unsafe(no_mangle)]
pub extern "C" fn mincut_raw_sides(
    alloc: Global,
    n: u32,
    us: &[u32],
    vs: &[u32],
    ws: &[u64],
    masses: &[u64],
    least: u64,
    listing: &mut Listing,
    inside: &mut [u8],
) -> u32
    ensures given { result ≡ 0 → HasCuts n us.now vs.now ws.now }
    ensures rows { result ≡ 0 → HoldsRows n (balanced_cuts (given n us.now vs.now ws.now) (masses_for n masses.now) least) inside.new }
    ensures all { result ≡ 0 → least ≡ 0 → HoldsRows n (mincuts (given n us.now vs.now ws.now)) inside.new }
    ensures behind { result ≡ 0 → IsLeftFrom (listing.new.sides * n) inside.old inside.new }
    ensures counts { (result ≡ 0) ⊎ ((result ≡ 9) ⊎ (result ≡ 11)) → CountsCuts (given n us.now vs.now ws.now) (balanced_cuts (given n us.now vs.now ws.now) (masses_for n masses.now) least) listing.new }
    ensures short { result ≡ 9 → LackRoom n (balanced_cuts (given n us.now vs.now ws.now) (masses_for n masses.now) least) (length inside.old) }
    ensures large { result ≡ 11 → 2 ^ 30 < length (balanced_cuts (given n us.now vs.now ws.now) (masses_for n masses.now) least) * n }
    ensures listing_left { result ≢ 0 → result ≢ 9 → result ≢ 11 → listing.new ≡ listing.old }
    ensures left { result ≢ 0 → inside.new ≡ inside.old }
    ensures fault { result ≢ 0 → TellsWeighedFault result n us.now vs.now ws.now masses.now }
    ensures known { result ≤ 11 }
{
    match weighed_of_arrays(alloc, n, us, vs, ws, masses) {
        Ok(found) => {
            let (solved, weights) = found;
            let listed = balanced_sides(alloc, &solved, &weights, least);
            put_listing(listed, n, solved.value, listing, inside)
        }
        Err(fault) => status_of(fault),
    }
}

/// Tests two vertices, counted from 0: both are below n.
fn check_pair(n: u32, a: u32, b: u32) -> Result<(), Fault>
    ensures vertices { OnOk result (AreVertices n a b) }
    ensures reason { IfErr result (λ fault. IsPairReason fault n a b) }
    ensures known { IfErr result (λ fault. number_of fault ≡ 6) }
{
    if a >= n || b >= n {
        return Err(Fault::NoVertex);
    }
    Ok(())
}

/// The value of the graph of the arrays and a cactus of its minimum cuts, and that two numbers are
/// vertices, which is looked at first.
fn solved_with_pair(
    alloc: Global,
    n: u32,
    us: &[u32],
    vs: &[u32],
    ws: &[u64],
    pair: (u32, u32),
) -> Result<Solved, Fault>
    ensures solved { IfOk result (λ s. IsSolved (given n us.now vs.now ws.now) s) }
    ensures vertices { IfOk result (λ s. AreVertices n pair.0 pair.1) }
    ensures given { IfOk result (λ s. HasCuts n us.now vs.now ws.now) }
    ensures positive { IfOk result (λ s. 1 ≤ value (given n us.now vs.now ws.now)) }
    ensures reason { IfErr result (λ fault. IsPairedReason fault n us.now vs.now ws.now pair.0 pair.1) }
    ensures known { IfErr result (λ fault. number_of fault ≤ 8) }
{
    check_pair(n, pair.0, pair.1)?;
    let solved = solved_of_arrays(alloc, n, us, vs, ws)?;
    Ok(solved)
}

/// The minimum cuts of the connected graph with `n` vertices, counted from 0, whose edges the
/// arrays give, that have exactly one of two vertices in their side, as rows of bytes in the order
/// of lists. Where the two are one vertex, there are none.
///
/// The status is 0 where there is an answer. The two vertices are looked at first: it is 6 where
/// one is n or more. Else the statuses, what is told and what is left, and the cost are those of
/// `mincut_raw_sides` without masses.
#[unsafe(no_mangle)]
pub extern "C" fn mincut_raw_sides_between(
    alloc: Global,
    n: u32,
    us: &[u32],
    vs: &[u32],
    ws: &[u64],
    a: u32,
    b: u32,
    listing: &mut Listing,
    inside: &mut [u8],
) -> u32
    ensures given { result ≡ 0 → HasCuts n us.now vs.now ws.now }
    ensures vertices { result ≡ 0 → AreVertices n a b }
    ensures rows { result ≡ 0 → HoldsRows n (separating_cuts (given n us.now vs.now ws.now) a b) inside.new }
    ensures behind { result ≡ 0 → IsLeftFrom (listing.new.sides * n) inside.old inside.new }
    ensures counts { (result ≡ 0) ⊎ ((result ≡ 9) ⊎ (result ≡ 11)) → CountsCuts (given n us.now vs.now ws.now) (separating_cuts (given n us.now vs.now ws.now) a b) listing.new }
    ensures short { result ≡ 9 → LackRoom n (separating_cuts (given n us.now vs.now ws.now) a b) (length inside.old) }
    ensures large { result ≡ 11 → 2 ^ 30 < length (separating_cuts (given n us.now vs.now ws.now) a b) * n }
    ensures listing_left { result ≢ 0 → result ≢ 9 → result ≢ 11 → listing.new ≡ listing.old }
    ensures left { result ≢ 0 → inside.new ≡ inside.old }
    ensures fault { result ≢ 0 → TellsPairFault result n us.now vs.now ws.now a b }
    ensures known { result ≤ 11 }
{
    match solved_with_pair(alloc, n, us, vs, ws, (a, b)) {
        Ok(solved) => {
            let listed = separating_sides(alloc, &solved, a, b);
            put_listing(listed, n, solved.value, listing, inside)
        }
        Err(fault) => status_of(fault),
    }
}
