//! Forests, each over the vertices that the one before has joined.

ghost use Rattle.std.specs.Prelude.{◌≡◌, ◌⊎◌, ◌+◌, ◌*◌, ◌^◌, ◌<◌, ◌≤◌, ℕ, [], ◌∷◌, ◌++◌, List, length};
ghost use Rattle.cut_definitions.specs.declared.edge_list.Edge.{Edge};
ghost use Rattle.vertex_classes.specs.Classes.{AreJoined, HasJoined};
ghost use Rattle.forest_contraction.specs.Forests.{level, AreForests, AreOver, HasReach, HasSameLevels, HaveTaken};

use cut_definitions::{Edge, NoMemory};
use std::alloc::Global;
use vertex_classes::Classes;

/// How many levels from the first on join two vertices, by bisection:
/// what a level joins, those below it join too.
fn count_joined(levels: &mut [Classes], u: u32, v: u32) -> usize
    requires first { (l : ℕ) → l < length levels.old → u < length (level levels.old l) }
    requires second { (l : ℕ) → l < length levels.old → v < length (level levels.old l) }
    ensures same { HasSameLevels levels.old levels.new }
    ensures within { result ≤ length levels.old }
    ensures joined { (l : ℕ) → l + 1 ≡ result → AreJoined (level levels.old l) u v }
{
    let mut low = 0;
    let mut high = levels.len();
    while low < high {
        let middle = low + (high - low) / 2;
        if levels[middle].are_joined(u, v) {
            low = middle + 1;
        } else {
            high = middle;
        }
    }
    low
}

/// Joins two vertices in the levels from one on and before another.
fn join_levels(levels: &mut [Classes], first: usize, end: usize, u: u32, v: u32)
    requires ordered { first ≤ end }
    requires end { end ≤ length levels.old }
    requires first { (l : ℕ) → l < length levels.old → u < length (level levels.old l) }
    requires second { (l : ℕ) → l < length levels.old → v < length (level levels.old l) }
    ensures count { length levels.new ≡ length levels.old }
    ensures inside { (l : ℕ) → first ≤ l → l < end → HasJoined (level levels.old l) (level levels.new l) u v }
    ensures outside { (l : ℕ) → (l < first) ⊎ (end ≤ l) → level levels.new l ≡ level levels.old l }
{
    for l in first..end {
        levels[l].join(u, v);
    }
}

/// Puts an edge into the levels after those that join its ends, one for each step of its weight,
/// as far as there are levels.
fn put_edge(levels: &mut [Classes], joined: usize, edge: Edge, step: u64)
    requires positive { 1 ≤ step }
    requires within { joined ≤ length levels.old }
    requires first { (l : ℕ) → l < length levels.old → edge.u < length (level levels.old l) }
    requires second { (l : ℕ) → l < length levels.old → edge.v < length (level levels.old l) }
    ensures count { length levels.new ≡ length levels.old }
    ensures over { (size : ℕ) → AreOver size levels.old → AreOver size levels.new }
    ensures forests { (es : List Edge) → AreForests es step levels.old → ((l : ℕ) → l + 1 ≡ joined → AreJoined (level levels.old l) edge.u edge.v)
        → AreForests (es ++ edge ∷ []) step levels.new }
{
    let room = levels.len() - joined;
    if room == 0 {
        return;
    }
    let count = room.min((edge.w / step) as usize);
    join_levels(levels, joined, joined + count, edge.u, edge.v);
}

/// Puts an edge into the levels, and tells how heavily its ends are joined: by the steps of the
/// levels that joined them before, and by its own weight.
fn put_and_reach(levels: &mut [Classes], edge: Edge, step: u64) -> u64
    requires positive { 1 ≤ step }
    requires light { edge.w ≤ 2 ^ 61 }
    requires few { length levels.old * step ≤ 2 ^ 62 }
    requires first { (l : ℕ) → l < length levels.old → edge.u < length (level levels.old l) }
    requires second { (l : ℕ) → l < length levels.old → edge.v < length (level levels.old l) }
    ensures count { length levels.new ≡ length levels.old }
    ensures over { (size : ℕ) → AreOver size levels.old → AreOver size levels.new }
    ensures forests { (es : List Edge) → AreForests es step levels.old → AreForests (es ++ edge ∷ []) step levels.new }
    ensures heavy { edge.w ≤ result }
    ensures reach { HasReach levels.old step edge result }
{
    let joined = count_joined(levels, edge.u, edge.v);
    put_edge(levels, joined, edge, step);
    joined as u64 * step + edge.w
}

/// Joins the ends of an edge in the classes of each kind whose bound their joining reaches: of the
/// kinds the first is tied for the bound, and each further one for one more.
fn join_reached(tied: &mut [Classes], edge: Edge, reach: u64, bound: u64)
    requires first { (k : ℕ) → k < length tied.old → edge.u < length (level tied.old k) }
    requires second { (k : ℕ) → k < length tied.old → edge.v < length (level tied.old k) }
    ensures kinds { length tied.new ≡ length tied.old }
    ensures taken { (levels : List (List ℕ)) (step : ℕ) → HasReach levels step edge reach → HaveTaken levels step bound edge tied.old tied.new }
    ensures heavy { (k : ℕ) → k < length tied.old → bound + k ≤ reach → AreJoined (level tied.new k) edge.u edge.v }
{
    if reach < bound {
        return;
    }
    let count = ((reach - bound) as usize).saturating_add(1).min(tied.len());
    join_levels(tied, 0, count, edge.u, edge.v);
}

/// Puts an edge into the levels, and joins its ends in the classes of each kind whose bound the
/// levels and its own weight reach. An edge within a class of the last kind is passed over: it
/// could join no other vertices.
pub(crate) fn tie_edge(
    levels: &mut [Classes],
    tied: &mut [Classes],
    edge: Edge,
    bound: u64,
    step: u64,
)
    requires positive { 1 ≤ step }
    requires light { edge.w ≤ 2 ^ 61 }
    requires few { length levels.old * step ≤ 2 ^ 62 }
    requires some { 1 ≤ length tied.old }
    requires first { (k : ℕ) → k < length tied.old → edge.u < length (level tied.old k) }
    requires second { (k : ℕ) → k < length tied.old → edge.v < length (level tied.old k) }
    requires over { AreOver (length (level tied.old 0)) levels.old }
    ensures count { length levels.new ≡ length levels.old }
    ensures kinds { length tied.new ≡ length tied.old }
    ensures over { AreOver (length (level tied.old 0)) levels.new }
    ensures forests { (es : List Edge) → AreForests es step levels.old → AreForests (es ++ edge ∷ []) step levels.new }
    ensures taken { HaveTaken levels.old step bound edge tied.old tied.new }
    ensures heavy { (k : ℕ) → k + 1 ≡ length tied.old → bound + k ≤ edge.w → AreJoined (level tied.new k) edge.u edge.v }
{
    let last = tied.len() - 1;
    if tied[last].are_joined(edge.u, edge.v) {
        return;
    }
    let reach = put_and_reach(levels, edge, step);
    join_reached(tied, edge, reach, bound);
}
