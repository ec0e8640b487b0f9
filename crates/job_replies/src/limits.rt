//! The limits of a graph after each of some insertions.

ghost use Rattle.std.specs.Prelude.{ℕ, ◌≡◌, ◌≤◌, if◌then◌else◌, take, length, IfErr, OnOk};
ghost use Rattle.std.specs.List.{All, list_any};
ghost use Rattle.cut_definitions.specs.Graph.{IsVertex};
ghost use Rattle.cactus_growth.specs.Insertion.{edge_between, is_joined, same_ends};
ghost use Rattle.program_words.specs.Insertions.{IsInsertion};
ghost use Rattle.job_replies.specs.GrownGraphs.{grown, IsFirstBeyond, StaysWithin};
ghost use Rattle.job_replies.specs.Jobs.{AreInRange};

use cactus_growth::{has_edge, total_weight};
use cut_definitions::{EdgeList, MOST_EDGES, MOST_WEIGHT};
use program_words::Insertions;
use stop_lines::Stop;

/// Whether two insertions join the same two vertices.
fn join_the_same(first: (u64, u64, u64), second: (u64, u64, u64)) -> bool
    ensures { result ≡ same_ends (edge_between first.0 first.1 first.2) (edge_between second.0 second.1 second.2) }
{
    first.0.min(first.1) == second.0.min(second.1) && first.0.max(first.1) == second.0.max(second.1)
}

/// Whether one of the first `count` insertions joins the two vertices of another.
fn is_repeated(insertions: &Insertions, count: usize, insertion: (u64, u64, u64)) -> bool
    requires { count ≤ length insertions.now }
    ensures { result ≡ list_any (λ i. same_ends (edge_between i.0 i.1 i.2) (edge_between insertion.0 insertion.1 insertion.2)) (take count insertions.now) }
{
    'earlier: for i in 0..count {
        if join_the_same(insertions.at(i), insertion) {
            return true;
        }
    }
    false
}

/// The number of edges that an insertion makes after the first `count`:
/// 1 if its two vertices are not joined by then.
fn new_edges(
    list: &EdgeList,
    insertions: &Insertions,
    count: usize,
    insertion: (u64, u64, u64),
) -> usize
    requires count { count ≤ length insertions.now }
    requires first { IsVertex list.now.vertices insertion.0 }
    requires second { IsVertex list.now.vertices insertion.1 }
    ensures { result ≡ (if is_joined (edge_between insertion.0 insertion.1 insertion.2) (grown list.now (take count insertions.now)).edges then 0 else 1) }
{
    // known by this call: there are at most 4,194,304 vertices
    let _n = list.n();
    let (u, v, _) = insertion;
    if has_edge(list, u as u32, v as u32) || is_repeated(insertions, count, insertion) {
        0
    } else {
        1
    }
}

/// Fails with the first insertion after which the graph would be too large.
///
/// It takes one pass over the edges. For each insertion it looks for the pair among the edges by
/// binary search, and among all insertions before. It takes no memory.
pub fn check_limits(insertions: &Insertions, list: &EdgeList) -> Result<(), Stop>
    requires in_range { AreInRange list.now.vertices insertions.now }
    requires insertions { All IsInsertion insertions.now }
    ensures within { OnOk result (StaysWithin list.now insertions.now) }
    ensures stop { IfErr result (λ stop. (number : ℕ) × (stop ≡ Stop.GrowTooLarge number) × IsFirstBeyond list.now insertions.now number) }
{
    let mut weight = total_weight(list);
    let mut edges = list.len();
    'limits: for i in 0..insertions.len() {
        let insertion = insertions.at(i);
        edges += new_edges(list, insertions, i, insertion);
        if insertion.2 > MOST_WEIGHT - weight || edges > MOST_EDGES as usize {
            return Err(Stop::GrowTooLarge { number: i + 1 });
        }
        weight += insertion.2;
    }
    Ok(())
}
