//! The value of a small graph, by rounds.

ghost use Rattle.std.specs.Prelude.{◌≡◌, ◌≤◌, IfOk};
ghost use Rattle.cut_definitions.specs.Cuts.{value};
ghost use Rattle.forest_contraction.specs.Left.{IsLesser};

use crate::values::value_by_sweeps;
use cut_definitions::NoMemory;
use forest_contraction::{FEW_EDGES, is_tenth_less};
use least_cut::least_weight_below;
use outside::Gate;
use round_workers::round;
use std::thread::Threads;
use weighted_graph::Graph;
use worker_team::{Crew, Team, Threaded, contract};

/// A round with slack 0 of so many workers, opened with the least degree, and the contraction of
/// what it marked. It answers the round's bound and the contracted graph.
fn contract_once<R: Threads + Sync, G: Gate>(
    crew: &Crew<R, G>,
    graph: &Graph,
    workers: u32,
) -> Result<(u64, Graph), NoMemory>
    requires enough { 2 ≤ graph.now.vertices }
    requires workers { (1 ≤ workers) × (workers ≤ 64) }
    ensures { IfOk result (λ r. IsLesser (value graph.now) r.0 r.1) }
{
    // known by this call: the graph is an edge list
    let _n = graph.n();
    let bound = graph.least_degree();
    let Threaded { rt, alloc, .. } = crew.threads;
    let (low, marks) = round(rt, alloc, graph, bound, 0, workers, crew.gate)?;
    let (smaller, _labels) = contract(&crew.threads, graph, &marks)?;
    Ok((low, smaller))
}

/// The value by rounds that contract what they show safe, as long as each takes away a tenth of
/// the vertices; the least bound of all rounds and what is left then decide. A round costs
/// O((n + m) log n) and the certificates. The workers share the first round; what is left for
/// later ones is small, and starting threads would cost more than it.
pub(crate) fn value_by_rounds<R: Threads + Sync, G: Gate>(
    crew: &Crew<R, G>,
    graph: &Graph,
) -> Result<u64, NoMemory>
    requires { 2 ≤ graph.now.vertices }
    ensures { IfOk result (λ weight. weight ≡ value graph.now) }
{
    let (mut best, mut small) = contract_once(crew, graph, crew.threads.workers())?;
    let mut shrinks = true;
    'rounds: while shrinks && small.n() >= 2 {
        let (low, smaller) = contract_once(crew, &small, 1)?;
        shrinks = is_tenth_less(smaller.n(), small.n());
        best = best.min(low);
        small = smaller;
    }
    if small.n() < 2 {
        return Ok(best);
    }
    let weight = least_weight_below(crew.threads.alloc, &small, best)?;
    Ok(weight)
}

/// The value of a graph of two or more vertices: the least weight of a cut.
///
/// A graph of at most 1,024 edges is contracted by rounds, whose certificates look at each edge
/// (Padberg and Rinaldi, 1990); a larger one is swept by flows (Hao and Orlin, 1994), and
/// contracted by scans where these look far, of several workers side by side where it is large. It
/// takes memory O(n + m), and is refused only where that is wanting. A sweep has no good bound in
/// n and m; on most graphs it takes about as long as reading them.
pub fn value<R: Threads + Sync, G: Gate>(crew: &Crew<R, G>, graph: &Graph) -> Result<u64, NoMemory>
    requires { 2 ≤ graph.now.vertices }
    ensures { IfOk result (λ weight. weight ≡ value graph.now) }
{
    if graph.edges() <= FEW_EDGES {
        return value_by_rounds(crew, graph);
    }
    value_by_sweeps(&crew.threads, graph)
}
