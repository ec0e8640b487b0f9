//! Contraction by scans alone, for graphs on which flows look far.

ghost use Rattle.std.specs.Prelude.{◌≡◌, ◌≤◌, ◌^◌, ℕ, IfOk};
ghost use Rattle.min_value.specs.Left.{IsScanned, IsToTell};

use crate::scanning::scan;
use cut_definitions::{EdgeList, NoMemory};
use least_cut::least_weight_below;
use round_workers::Threshold;
use weighted_graph::Graph;
use worker_team::Team;

/// What a scan leaves: the least weight that is known, and the edges of the contracted graph, if
/// it is so much smaller that another scan is worth its time.
#[derive(Drop)]
pub(crate) struct Shrunk {
    pub(crate) best: u64,
    pub(crate) smaller: Option<EdgeList>,
}

/// One scan, or where that takes away too little a sweep by flows, after which the weight that is
/// known is the lesser of the bound and the value.
pub(crate) fn scan_or_sweep<T: Team>(
    team: &T,
    graph: &Graph,
    bound: u64,
) -> Result<Shrunk, NoMemory>
    requires ready { T.ready team.now }
    requires enough { 2 ≤ graph.now.vertices }
    requires bound { bound ≤ 2 ^ 62 }
    ensures { IfOk result (λ s. IsScanned graph.now bound s.best s.smaller) }
{
    // known by this call: the graph is an edge list
    let _n = graph.n();
    let found = scan(team, graph, Threshold { bound, slack: 0 })?;
    if found.is_worth_another(graph) {
        let smaller = team.contracted_list(graph, &found.labels)?;
        return Ok(Shrunk {
            best: found.bound,
            smaller: Some(smaller),
        });
    }
    let best = least_weight_below(team.alloc(), graph, found.bound)?;
    Ok(Shrunk {
        best,
        smaller: None,
    })
}

/// The number that a scan left to be told.
///
/// Scans contract what their links show safe, as long as each takes away a tenth of the
/// vertices, or a fiftieth of a dense graph; what is left is swept by flows. Several workers
/// scan side by side where a graph is large. There are O(log n) scans (Nagamochi, Ono and
/// Ibaraki, 1994), each of O((n + m) log n). Only one graph has rows at a time. It is refused
/// only where memory is wanting.
pub(crate) fn value_of_shrunk<T: Team>(team: &T, shrunk: Shrunk) -> Result<u64, NoMemory>
    requires ready { T.ready team.now }
    requires small { shrunk.best ≤ 2 ^ 62 }
    ensures { (whole : ℕ) → IsToTell whole shrunk.best shrunk.smaller → IfOk result (λ weight. weight ≡ whole) }
{
    let Shrunk {
        mut best,
        mut smaller,
    } = shrunk;
    'scans: while let Some(list) = smaller {
        if list.n() < 2 {
            return Ok(best);
        }
        let graph = team.graph(list)?;
        let next = scan_or_sweep(team, &graph, best)?;
        best = next.best;
        smaller = next.smaller;
    }
    Ok(best)
}
