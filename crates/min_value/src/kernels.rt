//! The kernel of a graph: what is left where no edge is shown to lie in no minimum cut.

ghost use Rattle.std.specs.Prelude.{◌≡◌, ◌+◌, ◌<◌, ◌≤◌, IfOk, IfSome, IfNone};
ghost use Rattle.cut_definitions.specs.Cuts.{value as least_value};
ghost use Rattle.cut_definitions.specs.Contraction.{classes};
ghost use Rattle.weighted_graph.specs.ContractionLaws.{IsLabelled};
ghost use Rattle.min_value.specs.Kernels.{IsKept, KeepsAllMinimumCuts, NoneIsCertified, IsLight};

use crate::closing::{close_first, close_once, reduce_by_scans};
use crate::kept_graph::{Kernel, contract_by_rounds, go_on_by_rounds};
use crate::rounds::value;
use cut_definitions::NoMemory;
use forest_contraction::FEW_EDGES;
use outside::Gate;
use std::thread::Threads;
use weighted_graph::Graph;
use worker_team::Crew;

/// The kernel of a graph of two or more vertices: a smaller graph with the same value whose
/// minimum cuts, lifted by the labels, are exactly those of the graph (after Padberg and Rinaldi,
/// 1990, and Nagamochi, Ono and Ibaraki, 1994).
///
/// No edge of the kernel's graph passes one of the four certificates at the value with slack 1,
/// and the weights of its edges add up to at most the value for each vertex but one. It takes the
/// value first, and then at most n rounds with slack 1, each of O((n + m) log n) and the
/// certificates, until one marks nothing and a whole scan meets no link above the value; each
/// round but the last makes a new graph. The number of workers is 1 to 64. It is refused only
/// where memory is wanting.
pub fn kernel<R: Threads + Sync, G: Gate>(
    crew: &Crew<R, G>,
    graph: &Graph,
) -> Result<Kernel, NoMemory>
    requires enough { 2 ≤ graph.now.vertices }
    ensures value { IfOk result (λ k. k.value ≡ least_value graph.now) }
    ensures kernel_value { IfOk result (λ k. least_value k.graph ≡ least_value graph.now) }
    ensures labels { IfOk result (λ k. IsLabelled graph.now k.labels) }
    ensures minimum_cuts { IfOk result (λ k. KeepsAllMinimumCuts graph.now k.graph k.labels) }
    ensures counted { IfOk result (λ k. classes k.labels ≡ k.graph.vertices) }
    ensures closed { IfOk result (λ k. NoneIsCertified k.graph (k.value + 1)) }
    ensures light { IfOk result (λ k. IsLight k.graph k.value) }
{
    let least = value(crew, graph)?;
    let mut kept = contract_by_rounds(crew, graph, least)?;
    'closing: while close_once(crew, &mut kept)? {}
    Ok(kept)
}

/// Rounds with slack 1 and their contractions, as long as each takes away a tenth of the vertices;
/// none where the first and a whole scan mark nothing.
fn reduce_by_rounds<R: Threads + Sync, G: Gate>(
    crew: &Crew<R, G>,
    graph: &Graph,
    value: u64,
) -> Result<Option<Kernel>, NoMemory>
    requires enough { 2 ≤ graph.now.vertices }
    requires value { value ≡ least_value graph.now }
    ensures kept { IfOk result (λ found. IfSome found (λ k. IsKept graph.now k.value k.graph k.labels)) }
    ensures fewer { IfOk result (λ found. IfSome found (λ k. k.graph.vertices < graph.now.vertices)) }
    ensures light { IfOk result (λ found. IfNone found (IsLight graph.now value)) }
{
    let Some(first) = close_first(crew, graph, value)? else {
        return Ok(None);
    };
    let kept = go_on_by_rounds(crew, graph, first)?;
    Ok(Some(kept))
}

/// A smaller graph with the same value whose minimum cuts, lifted by the labels, are exactly those
/// of the graph; none where no edge was found that may be contracted, and the weights of the edges
/// add up to at most the value for each vertex but one then. A smaller graph has fewer vertices;
/// where there is none, no second graph is made.
///
/// On a graph of at most 1,024 edges it goes by rounds with slack 1, and a whole scan where the
/// first of them marks nothing; on a larger one by scans with slack 1, as long as each takes away
/// a tenth of the vertices, or a fiftieth of a dense graph. Several workers scan side by side
/// where the graph is large. It is a kernel that is not closed: edges may be left that a
/// certificate or a link shows to lie in no minimum cut. The graph has two or more vertices, and
/// the value is its value. It costs O((n + m) log n), and on a small graph the certificates. The
/// number of workers is 1 to 64. It is refused only where memory is wanting.
pub fn reduce<R: Threads + Sync, G: Gate>(
    crew: &Crew<R, G>,
    graph: &Graph,
    value: u64,
) -> Result<Option<Kernel>, NoMemory>
    requires enough { 2 ≤ graph.now.vertices }
    requires value { value ≡ least_value graph.now }
    ensures kept { IfOk result (λ found. IfSome found (λ k. IsKept graph.now k.value k.graph k.labels)) }
    ensures fewer { IfOk result (λ found. IfSome found (λ k. k.graph.vertices < graph.now.vertices)) }
    ensures light { IfOk result (λ found. IfNone found (IsLight graph.now value)) }
{
    if graph.edges() <= FEW_EDGES {
        return reduce_by_rounds(crew, graph, value);
    }
    let kept = reduce_by_scans(&crew.threads, graph, value)?;
    Ok(kept)
}
