//! The value of a graph, and where flows look far on it also a smaller graph that
//! has all its minimum cuts.

ghost use Rattle.std.specs.Prelude.{◌≡◌, ◌*◌, ◌<◌, ◌≤◌, ◌^◌, IfOk, IfSome};
ghost use Rattle.cut_definitions.specs.Cuts.{value as least_value};
ghost use Rattle.min_value.specs.Kernels.{IsKept, IsNarrowed};

use crate::kept_graph::Kernel;
use crate::scanning::scan;
use crate::scans::{scan_or_sweep, value_of_shrunk};
use crate::values::{sweep, value_by_sweeps};
use cut_definitions::{MOST_WEIGHT, NoMemory};
use least_cut::Swept;
use round_workers::Threshold;
use weighted_graph::{Graph, Labels};
use worker_team::{Team, contracted};

/// The value of a graph, and a smaller graph with the same minimum cuts,
/// if the scans for the value came upon one.
#[derive(Drop)]
pub struct ValueWithKernel {
    pub value: u64,
    pub kernel: Option<Kernel>,
}

/// What scans leave of a graph before its value is known: a bound on that, and a smaller graph
/// with the same value whose minimum cuts, lifted by the labels, are exactly those of the graph.
#[derive(Drop)]
struct Narrowed {
    bound: u64,
    graph: Graph,
    labels: Labels,
}

/// What one scan with slack 1 leaves, if another one is worth its time then.
fn narrow<T: Team>(team: &T, graph: &Graph, bound: u64) -> Result<Option<Narrowed>, NoMemory>
    requires ready { T.ready team.now }
    requires enough { 2 ≤ graph.now.vertices }
    requires small { bound ≤ 2 ^ 62 }
    requires bound { least_value graph.now ≤ bound }
    ensures narrowed { IfOk result (λ found. IfSome found (λ left. IsNarrowed graph.now left.bound left.graph left.labels)) }
    ensures less { IfOk result (λ found. IfSome found (λ left. left.graph.vertices * 50 ≤ graph.now.vertices * 49)) }
{
    // known by this call: the graph is an edge list
    let _n = graph.n();
    let threshold = Threshold { bound, slack: 1 };
    let found = scan(team, graph, threshold)?;
    if !found.is_worth_another(graph) {
        return Ok(None);
    }
    let small = contracted(team, graph, &found.labels)?;
    Ok(Some(Narrowed {
        bound: found.bound,
        graph: small,
        labels: found.labels,
    }))
}

/// What further scans leave of a graph, after the first one,
/// as long as another one is worth its time.
fn narrow_on<T: Team>(team: &T, graph: &Graph, first: Narrowed) -> Result<Narrowed, NoMemory>
    requires ready { T.ready team.now }
    requires narrowed { IsNarrowed graph.now first.bound first.graph first.labels }
    ensures narrowed { IfOk result (λ left. IsNarrowed graph.now left.bound left.graph left.labels) }
    ensures at_most { IfOk result (λ left. left.graph.vertices ≤ first.graph.vertices) }
{
    let mut left = first;
    'scans: while let Some(next) = narrow(team, &left.graph, left.bound)? {
        left.labels = left.labels.compose(team.alloc(), &next.labels)?;
        left.graph = next.graph;
        left.bound = next.bound;
    }
    Ok(left)
}

/// The value of a graph whose value is at most a bound, by scans with slack 1, which
/// keep all minimum cuts, and where these take away too little by scans that keep the
/// value alone, or a sweep.
fn value_by_narrowing<T: Team>(
    team: &T,
    graph: &Graph,
    bound: u64,
) -> Result<ValueWithKernel, NoMemory>
    requires ready { T.ready team.now }
    requires enough { 2 ≤ graph.now.vertices }
    requires small { bound ≤ 2 ^ 62 }
    requires bound { least_value graph.now ≤ bound }
    ensures value { IfOk result (λ r. r.value ≡ least_value graph.now) }
    ensures kept { IfOk result (λ r. IfSome r.kernel (λ k. IsKept graph.now k.value k.graph k.labels)) }
    ensures fewer { IfOk result (λ r. IfSome r.kernel (λ k. k.graph.vertices < graph.now.vertices)) }
{
    let Some(first) = narrow(team, graph, bound)? else {
        let shrunk = scan_or_sweep(team, graph, bound)?;
        let weight = value_of_shrunk(team, shrunk)?;
        return Ok(ValueWithKernel {
            value: weight,
            kernel: None,
        });
    };
    let left = narrow_on(team, graph, first)?;
    let weight = value_by_sweeps(team, &left.graph)?;
    Ok(ValueWithKernel {
        value: weight,
        kernel: Some(Kernel {
            value: weight,
            graph: left.graph,
            labels: left.labels,
        }),
    })
}

/// The value of a graph of two or more vertices as `value` tells it, and a smaller graph with the
/// same minimum cuts, if the way to the value leads by one: where flows look far on a large graph,
/// scans contract edges that lie in no cut of at most the least weight that is known (Nagamochi,
/// Ono and Ibaraki, 1994), so the scans that `reduce` would make are saved.
///
/// Whether there is one is free; where there is, it has fewer vertices. The number of
/// workers is 1 to 64. It costs as much as `value`, takes memory O(n + m), and is refused
/// only where that is wanting.
pub fn value_with_kernel<T: Team>(team: &T, graph: &Graph) -> Result<ValueWithKernel, NoMemory>
    requires ready { T.ready team.now }
    requires enough { 2 ≤ graph.now.vertices }
    ensures value { IfOk result (λ r. r.value ≡ least_value graph.now) }
    ensures kept { IfOk result (λ r. IfSome r.kernel (λ k. IsKept graph.now k.value k.graph k.labels)) }
    ensures fewer { IfOk result (λ r. IfSome r.kernel (λ k. k.graph.vertices < graph.now.vertices)) }
{
    // known by this call: the graph is an edge list, so no cut weighs more than 2^61
    let _n = graph.n();
    match sweep(team.alloc(), graph, MOST_WEIGHT)? {
        Swept::Whole(weight) => Ok(ValueWithKernel {
            value: weight,
            kernel: None,
        }),
        Swept::Part(bound) => value_by_narrowing(team, graph, bound),
    }
}
