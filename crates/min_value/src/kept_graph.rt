//! What is kept of a graph after contractions that part no minimum cut.

ghost use Rattle.std.specs.Prelude.{◌≡◌, ◌+◌, ◌*◌, ◌<◌, ◌≤◌, IfOk, true};
ghost use Rattle.cut_definitions.specs.Cuts.{value as least_value};
ghost use Rattle.cut_definitions.specs.Contraction.{classes};
ghost use Rattle.min_value.specs.Kernels.{IsKept, IsKeptOn, NoneIsCertified};
ghost use Rattle.min_value.specs.Passes.{IsStep};

use cut_definitions::NoMemory;
use forest_contraction::is_tenth_less;
use outside::Gate;
use round_contract::classes_of_marks;
use round_workers::round;
use std::thread::Threads;
use weighted_graph::{Graph, Labels};
use worker_team::{Crew, Team, Threaded, contracted};

/// The value of a graph, a smaller graph with the same value, and labels that give each vertex of
/// the graph a vertex of the smaller one. The minimum cuts of the graph are those of the smaller
/// graph, lifted by the labels.
#[derive(Drop)]
pub struct Kernel {
    pub value: u64,
    pub graph: Graph,
    pub labels: Labels,
}

// A graph with so many times as many edges as vertices is dense.
const EDGES_FOR_EACH_VERTEX: usize = 32;

/// Whether a scan of a graph leaves so few vertices that another one is worth its time: a tenth
/// less, and of a dense graph, on which flows are dear, a fiftieth.
pub(crate) fn is_worth_another(left: u32, before: u32, edges: usize) -> bool
    ensures { result ≡ true → left * 50 ≤ before * 49 }
{
    if edges / EDGES_FOR_EACH_VERTEX < before as usize {
        return is_tenth_less(left, before);
    }
    u64::from(left) * 50 <= u64::from(before) * 49
}

/// The graph on classes that no minimum cut parts. It costs O(m log m).
pub(crate) fn contract_safely<T: Team>(
    team: &T,
    graph: &Graph,
    value: u64,
    labels: Labels,
) -> Result<Kernel, NoMemory>
    requires ready { T.ready team.now }
    requires enough { 2 ≤ graph.now.vertices }
    requires value { value ≡ least_value graph.now }
    requires step { IsStep graph.now (value + 1) labels }
    ensures kept { IfOk result (λ k. IsKept graph.now k.value k.graph k.labels) }
    ensures few { IfOk result (λ k. k.graph.vertices ≡ classes labels) }
    ensures at_most { IfOk result (λ k. k.graph.vertices ≤ graph.now.vertices) }
{
    // known by this call: the graph is an edge list
    let _n = graph.n();
    let small = contracted(team, graph, &labels)?;
    Ok(Kernel {
        value,
        graph: small,
        labels,
    })
}

/// Contracts classes in what is kept of a graph, and leads the labels on.
pub(crate) fn keep_less<T: Team>(
    team: &T,
    kept: &mut Kernel,
    labels: Labels,
) -> Result<(), NoMemory>
    requires ready { T.ready team.now }
    requires enough { 2 ≤ kept.old.graph.vertices }
    requires value { kept.old.value ≡ least_value kept.old.graph }
    requires counted { classes kept.old.labels ≡ kept.old.graph.vertices }
    requires step { IsStep kept.old.graph (kept.old.value + 1) labels }
    ensures kept { IfOk result (λ _. IsKeptOn kept.old kept.new) }
    ensures few { IfOk result (λ _. kept.new.graph.vertices ≡ classes labels) }
    ensures at_most { IfOk result (λ _. kept.new.graph.vertices ≤ kept.old.graph.vertices) }
{
    let next = contract_safely(team, &kept.graph, kept.value, labels)?;
    kept.labels = kept.labels.compose(team.alloc(), &next.labels)?;
    kept.graph = next.graph;
    Ok(())
}

/// The classes that a round with slack 1 shows, which is opened with the value, where its bound
/// stays. Where each vertex is a class, no certificate holds.
pub(crate) fn round_at_value<R: Threads + Sync, G: Gate>(
    crew: &Crew<R, G>,
    graph: &Graph,
    value: u64,
    workers: u32,
) -> Result<Labels, NoMemory>
    requires enough { 2 ≤ graph.now.vertices }
    requires value { value ≡ least_value graph.now }
    requires workers { (1 ≤ workers) × (workers ≤ 64) }
    ensures step { IfOk result (IsStep graph.now (value + 1)) }
    ensures closed { IfOk result (λ labels. graph.now.vertices ≤ classes labels → NoneIsCertified graph.now (value + 1)) }
{
    // known by this call: the graph is an edge list
    let _n = graph.n();
    let Threaded { rt, alloc, .. } = crew.threads;
    let (_low, marks) = round(rt, alloc, graph, value, 1, workers, crew.gate)?;
    let labels = classes_of_marks(alloc, graph, &marks)?;
    // known by this call: they are labels
    let _classes = labels.classes();
    Ok(labels)
}

/// A round with slack 1 and the contraction of the classes that it shows.
fn contract_once<R: Threads + Sync, G: Gate>(
    crew: &Crew<R, G>,
    graph: &Graph,
    value: u64,
) -> Result<Kernel, NoMemory>
    requires enough { 2 ≤ graph.now.vertices }
    requires value { value ≡ least_value graph.now }
    ensures { IfOk result (λ k. IsKept graph.now k.value k.graph k.labels) }
{
    let labels = round_at_value(crew, graph, value, crew.threads.workers())?;
    let kept = contract_safely(&crew.threads, graph, value, labels)?;
    Ok(kept)
}

/// One more round with slack 1 by one worker, and whether it took away a tenth of the vertices.
fn contract_again<R: Threads + Sync, G: Gate>(
    crew: &Crew<R, G>,
    kept: &mut Kernel,
) -> Result<bool, NoMemory>
    requires enough { 2 ≤ kept.old.graph.vertices }
    requires value { kept.old.value ≡ least_value kept.old.graph }
    requires counted { classes kept.old.labels ≡ kept.old.graph.vertices }
    ensures kept { IfOk result (λ _. IsKeptOn kept.old kept.new) }
    ensures at_most { IfOk result (λ _. kept.new.graph.vertices ≤ kept.old.graph.vertices) }
    ensures fewer { IfOk result (λ more. more ≡ true → kept.new.graph.vertices < kept.old.graph.vertices) }
{
    let before = kept.graph.n();
    let labels = round_at_value(crew, &kept.graph, kept.value, 1)?;
    keep_less(&crew.threads, kept, labels)?;
    Ok(is_tenth_less(kept.graph.n(), before))
}

/// Further rounds by one worker, after the first one has left a smaller graph, as long as each
/// takes away a tenth of the vertices.
pub(crate) fn go_on_by_rounds<R: Threads + Sync, G: Gate>(
    crew: &Crew<R, G>,
    graph: &Graph,
    first: Kernel,
) -> Result<Kernel, NoMemory>
    requires kept { IsKept graph.now first.value first.graph first.labels }
    ensures kept { IfOk result (λ k. IsKept graph.now k.value k.graph k.labels) }
    ensures at_most { IfOk result (λ k. k.graph.vertices ≤ first.graph.vertices) }
{
    let mut kept = first;
    let mut shrinks = is_tenth_less(kept.graph.n(), graph.n());
    'rounds: while shrinks {
        shrinks = contract_again(crew, &mut kept)?;
    }
    Ok(kept)
}

/// Rounds with slack 1 and their contractions, as long as each takes away a tenth of the vertices.
/// It answers what is left and the labels that lead there. The workers share the first round.
pub(crate) fn contract_by_rounds<R: Threads + Sync, G: Gate>(
    crew: &Crew<R, G>,
    graph: &Graph,
    value: u64,
) -> Result<Kernel, NoMemory>
    requires enough { 2 ≤ graph.now.vertices }
    requires value { value ≡ least_value graph.now }
    ensures { IfOk result (λ k. IsKept graph.now k.value k.graph k.labels) }
{
    let first = contract_once(crew, graph, value)?;
    go_on_by_rounds(crew, graph, first)
}
