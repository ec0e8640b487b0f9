//! Classes by which a kernel is closed: where there are none,
//! no certificate holds and a whole scan meets no link.

ghost use Rattle.std.specs.Prelude.{◌≡◌, ◌+◌, ◌<◌, ◌≤◌, ◌^◌, IfOk, IfSome, IfNone, length, true, false};
ghost use Rattle.cut_definitions.specs.Cuts.{has, value as least_value};
ghost use Rattle.cut_definitions.specs.Contraction.{classes};
ghost use Rattle.weighted_graph.specs.Marks.{MarksAreSafe};
ghost use Rattle.capped_scan.specs.Scan.{StandsFor};
ghost use Rattle.round_workers.specs.Round.{SomeIsMarked};
ghost use Rattle.min_value.specs.Kernels.{NoneIsCertified, IsKept, IsKeptOn, IsLight};
ghost use Rattle.min_value.specs.Passes.{IsStep};

use crate::bare::is_bare;
use crate::kept_graph::{Kernel, contract_safely, is_worth_another, keep_less, round_at_value};
use crate::scanners::scanners;
use crate::scanning::scan_together;
use capped_scan::Scan;
use cut_definitions::NoMemory;
use mark_board::Marks;
use outside::Gate;
use round_contract::classes_of_marks;
use round_workers::{Threshold, mark_links};
use std::alloc::Global;
use std::thread::Threads;
use weighted_graph::{Graph, Labels};
use worker_team::{Crew, Team};

/// Scans the whole graph from vertex 1 with the cap value + 1, marks each edge whose link reaches
/// it, and answers whether there is one. Where there is none, each vertex had at most the value to
/// those scanned before it, so the graph is light.
pub(crate) fn mark_by_whole_scan(
    graph: &Graph,
    scan: &mut Scan,
    value: u64,
    marks: &mut Marks,
) -> bool
    requires stands { StandsFor scan.old graph.now }
    requires enough { 1 ≤ graph.now.vertices }
    requires value { value ≤ 2 ^ 62 }
    requires marks { marks.old.edges ≡ length graph.now.edges }
    requires safe { MarksAreSafe graph.now (has marks.old.marked) value 1 }
    ensures edges { marks.new.edges ≡ marks.old.edges }
    ensures safe { MarksAreSafe graph.now (has marks.new.marked) value 1 }
    ensures some { result ≡ true → SomeIsMarked marks.new }
    ensures light { result ≡ false → IsLight graph.now value }
{
    // known by this call: the graph is an edge list
    let _n = graph.n();
    let mut some = false;
    scan.start(1, value + 1);
    'steps: while let Some(next) = scan.next(graph) {
        if mark_links(graph, scan, next.vertex, value, 1, marks) {
            some = true;
        }
    }
    some
}

/// Classes that a whole scan with slack 1 shows, which no minimum cut parts; none where each
/// vertex is a class, and the graph is light then. It costs O((n + m) log n). The scan is gone
/// once the classes are answered.
fn whole_scan(alloc: Global, graph: &Graph, value: u64) -> Result<Option<Labels>, NoMemory>
    requires enough { 2 ≤ graph.now.vertices }
    requires value { value ≡ least_value graph.now }
    ensures step { IfOk result (λ found. IfSome found (IsStep graph.now (value + 1))) }
    ensures fewer { IfOk result (λ found. IfSome found (λ labels. classes labels < graph.now.vertices)) }
    ensures light { IfOk result (λ found. IfNone found (IsLight graph.now value)) }
{
    // known by this call: the graph is an edge list
    let _n = graph.n();
    let mut marks = Marks::none(alloc, graph.edges())?;
    let mut scan = Scan::new(alloc, graph)?;
    if !mark_by_whole_scan(graph, &mut scan, value, &mut marks) {
        return Ok(None);
    }
    let labels = classes_of_marks(alloc, graph, &marks)?;
    // known by this call: they are labels
    let _classes = labels.classes();
    Ok(Some(labels))
}

/// Classes that scans with slack 1 by so many workers show, or a whole scan by one where there is
/// one, or where several show none: each of those passes over what others took. None where that
/// shows none either, and the graph is light then.
fn kept_classes<T: Team>(
    team: &T,
    graph: &Graph,
    value: u64,
    workers: u32,
) -> Result<Option<Labels>, NoMemory>
    requires ready { T.ready team.now }
    requires enough { 2 ≤ graph.now.vertices }
    requires value { value ≡ least_value graph.now }
    ensures step { IfOk result (λ found. IfSome found (IsStep graph.now (value + 1))) }
    ensures fewer { IfOk result (λ found. IfSome found (λ labels. classes labels < graph.now.vertices)) }
    ensures light { IfOk result (λ found. IfNone found (IsLight graph.now value)) }
{
    if workers > 1 {
        let threshold = Threshold {
            bound: value,
            slack: 1,
        };
        let found = scan_together(team, graph, threshold, workers)?;
        if found.labels.classes() < graph.n() {
            return Ok(Some(found.labels));
        }
    }
    whole_scan(team.alloc(), graph, value)
}

/// Classes that a round with slack 1 shows or, where it shows none, a whole scan of the very same
/// graph. None where that shows none either.
fn closing_classes<R: Threads + Sync, G: Gate>(
    crew: &Crew<R, G>,
    graph: &Graph,
    value: u64,
) -> Result<Option<Labels>, NoMemory>
    requires enough { 2 ≤ graph.now.vertices }
    requires value { value ≡ least_value graph.now }
    ensures step { IfOk result (λ found. IfSome found (IsStep graph.now (value + 1))) }
    ensures fewer { IfOk result (λ found. IfSome found (λ labels. classes labels < graph.now.vertices)) }
    ensures closed { IfOk result (λ found. IfNone found (NoneIsCertified graph.now (value + 1))) }
    ensures light { IfOk result (λ found. IfNone found (IsLight graph.now value)) }
{
    let labels = round_at_value(crew, graph, value, crew.threads.workers())?;
    if labels.classes() < graph.n() {
        return Ok(Some(labels));
    }
    whole_scan(crew.threads.alloc, graph, value)
}

/// Contracts the classes of a round or a whole scan in what is kept of a graph,
/// and answers whether there were any.
pub(crate) fn close_once<R: Threads + Sync, G: Gate>(
    crew: &Crew<R, G>,
    kept: &mut Kernel,
) -> Result<bool, NoMemory>
    requires enough { 2 ≤ kept.old.graph.vertices }
    requires value { kept.old.value ≡ least_value kept.old.graph }
    requires counted { classes kept.old.labels ≡ kept.old.graph.vertices }
    ensures kept { IfOk result (λ _. IsKeptOn kept.old kept.new) }
    ensures fewer { IfOk result (λ some. some ≡ true → kept.new.graph.vertices < kept.old.graph.vertices) }
    ensures closed { IfOk result (λ some. some ≡ false → NoneIsCertified kept.new.graph (kept.new.value + 1)) }
    ensures light { IfOk result (λ some. some ≡ false → IsLight kept.new.graph kept.new.value) }
{
    let Some(labels) = closing_classes(crew, &kept.graph, kept.value)? else {
        return Ok(false);
    };
    keep_less(&crew.threads, kept, labels)?;
    Ok(true)
}

/// A round or a whole scan, and the contraction of the classes that it shows;
/// none where it shows none.
pub(crate) fn close_first<R: Threads + Sync, G: Gate>(
    crew: &Crew<R, G>,
    graph: &Graph,
    value: u64,
) -> Result<Option<Kernel>, NoMemory>
    requires enough { 2 ≤ graph.now.vertices }
    requires value { value ≡ least_value graph.now }
    ensures kept { IfOk result (λ found. IfSome found (λ k. IsKept graph.now k.value k.graph k.labels)) }
    ensures fewer { IfOk result (λ found. IfSome found (λ k. k.graph.vertices < graph.now.vertices)) }
    ensures light { IfOk result (λ found. IfNone found (IsLight graph.now value)) }
{
    let Some(labels) = closing_classes(crew, graph, value)? else {
        return Ok(None);
    };
    let kept = contract_safely(&crew.threads, graph, value, labels)?;
    Ok(Some(kept))
}

/// Scans by so many workers and their contraction once more,
/// and whether another one is worth its time.
fn scan_again<T: Team>(team: &T, kept: &mut Kernel, workers: u32) -> Result<bool, NoMemory>
    requires ready { T.ready team.now }
    requires enough { 2 ≤ kept.old.graph.vertices }
    requires value { kept.old.value ≡ least_value kept.old.graph }
    requires counted { classes kept.old.labels ≡ kept.old.graph.vertices }
    requires workers { (1 ≤ workers) × (workers ≤ 64) }
    ensures kept { IfOk result (λ _. IsKeptOn kept.old kept.new) }
    ensures at_most { IfOk result (λ _. kept.new.graph.vertices ≤ kept.old.graph.vertices) }
    ensures fewer { IfOk result (λ more. more ≡ true → kept.new.graph.vertices < kept.old.graph.vertices) }
{
    let before = kept.graph.n();
    let edges = kept.graph.edges();
    let scanning = scanners(&kept.graph, kept.value, workers);
    let Some(labels) = kept_classes(team, &kept.graph, kept.value, scanning)? else {
        return Ok(false);
    };
    keep_less(team, kept, labels)?;
    Ok(is_worth_another(kept.graph.n(), before, edges))
}

/// What scans by so many workers leave of a graph, after the first ones,
/// as long as another one is worth its time.
fn scan_on<T: Team>(
    team: &T,
    graph: &Graph,
    first: Kernel,
    workers: u32,
) -> Result<Kernel, NoMemory>
    requires ready { T.ready team.now }
    requires kept { IsKept graph.now first.value first.graph first.labels }
    requires workers { (1 ≤ workers) × (workers ≤ 64) }
    ensures kept { IfOk result (λ k. IsKept graph.now k.value k.graph k.labels) }
    ensures at_most { IfOk result (λ k. k.graph.vertices ≤ first.graph.vertices) }
{
    let mut kept = first;
    let mut shrinks = true;
    'scans: while shrinks {
        shrinks = scan_again(team, &mut kept, workers)?;
    }
    Ok(kept)
}

/// Scans and their contractions, as long as another one is worth its time. It answers what is
/// left and the labels that lead there, or none where the graph is bare or the first scan marks
/// nothing, and the graph is light then. There are O(log n) scans, each of O((n + m) log n).
/// Several workers scan side by side where the graph is large; where these take away too
/// little, one goes on alone.
pub fn reduce_by_scans<T: Team>(
    team: &T,
    graph: &Graph,
    value: u64,
) -> Result<Option<Kernel>, NoMemory>
    requires ready { T.ready team.now }
    requires enough { 2 ≤ graph.now.vertices }
    requires value { value ≡ least_value graph.now }
    ensures kept { IfOk result (λ found. IfSome found (λ k. IsKept graph.now k.value k.graph k.labels)) }
    ensures fewer { IfOk result (λ found. IfSome found (λ k. k.graph.vertices < graph.now.vertices)) }
    ensures light { IfOk result (λ found. IfNone found (IsLight graph.now value)) }
{
    let n = graph.n();
    if is_bare(team.alloc(), graph, value)? {
        return Ok(None);
    }
    let workers = team.workers();
    let scanning = scanners(graph, value, workers);
    let Some(labels) = kept_classes(team, graph, value, scanning)? else {
        return Ok(None);
    };
    let first = contract_safely(team, graph, value, labels)?;
    if is_worth_another(first.graph.n(), n, graph.edges()) {
        let kept = scan_on(team, graph, first, workers)?;
        return Ok(Some(kept));
    }
    if scanning > 1 {
        let kept = scan_on(team, graph, first, 1)?;
        return Ok(Some(kept));
    }
    Ok(Some(first))
}
