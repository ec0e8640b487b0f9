//! One scan of a graph, by one worker or by several, for the value alone or for all minimum cuts.

ghost use Rattle.std.specs.Prelude.{◌≡◌, ◌*◌, ◌≤◌, ◌^◌, IfOk, length, min, true};
ghost use Rattle.cut_definitions.specs.Contraction.{classes};
ghost use Rattle.cut_definitions.specs.Cuts.{has, value};
ghost use Rattle.cut_definitions.specs.Safe.{IsFair};
ghost use Rattle.weighted_graph.specs.Marks.{MarksAreSafe};
ghost use Rattle.capped_scan.specs.Scan.{StandsFor};
ghost use Rattle.min_value.specs.Scanning.{IsScan};

use crate::kept_graph::is_worth_another;
use crate::scanners::scanners;
use capped_scan::Scan;
use cut_definitions::NoMemory;
use mark_board::Marks;
use round_contract::classes_of_marks;
use round_workers::{Threshold, lowered, mark_links};
use weighted_graph::{Graph, Labels};
use worker_team::Team;

/// What a scan tells: a bound, and classes that no minimum cut parts if the value is
/// below that and the slack.
#[derive(Drop)]
pub(crate) struct Scanned {
    pub(crate) bound: u64,
    pub(crate) labels: Labels,
}

impl Scanned {
    /// Whether there are so few classes that another scan,
    /// of the graph on them, is worth its time.
    pub(crate) fn is_worth_another(&self, graph: &Graph) -> bool
        ensures { result ≡ true → classes self.now.labels * 50 ≤ graph.now.vertices * 49 }
    {
        is_worth_another(self.labels.classes(), graph.n(), graph.edges())
    }
}

/// Scans the graph from vertex 1, with the bound and the slack of a threshold as the
/// cap, and marks by links. It answers the lesser of the bound and the weights of
/// the sets that were scanned.
fn mark_by_links(graph: &Graph, scan: &mut Scan, threshold: Threshold, marks: &mut Marks) -> u64
    requires stands { StandsFor scan.old graph.now }
    requires some { 1 ≤ graph.now.vertices }
    requires bound { threshold.bound ≤ 2 ^ 62 }
    requires slack { threshold.slack ≤ 1 }
    requires marks { marks.old.edges ≡ length graph.now.edges }
    requires safe { MarksAreSafe graph.now (has marks.old.marked) threshold.bound threshold.slack }
    ensures at_most { result ≤ threshold.bound }
    ensures at_least { min threshold.bound (value graph.now) ≤ result }
    ensures edges { marks.new.edges ≡ marks.old.edges }
    ensures safe { MarksAreSafe graph.now (has marks.new.marked) result threshold.slack }
{
    scan.start(1, threshold.bound + threshold.slack);
    let mut least = threshold.bound;
    for _ in 0..graph.n() {
        let Some(next) = scan.next(graph) else {
            return least;
        };
        least = lowered(next, least);
        mark_links(graph, scan, next.vertex, least, threshold.slack, marks);
    }
    least
}

/// One scan by one worker.
fn scan_alone<T: Team>(team: &T, graph: &Graph, threshold: Threshold) -> Result<Scanned, NoMemory>
    requires ready { T.ready team.now }
    requires enough { 2 ≤ graph.now.vertices }
    requires bound { threshold.bound ≤ 2 ^ 62 }
    requires slack { threshold.slack ≤ 1 }
    ensures { IfOk result (IsScan graph.now threshold) }
{
    let mut marks = Marks::none(team.alloc(), graph.edges())?;
    let mut scan = Scan::new(team.alloc(), graph)?;
    let bound = mark_by_links(graph, &mut scan, threshold, &mut marks);
    let labels = classes_of_marks(team.alloc(), graph, &marks)?;
    // known by this call: they are labels
    let _classes = labels.classes();
    Ok(Scanned { bound, labels })
}

/// Scans by several workers side by side, which open with a weight of a cut.
pub(crate) fn scan_together<T: Team>(
    team: &T,
    graph: &Graph,
    opening: Threshold,
    workers: u32,
) -> Result<Scanned, NoMemory>
    requires ready { T.ready team.now }
    requires enough { 2 ≤ graph.now.vertices }
    requires fair { IsFair graph.now opening.bound }
    requires slack { opening.slack ≤ 1 }
    ensures { IfOk result (IsScan graph.now opening) }
{
    let (bound, marks) = team.scan_round(graph, opening, workers)?;
    let labels = classes_of_marks(team.alloc(), graph, &marks)?;
    // known by this call: they are labels
    let _classes = labels.classes();
    Ok(Scanned { bound, labels })
}

/// One scan: of workers side by side where the graph is large, who open with the least degree, and
/// of one where it is not, or where theirs take away too little.
pub(crate) fn scan<T: Team>(
    team: &T,
    graph: &Graph,
    threshold: Threshold,
) -> Result<Scanned, NoMemory>
    requires ready { T.ready team.now }
    requires enough { 2 ≤ graph.now.vertices }
    requires bound { threshold.bound ≤ 2 ^ 62 }
    requires slack { threshold.slack ≤ 1 }
    ensures { IfOk result (IsScan graph.now threshold) }
{
    let workers = scanners(graph, threshold.bound, team.workers());
    if workers == 1 {
        return scan_alone(team, graph, threshold);
    }
    let opening = Threshold {
        bound: graph.least_degree(),
        slack: threshold.slack,
    };
    let found = scan_together(team, graph, opening, workers)?;
    let lower = Threshold {
        bound: found.bound.min(threshold.bound),
        slack: threshold.slack,
    };
    if found.is_worth_another(graph) {
        return Ok(Scanned {
            bound: lower.bound,
            labels: found.labels,
        });
    }
    let next = scan_alone(team, graph, lower)?;
    Ok(next)
}
