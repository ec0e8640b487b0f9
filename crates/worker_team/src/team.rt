//! The steps that several workers can share.

ghost use Rattle.std.specs.Prelude.{◌≡◌, ◌≤◌, IfOk, length};
ghost use Rattle.cut_definitions.specs.Contraction.{relabel};
ghost use Rattle.cut_definitions.specs.Cuts.{has};
ghost use Rattle.cut_definitions.specs.Safe.{IsFair};
ghost use Rattle.weighted_graph.specs.Marks.{MarksAreSafe};

use cut_definitions::{EdgeList, NoMemory};
use mark_board::Marks;
use round_workers::Threshold;
use std::alloc::Global;
use weighted_graph::{Graph, Labels};

/// Workers, and the allocator that they use. What a call returns does not depend on who does it,
/// except for what its contract leaves free. Each call fails only if it runs out of memory.
pub trait Team {
    /// What the workers need: that threads may share the runtime.
    ghost ready: { Self → Type 0 };

    /// The allocator.
    fn alloc(&self) -> Global;

    /// The number of workers, 1 to 64.
    fn workers(&self) -> u32
        ensures { (1 ≤ result) × (result ≤ 64) };

    /// The graph of a list of edges, which is taken over, as from `row_ranges::graph_of_list`.
    fn graph(&self, list: EdgeList) -> Result<Graph, NoMemory>
        requires { ready self.now }
        ensures { IfOk result (λ g. g ≡ list) };

    /// The list of edges of the graph on the classes of labels, of which there is one for each
    /// vertex, as from `round_contract::contracted_list`.
    fn contracted_list(&self, graph: &Graph, labels: &Labels) -> Result<EdgeList, NoMemory>
        requires ready { ready self.now }
        requires labels { length labels.now ≡ graph.now.vertices }
        ensures { IfOk result (λ l. l ≡ relabel graph.now labels.now) };

    /// The last bound and the marks of `workers` workers, which scan in parallel and begin with
    /// the weight of a cut, as from `round_workers::scan_round` with an open gate. A number below
    /// 1 counts as 1, and one above 64 as 64. The calling thread alone marks nothing here and
    /// keeps the bound, since one worker needs no board.
    fn scan_round(
        &self,
        graph: &Graph,
        opening: Threshold,
        workers: u32,
    ) -> Result<(u64, Marks), NoMemory>
        requires ready { ready self.now }
        requires enough { 2 ≤ graph.now.vertices }
        requires fair { IsFair graph.now opening.bound }
        requires slack { opening.slack ≤ 1 }
        ensures fair { IfOk result (λ r. IsFair graph.now r.0) }
        ensures at_most { IfOk result (λ r. r.0 ≤ opening.bound) }
        ensures edges { IfOk result (λ r. r.1.edges ≡ length graph.now.edges) }
        ensures safe { IfOk result (λ r. MarksAreSafe graph.now (has r.1.marked) r.0 opening.slack) };
}
