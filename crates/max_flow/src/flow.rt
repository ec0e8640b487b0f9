//! A flow between two vertices of a graph.

ghost use Rattle.std.specs.Prelude.{◌≡◌, ◌≢◌, ◌↔◌, ℕ, ◌+◌, ◌≤◌, Some, None, map, IfOk, IsSome};
ghost use Rattle.cut_definitions.specs.Graph.{IsEdgeList};
ghost use Rattle.cut_definitions.specs.Weight.{VertexSet};
ghost use Rattle.cut_definitions.specs.Cuts.{has};
ghost use Rattle.weighted_graph.specs.Rows.{row_of};
ghost use Rattle.region_flow.specs.Residual.{out, counted, IsResidual};
ghost use Rattle.region_flow.specs.Closed.{residual_on, IsSourceSide};
ghost use Rattle.max_flow.specs.Tree.{AreWithin};
ghost use Rattle.region_flow.specs.Outcome.{IfBest, IsStopReached, best_run};

use crate::push::push;
use crate::rows::{fill, starts_of};
use crate::search::{Ends, Step, clear, search};
use crate::side::assign;
use cut_definitions::NoMemory;
use region_flow::residual::start;
use region_flow::{BestRun, Outcome};
use std::alloc::Global;
use std::marker::Model;
use vertex_set::Side;
use weighted_graph::Graph;

/// A flow between two vertices of a graph, with the memory for its searches.
///
/// It keeps no copy of its graph. It fits a graph that has its sizes, and for which what it keeps
/// of the last run is true, if that run returned `Best`.
#[derive(Drop)]
pub struct Flow {
    n: u32,

    // for each edge the residual toward its greater end
    toward: Vec<u64>,

    // the residuals of the arcs of all rows, and where each row begins; written at the end of a
    // run
    residuals: Vec<u64>,
    starts: Vec<usize>,
    source: Side,
    best: Option<BestRun>,

    // the memory of a search; between searches no vertex is marked
    marks: Vec<u32>,
    steps: Vec<Step>,
}

impl Model for Flow {
    ghost use Rattle.max_flow.specs.Flow.{FlowState};
    ghost use Rattle.max_flow.specs.Rows.{IsLaidOut, rows_within};

    ghost Value = { FlowState };

    ghost view = { λ f. record {
      vertices = f.n;
      toward = f.toward.items;
      rows = rows_within f.n f.residuals.items f.starts.items;
      source = f.source;
      best = f.best;
    } };

    ghost invariant = { λ f. IsLaidOut f.n f.starts.items f.residuals.items f.marks.items f.steps.items f.source };
}

impl Flow {
    ghost use Rattle.max_flow.specs.Flow.{HasSizesOf, StandsFor, ShowsLeastCuts, residuals_at};

    /// A flow for the graph, before any run.
    ///
    /// It takes time and memory O(n + m), which is all the memory that the flow ever takes. It
    /// fails only if it runs out of memory.
    pub fn new(alloc: Global, graph: &Graph) -> Result<Flow, NoMemory>
        ensures stands { IfOk result (λ f. StandsFor f graph.now) }
        ensures no_run { IfOk result (λ f. f.best ≡ None) }
    {
        let n = graph.n();
        let size = n as usize + 1;
        let first = Step {
            vertex: 0,
            parent: 0,
            edge: 0,
            bottleneck: 0,
        };
        let starts = starts_of(alloc, graph)?;
        let arcs = starts[size];
        let toward = vec![in alloc; 0u64; graph.edges()]?;
        let residuals = vec![in alloc; 0u64; arcs]?;
        let source = Side::empty(alloc, n)?;
        let marks = vec![in alloc; 0u32; size]?;
        let steps = vec![in alloc; first; size]?;
        Ok(Flow {
            n,
            toward,
            residuals,
            starts,
            source,
            best: None,
            marks,
            steps,
        })
    }

    /// The least weight of a cut between `s` and `t`, if it is below the stop.
    ///
    /// The two are different vertices of 1 to n, and the stop is at least 1. It returns `AtLeast`
    /// exactly if every cut between them weighs at least the stop. After `Best` the source side
    /// and the rows show all cuts of least weight. Earlier runs are forgotten.
    ///
    /// Each turn augments the flow by the bottleneck of a path of fewest arcs (Edmonds and Karp,
    /// 1972). So there are O(n m) turns, at most as many as the stop, each with one search in O(n
    /// + m). It takes no memory.
    pub fn run(&mut self, graph: &Graph, s: u32, t: u32, stop: u64) -> Outcome
        requires stands { StandsFor self.old graph.now }
        requires s_from_one { 1 ≤ s }
        requires s_to_n { s ≤ graph.now.vertices }
        requires t_from_one { 1 ≤ t }
        requires t_to_n { t ≤ graph.now.vertices }
        requires apart { s ≢ t }
        requires stop { 1 ≤ stop }
        ensures stands { StandsFor self.new graph.now }
        ensures stopped { (result ≡ Outcome.AtLeast) ↔ IsStopReached graph.now s t stop }
        ensures best { IfBest result (λ amount. ShowsLeastCuts graph.now s t amount self.new) }
        ensures last { self.new.best ≡ best_run s t result }
    {
        let ends = Ends { s, t };
        self.reset(graph);
        let mut amount = 0;
        while amount < stop {
            let pushed = self.augment(graph, ends);
            if pushed == 0 {
                self.finish(graph, BestRun { s, t, amount });
                return Outcome::Best(amount);
            }
            amount += pushed;
        }
        Outcome::AtLeast
    }

    /// The vertices that residual arcs reach from `s` after a last run that returned `Best`,
    /// borrowed.
    ///
    /// It is the least of the sets with `s` and without `t` whose weight is least. It can have
    /// vertex 1 or not.
    pub fn source_side(&self) -> &Side
        requires { IsSome self.now.best }
        ensures { result.now ≡ self.now.source }
    {
        &self.source
    }

    /// The residual of each arc of the row of a vertex, from 0 to n, after a last run that
    /// returned `Best`. It is a borrowed slice, in the order of the graph's row.
    ///
    /// The residuals of the two arcs of an edge add up to twice its weight. A set with `s` and
    /// without `t` is a cut of least weight between them exactly if no arc with a residual above 0
    /// leaves it.
    pub fn residual_row(&self, v: u32) -> &[u64]
        requires to_n { v ≤ self.now.vertices }
        requires best { IsSome self.now.best }
        ensures { result.now ≡ residuals_at self.now v }
    {
        let start = self.starts[v as usize];
        let end = self.starts[v as usize + 1];
        &self.residuals[start..end]
    }

    /// Forgets the last run, so that nothing flows.
    fn reset(&mut self, graph: &Graph)
        requires sizes { HasSizesOf self.old graph.now }
        ensures edge_list { IsEdgeList graph.now }
        ensures sizes { HasSizesOf self.new graph.now }
        ensures toward { self.new.toward ≡ map (λ e. e.w) graph.now.edges }
        ensures forgotten { self.new.best ≡ None }
    {
        start(graph, self.toward.as_mut_slice());
        self.best = None;
    }

    /// Augments the flow along one path from `s` to `t` by its bottleneck, and returns it. If
    /// there is no path, it returns 0, and the source side is then what can be reached from `s`.
    fn augment(&mut self, graph: &Graph, ends: Ends) -> u64
        requires edge_list { IsEdgeList graph.now }
        requires sizes { HasSizesOf self.old graph.now }
        requires residual { IsResidual graph.now self.old.toward }
        requires ends { AreWithin graph.now.vertices ends }
        ensures sizes { HasSizesOf self.new graph.now }
        ensures residual { IsResidual graph.now self.new.toward }
        ensures best_kept { self.new.best ≡ self.old.best }
        ensures pushed { 1 ≤ result → (side : VertexSet) →
            out graph.now.edges self.new.toward side + counted side ends.s result
            ≡ out graph.now.edges self.old.toward side + counted side ends.t result }
        ensures toward_kept { result ≡ 0 → self.new.toward ≡ self.old.toward }
        ensures source { result ≡ 0 → IsSourceSide graph.now self.new.toward ends.s ends.t (has self.new.source.members) }
    {
        let toward = self.toward.as_mut_slice();
        let marks = self.marks.as_mut_slice();
        let steps = self.steps.as_mut_slice();
        let count = search(graph, toward, ends, marks, steps);
        let mark = marks[ends.t as usize];
        if mark == 0 {
            assign(&mut self.source, marks);
            clear(marks, steps, count);
            return 0;
        }
        let amount = steps[mark as usize - 1].bottleneck;
        push(graph, toward, steps, mark - 1, amount);
        clear(marks, steps, count);
        amount
    }

    /// Writes the residuals of the arcs of all rows, at the end of a run that returns `Best`.
    fn finish(&mut self, graph: &Graph, run: BestRun)
        requires sizes { HasSizesOf self.old graph.now }
        requires residual { IsResidual graph.now self.old.toward }
        ensures sizes { HasSizesOf self.new graph.now }
        ensures toward_kept { self.new.toward ≡ self.old.toward }
        ensures source_kept { self.new.source ≡ self.old.source }
        ensures rows { (v : ℕ) → v ≤ graph.now.vertices →
            residuals_at self.new v ≡ map (residual_on v self.old.toward) (row_of graph.now v) }
        ensures best { self.new.best ≡ Some run }
    {
        let residuals = self.residuals.as_mut_slice();
        fill(
            graph,
            self.toward.as_slice(),
            self.starts.as_slice(),
            residuals,
        );
        self.best = Some(run);
    }
}
