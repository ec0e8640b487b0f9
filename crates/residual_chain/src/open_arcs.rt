//! The arcs that a search takes.

ghost use Rattle.std.specs.Prelude.{slice_index};
ghost use Rattle.weighted_graph.specs.Rows.{row_of, arc_at};
ghost use Rattle.max_flow.specs.Flow.{residuals_at};
ghost use Rattle.residual_chain.specs.Residuals.{leads};
ghost use Rattle.arc_search.specs.Directions.{is_open};
ghost use Rattle.residual_chain.specs.Search.{steps, IsSearchable};
ghost use Rattle.residual_chain.specs.Arcs.{HasArcs-searchable};

use arc_search::{Direction, StepArcs};
use max_flow::Flow;
use weighted_graph::{Arc, Graph};

/// The residual arcs of a graph under a flow, taken along or against them.
#[derive(Clone, Copy)]
pub struct OpenArcs<'a> {
    pub graph: &'a Graph,
    pub flow: &'a Flow,
    pub direction: Direction,
}

impl StepArcs for OpenArcs<'_> {
    ghost vertices = { λ a. a.graph.now.vertices };

    ghost rows = { λ a. row_of a.graph.now };

    ghost open_at = { λ a v place. is_open a.direction (arc_at (row_of a.graph.now v) place) (slice_index (residuals_at a.flow.now v) place) };

    ghost goes = { λ a. steps a.direction (leads a.graph.now a.flow.now) };

    ghost can_search = { λ a. IsSearchable a.graph.now a.flow.now };

    ghost has_arcs = { λ a can. HasArcs-searchable a.graph.now a.flow.now a.direction can };

    fn row(&self, v: u32) -> &[Arc] {
        self.graph.row(v)
    }

    fn is_open(&self, v: u32, place: usize, arc: Arc) -> bool {
        let residuals = self.flow.residual_row(v);
        self.direction.is_open(arc, residuals[place])
    }
}
