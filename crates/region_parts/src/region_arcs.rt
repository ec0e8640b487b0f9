//! The arcs of a search inside the regions of a flow.

ghost use Rattle.std.specs.Prelude.{◌≡◌, ◌*◌, ◌<◌, ◌≤◌, ◌^◌, length, slice_index};
ghost use Rattle.cut_definitions.specs.Graph.{IsGraph};
ghost use Rattle.weighted_graph.specs.Rows.{row_of, arc_at};
ghost use Rattle.region_flow.specs.Regions.{IsRegionFlow};
ghost use Rattle.region_parts.specs.Steps.{amount_in, is_open_in, steps_in};
ghost use Rattle.region_parts.specs.RegionRows.{HasArcs-region};

use arc_search::{Direction, StepArcs};
use region_flow::RegionFlow;
use weighted_graph::{Arc, Graph};

/// The arcs inside the regions of a flow that can still carry something,
/// taken along or against them.
#[derive(Clone, Copy)]
pub struct RegionArcs<'a> {
    pub graph: &'a Graph,
    pub flow: &'a RegionFlow,
    pub direction: Direction,
}

/// What an arc of the row of `v`, or the one that comes back on it, can still carry.
fn amount(flow: &RegionFlow, direction: Direction, v: u32, arc: Arc) -> u64
    requires edge { arc.edge < length flow.now.toward }
    requires bounded { slice_index flow.now.toward arc.edge ≤ 2 * arc.weight }
    requires small { arc.weight ≤ 2 ^ 61 }
    ensures { result ≡ amount_in flow.now direction v arc }
{
    let toward = flow.toward(arc.edge as usize);
    let rises = match direction {
        Direction::Along => v < arc.to,
        Direction::Against => arc.to < v,
    };
    if rises {
        toward
    } else {
        2 * arc.weight - toward
    }
}

impl StepArcs for RegionArcs<'_> {
    ghost vertices = { λ a. a.graph.now.vertices };

    ghost rows = { λ a. row_of a.graph.now };

    ghost open_at = { λ a v place. is_open_in a.flow.now a.direction v (arc_at (row_of a.graph.now v) place) };

    ghost goes = { λ a. steps_in a.graph.now a.flow.now a.direction };

    ghost can_search = { λ a. IsGraph a.graph.now × IsRegionFlow a.graph.now a.flow.now };

    ghost has_arcs = { λ a can. HasArcs-region a.graph.now a.flow.now a.direction can.0 };

    fn row(&self, v: u32) -> &[Arc] {
        self.graph.row(v)
    }

    fn is_open(&self, v: u32, _place: usize, arc: Arc) -> bool {
        let _n = self.graph.n();
        if self.flow.label(arc.to) != self.flow.label(v) {
            return false;
        }
        amount(self.flow, self.direction, v, arc) > 0
    }
}
