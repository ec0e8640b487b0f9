//! Pushes along the path that a search found.

ghost use Rattle.std.specs.Prelude.{◌≡◌, ◌+◌, ◌≤◌};
ghost use Rattle.cut_definitions.specs.Graph.{IsEdgeList};
ghost use Rattle.cut_definitions.specs.Weight.{VertexSet};
ghost use Rattle.region_flow.specs.Residual.{out, counted, IsResidual};
ghost use Rattle.max_flow.specs.Tree.{step_at, IsPath};

use crate::search::Step;
use region_flow::residual::carry;
use weighted_graph::Graph;

/// Pushes an amount from the first vertex of the order to that at a place, arc by arc from its
/// end. One step for each arc of the path.
pub fn push(graph: &Graph, toward: &mut [u64], steps: &[Step], place: u32, amount: u64)
    requires edge_list { IsEdgeList graph.now }
    requires residual { IsResidual graph.now toward.old }
    requires path { IsPath graph.now toward.old steps.now place }
    requires bottleneck { amount ≤ (step_at steps.now place).bottleneck }
    ensures residual { IsResidual graph.now toward.new }
    ensures balance { (side : VertexSet) →
        out graph.now.edges toward.new side + counted side (step_at steps.now 0).vertex amount
        ≡ out graph.now.edges toward.old side + counted side (step_at steps.now place).vertex amount }
{
    let mut at = place;
    while at > 0 {
        let step = steps[at as usize];
        let edge = graph.edge(step.edge as usize);
        carry(toward, step.edge as usize, edge.v == step.vertex, amount);
        at = step.parent;
    }
}
