//! What each edge can still carry.
//!
//! There is one number for each edge: what can still go from its lesser end to its greater. The
//! two directions always add up to twice the weight of the edge, so the number tells both.

ghost use Rattle.std.specs.Prelude.{◌≡◌, ◌+◌, ◌-◌, ◌*◌, ◌<◌, ◌≤◌, ◌^◌, if◌then◌else◌, IsTrue, IsFalse, length, map, slice_index, slice_set};
ghost use Rattle.cut_definitions.specs.Graph.{IsEdgeList};
ghost use Rattle.region_flow.specs.Closed.{residual_on};

use weighted_graph::{Arc, Graph};

/// The flow of nothing: each edge can carry its weight in either direction.
pub fn start(graph: &Graph, toward: &mut [u64])
    requires { length toward.old ≡ length graph.now.edges }
    ensures edge_list { IsEdgeList graph.now }
    ensures toward { toward.new ≡ map (λ e. e.w) graph.now.edges }
{
    let edges = graph.edge_list();
    for (i, edge) in edges.iter().enumerate() {
        toward[i] = edge.w;
    }
}

/// What an arc of the row of `v` can still carry.
pub fn residual_on(arc: &Arc, v: u32, toward: &[u64]) -> u64
    requires edge { arc.now.edge < length toward.now }
    requires bounded { slice_index toward.now arc.now.edge ≤ 2 * arc.now.weight }
    requires small { arc.now.weight ≤ 2 ^ 61 }
    ensures { result ≡ residual_on v toward.now arc.now }
{
    let toward = toward[arc.edge as usize];
    if v < arc.to {
        toward
    } else {
        2 * arc.weight - toward
    }
}

/// Carries an amount along an edge, to its greater end or back.
pub fn carry(toward: &mut [u64], edge: usize, upward: bool, amount: u64)
    requires edge { edge < length toward.old }
    requires up { IsTrue upward → amount ≤ slice_index toward.old edge }
    requires down { IsFalse upward → slice_index toward.old edge + amount < 2 ^ 64 }
    ensures { toward.new
        ≡ slice_set toward.old edge (if upward then slice_index toward.old edge - amount else slice_index toward.old edge + amount) }
{
    if upward {
        toward[edge] -= amount;
    } else {
        toward[edge] += amount;
    }
}
