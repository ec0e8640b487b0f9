//! The sum of the weights of edges, tested at each edge.

ghost use Rattle.std.specs.Prelude.{◌≡◌, ◌+◌, ◌≤◌, ◌^◌, IfOk, IfErr};
ghost use Rattle.edge_arrays.specs.Given.{AreVertices, edge_of, free_weight};
ghost use Rattle.edge_arrays.specs.Faults.{ExplainsEdge};

use crate::ArrayFault;
use cut_definitions::MOST_WEIGHT;

/// The sum of weights with that of one more edge, which counts unless it is a loop. Its ends are
/// tested first.
pub(crate) fn sum_with(total: u64, n: u32, u: u32, v: u32, w: u64) -> Result<u64, ArrayFault>
    requires { total ≤ 2 ^ 61 }
    ensures ends { IfOk result (λ sum. AreVertices n u v) }
    ensures sum { IfOk result (λ sum. sum ≡ total + free_weight (edge_of u v w)) }
    ensures small { IfOk result (λ sum. sum ≤ 2 ^ 61) }
    ensures fault { IfErr result (λ fault. ExplainsEdge fault total n u v w) }
{
    if u >= n || v >= n {
        return Err(ArrayFault::BadVertex);
    }
    if u == v {
        return Ok(total);
    }
    if w > MOST_WEIGHT - total {
        return Err(ArrayFault::WeightSum);
    }
    Ok(total + w)
}
