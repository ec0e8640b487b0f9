//! From arrays to a cactus of all minimum cuts and the masses of the vertices.

ghost use Rattle.std.specs.Prelude.{◌≡◌, ◌≢◌, ◌≤◌, IfOk, IfErr, length};
ghost use Rattle.cut_definitions.specs.Cuts.{value};
ghost use Rattle.edge_arrays.specs.Given.{given};
ghost use Rattle.rooted_cactus.specs.Solving.{IsSolved};
ghost use Rattle.mincut_c.specs.Statuses.{AreMasses, HasCuts, IsWeighedReason, masses_for, number_of};

use crate::masses::{check_masses, masses_of};
use crate::solving::solved_of_arrays;
use crate::status::Fault;
use cut_definitions::VertexWeights;
use rooted_cactus::Solved;
use std::alloc::Global;

/// The value of the graph of the arrays and a cactus of its minimum cuts, and the masses of its
/// vertices, which are looked at first.
pub(crate) fn weighed_of_arrays(
    alloc: Global,
    n: u32,
    us: &[u32],
    vs: &[u32],
    ws: &[u64],
    masses: &[u64],
) -> Result<(Solved, VertexWeights), Fault>
    ensures solved { IfOk result (λ r. IsSolved (given n us.now vs.now ws.now) r.0) }
    ensures masses { IfOk result (λ r. r.1 ≡ masses_for n masses.now) }
    ensures many { IfOk result (λ r. length r.1 ≡ n) }
    ensures fine { IfOk result (λ r. AreMasses n masses.now) }
    ensures given { IfOk result (λ r. HasCuts n us.now vs.now ws.now) }
    ensures positive { IfOk result (λ r. 1 ≤ value (given n us.now vs.now ws.now)) }
    ensures reason { IfErr result (λ fault. IsWeighedReason fault n us.now vs.now ws.now masses.now) }
    ensures known { IfErr result (λ fault. number_of fault ≢ 9) }
    ensures small { IfErr result (λ fault. number_of fault ≤ 10) }
{
    check_masses(n, masses)?;
    let solved = solved_of_arrays(alloc, n, us, vs, ws)?;
    let weights = masses_of(alloc, n, masses)?;
    Ok((solved, weights))
}
