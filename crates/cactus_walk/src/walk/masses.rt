//! The masses of the first vertices of a list, by which its ranges are weighed.

ghost use Rattle.std.specs.Prelude.{◌≡◌, ℕ, ◌+◌, ◌≤◌, IfOk, get_or, length};
ghost use Rattle.std.specs.List.{All};
ghost use Rattle.cut_definitions.specs.Graph.{IsVertex};
ghost use Rattle.cactus_walk.specs.RangeMasses.{mass_before};

use cut_definitions::{NoMemory, VertexWeights};
use std::alloc::Global;

/// For each place of a list of vertices, and finally for its end, the mass of the vertices before
/// it.
///
/// It takes one step and 16 bytes for each vertex, and fails only if it runs out of memory.
pub fn masses_before(
    alloc: Global,
    order: &[u32],
    weights: &VertexWeights,
) -> Result<Vec<u128>, NoMemory>
    requires vertices { All (IsVertex (length weights.now)) order.now }
    requires few { length order.now ≤ 4194304 }
    ensures long { IfOk result (λ v. length v.items ≡ length order.now + 1) }
    ensures masses { IfOk result (λ v. (k : ℕ) → k ≤ length order.now → get_or v.items k 0 ≡ mass_before weights.now order.now k) }
{
    // known by this call: each mass is below 2^64
    let _known = weights.len();
    let mut masses = Vec::with_capacity(alloc, order.len() + 1)?;
    let mut total: u128 = 0;
    masses.push(total)?;
    'places: for vertex in order {
        total += weights.of(*vertex) as u128;
        masses.push(total)?;
    }
    Ok(masses)
}
