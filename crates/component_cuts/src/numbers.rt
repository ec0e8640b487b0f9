//! The components of a graph as numbers of its vertices.

ghost use Rattle.std.specs.Prelude.{◌≡◌, ◌∷◌, IfOk};

use cut_definitions::NoMemory;
use std::alloc::Global;
use weighted_graph::Labels;

/// A 0 at place 0, and the label of each vertex at the place of its number.
pub(crate) fn numbers_of(alloc: Global, labels: &Labels) -> Result<Vec<u32>, NoMemory>
    ensures { IfOk result (λ numbers. numbers.items ≡ 0 ∷ labels.now) }
{
    let mut numbers = Vec::with_capacity(alloc, labels.n() as usize + 1)?;
    numbers.push(0)?;
    numbers.extend_from_slice(labels.as_slice())?;
    Ok(numbers)
}
