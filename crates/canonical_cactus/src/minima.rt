//! The least numbers of ranges of a list, by a tree of minima in one vector. The nodes 2 i and 2 i
//! + 1 are below node i, and the numbers themselves are the second half, the leaves.

ghost use Rattle.std.specs.Prelude.{◌≡◌, ℕ, ◌+◌, ◌*◌, ◌<◌, ◌≤◌, IfOk, length, min, slice_index};
ghost use Rattle.canonical_cactus.specs.Minima.{IsLeast, IsMinTree, leaf_at};

use cactus_walk::Span;
use cut_definitions::NoMemory;
use std::alloc::Global;

/// A tree of minima over a list of numbers.
#[derive(Drop)]
pub(crate) struct Minima {
    /// How many numbers there are.
    pub(crate) size: usize,
    /// The nodes from 1 on, and after them the numbers.
    pub(crate) tree: Vec<u32>,
}

/// Computes the inner nodes from the leaves.
fn build(tree: &mut [u32], size: usize)
    requires long { length tree.old ≡ 2 * size }
    ensures nodes { (i : ℕ) → 1 ≤ i → i < size → slice_index tree.new i ≡ min (slice_index tree.new (2 * i)) (slice_index tree.new (2 * i + 1)) }
    ensures leaves { (j : ℕ) → size ≤ j → slice_index tree.new j ≡ slice_index tree.old j }
{
    let mut node = size;
    while node > 1 {
        node -= 1;
        tree[node] = tree[2 * node].min(tree[2 * node + 1]);
    }
}

impl Minima {
    /// The tree over these numbers. It takes one step and 8 bytes for each, and fails only if it
    /// runs out of memory.
    pub(crate) fn of(alloc: Global, numbers: &[u32]) -> Result<Minima, NoMemory>
        requires few { length numbers.now ≤ 4194304 }
        ensures tree { IfOk result IsMinTree }
        ensures size { IfOk result (λ m. m.size ≡ length numbers.now) }
        ensures leaves { IfOk result (λ m. (p : ℕ) → p < length numbers.now → leaf_at m p ≡ slice_index numbers.now p) }
    {
        let size = numbers.len();
        let mut tree = vec![in alloc; 0u32; size]?;
        tree.extend_from_slice(numbers)?;
        build(&mut tree, size);
        Ok(Minima { size, tree })
    }

    /// The least of the numbers at the places of a range, or u32::MAX if the range is empty.
    ///
    /// It goes up level by level, looks at the nodes at both ends, and goes on with the nodes
    /// above those between. So the number of steps is in proportion to the logarithm of the length
    /// of the range.
    pub(crate) fn least(&self, span: Span) -> u32
        requires tree { IsMinTree self.now }
        requires from { span.from ≤ self.now.size }
        requires to { span.to ≤ self.now.size }
        ensures { IsLeast self.now span.from span.to result }
    {
        let mut low = self.size + span.from;
        let mut high = self.size + span.to;
        let mut least = u32::MAX;
        'levels: while low < high {
            least = least.min(self.tree[low]).min(self.tree[high - 1]);
            low = (low + 1) / 2;
            high /= 2;
        }
        least
    }
}
