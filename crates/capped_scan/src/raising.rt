//! Raising the keys of vertices along a row.

ghost use Rattle.std.specs.Prelude.{◌≡◌, ℕ, ◌+◌, ◌*◌, ◌<◌, ◌≤◌, ◌^◌, true, length, slice_index, if◌then◌else◌};
ghost use Rattle.std.specs.List.{sum_by, All};
ghost use Rattle.weighted_graph.specs.declared.graph.Arc.{Arc};
ghost use Rattle.weighted_graph.specs.Rows.{weight_in};
ghost use Rattle.capped_scan.specs.Maxima.{IsMaxTree, IsWritten};
ghost use Rattle.capped_scan.specs.Scan.{is_marked, raised};

use crate::maxima::write;
use weighted_graph::Arc;

/// Adds a weight to the link that a leaf keeps as its key, up to the cap, unless the key is 0.
fn raise(tree: &mut [u64], size: usize, leaf: usize, weight: u64, cap: u64)
    requires tree { IsMaxTree size tree.old }
    requires low { size ≤ leaf }
    requires high { leaf < 2 * size }
    requires fits { slice_index tree.old leaf + weight < 2 ^ 64 }
    requires capped { slice_index tree.old leaf ≤ cap + 1 }
    ensures { IsWritten size leaf (raised cap (slice_index tree.old leaf) weight) tree.old tree.new }
{
    let key = tree[leaf];
    if key > 0 {
        write(tree, size, leaf, cap.min(key - 1 + weight) + 1);
    }
}

/// Adds the weights of a row's arcs to the links of those ends that wait, up to the cap. It
/// returns the weight of the arcs to marked vertices, which do not wait. O(d log size) for d arcs.
pub fn raise_along(row: &[Arc], cap: u64, scanned: &[bool], tree: &mut [u64], size: usize) -> u64
    requires tree { IsMaxTree size tree.old }
    requires marks { length scanned.now ≤ size }
    requires within { All (λ (a : Arc). a.to < length scanned.now) row.now }
    requires total { sum_by (λ (a : Arc). a.weight) row.now ≤ 2 ^ 61 }
    requires small { (v : ℕ) → v < size → slice_index tree.old (size + v) ≤ 2 ^ 61 + 1 }
    requires capped { (v : ℕ) → v < size → slice_index tree.old (size + v) ≤ cap + 1 }
    requires marked { (v : ℕ) → is_marked scanned.now v ≡ true → slice_index tree.old (size + v) ≡ 0 }
    ensures tree { IsMaxTree size tree.new }
    ensures keys { (v : ℕ) → v < size → slice_index tree.new (size + v) ≡ raised cap (slice_index tree.old (size + v)) (weight_in row.now v) }
    ensures inside { result ≡ sum_by (λ (a : Arc). if is_marked scanned.now a.to then a.weight else 0) row.now }
{
    let mut inside = 0;
    for arc in row {
        let to = arc.to as usize;
        if scanned[to] {
            inside += arc.weight;
        } else {
            raise(tree, size, size + to, arc.weight, cap);
        }
    }
    inside
}
