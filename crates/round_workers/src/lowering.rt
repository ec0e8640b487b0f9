//! The bound after a step of a scan.

ghost use Rattle.std.specs.Prelude.{◌≡◌, if◌then◌else◌, min};

use capped_scan::Scanned;

/// The smaller of a bound and the weight of the scanned set, or the bound if that set has all
/// vertices.
pub fn lowered(next: Scanned, bound: u64) -> u64
    ensures { result ≡ (if next.all then bound else min bound next.prefix_weight) }
{
    if next.all {
        bound
    } else {
        bound.min(next.prefix_weight)
    }
}
