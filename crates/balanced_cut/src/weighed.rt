//! The best of the cuts of a cactus, found by two ends that move along the borders of its blocks.

ghost use Rattle.std.specs.Prelude.{◌≡◌, ◌≢◌, ◌+◌, ◌<◌, ◌≤◌, [], IfOk, length};
ghost use Rattle.std.specs.List.{Contains};
ghost use Rattle.balanced_cut.specs.Ends.{IsBestBefore, NoneGreater};
ghost use Rattle.rooted_cactus.specs.Borders.{ranges_between};
ghost use Rattle.rooted_cactus.specs.Rooted.{sides_of};
ghost use Rattle.rooted_cactus.specs.Trees.{blocks};
ghost use Rattle.cactus_walk.specs.Weighing.{IsRangeOf, range_balance, range_of};
ghost use Rattle.cut_definitions.specs.Balance.{IsBest};

use crate::NoMemory;
use cactus_walk::{CutRanges, Span, cut_places, next_start};
use cut_definitions::VertexWeights;
use rooted_cactus::Cactus;
use std::alloc::Global;
use vertex_set::Side;

/// The best range so far, and the border at which a range first had half of the total mass.
#[derive(Clone, Copy)]
struct Search {
    best: Span,
    end: usize,
}

/// The range with the greater balance, the first if both have the same.
fn better(ranges: &CutRanges, best: Span, contender: Span) -> Span
    requires best { IsRangeOf (length ranges.now.order.items) (range_of best) }
    requires contender { IsRangeOf (length ranges.now.order.items) (range_of contender) }
    ensures put { range_balance ranges.now (range_of best) < range_balance ranges.now (range_of contender) → range_of result ≡ range_of contender }
    ensures kept { range_balance ranges.now (range_of contender) ≤ range_balance ranges.now (range_of best) → range_of result ≡ range_of best }
{
    if ranges.balance(contender) > ranges.balance(best) {
        contender
    } else {
        best
    }
}

/// Weighs two ranges that begin at a border: the shortest that has half of the total mass or more,
/// and the next shorter one.
///
/// No other has a greater balance: the longer ones leave no more than the first, and the shorter
/// ones have no more mass than the second. From the next border on a range is shorter, so the end
/// does not go back.
fn weigh_from(ranges: &CutRanges, start: usize, search: Search) -> Search
    requires start { start < length ranges.now.borders.items }
    requires search { IsBestBefore ranges.now start (range_of search.best) search.end }
    ensures { IsBestBefore ranges.now (start + 1) (range_of result.best) result.end }
{
    let last = ranges.last_of(start);
    if start == last {
        return search;
    }
    let total = ranges.total();
    let end = ranges.first_end(total - total / 2, start, search.end);
    let longer = ranges.between(start, end.min(last));
    let shorter = ranges.between(start, (end - 1).max(start + 1));
    let best = better(ranges, search.best, longer);
    Search {
        best: better(ranges, best, shorter),
        end,
    }
}

/// The best range between two borders of one block.
fn best_span(ranges: &CutRanges) -> Span
    requires some { ranges_between ranges.now.borders.items ≢ [] }
    ensures member { Contains (ranges_between ranges.now.borders.items) (range_of result) }
    ensures none_greater { NoneGreater ranges.now (ranges_between ranges.now.borders.items) (range_of result) }
{
    let first = next_start(&ranges.borders, 0);
    let mut search = Search {
        best: ranges.between(first, first + 1),
        end: first,
    };
    'starts: for start in first..ranges.borders.len() {
        search = weigh_from(ranges, start, search);
    }
    search.best
}

/// A side of a cut of the cactus whose balance by the masses of the vertices is greatest among all
/// its sides. The contract leaves free which of several such sides it is.
///
/// It takes one step for each vertex and each node of the cactus, in loops, and memory in
/// proportion to these. It fails only if it runs out of memory.
pub fn best(alloc: Global, cactus: &Cactus, weights: &VertexWeights) -> Result<Side, NoMemory>
    requires some { blocks cactus.now.root ≢ [] }
    requires weights { length weights.now ≡ cactus.now.vertices }
    ensures n { IfOk result (λ s. s.vertices ≡ cactus.now.vertices) }
    ensures best { IfOk result (λ s. IsBest weights.now (sides_of cactus.now) s.members) }
{
    // known by this call: that it is a cactus
    let _n = cactus.n();
    let places = cut_places(alloc, cactus)?;
    let ranges = CutRanges::of(alloc, places.order, places.borders, weights)?;
    let span = best_span(&ranges);
    ranges.side(alloc, span)
}
