//! The rows of both halves of a range, filled in parallel.

ghost use Rattle.std.specs.Prelude.{ℕ, ◌≡◌, ◌++◌, List, IfOk, length};
ghost use Rattle.std.specs.Thread.{IsSync};
ghost use Rattle.row_ranges.specs.Ranges.{HasRange, IsRange};

use crate::filling::fill_range;
use crate::range::{Range, middle};
use cut_definitions::NoMemory;
use std::alloc::Global;
use std::thread::{Threads, join_mut};
use weighted_graph::Arc;

/// Fills the rows of two adjacent ranges in parallel, and returns the degrees of both.
#[cycle(ranges)]
fn fill_halves<R: Threads + Sync>(
    rt: &R,
    alloc: Global,
    low: Range,
    high: Range,
    low_arcs: &mut [Arc],
    high_arcs: &mut [Arc],
) -> Result<Vec<u64>, NoMemory>
    requires low { IsRange low.edges.now low.starts.now low.first (length low_arcs.old) }
    requires high { IsRange high.edges.now high.starts.now high.first (length high_arcs.old) }
    ensures { IfOk result (λ degrees. (lows highs : List ℕ) × (degrees.items ≡ lows ++ highs) × HasRange low.entry.edges.now low.entry.starts.now low.entry.first low_arcs.new lows × HasRange high.entry.edges.now high.entry.starts.now high.entry.first high_arcs.new highs) }
{
    let mut front = || -> Result<Vec<u64>, NoMemory>
        requires { IsSync R.row × IsRange low.edges.now low.starts.now low.first (length low_arcs.now) }
        ensures { IfOk result (λ degrees. HasRange low.entry.edges.now low.entry.starts.now low.entry.first low_arcs.exit.now degrees.items) }
    { fill_ranges(rt, alloc, low, low_arcs) };
    let mut back = || -> Result<Vec<u64>, NoMemory>
        requires { IsSync R.row × IsRange high.edges.now high.starts.now high.first (length high_arcs.now) }
        ensures { IfOk result (λ degrees. HasRange high.entry.edges.now high.entry.starts.now high.entry.first high_arcs.exit.now degrees.items) }
    { fill_ranges(rt, alloc, high, high_arcs) };
    let (a, b) = join_mut(rt, &mut front, &mut back);
    let mut degrees = a?;
    let mut others = b?;
    degrees.append(&mut others)?;
    Ok(degrees)
}

/// Fills the rows of a range, its halves in parallel if it has two or more workers, and returns
/// the degrees.
#[cycle(ranges)]
pub(crate) fn fill_ranges<R: Threads + Sync>(
    rt: &R,
    alloc: Global,
    range: Range,
    arcs: &mut [Arc],
) -> Result<Vec<u64>, NoMemory>
    requires { IsRange range.edges.now range.starts.now range.first (length arcs.old) }
    ensures { IfOk result (λ degrees. HasRange range.entry.edges.now range.entry.starts.now range.entry.first arcs.new degrees.items) }
{
    if range.workers < 2 || range.starts.len() < 3 {
        return fill_range(alloc, range, arcs);
    }
    let place = middle(range.starts);
    let low = Range {
        starts: &range.starts[..=place],
        workers: range.workers / 2,
        ..range
    };
    let high = Range {
        starts: &range.starts[place..],
        first: range.first + place,
        workers: range.workers - range.workers / 2,
        ..range
    };
    let (low_arcs, high_arcs) = arcs.split_at_mut(range.starts[place] - range.starts[0]);
    fill_halves(rt, alloc, low, high, low_arcs, high_arcs)
}
