//! The graph of a list of edges, whose rows several workers can fill.

ghost use Rattle.std.specs.Prelude.{◌≡◌, IfOk};
ghost use Rattle.weighted_graph.specs.Rows.{IsIndexed};

use crate::distance::most_lead_far;
use crate::halves::fill_ranges;
use crate::range::Range;
use cut_definitions::{EdgeList, MOST_WORKERS, NoMemory};
use std::alloc::Global;
use std::thread::Threads;
use weighted_graph::row_index::row_starts;
use weighted_graph::{Arc, Graph, RowIndex};

/// The least number of edges for which threads pay off.
const EDGES_FOR_THREADS: usize = 1_048_576;

/// With fewer edges for each vertex, the lists that the workers make for their vertices cost as
/// much as they save.
const EDGES_FOR_EACH_VERTEX: usize = 8;

/// The writes into the rows of this many vertices stay in the nearer caches.
const NEAR: u32 = 16_384;

/// Whether several workers fill the rows sooner than one. This decides the running time only.
fn is_shared(list: &EdgeList) -> bool {
    let edges = list.len();
    edges >= EDGES_FOR_THREADS
        && edges / EDGES_FOR_EACH_VERTEX >= list.n() as usize
        && !most_lead_far(list.edges(), NEAR)
}

/// The rows and degrees of a list of edges, filled by as many threads as there are workers.
fn rows_by_ranges<R: Threads + Sync>(
    rt: &R,
    alloc: Global,
    list: &EdgeList,
    workers: u32,
) -> Result<RowIndex, NoMemory>
    ensures { IfOk result (λ r. IsIndexed list.now r.starts.items r.arcs.items r.degrees.items) }
{
    let edges = list.edges();
    let starts = row_starts(alloc, list.n(), edges)?;
    let free = Arc {
        to: 0,
        edge: 0,
        weight: 0,
    };
    let mut arcs = vec![in alloc; free; starts[starts.len() - 1]]?;
    let whole = Range {
        edges,
        starts: &starts,
        first: 0,
        workers,
    };
    let degrees = fill_ranges(rt, alloc, whole, &mut arcs)?;
    Ok(RowIndex {
        starts,
        arcs,
        degrees,
    })
}

/// The graph of a list of edges, which is taken over, as from `Graph::from_list`.
///
/// With two or more workers, the rows of some graphs are filled in parallel, each worker's for a
/// range of vertices. Such a graph has at least 1,048,576 edges and eight for each vertex, and
/// most of them lead to a near vertex. More than 64 workers count as 64. If no thread starts, the
/// call takes longer, and nothing else changes.
///
/// It takes O(n + m) steps for each worker, and memory in proportion to n + m. It fails only if it
/// runs out of memory; the list is dropped then.
pub fn graph_of_list<R: Threads + Sync>(
    rt: &R,
    alloc: Global,
    list: EdgeList,
    workers: u32,
) -> Result<Graph, NoMemory>
    ensures { IfOk result (λ g. g ≡ list) }
{
    if workers < 2 || !is_shared(&list) {
        return Graph::from_list(alloc, list);
    }
    let rows = rows_by_ranges(rt, alloc, &list, workers.min(MOST_WORKERS))?;
    Ok(Graph::from_rows(list, rows))
}
