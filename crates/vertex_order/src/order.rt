//! Labels that number the vertices in the order in which a breadth-first search finds them.

ghost use Rattle.std.specs.Prelude.{IfOk, IfSome};
ghost use Rattle.vertex_order.specs.Numbering.{IsNumbering};

use crate::finding::Finding;
use cut_definitions::NoMemory;
use row_ranges::most_lead_far;
use std::alloc::Global;
use weighted_graph::{Graph, Labels};

/// The arrays of this many vertices do not fit the nearer caches.
const FAR: u32 = 4_096;

/// If at least one in this many vertices waits at once, their order says little about who is near.
const PART_WAITING: usize = 12;

/// Labels by which neighbours are nearer to each other: the vertices in the order of a
/// breadth-first search from vertex 1. The result is none if most edges lead to a near vertex
/// already, there are fewer edges than vertices, or the search is no use. It is no use if it does
/// not find all vertices, or too many wait at once.
pub(crate) fn nearer_order(alloc: Global, graph: &Graph) -> Result<Option<Labels>, NoMemory>
    ensures { IfOk result (λ found. IfSome found (IsNumbering graph.now.vertices)) }
{
    let n = graph.n() as usize;
    if n == 0 || graph.edges() < n || !most_lead_far(graph.edge_list(), FAR) {
        return Ok(None);
    }
    let mut finding = Finding::new(alloc, graph.n())?;
    for place in 0..n {
        let found = finding.count();
        if place >= found || found - place > n / PART_WAITING {
            return Ok(None);
        }
        finding.find_beside(graph, place)?;
    }
    Ok(Some(Labels::from_list(finding.numbers)))
}
