//! Graphs in which a scan would find next to nothing to contract.

ghost use Rattle.std.specs.Prelude.{◌≡◌, ◌≤◌, ◌^◌, true, IfOk};
ghost use Rattle.min_value.specs.Kernels.{IsLight};

use crate::scanners::total_weight;
use capped_scan::Scan;
use cut_definitions::NoMemory;
use std::alloc::Global;
use weighted_graph::Graph;

/// How many edges join two vertices that are both heavier than the value. No other edge can be
/// contracted: one of its ends is alone on a side of a minimum cut.
fn edges_between_heavy(graph: &Graph, value: u64) -> usize {
    let edges = graph.edge_list();
    let mut count = 0usize;
    for edge in edges {
        if graph.degree(edge.u) > value && graph.degree(edge.v) > value {
            count += 1;
        }
    }
    count
}

/// Whether a scan of an eighth of the vertices, from vertex 1 with the cap value + 1, hardly joins
/// them: fewer than a tenth of them have more than the value to those scanned before, so that an
/// edge to one of these can be contracted. It tells of the other vertices only where these have
/// about their share of the total weight, three quarters of it at least; in a dense graph they
/// have little, and it is said that links are not rare.
fn links_are_rare(alloc: Global, graph: &Graph, value: u64, total: u64) -> Result<bool, NoMemory>
    requires some { 1 ≤ graph.now.vertices }
    requires value { value ≤ 2 ^ 62 }
{
    let part = graph.n() / 8;
    let mut scan = Scan::new(alloc, graph)?;
    scan.start(1, value + 1);
    let mut joined = 0u32;
    let mut inside = 0u64;
    for _ in 0..part {
        let Some(vertex) = scan.peek(graph) else {
            return Ok(false);
        };
        let link = scan.link(graph, vertex);
        if link > value {
            joined += 1;
        }
        inside = inside.saturating_add(link);
        scan.next(graph);
    }
    Ok(joined < part / 10 && inside >= total / 32 * 3)
}

/// Whether a graph with this value is light, and has hardly an edge that may be contracted: it is
/// a tree, each edge of which is a minimum cut then, or fewer than a tenth of its vertices can be
/// contracted into others, as the degrees tell or a scan of an eighth of the vertices. It goes
/// twice over the edges, and once over some of them for the scan; that takes memory O(n), and is
/// refused only where that is wanting.
///
/// No answer rests on how few they are: it decides alone whether a whole scan is worth its time.
pub(crate) fn is_bare(alloc: Global, graph: &Graph, value: u64) -> Result<bool, NoMemory>
    requires some { 1 ≤ graph.now.vertices }
    requires value { value ≤ 2 ^ 62 }
    ensures { IfOk result (λ bare. bare ≡ true → IsLight graph.now value) }
{
    let n = graph.n();
    let total = total_weight(graph);
    if total > value.saturating_mul(u64::from(n - 1)) {
        return Ok(false);
    }
    if graph.edges() < n as usize || edges_between_heavy(graph, value) < n as usize / 10 {
        return Ok(true);
    }
    links_are_rare(alloc, graph, value, total)
}
