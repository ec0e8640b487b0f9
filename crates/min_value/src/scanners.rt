//! How many workers scan a graph side by side.

ghost use Rattle.std.specs.Prelude.{◌≡◌, ◌≤◌};
ghost use Rattle.std.specs.List.{sum_by};
ghost use Rattle.cut_definitions.specs.declared.edge_list.Edge.{Edge};

use weighted_graph::Graph;

// A worker who scans beside others goes along at least so many edges,
// for threads cost up to some milliseconds to start.
const EDGES_FOR_EACH: u64 = 32_768;

// Where a vertex has so many edges, workers who begin in runs of the vertices
// mark much less than one.
const MANY_EDGES: u64 = 32;

/// The sum of the weights of all edges.
pub(crate) fn total_weight(graph: &Graph) -> u64
    ensures { result ≡ sum_by (λ (e : Edge). e.w) graph.now.edges }
{
    let edges = graph.edge_list();
    let mut total = 0;
    for edge in edges {
        total += edge.w;
    }
    total
}

/// How many workers can scan a graph side by side with a gain. Each has enough edges to go along,
/// and one for each vertex, since it makes room for all vertices. Where their vertices are
/// neighbours, workers divide the weight of a vertex among them, so a limit is left to each of
/// them; and one alone scans a dense graph.
fn most_scanners(graph: &Graph, limit: u64) -> u64 {
    let vertices = u64::from(graph.n()).max(1);
    let edges = graph.edges() as u64;
    let each = edges / vertices;
    let most = (edges / EDGES_FOR_EACH).min(each);
    if each >= MANY_EDGES {
        return 1;
    }
    let mean_degree = (total_weight(graph) / vertices).saturating_mul(2);
    most.min(mean_degree / limit.max(1))
}

/// How many of the workers scan a graph side by side, where links that reach a limit are looked
/// for: 1 where threads would cost more than they save. So the scans of all take no more memory
/// than in proportion to the edges.
pub(crate) fn scanners(graph: &Graph, limit: u64, workers: u32) -> u32
    requires { (1 ≤ workers) × (workers ≤ 64) }
    ensures range { (1 ≤ result) × (result ≤ 64) }
    ensures one { workers ≡ 1 → result ≡ 1 }
{
    if workers == 1 {
        return 1;
    }
    u64::from(workers).min(most_scanners(graph, limit)).max(1) as u32
}
