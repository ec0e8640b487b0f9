//! The four local tests of an edge.

ghost use Rattle.std.specs.Prelude.{◌<◌, ◌≤◌, ◌^◌, length};

use crate::graphs::graph_of;
use edge_certificates::{heavy_edge, heavy_vertex, shared_neighbours, triangle};
use std::alloc::Global;
use weighted_graph::Graph;

/// Whether none of the four tests holds for any edge.
pub(crate) fn none_is_certified(graph: &Graph, bound: u64, slack: u64) -> bool
    requires bound { bound ≤ 2 ^ 62 }
    requires slack { slack ≤ 1 }
{
    for edge in 0..graph.edges() {
        if heavy_edge(graph, edge, bound, slack)
            || heavy_vertex(graph, edge, bound, slack)
            || triangle(graph, edge, bound, slack)
            || shared_neighbours(graph, edge, bound, slack)
        {
            return false;
        }
    }
    true
}

#[derive(Clone, Copy)]
enum Test {
    HeavyEdge,
    HeavyVertex,
    Triangle,
    SharedNeighbours,
}

/// Whether an edge passes a test.
fn passes(graph: &Graph, test: Test, edge: usize, bound: u64, slack: u64) -> bool
    requires edge { edge < length graph.now.edges }
    requires bound { bound ≤ 2 ^ 62 }
    requires slack { slack ≤ 1 }
{
    match test {
        Test::HeavyEdge => heavy_edge(graph, edge, bound, slack),
        Test::HeavyVertex => heavy_vertex(graph, edge, bound, slack),
        Test::Triangle => triangle(graph, edge, bound, slack),
        Test::SharedNeighbours => shared_neighbours(graph, edge, bound, slack),
    }
}

// The triangle with the weights 5, 1 and 4. Vertex 1 has degree 6, of which edge 0 is 5. Vertex 3
// has degree 5, and edge 2 is 4 of the degree 9 of vertex 2.
const UNEVEN: &str = "3 3 1\n2 5 3 1\n1 5 3 4\n1 1 2 4\n";

// Twice 5 is not above the degree 10 of vertex 2, and vertex 1 has degree 5.
const PATH: &str = "3 2 1\n2 5\n1 5 3 5\n2 5\n";

const EVEN: &str = "3 3\n2 3\n1 3\n1 2\n";

// Files, tests, edges, bounds, slacks, and whether the edge passes.
const TESTED: [(&str, Test, usize, u64, u64, bool); 10] = [
    (UNEVEN, Test::HeavyEdge, 0, 5, 0, true),
    (UNEVEN, Test::HeavyEdge, 0, 5, 1, false),
    (UNEVEN, Test::HeavyVertex, 0, 5, 1, true),
    (UNEVEN, Test::HeavyVertex, 2, 5, 1, false),
    (UNEVEN, Test::SharedNeighbours, 0, 5, 1, true),
    (UNEVEN, Test::SharedNeighbours, 0, 6, 1, false),
    (PATH, Test::HeavyVertex, 0, 5, 1, false),
    (PATH, Test::HeavyVertex, 0, 5, 0, true),
    (EVEN, Test::Triangle, 0, 2, 0, true),
    (EVEN, Test::Triangle, 0, 2, 1, false),
];

/// Whether an edge of a file passes a test.
fn is_passed(
    alloc: Global,
    text: &str,
    test: Test,
    edge: usize,
    bound: u64,
    slack: u64,
) -> Option<bool> {
    let graph = graph_of(alloc, text)?;
    if edge >= graph.edges() || bound > 9 || slack > 1 {
        return None;
    }
    Some(passes(&graph, test, edge, bound, slack))
}

#[test]
fn edges_are_certified(rt: HostRuntime) {
    for (text, test, edge, bound, slack, passed) in &TESTED {
        let found = is_passed(rt.alloc(), text, *test, *edge, *bound, *slack);
        assert!(rt; found == Some(*passed));
    }
}
