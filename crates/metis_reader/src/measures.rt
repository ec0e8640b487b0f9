ghost use Rattle.std.specs.Prelude.{◌≡◌, false};
ghost use Rattle.std.specs.List.{All};
ghost use Rattle.cut_definitions.specs.declared.edge_list.Edge.{Edge};
ghost use Rattle.metis_reader.specs.Measures.{heaviest_of, lightest_of};

use crate::header::Format;
use cut_definitions::Edge;

/// What reading shows of a graph besides its edges.
#[derive(Clone, Copy)]
pub struct Measures {
    /// The least weighted degree of a vertex, or 2^64 - 1 if there are no vertices.
    pub least_degree: u64,
    /// The least weight of an edge, or 2^64 - 1 if there are no edges.
    pub lightest: u64,
    /// The greatest weight of an edge, or 0 if there are no edges.
    pub heaviest: u64,
}

/// The least and the greatest weight of an edge, or 2^64 - 1 and 0 if there are none.
fn weight_range(edges: &[Edge]) -> (u64, u64)
    ensures lightest { result.0 ≡ lightest_of edges.now }
    ensures heaviest { result.1 ≡ heaviest_of edges.now }
{
    let mut lightest = u64::MAX;
    let mut heaviest = 0;
    for edge in edges {
        lightest = lightest.min(edge.w);
        heaviest = heaviest.max(edge.w);
    }
    (lightest, heaviest)
}

/// The measures of a graph with this least degree. Its edges are looked at only if they have
/// weights in the file.
pub fn measures_of(format: Format, edges: &[Edge], least_degree: u64) -> Measures
    requires { format.has_edge_weights ≡ false → All (λ (e : Edge). e.w ≡ 1) edges.now }
    ensures least { result.least_degree ≡ least_degree }
    ensures lightest { result.lightest ≡ lightest_of edges.now }
    ensures heaviest { result.heaviest ≡ heaviest_of edges.now }
{
    if format.has_edge_weights || edges.is_empty() {
        let (lightest, heaviest) = weight_range(edges);
        return Measures {
            least_degree,
            lightest,
            heaviest,
        };
    }
    Measures {
        least_degree,
        lightest: 1,
        heaviest: 1,
    }
}
