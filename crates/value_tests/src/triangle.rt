//! The graph of the tests.

ghost use Rattle.std.specs.Prelude.{◌≡◌, [], ◌∷◌, IfOk};
ghost use Rattle.cut_definitions.specs.Graph.{IsEdgeList};

use cut_definitions::{Edge, EdgeList, NoMemory};
use std::alloc::Global;
use weighted_graph::Graph;

/// The triangle with the weights 5, 1 and 4. Its lightest cut is vertex 3 alone, of weight 5.
pub fn uneven_triangle(alloc: Global) -> Result<Graph, NoMemory>
    ensures value { IfOk result (λ g. g ≡ record { vertices = 3; edges = record { u = 1; v = 2; w = 5 } ∷ record { u = 1; v = 3; w = 1 } ∷ record { u = 2; v = 3; w = 4 } ∷ [] }) }
    ensures is_graph { IfOk result (λ g. IsEdgeList g) }
{
    let edges = [
        Edge { u: 1, v: 2, w: 5 },
        Edge { u: 1, v: 3, w: 1 },
        Edge { u: 2, v: 3, w: 4 },
    ];
    let list = EdgeList::from_edges(3, Vec::from_slice(alloc, &edges)?);
    let graph = Graph::build(alloc, &list)?;
    Ok(graph)
}
