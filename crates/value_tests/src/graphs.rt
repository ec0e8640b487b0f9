//! The graphs of the tests.

ghost use Rattle.std.specs.Prelude.{◌≡◌, [], ◌∷◌, IfOk};
ghost use Rattle.cut_definitions.specs.Graph.{IsEdgeList};

use cut_definitions::{Edge, EdgeList, NoMemory};
use metis_reader::Reader;
use std::alloc::Global;
use weighted_graph::Graph;

/// The edges of the triangle with the weights 5, 1 and 4.
pub fn triangle_list(alloc: Global) -> Result<EdgeList, NoMemory>
    ensures { IfOk result (λ list. list ≡ record { vertices = 3; edges = record { u = 1; v = 2; w = 5 } ∷ record { u = 1; v = 3; w = 1 } ∷ record { u = 2; v = 3; w = 4 } ∷ [] }) }
{
    let edges = [
        Edge { u: 1, v: 2, w: 5 },
        Edge { u: 1, v: 3, w: 1 },
        Edge { u: 2, v: 3, w: 4 },
    ];
    Ok(EdgeList::from_edges(3, Vec::from_slice(alloc, &edges)?))
}

/// The graph of this triangle. Its lightest cut is vertex 3 alone, of weight 5.
pub fn uneven_triangle(alloc: Global) -> Result<Graph, NoMemory>
    ensures value { IfOk result (λ g. g ≡ record { vertices = 3; edges = record { u = 1; v = 2; w = 5 } ∷ record { u = 1; v = 3; w = 1 } ∷ record { u = 2; v = 3; w = 4 } ∷ [] }) }
    ensures is_graph { IfOk result (λ g. IsEdgeList g) }
{
    let edges = [
        Edge { u: 1, v: 2, w: 5 },
        Edge { u: 1, v: 3, w: 1 },
        Edge { u: 2, v: 3, w: 4 },
    ];
    let list = EdgeList::from_edges(3, Vec::from_slice(alloc, &edges)?);
    let graph = Graph::build(alloc, &list)?;
    Ok(graph)
}

/// The edges of what was fed to a reader, if that is the file of a graph.
pub(crate) fn edges_in(reader: Reader) -> Option<EdgeList> {
    match reader.finish() {
        Ok(graph) => Some(graph.edges),
        Err(_) => None,
    }
}

/// The edges of a file, if it has a graph.
pub(crate) fn edges_of(alloc: Global, text: &str) -> Option<EdgeList> {
    let mut reader = Reader::new(alloc);
    if reader.feed(text.as_bytes()).is_err() {
        return None;
    }
    edges_in(reader)
}

/// The graph of a file, if it has one.
pub(crate) fn graph_of(alloc: Global, text: &str) -> Option<Graph> {
    let list = edges_of(alloc, text)?;
    Graph::from_list(alloc, list).ok()
}

/// Feeds a number of at most seven digits, with zeros before it, and a blank.
pub(crate) fn feed_number(reader: &mut Reader, number: u32) {
    for power in [1_000_000, 100_000, 10_000, 1_000, 100, 10, 1] {
        let digit = b'0' + (number / power % 10) as u8;
        let _ok = reader.feed(&[digit]).is_ok();
    }
    let _ok = reader.feed(b" ").is_ok();
}

/// Feeds the numbers that end a line, and its end.
pub(crate) fn feed_line(reader: &mut Reader, numbers: &[u32]) {
    for number in numbers {
        feed_number(reader, *number);
    }
    let _ok = reader.feed(b"\n").is_ok();
}
