//! The graphs of the tests.

use cut_definitions::EdgeList;
use metis_reader::Reader;
use std::alloc::Global;

/// The edges of a file, if it has a graph.
pub(crate) fn edges_of(alloc: Global, text: &str) -> Option<EdgeList> {
    let mut reader = Reader::new(alloc);
    if reader.feed(text.as_bytes()).is_err() {
        return None;
    }
    match reader.finish() {
        Ok(graph) => Some(graph.edges),
        Err(_) => None,
    }
}

/// A connected graph, its value, and the sides of its minimum cuts, as lists of the vertices that
/// are separated from vertex 1.
#[derive(Clone, Copy)]
pub struct Known {
    pub name: &'static str,
    pub text: &'static str,
    pub value: u64,
    pub sides: &'static [&'static [u32]],
}

/// The graphs on which the solver is tried.
pub const GRAPHS: [Known; 11] = [
    Known {
        name: "a triangle",
        text: "3 3\n2 3\n1 3\n1 2\n",
        value: 2,
        sides: &[&[2], &[2, 3], &[3]],
    },
    Known {
        name: "a ring of four",
        text: "4 4\n2 4\n1 3\n2 4\n1 3\n",
        value: 2,
        sides: &[&[2], &[2, 3], &[2, 3, 4], &[3], &[3, 4], &[4]],
    },
    Known {
        name: "a complete graph of four",
        text: "4 6\n2 3 4\n1 3 4\n1 2 4\n1 2 3\n",
        value: 3,
        sides: &[&[2], &[2, 3, 4], &[3], &[4]],
    },
    Known {
        name: "a path",
        text: "5 4\n2\n1 3\n2 4\n3 5\n4\n",
        value: 1,
        sides: &[&[2, 3, 4, 5], &[3, 4, 5], &[4, 5], &[5]],
    },
    Known {
        name: "a star around vertex 3",
        text: "5 4\n3\n3\n1 2 4 5\n3\n3\n",
        value: 1,
        sides: &[&[2], &[2, 3, 4, 5], &[4], &[5]],
    },
    Known {
        name: "a tree with an edge that is no minimum cut",
        text: "5 4 1\n2 3\n1 3 3 5 5 3\n2 5 4 3\n3 3\n2 3\n",
        value: 3,
        sides: &[&[2, 3, 4, 5], &[4], &[5]],
    },
    Known {
        name: "two cycles that meet in a node without vertices",
        text: "6 8 1\n2 2 4 1 6 1\n1 2 3 2\n2 2 4 1 6 1\n1 1 3 1 5 2\n4 2 6 2\n1 1 3 1 5 2\n",
        value: 4,
        sides: &[
            &[2],
            &[2, 3],
            &[2, 3, 4, 5, 6],
            &[3],
            &[3, 4, 5, 6],
            &[4],
            &[4, 5],
            &[4, 5, 6],
            &[5],
            &[5, 6],
            &[6],
        ],
    },
    Known {
        name: "a ladder of two rows of four",
        text: "8 10\n2 5\n1 3 6\n2 4 7\n3 8\n1 6\n2 5 7\n3 6 8\n4 7\n",
        value: 2,
        sides: &[
            &[2, 3, 4, 5, 6, 7, 8],
            &[2, 3, 4, 6, 7, 8],
            &[3, 4, 7, 8],
            &[4],
            &[4, 8],
            &[5],
            &[8],
        ],
    },
    Known {
        name: "a ring with a ring at each vertex",
        text: "9 12\n2 3 4 5\n1 3 6 7\n1 2 8 9\n1 5\n1 4\n2 7\n2 6\n3 9\n3 8\n",
        value: 2,
        sides: &[
            &[2, 3, 6, 7, 8, 9],
            &[2, 6, 7],
            &[3, 8, 9],
            &[4],
            &[4, 5],
            &[5],
            &[6],
            &[6, 7],
            &[7],
            &[8],
            &[8, 9],
            &[9],
        ],
    },
    Known {
        name: "four rings, each at the end of the one before",
        text: "9 12\n2 3\n1 3\n1 2 4 5\n3 5\n3 4 6 7\n5 7\n5 6 8 9\n7 9\n7 8\n",
        value: 2,
        sides: &[
            &[2],
            &[2, 3, 4, 5, 6, 7, 8, 9],
            &[3, 4, 5, 6, 7, 8, 9],
            &[4],
            &[4, 5, 6, 7, 8, 9],
            &[5, 6, 7, 8, 9],
            &[6],
            &[6, 7, 8, 9],
            &[7, 8, 9],
            &[8],
            &[8, 9],
            &[9],
        ],
    },
    Known {
        name: "two complete graphs of four with an edge between them",
        text: "8 13\n2 3 4 5\n1 3 4\n1 2 4\n1 2 3\n1 6 7 8\n5 7 8\n5 6 8\n5 6 7\n",
        value: 1,
        sides: &[&[5, 6, 7, 8]],
    },
];
