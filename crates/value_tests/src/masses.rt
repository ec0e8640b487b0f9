//! The masses of the vertices: the first weight of each, or 1.

use crate::pieces::graph;
use cut_definitions::VertexWeights;
use std::alloc::Global;

type Row = (&'static [u8], &'static [u64]);

const ROWS: [Row; 6] = [
    (b"4 3 10\n9 2\n1 1 3\n1 2 4\n1 3\n", &[9, 1, 1, 1]),
    (
        b"% made by hand\r\n2\t1 011\r\n% first vertex\r\n7 2 3\r\n4 1 3",
        &[7, 4],
    ),
    (b"2 1 110 2\n5 7 8 2\n6 0 9 1\n", &[7, 0]),
    (b"2 1 100\n5 2\n6 1\n", &[1, 1]),
    (b"2 1\n2\n1\n", &[1, 1]),
    (b"4 3 10\n1 2\n1 1 3\n5 2 4\n1 3\n", &[1, 1, 5, 1]),
];

/// Whether these are the masses of all vertices.
fn are_masses(weights: &VertexWeights, masses: &[u64]) -> bool {
    if weights.len() as usize != masses.len() {
        return false;
    }
    for v in 1..=weights.len() {
        if weights.of(v) != masses[v as usize - 1] {
            return false;
        }
    }
    true
}

/// Whether a text that comes in pieces of this length has exactly these masses.
fn has_masses(alloc: Global, text: &[u8], length: usize, masses: &[u64]) -> bool {
    match graph(alloc, text, length) {
        Ok(graph) => are_masses(&graph.weights, masses),
        Err(_) => false,
    }
}

#[test]
fn the_first_weight_is_kept(rt: HostRuntime) {
    for (text, masses) in &ROWS {
        for length in [1, 1_000] {
            assert!(rt; has_masses(rt.alloc(), text, length, masses));
        }
    }
}
