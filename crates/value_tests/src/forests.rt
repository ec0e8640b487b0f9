//! Contraction of lists of edges by forests, and the value by the list alone.

ghost use Rattle.std.specs.Prelude.{◌≤◌};

use crate::graphs::{edges_in, edges_of, feed_line, feed_number};
use cut_definitions::EdgeList;
use forest_contraction::{contract_list, tied_classes};
use metis_reader::Reader;
use min_value::lesser_of_list;
use std::alloc::Global;
use worker_team::Alone;

// Files, bounds, and the classes that are tied for these. The first is the complete graph of four
// vertices, where the ends of the last edge alone are joined twice before. The others are two
// components, and a triangle with the weights 5, 1 and 4.
const TIED: [(&str, u64, &[u32]); 4] = [
    ("4 6\n2 3 4\n1 3 4\n1 2 4\n1 2 3\n", 3, &[1, 2, 3, 3]),
    ("4 6\n2 3 4\n1 3 4\n1 2 4\n1 2 3\n", 4, &[1, 2, 3, 4]),
    ("4 2\n2\n1\n4\n3\n", 1, &[1, 1, 2, 2]),
    ("3 3 1\n2 5 3 1\n1 5 3 4\n1 1 2 4\n", 5, &[1, 1, 2]),
];

/// Whether these are the classes that are tied for a bound.
fn are_tied(alloc: Global, text: &str, bound: u64, classes: &[u32]) -> bool {
    let Some(list) = edges_of(alloc, text) else {
        return false;
    };
    if bound > 5 {
        return false;
    }
    match tied_classes(alloc, &list, bound) {
        Ok(labels) => labels.as_slice() == classes,
        Err(_) => false,
    }
}

#[test]
fn classes_are_tied(rt: HostRuntime) {
    for (text, bound, classes) in &TIED {
        assert!(rt; are_tied(rt.alloc(), text, *bound, classes));
    }
}

/// A star of 1,101 vertices.
fn star(alloc: Global) -> Option<EdgeList> {
    let mut reader = Reader::new(alloc);
    feed_line(&mut reader, &[1101, 1100]);
    for v in 2..1102 {
        feed_number(&mut reader, v);
    }
    feed_line(&mut reader, &[]);
    for _ in 0..1100 {
        feed_line(&mut reader, &[1]);
    }
    edges_in(reader)
}

/// A ring of 1,101 vertices.
fn ring(alloc: Global) -> Option<EdgeList> {
    let mut reader = Reader::new(alloc);
    feed_line(&mut reader, &[1101, 1101]);
    feed_line(&mut reader, &[2, 1101]);
    for v in 1u32..1100 {
        feed_line(&mut reader, &[v, v + 2]);
    }
    feed_line(&mut reader, &[1, 1100]);
    edges_in(reader)
}

/// A wheel: 600 vertices in a ring, each joined to vertex 1.
fn wheel(alloc: Global) -> Option<EdgeList> {
    let mut reader = Reader::new(alloc);
    feed_line(&mut reader, &[601, 1200]);
    for v in 2..602 {
        feed_number(&mut reader, v);
    }
    feed_line(&mut reader, &[]);
    feed_line(&mut reader, &[1, 3, 601]);
    for v in 2u32..600 {
        feed_line(&mut reader, &[1, v, v + 2]);
    }
    feed_line(&mut reader, &[1, 2, 600]);
    edges_in(reader)
}

/// Whether contraction leaves this bound and this number of vertices.
fn leaves(alloc: Global, list: &EdgeList, bound: u64, vertices: Option<u32>) -> bool
    requires { 2 ≤ list.now.vertices }
{
    let Ok(left) = contract_list(alloc, list) else {
        return false;
    };
    let count = match &left.list {
        Some(small) => Some(small.n()),
        None => None,
    };
    left.bound == bound && count == vertices
}

/// Whether contraction leaves this bound and this number of vertices, and the value found from the
/// list is this.
fn is_contracted(
    alloc: Global,
    list: Option<EdgeList>,
    bound: u64,
    vertices: Option<u32>,
    value: u64,
) -> bool {
    let Some(list) = list else {
        return false;
    };
    if list.n() < 2 {
        return false;
    }
    leaves(alloc, &list, bound, vertices)
        && lesser_of_list(&Alone { alloc }, list, u64::MAX) == Ok(value)
}

#[test]
fn a_star_becomes_one_vertex_and_a_ring_stays(rt: HostRuntime) {
    let alloc = rt.alloc();
    assert!(rt; is_contracted(alloc, star(alloc), 1, Some(1), 1));
    assert!(rt; is_contracted(alloc, ring(alloc), 2, None, 2));
}

#[test]
fn the_ring_of_a_wheel_becomes_one_vertex(rt: HostRuntime) {
    let alloc = rt.alloc();
    assert!(rt; is_contracted(alloc, wheel(alloc), 3, Some(2), 3));
}
