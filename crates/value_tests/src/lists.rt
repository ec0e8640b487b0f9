//! Lists of edges and of weights, and graphs made from a number.

use cut_definitions::{Edge, EdgeList, VertexWeights};
use graph_maker::make;
use std::test::Fail;

/// Whether a list has these edges first.
fn begins_with(list: &EdgeList, edges: &[Edge]) -> bool {
    edges.len() <= list.len() && &list.edges()[..edges.len()] == edges
}

#[test]
fn an_edge_is_appended(rt: HostRuntime) -> Result<(), Fail> {
    let mut list = EdgeList::new(rt.alloc(), 3);
    let is_empty = list.is_empty();
    let edge = Edge { u: 1, v: 2, w: 5 };
    list.push(edge)?;
    let holds = list.n() == 3 && list.len() == 1 && list.edge(0) == edge;
    assert!(rt; is_empty && holds && begins_with(&list, &[edge]));
    Ok(())
}

#[test]
fn weights_stand_in_the_order_of_the_vertices(rt: HostRuntime) -> Result<(), Fail> {
    let weights = VertexWeights::from_list(vec![in rt.alloc(); 9, 1, 0]?);
    let holds = weights.len() == 3 && !weights.is_empty();
    assert!(rt; holds && weights.of(1) == 9 && weights.of(3) == 0);
    Ok(())
}

#[test]
fn three_rings_are_made(rt: HostRuntime) -> Result<(), Fail> {
    let made = make(rt.alloc(), 12)?;
    let first = [
        Edge { u: 1, v: 2, w: 2 },
        Edge { u: 1, v: 4, w: 2 },
        Edge { u: 1, v: 11, w: 2 },
    ];
    assert!(rt; made.n() == 12 && made.len() == 15 && begins_with(&made, &first));
    Ok(())
}
