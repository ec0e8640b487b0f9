//! Cactuses that grow by an edge.

use crate::trees::{ONE_RING, cactus_of};
use cactus_growth::{Grown, grow, is_within_limits, with_edge};
use cactus_tree::{Block, Node};
use cut_definitions::{Edge, EdgeList};
use std::alloc::Global;
use std::test::Fail;

/// The list with the weight of an edge added, if it is within the limits.
fn with_added(alloc: Global, list: &EdgeList, edge: &Edge) -> Result<EdgeList, Fail> {
    let Edge { u, v, w } = *edge;
    let n = list.n();
    if u < 1 || u > n || v < 1 || v > n || u == v || w < 1 || !is_within_limits(list, u, v, w) {
        return Err(Fail::from("not within the limits"));
    }
    let more = with_edge(alloc, list, u, v, w)?;
    Ok(more)
}

/// The list over n vertices to which the edges were added one after another.
fn list_of(alloc: Global, n: u8, edges: &[Edge]) -> Result<EdgeList, Fail> {
    let mut list = EdgeList::new(alloc, u32::from(n));
    for edge in edges {
        list = with_added(alloc, &list, edge)?;
    }
    Ok(list)
}

/// Edges that are added one after another to a list over n vertices, and those that it has then.
struct Row {
    n: u8,
    added: &'static [Edge],
    edges: &'static [Edge],
}

const ROWS: &[Row] = &[
    // weight is added to an edge
    Row {
        n: 4,
        added: &[
            Edge { u: 1, v: 2, w: 5 },
            Edge { u: 3, v: 4, w: 1 },
            Edge { u: 2, v: 1, w: 3 },
        ],
        edges: &[Edge { u: 1, v: 2, w: 8 }, Edge { u: 3, v: 4, w: 1 }],
    },
    // or a new edge is made
    Row {
        n: 4,
        added: &[
            Edge { u: 1, v: 2, w: 5 },
            Edge { u: 3, v: 4, w: 1 },
            Edge { u: 1, v: 3, w: 2 },
        ],
        edges: &[
            Edge { u: 1, v: 2, w: 5 },
            Edge { u: 1, v: 3, w: 2 },
            Edge { u: 3, v: 4, w: 1 },
        ],
    },
    // the other edges of a triangle stay
    Row {
        n: 3,
        added: &[
            Edge { u: 1, v: 2, w: 5 },
            Edge { u: 1, v: 3, w: 1 },
            Edge { u: 2, v: 3, w: 4 },
            Edge { u: 1, v: 2, w: 3 },
        ],
        edges: &[
            Edge { u: 1, v: 2, w: 8 },
            Edge { u: 1, v: 3, w: 1 },
            Edge { u: 2, v: 3, w: 4 },
        ],
    },
];

/// Whether a weight of 2^60 between 1 and 2 is within the limits, and one of 2^61 is not.
fn is_limited(list: &EdgeList) -> bool {
    list.n() >= 2 && is_within_limits(list, 1, 2, 1 << 60) && !is_within_limits(list, 1, 2, 1 << 61)
}

#[test]
fn weight_is_added_or_an_edge_is_made_and_others_stay(rt: HostRuntime) -> Result<(), Fail> {
    for row in ROWS {
        let list = list_of(rt.alloc(), row.n, row.added)?;
        let holds = list.n() == u32::from(row.n) && list.edges() == row.edges;
        assert!(rt; holds && is_limited(&list), "at {} edges", row.edges.len());
    }
    Ok(())
}

/// Whether a block is a bridge to a node with one vertex.
fn leads_to(block: &Block, v: u32) -> bool {
    match block {
        Block::Bridge(node) => node.vertices.as_slice() == [v].as_slice() && node.blocks.len() == 0,
        Block::Cycle(_) => false,
    }
}

/// Whether a node has these vertices, and two bridges.
fn has_two_bridges(node: &Node, own: &[u32], first: u32, second: u32) -> bool {
    node.vertices.as_slice() == own
        && node.blocks.len() == 2
        && (leads_to(node.blocks.at(0), first) && leads_to(node.blocks.at(1), second)
            || leads_to(node.blocks.at(0), second) && leads_to(node.blocks.at(1), first))
}

/// Whether the ring of four nodes has two bridges once 1 and 3 are in one node, and no cut once 2
/// and 4 are joined too.
fn falls_into_bridges(alloc: Global) -> Result<bool, Fail> {
    let ring = cactus_of(alloc, &ONE_RING)?;
    if ring.n() != 4 || ring.root().blocks.len() == 0 {
        return Ok(false);
    }
    match grow(alloc, ring, 1, 3)? {
        Grown::Kept(kept) => {
            let holds = has_two_bridges(kept.root(), &[1, 3], 2, 4);
            match grow(alloc, kept, 2, 4)? {
                Grown::Kept(_) => Ok(false),
                Grown::Gone => Ok(holds),
            }
        }
        Grown::Gone => Ok(false),
    }
}

#[test]
fn opposite_nodes_of_a_ring_become_one(rt: HostRuntime) -> Result<(), Fail> {
    let holds = falls_into_bridges(rt.alloc())?;
    assert!(rt; holds);
    Ok(())
}
