//! Flat cactuses.

use crate::trees::{NESTED, ONE_RING, Sketch, TWO_AND_ONE, cactus_of};
use cactus_tree::{FlatCactus, flatten};
use cut_definitions::NoMemory;
use std::alloc::Global;
use std::test::Fail;

/// The lists of a flat cactus over n vertices.
pub(crate) struct Lists {
    pub(crate) n: u32,
    pub(crate) nodes: &'static [&'static [u32]],
    pub(crate) bridges: &'static [(u64, u64)],
    pub(crate) cycles: &'static [&'static [u64]],
}

fn has_nodes(flat: &FlatCactus, nodes: &[&[u32]]) -> bool {
    if flat.nodes() != nodes.len() {
        return false;
    }
    for i in 0..nodes.len() {
        if flat.node(i) != nodes[i] {
            return false;
        }
    }
    true
}

fn has_cycles(flat: &FlatCactus, cycles: &[&[u64]]) -> bool {
    if flat.cycles() != cycles.len() {
        return false;
    }
    for i in 0..cycles.len() {
        if flat.cycle(i) != cycles[i] {
            return false;
        }
    }
    true
}

/// Whether the cactus has these lists.
pub(crate) fn has_lists(flat: &FlatCactus, lists: &Lists) -> bool {
    flat.n() == lists.n
        && has_nodes(flat, lists.nodes)
        && flat.bridges() == lists.bridges
        && has_cycles(flat, lists.cycles)
}

/// Appends a node with these vertices.
fn push_node(flat: &mut FlatCactus, vertices: &[u32]) -> Result<(), NoMemory> {
    flat.push_node()?;
    for v in vertices {
        // known to the proof by this test: there is a node
        if flat.nodes() > 0 {
            flat.push_vertex(*v)?;
        }
    }
    Ok(())
}

/// Appends a cycle with these nodes.
fn push_cycle(flat: &mut FlatCactus, nodes: &[u64]) -> Result<(), NoMemory> {
    flat.push_cycle()?;
    for node in nodes {
        // known to the proof by this test: there is a cycle
        if flat.cycles() > 0 {
            flat.push_member(*node)?;
        }
    }
    Ok(())
}

/// Appends these nodes.
fn push_nodes(flat: &mut FlatCactus, nodes: &[&[u32]]) -> Result<(), NoMemory> {
    for vertices in nodes {
        push_node(flat, vertices)?;
    }
    Ok(())
}

/// Appends these bridges.
fn push_bridges(flat: &mut FlatCactus, bridges: &[(u64, u64)]) -> Result<(), NoMemory> {
    for (i, j) in bridges {
        flat.push_bridge(*i, *j)?;
    }
    Ok(())
}

/// The flat cactus that is filled with the lists.
pub(crate) fn filled(alloc: Global, lists: &Lists) -> Result<FlatCactus, NoMemory> {
    let mut flat = FlatCactus::new(alloc, lists.n);
    push_nodes(&mut flat, lists.nodes)?;
    push_bridges(&mut flat, lists.bridges)?;
    for nodes in lists.cycles {
        push_cycle(&mut flat, nodes)?;
    }
    Ok(flat)
}

/// Nodes with 1 and 2, with none and with 3, a bridge and a cycle of two nodes.
const FILLED: Lists = Lists {
    n: 3,
    nodes: &[&[1, 2], &[], &[3]],
    bridges: &[(0, 1)],
    cycles: &[&[0, 2]],
};

#[test]
fn a_flat_cactus_keeps_its_lists(rt: HostRuntime) -> Result<(), Fail> {
    let flat = filled(rt.alloc(), &FILLED)?;
    assert!(rt; has_lists(&flat, &FILLED));
    Ok(())
}

const FLATTENED: &[(Sketch, Lists)] = &[
    // a bridge
    (
        TWO_AND_ONE,
        Lists {
            n: 3,
            nodes: &[&[1, 2], &[3]],
            bridges: &[(0, 1)],
            cycles: &[],
        },
    ),
    // a cycle
    (
        ONE_RING,
        Lists {
            n: 4,
            nodes: &[&[1], &[2], &[3], &[4]],
            bridges: &[],
            cycles: &[&[0, 1, 2, 3]],
        },
    ),
    // a path, a ring and a bridge, in the order of entering
    (
        NESTED,
        Lists {
            n: 7,
            nodes: &[&[1], &[5], &[6], &[2], &[3], &[4], &[7]],
            bridges: &[(0, 1), (1, 2), (3, 4), (0, 6)],
            cycles: &[&[0, 3, 5]],
        },
    ),
];

#[test]
fn trees_are_flattened_in_the_order_of_entering(rt: HostRuntime) -> Result<(), Fail> {
    for (sketch, lists) in FLATTENED {
        let cactus = cactus_of(rt.alloc(), sketch)?;
        let flat = flatten(rt.alloc(), &cactus)?;
        assert!(rt; has_lists(&flat, lists), "at {} vertices", lists.n);
    }
    Ok(())
}
