//! Augmentations of small cactuses.

use crate::trees::{RINGS_AT_AN_EMPTY_NODE, SMALL_RING, Sketch, cactus_of};
use edge_augment::{Plan, augment};
use std::alloc::Global;
use std::test::Fail;

/// Whether the sets of a plan are these lists, in this order.
fn has_sets(plan: &Plan, sets: &[&[u32]]) -> bool {
    for i in 0..sets.len() {
        if i >= plan.sets() || plan.set(i) != sets[i] {
            return false;
        }
    }
    plan.sets() == sets.len()
}

/// A cactus, and the edges and sets of its augmentation.
struct Row {
    sketch: Sketch,
    edges: &'static [(u32, u32)],
    sets: &'static [&'static [u32]],
}

const ROWS: &[Row] = &[
    Row {
        sketch: SMALL_RING,
        edges: &[(1, 2), (2, 3)],
        sets: &[&[1], &[2], &[3]],
    },
    Row {
        sketch: RINGS_AT_AN_EMPTY_NODE,
        edges: &[(1, 4), (2, 5), (3, 6)],
        sets: &[&[1], &[2], &[3], &[4], &[5], &[6]],
    },
];

/// Whether the augmentation of the cactus has exactly these edges and sets.
fn is_augmented(alloc: Global, row: &Row) -> Result<bool, Fail> {
    let cactus = cactus_of(alloc, &row.sketch)?;
    if !cactus.is_normal() || cactus.root().blocks.len() == 0 {
        return Ok(false);
    }
    let plan = augment(alloc, &cactus)?;
    Ok(plan.edges() == row.edges && has_sets(&plan, row.sets))
}

#[test]
fn a_ring_takes_two_edges_and_two_rings_at_an_empty_node_take_three(
    rt: HostRuntime,
) -> Result<(), Fail> {
    for row in ROWS {
        let holds = is_augmented(rt.alloc(), row)?;
        assert!(rt; holds, "at a cactus of {} edges", row.edges.len());
    }
    Ok(())
}
