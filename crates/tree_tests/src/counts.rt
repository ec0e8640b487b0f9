//! Cactuses are made normal, and their sides are counted.

ghost use Rattle.std.specs.Prelude.{◌≤◌};

use crate::cactuses::has_sides;
use crate::trees::{ONE_NODE, ONE_RING, Sketch, TWO_RINGS, TWO_SPARE, cactus_of};
use cactus_tree::Cactus;
use cut_definitions::NoMemory;
use std::alloc::Global;
use std::test::Fail;

/// Whether the cactus is normal, with exactly these sides, and both counts return their number.
fn counts(alloc: Global, cactus: &Cactus, sides: &[&[u32]]) -> Result<bool, NoMemory>
    requires { cactus.now.vertices ≤ 4194304 }
{
    if !cactus.is_normal() {
        return Ok(false);
    }
    let within = cactus.count_within(alloc)?;
    let shown = has_sides(alloc, cactus, sides)?;
    Ok(shown && within == sides.len() as u64 && cactus.count() == within)
}

/// A normal cactus and its sides.
const COUNTED: &[(Sketch, &[&[u32]])] = &[
    // one node has no side
    (ONE_NODE, &[]),
    (ONE_RING, RING),
    // An empty node between two cycles counts once: 3 intervals in each cycle, less the whole
    // lower cycle, which is an interval of the upper one.
    (TWO_RINGS, &[&[2], &[2, 3], &[2, 3, 4], &[3], &[4]]),
];

const RING: &[&[u32]] = &[&[2], &[2, 3], &[2, 3, 4], &[3], &[3, 4], &[4]];

#[test]
fn each_side_of_a_normal_cactus_counts_once(rt: HostRuntime) -> Result<(), Fail> {
    for (sketch, sides) in COUNTED {
        let cactus = cactus_of(rt.alloc(), sketch)?;
        let holds = counts(rt.alloc(), &cactus, sides)?;
        assert!(rt; holds, "at {} sides", sides.len());
    }
    Ok(())
}

/// A cactus with its number of nodes, whether it is normal, and the number of nodes and the sides
/// of the normal one that it becomes.
struct Row {
    sketch: Sketch,
    nodes: u64,
    is_normal: bool,
    left: u64,
    sides: &'static [&'static [u32]],
}

const ROWS: &[Row] = &[
    // a ring stays as it is
    Row {
        sketch: ONE_RING,
        nodes: 4,
        is_normal: true,
        left: 4,
        sides: RING,
    },
    // nodes that can be spared are left out
    Row {
        sketch: TWO_SPARE,
        nodes: 7,
        is_normal: false,
        left: 5,
        sides: &[&[2], &[2, 3], &[3], &[4], &[4, 5], &[5]],
    },
];

/// Whether the cactus is as the row says, and becomes a normal one with its number of nodes and
/// exactly its sides, each counted once.
fn becomes(alloc: Global, row: &Row) -> Result<bool, Fail> {
    let cactus = cactus_of(alloc, &row.sketch)?;
    let is_told = cactus.is_normal() == row.is_normal && cactus.nodes() == row.nodes;
    let cactus = cactus.normal(alloc)?;
    let counted = counts(alloc, &cactus, row.sides)?;
    Ok(is_told && counted && cactus.nodes() == row.left)
}

#[test]
fn a_ring_stays_as_it_is_and_spare_nodes_are_left_out(rt: HostRuntime) -> Result<(), Fail> {
    for row in ROWS {
        let holds = becomes(rt.alloc(), row)?;
        assert!(rt; holds, "at {} nodes", row.nodes);
    }
    Ok(())
}
