//! Canonical cactuses, others, and what becomes of these.

ghost use Rattle.rooted_cactus.specs.Different.{HasNoEmptySide};

use crate::cactuses::{has_exactly, has_sides};
use crate::flats::{Lists, has_lists};
use crate::trees::{
    ONE_RING, RING_AND_BRIDGE, STAR, Sketch, TURNED_RING, TURNED_STAR, TURNED_TRIANGLE, TWO_SPARE,
    cactus_of,
};
use cactus_tree::{Cactus, flatten};
use canonical_cactus::laws::{one_flat, one_tree, vertices_below};
use canonical_cactus::{canonical, first_best, is_canonical, is_canonical_within};
use cut_definitions::{NoMemory, VertexWeights};
use std::alloc::Global;
use std::test::Fail;

/// Whether a cactus is said to be canonical, or not to be, both by calls and by loops.
fn is_told(alloc: Global, sketch: &Sketch, canonical: bool) -> Result<bool, Fail> {
    let cactus = cactus_of(alloc, sketch)?;
    let within = is_canonical_within(alloc, &cactus)?;
    Ok(is_canonical(&cactus) == canonical && within == canonical)
}

/// A ring and a star in order are canonical. A reversed ring, a reversed star and a cycle of three
/// nodes are not.
const TOLD: &[(Sketch, bool)] = &[
    (ONE_RING, true),
    (STAR, true),
    (TURNED_RING, false),
    (TURNED_STAR, false),
    (RING_AND_BRIDGE, false),
];

#[test]
fn rings_and_stars_in_order_are_canonical_and_others_are_not(rt: HostRuntime) -> Result<(), Fail> {
    for (sketch, canonical) in TOLD {
        let holds = is_told(rt.alloc(), sketch, *canonical)?;
        assert!(rt; holds, "at {canonical}");
    }
    Ok(())
}

/// A cactus, and the number of nodes and the sides of the canonical one that it becomes.
struct Row {
    sketch: Sketch,
    nodes: u64,
    sides: &'static [&'static [u32]],
}

const RING: &[&[u32]] = &[&[2], &[2, 3], &[2, 3, 4], &[3], &[3, 4], &[4]];

const ROWS: &[Row] = &[
    // a reversed ring is reversed again
    Row {
        sketch: TURNED_RING,
        nodes: 4,
        sides: RING,
    },
    // a ring in order is returned as it is
    Row {
        sketch: ONE_RING,
        nodes: 4,
        sides: RING,
    },
    // cycles of three nodes become stars
    Row {
        sketch: TWO_SPARE,
        nodes: 7,
        sides: &[&[2], &[2, 3], &[3], &[4], &[4, 5], &[5]],
    },
];

/// Whether the cactus becomes a canonical one with this number of nodes and exactly these sides.
fn becomes(alloc: Global, row: &Row) -> Result<bool, Fail> {
    let cactus = canonical(alloc, cactus_of(alloc, &row.sketch)?)?;
    let shown = has_sides(alloc, &cactus, row.sides)?;
    Ok(shown && is_canonical(&cactus) && cactus.nodes() == row.nodes)
}

#[test]
fn rings_are_turned_and_cycles_of_three_nodes_become_stars(rt: HostRuntime) -> Result<(), Fail> {
    for row in ROWS {
        let holds = becomes(rt.alloc(), row)?;
        assert!(rt; holds, "at {} nodes", row.nodes);
    }
    Ok(())
}

/// The star of 1, 2 and 3 around an empty node, node by node and bridge by bridge.
const STAR_LISTS: Lists = Lists {
    n: 3,
    nodes: &[&[1], &[], &[2], &[3]],
    bridges: &[(0, 1), (1, 2), (1, 3)],
    cycles: &[],
};

/// Whether 2 alone is the first of the best sides, if each of the three vertices weighs 1.
fn has_first_two(alloc: Global, cactus: &Cactus) -> Result<bool, NoMemory> {
    if cactus.n() != 3 || cactus.root().blocks.len() == 0 {
        return Ok(false);
    }
    let weights = VertexWeights::from_list(vec![in alloc; 1u64; 3]?);
    let side = first_best(alloc, cactus, &weights)?;
    Ok(has_exactly(&side, &[2]))
}

/// Whether the cactus has the first best side and becomes the star, which has it too.
fn becomes_star(alloc: Global, turned: Cactus) -> Result<bool, NoMemory>
    requires { HasNoEmptySide turned }
{
    let before = has_first_two(alloc, &turned)?;
    let cactus = canonical(alloc, turned)?;
    let after = has_first_two(alloc, &cactus)?;
    let flat = flatten(alloc, &cactus)?;
    Ok(before && after && has_lists(&flat, &STAR_LISTS))
}

#[test]
fn a_turned_cycle_of_three_nodes_becomes_a_star_in_order(rt: HostRuntime) -> Result<(), Fail> {
    let turned = cactus_of(rt.alloc(), &TURNED_TRIANGLE)?;
    let holds = becomes_star(rt.alloc(), turned)?;
    assert!(rt; holds);
    Ok(())
}

#[test]
fn the_laws_take_nothing(_rt: HostRuntime) -> Result<(), Fail> {
    vertices_below();
    one_tree();
    one_flat();
    Ok(())
}
