//! Sides of best balance.

ghost use Rattle.std.specs.Prelude.{◌≡◌, ◌≤◌, IfOk, length};

use crate::cactuses::{has_exactly, is_among};
use crate::trees::{LONG_RING, ONE_PATH, ONE_RING, RING_BELOW, Sketch, cactus_of};
use balanced_cut::{balance_of, best};
use canonical_cactus::first_best;
use cut_definitions::{NoMemory, VertexWeights};
use std::alloc::Global;
use std::test::Fail;

/// A mass for vertex 1, and mass 1 for each of the other vertices of n.
fn masses(alloc: Global, first: u64, n: usize) -> Result<VertexWeights, NoMemory>
    requires some { 1 ≤ n }
    requires few { n ≤ 4194304 }
    ensures { IfOk result (λ w. length w ≡ n) }
{
    let mut list = vec![in alloc; 1u64; n]?;
    list[0] = first;
    Ok(VertexWeights::from_list(list))
}

/// A cactus, the mass of vertex 1 if all others have mass 1, the best sides, the first of them
/// first, and their balance.
struct Row {
    sketch: Sketch,
    first: u64,
    sides: &'static [&'static [u32]],
    balance: u128,
}

const ROWS: &[Row] = &[
    // a ring of four is divided into halves
    Row {
        sketch: ONE_RING,
        first: 1,
        sides: &[&[2, 3], &[3, 4]],
        balance: 2,
    },
    // and so does a path of four
    Row {
        sketch: ONE_PATH,
        first: 1,
        sides: &[&[3, 4]],
        balance: 2,
    },
    // a ring of seven is divided into three and four
    Row {
        sketch: LONG_RING,
        first: 1,
        sides: &[
            &[2, 3, 4],
            &[2, 3, 4, 5],
            &[3, 4, 5],
            &[3, 4, 5, 6],
            &[4, 5, 6],
            &[4, 5, 6, 7],
            &[5, 6, 7],
        ],
        balance: 3,
    },
    // all vertices are counted, not only those below a cycle
    Row {
        sketch: RING_BELOW,
        first: 1,
        sides: &[&[4, 5]],
        balance: 2,
    },
    // masses decide, and not the number of vertices
    Row {
        sketch: ONE_PATH,
        first: 9,
        sides: &[&[2, 3, 4]],
        balance: 3,
    },
];

/// Whether a best side is among those of the row, with their balance, and the first best side is
/// the first of them.
fn is_balanced(alloc: Global, row: &Row) -> Result<bool, Fail> {
    let cactus = cactus_of(alloc, &row.sketch)?;
    if cactus.n() == 0 || cactus.root().blocks.len() == 0 || row.sides.is_empty() {
        return Ok(false);
    }
    let weights = masses(alloc, row.first, cactus.n() as usize)?;
    let side = best(alloc, &cactus, &weights)?;
    let first = first_best(alloc, &cactus, &weights)?;
    Ok(
        side.n() == cactus.n()
            && is_among(&side, row.sides)
            && balance_of(&side, &weights) == row.balance
            && has_exactly(&first, row.sides[0]),
    )
}

#[test]
fn rings_and_paths_fall_into_sides_of_best_balance(rt: HostRuntime) -> Result<(), Fail> {
    for row in ROWS {
        let holds = is_balanced(rt.alloc(), row)?;
        assert!(rt; holds, "at the sides of {}", row.balance);
    }
    Ok(())
}
