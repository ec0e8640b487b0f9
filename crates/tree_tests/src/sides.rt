//! The sides of a cactus as lists, compared as a set.

use cactus_tree::{Cactus, Walk};
use cut_definitions::NoMemory;
use std::alloc::Global;
use vertex_set::Side;

fn members(alloc: Global, side: &Side) -> Result<Vec<u32>, NoMemory> {
    let mut list = Vec::new(alloc);
    for v in 0..side.n() {
        if side.has(v + 1) {
            list.push(v + 1)?;
        }
    }
    Ok(list)
}

/// All sides of a cactus, in the order of a walk. A side may come twice.
pub(crate) fn all_sides(alloc: Global, cactus: &Cactus) -> Result<Vec<Vec<u32>>, NoMemory> {
    let mut sides = Vec::new(alloc);
    let mut room = Side::empty(alloc, cactus.n())?;
    let mut walk = Walk::new(alloc, cactus)?;
    'sides: while walk.next(&mut room) {
        sides.push(members(alloc, &room)?)?;
    }
    Ok(sides)
}

fn is_among(list: &[u32], lists: &[&[u32]]) -> bool {
    for other in lists {
        if *other == list {
            return true;
        }
    }
    false
}

fn is_found(list: &[u32], found: &[Vec<u32>]) -> bool {
    for other in found {
        if other.as_slice() == list {
            return true;
        }
    }
    false
}

/// Whether the two have the same lists, each once or more, in any order.
pub(crate) fn are_same(found: &[Vec<u32>], wanted: &[&[u32]]) -> bool {
    for list in found {
        if !is_among(list.as_slice(), wanted) {
            return false;
        }
    }
    for list in wanted {
        if !is_found(list, found) {
            return false;
        }
    }
    true
}
