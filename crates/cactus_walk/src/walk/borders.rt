//! The borders of the blocks of a tree: the places where the nodes of a block begin, and where the
//! last of them ends.

ghost use Rattle.std.specs.Prelude.{◌≡◌, ℕ, ◌++◌, ◌<◌, ◌≤◌, length, drop, map, OnOk, IfOk};
ghost use Rattle.rooted_cactus.specs.Outlines.{Hops};
ghost use Rattle.rooted_cactus.specs.Borders.{AllHop, all_borders, border_at, borders_along, placed, ranges_between};

use cut_definitions::NoMemory;
use rooted_cactus::{Border, NodeOutline};
use std::alloc::Global;

/// Appends the borders of a block of some nodes, of which the first has the given number.
fn add_block(
    borders: &mut Vec<Border>,
    places: &[usize],
    sizes: &[usize],
    first: usize,
    count: usize,
) -> Result<(), NoMemory>
    requires places { length sizes.now < length places.now }
    requires hops { (to : ℕ) × (to ≤ length sizes.now) × Hops sizes.now count first to }
    ensures { OnOk result (borders.new.items ≡ borders.old.items ++ map (placed places.now) (borders_along sizes.now count first)) }
{
    let mut number = first;
    let mut following = count;
    'nodes: while following > 0 {
        borders.push(Border {
            place: places[number],
            following,
        })?;
        number += sizes[number];
        following -= 1;
    }
    borders.push(Border {
        place: places[number],
        following: 0,
    })?;
    Ok(())
}

/// The borders of all blocks of a tree, in the order of the tree.
///
/// It takes one step for each node and block, and memory in proportion to these. It fails only if
/// it runs out of memory.
pub fn borders_of(
    alloc: Global,
    entries: &[NodeOutline],
    sizes: &[usize],
    places: &[usize],
) -> Result<Vec<Border>, NoMemory>
    requires sizes { length entries.now ≡ length sizes.now }
    requires places { length sizes.now < length places.now }
    requires hops { AllHop sizes.now 0 entries.now }
    ensures { IfOk result (λ v. v.items ≡ map (placed places.now) (all_borders sizes.now 0 entries.now)) }
{
    let mut borders = Vec::new(alloc);
    'nodes: for i in 0..entries.len() {
        let head = entries[i].head;
        if head > 0 {
            add_block(&mut borders, places, sizes, i, head)?;
        }
    }
    Ok(borders)
}

/// The first border from a place of the list on, counted from 0, that others of its block follow.
/// If there is none, it returns the number of borders. One step for each border that is passed.
pub fn next_start(borders: &[Border], from: usize) -> usize
    requires { from ≤ length borders.now }
    ensures within { result ≤ length borders.now }
    ensures start { result < length borders.now → 0 < (border_at borders.now result).following }
    ensures ranges { ranges_between (drop result borders.now) ≡ ranges_between (drop from borders.now) }
{
    let mut at = from;
    'ends: while at < borders.len() && borders[at].following == 0 {
        at += 1;
    }
    at
}
