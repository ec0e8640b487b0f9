//! The cuts that a walk leaves out, since another cut has the same side.
//!
//! An empty node with one block below it, a cycle, is cut off alone by the block above it. It has
//! the same vertices below it as all the nodes of that cycle. Of these two cuts the walk leaves
//! out the first.

ghost use Rattle.std.specs.Prelude.{◌≡◌, ℕ, ◌+◌, ◌++◌, ◌<◌, ◌≤◌, length, drop, OnOk, IfOk};
ghost use Rattle.rooted_cactus.specs.Outlines.{Hops};
ghost use Rattle.rooted_cactus.specs.Borders.{AllHop, border_at};
ghost use Rattle.cactus_walk.specs.Repeats.{all_marks, is_between, mark_at, marks_along, passed_over, ranges_kept};

use cut_definitions::NoMemory;
use rooted_cactus::{Border, NodeOutline};
use std::alloc::Global;

/// Whether a node has no vertex and one block below it, a cycle.
fn is_between(entries: &[NodeOutline], places: &[usize], number: usize) -> bool
    requires node { number < length entries.now }
    requires places { number + 1 < length places.now }
    ensures { result ≡ is_between places.now entries.now number }
{
    let children = entries[number].children;
    if children < 2 || number + 1 >= entries.len() {
        return false;
    }
    entries[number + 1].head == children && places[number] == places[number + 1]
}

/// Appends the marks of the borders of a block of some nodes, of which the first has the given
/// number.
fn add_marks(
    repeats: &mut Vec<bool>,
    entries: &[NodeOutline],
    sizes: &[usize],
    places: &[usize],
    first: usize,
    count: usize,
) -> Result<(), NoMemory>
    requires sizes { length entries.now ≡ length sizes.now }
    requires places { length sizes.now < length places.now }
    requires hops { (to : ℕ) × (to ≤ length sizes.now) × Hops sizes.now count first to }
    ensures { OnOk result (repeats.new.items ≡ repeats.old.items ++ marks_along (is_between places.now entries.now) sizes.now count first) }
{
    let mut number = first;
    let mut left = count;
    'nodes: while left > 0 {
        repeats.push(is_between(entries, places, number))?;
        number += sizes[number];
        left -= 1;
    }
    repeats.push(false)?;
    Ok(())
}

/// For each border of the blocks of a tree, in the order of the tree, whether the cut from it to
/// the next one is left out.
///
/// It takes one step for each node and block and a byte for each border, and fails only if it runs
/// out of memory.
pub fn repeats_of(
    alloc: Global,
    entries: &[NodeOutline],
    sizes: &[usize],
    places: &[usize],
) -> Result<Vec<bool>, NoMemory>
    requires sizes { length entries.now ≡ length sizes.now }
    requires places { length sizes.now < length places.now }
    requires hops { AllHop sizes.now 0 entries.now }
    ensures { IfOk result (λ v. v.items ≡ all_marks (is_between places.now entries.now) sizes.now 0 entries.now) }
{
    let mut repeats = Vec::new(alloc);
    'nodes: for i in 0..entries.len() {
        let head = entries[i].head;
        if head > 0 {
            add_marks(&mut repeats, entries, sizes, places, i, head)?;
        }
    }
    Ok(repeats)
}

/// How many of the borders after one are passed over: 1 if the cut to the next one is left out,
/// and 0 otherwise.
pub fn passed_over(repeats: &[bool], at: usize) -> usize
    ensures { result ≡ passed_over (mark_at repeats.now at) }
{
    if at < repeats.len() && repeats[at] {
        1
    } else {
        0
    }
}

/// The first border from a place of the list on, counted from 0, at which a cut begins that is not
/// left out. If there is none, it returns the number of borders. One step for each border that is
/// passed.
pub fn next_kept(borders: &[Border], repeats: &[bool], from: usize) -> usize
    requires from { from ≤ length borders.now }
    requires repeats { length repeats.now ≡ length borders.now }
    ensures within { result ≤ length borders.now }
    ensures start { result < length borders.now → passed_over (mark_at repeats.now result) < (border_at borders.now result).following }
    ensures ranges { ranges_kept (drop result borders.now) (drop result repeats.now) ≡ ranges_kept (drop from borders.now) (drop from repeats.now) }
{
    let mut at = from;
    'ends: while at < borders.len() && borders[at].following <= passed_over(repeats, at) {
        at += 1;
    }
    at
}
