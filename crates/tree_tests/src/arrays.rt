//! Trees of minimum cuts in arrays: made flat from the arrays and through boxes, and counted.

ghost use Rattle.std.specs.Prelude.{◌≤◌};
ghost use Rattle.cactus_solver.specs.SolvedLists.{IsTreeSolved};

use crate::graphs::edges_of;
use cactus_solver::{Cuts, SolvedList, SolvedTree, tree_of_long_list};
use canonical_cactus::canonical;
use cut_definitions::{EdgeList, NoMemory};
use flat_cactus::{FlatCactus, flatten};
use region_sweep::cactus_by_tree;
use std::alloc::Global;
use std::test::Fail;
use tree_flattening::{canonical_flat, count_of_tree};
use worker_team::Alone;

/// Files of graphs whose trees have a vertex in each node and no cycle of three: a path, a star
/// and a ring, numbered at random, and two rings through vertex 1.
const PLAIN: [&str; 4] = [
    "4 3\n3\n4\n1 4\n3 2\n",
    "5 4\n4\n4\n4\n1 2 3 5\n4\n",
    "6 6\n5 4\n4 6\n6 5\n1 2\n1 3\n2 3\n",
    "7 8\n2 4 5 7\n1 3\n2 4\n3 1\n1 6\n5 7\n6 1\n",
];

/// A triangle, whose cactus is a star, and a complete graph of four vertices, whose tree has a
/// node without vertices.
const OTHER: [&str; 2] = ["3 3\n2 3\n1 3\n1 2\n", "4 6\n2 3 4\n1 3 4\n1 2 4\n1 2 3\n"];

/// Whether two flat cactuses are the same.
fn are_same(a: &FlatCactus, b: &FlatCactus) -> bool {
    if a.nodes() != b.nodes() || a.cycles() != b.cycles() || a.bridges() != b.bridges() {
        return false;
    }
    for i in 0..a.nodes() {
        if a.node(i) != b.node(i) {
            return false;
        }
    }
    for i in 0..a.cycles() {
        if a.cycle(i) != b.cycle(i) {
            return false;
        }
    }
    true
}

/// Whether the arrays have the same flat cactus as the boxes, if `plain`, and none otherwise.
fn tells(alloc: Global, text: &str, plain: bool) -> Result<bool, NoMemory> {
    let Some(list) = edges_of(alloc, text) else {
        return Ok(false);
    };
    if list.n() < 2 {
        return Ok(false);
    }
    let SolvedList { list, cuts } = tree_of_long_list(&Alone { alloc }, list)?;
    match cuts {
        Cuts::Joined(found) => agrees(alloc, &list, found, plain),
        Cuts::Apart(_) => Ok(false),
    }
}

/// Whether the arrays of a solved tree have the same flat cactus as its boxes, if `plain`, and
/// none otherwise.
fn agrees(alloc: Global, list: &EdgeList, found: SolvedTree, plain: bool) -> Result<bool, NoMemory>
    requires enough { 2 ≤ list.now.vertices }
    requires solved { IsTreeSolved list.now found }
{
    let SolvedTree { value, tree } = found;
    match canonical_flat(alloc, &tree, list.n())? {
        Some(flat) => {
            let solved = cactus_by_tree(alloc, list, value, tree)?;
            let boxed = canonical(alloc, solved.cactus)?;
            Ok(plain && are_same(&flat, &flatten(alloc, &boxed)?))
        }
        None => Ok(!plain),
    }
}

/// The number of the minimum cuts by the arrays of their tree, if these suffice.
fn count_by_text(alloc: Global, text: &str) -> Result<Option<u64>, NoMemory> {
    let Some(list) = edges_of(alloc, text) else {
        return Ok(None);
    };
    if list.n() < 2 {
        return Ok(None);
    }
    let SolvedList { list, cuts } = tree_of_long_list(&Alone { alloc }, list)?;
    match cuts {
        Cuts::Joined(found) => count_of_tree(alloc, &list, &found.tree),
        Cuts::Apart(_) => Ok(None),
    }
}

#[test]
fn arrays_count_the_cuts_where_no_node_is_empty(rt: HostRuntime) -> Result<(), Fail> {
    let counts = [3, 4, 15, 12];
    for i in 0..4 {
        assert!(rt; count_by_text(rt.alloc(), PLAIN[i])? == Some(counts[i]));
    }
    assert!(rt; count_by_text(rt.alloc(), OTHER[0])? == Some(3));
    assert!(rt; count_by_text(rt.alloc(), OTHER[1])?.is_none());
    Ok(())
}

#[test]
fn arrays_tell_the_flat_cactus_of_the_boxes(rt: HostRuntime) -> Result<(), Fail> {
    for text in PLAIN {
        assert!(rt; tells(rt.alloc(), text, true)?);
    }
    for text in OTHER {
        assert!(rt; tells(rt.alloc(), text, false)?);
    }
    Ok(())
}
