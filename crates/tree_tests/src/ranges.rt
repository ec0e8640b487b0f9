//! The tree of the minimum cuts by sets that grow in ranges of a few vertices each. It has the
//! sides that the sweep alone finds.

ghost use Rattle.std.specs.Prelude.{◌≡◌, ◌≤◌};
ghost use Rattle.cut_definitions.specs.Components.{IsConnected};
ghost use Rattle.cut_definitions.specs.Cuts.{value as least_value};

use crate::graphs::{GRAPHS, edges_of};
use crate::sides::all_sides;
use cactus_solver::{Limits, Solved, tree_by_growth};
use cut_definitions::NoMemory;
use least_cut::least_weight;
use region_sweep::{cactus_by_tree, solve_alone};
use std::alloc::Global;
use std::test::Fail;
use std::thread::Threads;
use weighted_graph::{Graph, laws};

/// Limits by which ranges have one vertex or more, however many edges join them.
const TINY: Limits = Limits {
    most_ranges: 8,
    least_range: 1,
    most_across: 1_000_000,
    searches: 4,
    most_vertices: 100,
    most_tries: 4,
    first_tries: 300,
};

/// Graphs in which most vertices are alone in their minimum cuts, or in none.
const MESHES: [(&str, &str); 6] = [
    (
        "a torus of 4 by 5",
        "20 40\n2 5 6 16\n1 3 7 17\n2 4 8 18\n3 5 9 19\n1 4 10 20\n1 7 10 11\n2 6 8 12\n3 7 9 13\n4 8 10 14\n5 6 9 15\n6 12 15 16\n7 11 13 17\n8 12 14 18\n9 13 15 19\n10 11 14 20\n1 11 17 20\n2 12 16 18\n3 13 17 19\n4 14 18 20\n5 15 16 19\n",
    ),
    (
        "a grid of 3 by 4",
        "12 17\n2 5\n1 3 6\n2 4 7\n3 8\n1 6 9\n2 5 7 10\n3 6 8 11\n4 7 12\n5 10\n6 9 11\n7 10 12\n8 11\n",
    ),
    (
        "a cube of dimension 4",
        "16 32\n2 3 5 9\n1 4 6 10\n1 4 7 11\n2 3 8 12\n1 6 7 13\n2 5 8 14\n3 5 8 15\n4 6 7 16\n1 10 11 13\n2 9 12 14\n3 9 12 15\n4 10 11 16\n5 9 14 15\n6 10 13 16\n7 11 13 16\n8 12 14 15\n",
    ),
    ("a star", "7 6\n2 3 4 5 6 7\n1\n1\n1\n1\n1\n1\n"),
    (
        "a complete graph of six",
        "6 15\n2 3 4 5 6\n1 3 4 5 6\n1 2 4 5 6\n1 2 3 5 6\n1 2 3 4 6\n1 2 3 4 5\n",
    ),
    (
        "a ring of ladders",
        "10 15\n2 3 9\n1 4 10\n1 4 5\n2 3 6\n3 6 7\n4 5 8\n5 8 9\n6 7 10\n1 7 10\n2 8 9\n",
    ),
];

/// Whether each list of the first is in the second.
fn are_among(some: &[Vec<u32>], all: &[Vec<u32>]) -> bool {
    for list in some {
        let mut is_found = false;
        for other in all {
            is_found = is_found || other.as_slice() == list.as_slice();
        }
        if !is_found {
            return false;
        }
    }
    true
}

/// Whether two cactuses have the same sides.
fn have_same_sides(alloc: Global, one: &Solved, other: &Solved) -> Result<bool, NoMemory> {
    let sides = all_sides(alloc, &one.cactus)?;
    let others = all_sides(alloc, &other.cactus)?;
    Ok(are_among(&sides, &others) && are_among(&others, &sides))
}

/// For how many of these numbers of workers sets grew, or `None` if a tree of theirs has other
/// sides than that of the sweep alone.
fn grown_times<R: Threads + Sync>(
    rt: &R,
    alloc: Global,
    graph: &Graph,
    value: u64,
    workers: &[u32],
) -> Result<Option<u32>, NoMemory>
    requires connected { IsConnected graph.now }
    requires enough { 2 ≤ graph.now.vertices }
    requires value { value ≡ least_value graph.now }
{
    let swept = solve_alone(alloc, graph, value)?;
    let mut grown = 0u32;
    for several in workers {
        let found = tree_by_growth(rt, alloc, graph, value, (*several).max(1), TINY)?;
        let Some(tree) = found else {
            continue;
        };
        let solved = cactus_by_tree(alloc, graph.list(), value, tree)?;
        if !have_same_sides(alloc, &swept, &solved)? {
            return Ok(None);
        }
        grown = grown.saturating_add(1);
    }
    Ok(Some(grown))
}

/// For how many of one, two, three and four workers sets grow in the graph of a file. It returns
/// `None` if that is not a connected graph of two or more vertices, or a tree has other sides than
/// that of the sweep.
fn grown_by_text<R: Threads + Sync>(
    rt: &R,
    alloc: Global,
    text: &str,
) -> Result<Option<u32>, NoMemory> {
    let Some(list) = edges_of(alloc, text) else {
        return Ok(None);
    };
    laws::connected_is_one_component();
    let graph = Graph::from_list(alloc, list)?;
    if graph.n() < 2 || graph.components(alloc)? != 1 {
        return Ok(None);
    }
    let value = least_weight(alloc, &graph)?;
    grown_times(rt, alloc, &graph, value, &[1, 2, 3, 4])
}

#[test]
fn meshes_are_solved_by_growth(rt: HostRuntime) -> Result<(), Fail> {
    for (name, text) in &MESHES {
        let grown = grown_by_text(&rt, rt.alloc(), text)?;
        assert!(rt; matches!(grown, Some(times) if times > 0), "{name}");
    }
    Ok(())
}

#[test]
fn known_graphs_are_solved_by_growth(rt: HostRuntime) -> Result<(), Fail> {
    for known in &GRAPHS {
        let grown = grown_by_text(&rt, rt.alloc(), known.text)?;
        assert!(rt; grown.is_some(), "{}", known.name);
    }
    Ok(())
}
