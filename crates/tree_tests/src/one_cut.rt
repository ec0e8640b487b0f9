//! One minimum cut with the value.

use crate::graphs::{GRAPHS, Known, edges_of};
use crate::lists::path;
use cactus_solver::minimum_cut;
use cut_definitions::NoMemory;
use least_cut::{LightestCut, lightest_cut_below};
use std::alloc::Global;
use std::test::Fail;
use vertex_set::Side;
use weighted_graph::Graph;
use worker_team::Alone;

/// A minimum cut of the graph of a file, by its list of edges.
fn cut_of(alloc: Global, text: &str) -> Result<Option<LightestCut>, NoMemory> {
    let Some(list) = edges_of(alloc, text) else {
        return Ok(None);
    };
    if list.n() < 2 {
        return Ok(None);
    }
    let cut = minimum_cut(&Alone { alloc }, list)?;
    Ok(Some(cut))
}

/// A minimum cut of the graph of a file by one sweep, if it weighs less than a bound.
fn swept_below(alloc: Global, text: &str, bound: u64) -> Result<Option<LightestCut>, NoMemory> {
    let Some(list) = edges_of(alloc, text) else {
        return Ok(None);
    };
    if list.n() < 2 {
        return Ok(None);
    }
    let graph = Graph::from_list(alloc, list)?;
    lightest_cut_below(alloc, &graph, 0, bound)
}

/// Whether a side has exactly the vertices of a list, each of which is there once.
fn has_just(side: &Side, list: &[u32]) -> bool {
    for v in list {
        if *v < 1 || *v > side.n() || !side.has(*v) {
            return false;
        }
    }
    side.len() as usize == list.len()
}

/// Whether a side has exactly the vertices of one of several lists.
fn is_among(side: &Side, lists: &[&[u32]]) -> bool {
    let mut is_found = false;
    for list in lists {
        is_found = is_found || has_just(side, list);
    }
    is_found
}

/// Whether a cut is one of those of a known graph.
fn is_right(known: &Known, cut: &LightestCut) -> bool {
    cut.weight == known.value && is_among(&cut.side, known.sides)
}

#[test]
fn a_known_graph_gives_one_of_its_cuts(rt: HostRuntime) -> Result<(), Fail> {
    for known in &GRAPHS {
        let Some(cut) = cut_of(rt.alloc(), known.text)? else {
            return Err(Fail::from(known.name));
        };
        assert!(rt; is_right(known, &cut), "{}", known.name);
    }
    Ok(())
}

#[test]
fn a_sweep_tells_a_cut_below_a_bound_alone(rt: HostRuntime) -> Result<(), Fail> {
    for known in &GRAPHS {
        let above = known.value.saturating_add(1);
        let Some(cut) = swept_below(rt.alloc(), known.text, above)? else {
            return Err(Fail::from(known.name));
        };
        assert!(rt; is_right(known, &cut), "{}", known.name);
        let none = swept_below(rt.alloc(), known.text, known.value)?;
        assert!(rt; none.is_none(), "{}", known.name);
    }
    Ok(())
}

#[test]
fn a_long_path_gives_one_of_two_cuts(rt: HostRuntime) -> Result<(), Fail> {
    let text = path(rt.alloc(), None)?;
    let Some(cut) = cut_of(rt.alloc(), &text)? else {
        return Err(Fail::from("no cut"));
    };
    assert!(rt; cut.weight == 3 && (cut.side.len() == 1 || cut.side.len() == 1_100));
    Ok(())
}

#[test]
fn a_gap_is_a_cut_of_weight_0(rt: HostRuntime) -> Result<(), Fail> {
    let text = path(rt.alloc(), Some(550))?;
    let Some(cut) = cut_of(rt.alloc(), &text)? else {
        return Err(Fail::from("no cut"));
    };
    assert!(rt; cut.weight == 0 && cut.side.len() == 551 && cut.side.next_from(1) == Some(551));
    Ok(())
}
