//! Graphs whose vertices have numbers far from those of their neighbours, on more vertices than
//! fit into the nearer caches.

use crate::graphs::edges_of;
use cactus_solver::{Cuts, SolvedList, solve_list};
use cut_definitions::NoMemory;
use outside::OpenGate;
use std::alloc::Global;
use std::test::Fail;
use vertex_order::{NearGraph, near_graph};
use worker_team::{Alone, Crew};

const MANY: u32 = 70_001;

/// The vertex that comes `steps` numbers after another, around all of them.
fn after(v: u32, steps: u32) -> u32 {
    (v.saturating_sub(1).saturating_add(steps)) % MANY + 1
}

/// A file with a ring in which each vertex is joined to those `steps` numbers away.
fn ring(alloc: Global, steps: u32) -> Result<String, NoMemory> {
    let mut text = format!(in alloc; "{MANY} {MANY}\n")?;
    for v in 1..MANY + 1 {
        let line = format!(in alloc;
            "{} {}\n",
            after(v, steps),
            after(v, MANY.saturating_sub(steps))
        )?;
        text.push_str(&line)?;
    }
    Ok(text)
}

/// A file with a star around vertex 1.
fn star(alloc: Global) -> Result<String, NoMemory> {
    let mut text = format!(in alloc; "{MANY} {}\n", MANY - 1)?;
    for v in 2..MANY + 1 {
        let word = format!(in alloc; "{v} ")?;
        text.push_str(&word)?;
    }
    text.push_str("\n")?;
    for _ in 1..MANY {
        text.push_str("1\n")?;
    }
    Ok(text)
}

/// The labels of vertex 1 and of the vertices beside it on the ring of 33,000 steps, if the graph
/// of a file is renumbered.
fn first_labels(alloc: Global, text: &str) -> Result<Option<[u32; 3]>, Fail> {
    let Some(list) = edges_of(alloc, text) else {
        return Err(Fail::from("no graph"));
    };
    match near_graph(&Alone { alloc }, list)? {
        NearGraph::AsListed(_) => Ok(None),
        NearGraph::Renumbered { labels, .. } => {
            let label = |v: usize| labels.as_slice().get(v - 1).copied().unwrap_or(0);
            Ok(Some([label(1), label(33_001), label(37_002)]))
        }
    }
}

#[test]
fn a_scattered_ring_is_numbered_along(rt: HostRuntime) -> Result<(), Fail> {
    let text = ring(rt.alloc(), 33_000)?;
    assert!(rt; first_labels(rt.alloc(), &text)? == Some([1, 2, 3]));
    Ok(())
}

#[test]
fn a_ring_numbered_along_and_a_star_keep_their_numbers(rt: HostRuntime) -> Result<(), Fail> {
    let along = ring(rt.alloc(), 1)?;
    assert!(rt; first_labels(rt.alloc(), &along)?.is_none());
    let star = star(rt.alloc())?;
    assert!(rt; first_labels(rt.alloc(), &star)?.is_none());
    Ok(())
}

#[test]
fn a_scattered_ring_is_solved(rt: HostRuntime) -> Result<(), Fail> {
    let text = ring(rt.alloc(), 33_000)?;
    let Some(list) = edges_of(rt.alloc(), &text) else {
        return Err(Fail::from("no graph"));
    };
    if list.n() < 2 {
        return Err(Fail::from("no cut"));
    }
    let SolvedList { list, cuts } = solve_list(&Crew::new(&rt, rt.alloc(), 4, &OpenGate), list)?;
    assert!(rt; list.n() == MANY && list.len() == MANY as usize);
    match cuts {
        Cuts::Joined(solved) => assert!(rt;
            solved.value == 2 && solved.cactus.nodes() == u64::from(MANY)
        ),
        Cuts::Apart(_) => return Err(Fail::from("several components")),
    }
    Ok(())
}
