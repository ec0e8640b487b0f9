//! Lists of edges whose graphs need no rows.

use crate::graphs::edges_of;
use cactus_solver::{Cuts, Solved, SolvedList, solve_long_list};
use cut_definitions::NoMemory;
use std::alloc::Global;
use std::test::Fail;
use worker_team::Alone;

/// The weight of the edge from a vertex of the path to the next one. The first and the last edge
/// are lighter.
fn weight_after(v: u32) -> u32 {
    if v == 1 || v == 1_100 { 3 } else { 5 }
}

/// A file with a path of 1,101 vertices, without the edge after one of them if that vertex is
/// named.
pub(crate) fn path(alloc: Global, gap: Option<u32>) -> Result<String, NoMemory> {
    let edges = if gap.is_some() { 1_099 } else { 1_100 };
    let mut text = format!(in alloc; "1101 {edges} 1\n")?;
    for v in 1u32..1_102 {
        if v > 1 && gap != Some(v - 1) {
            let word = format!(in alloc; "{} {} ", v - 1, weight_after(v - 1))?;
            text.push_str(&word)?;
        }
        if v < 1_101 && gap != Some(v) {
            let word = format!(in alloc; "{} {} ", v + 1, weight_after(v))?;
            text.push_str(&word)?;
        }
        text.push_str("\n")?;
    }
    Ok(text)
}

/// What the solver finds of the path.
fn solved_path(alloc: Global, gap: Option<u32>) -> Result<Option<SolvedList<Solved>>, NoMemory> {
    let text = path(alloc, gap)?;
    let Some(list) = edges_of(alloc, &text) else {
        return Ok(None);
    };
    if list.n() < 2 {
        return Ok(None);
    }
    let found = solve_long_list(&Alone { alloc }, list)?;
    Ok(Some(found))
}

#[test]
fn a_long_path_is_solved_by_its_list(rt: HostRuntime) -> Result<(), Fail> {
    let Some(found) = solved_path(rt.alloc(), None)? else {
        return Err(Fail::from("no graph"));
    };
    let SolvedList { list, cuts } = found;
    assert!(rt; list.n() == 1_101 && list.len() == 1_100);
    match cuts {
        Cuts::Joined(solved) => assert!(rt; solved.value == 3 && solved.cactus.nodes() == 3),
        Cuts::Apart(_) => return Err(Fail::from("several components")),
    }
    Ok(())
}

#[test]
fn a_path_with_a_gap_has_two_components(rt: HostRuntime) -> Result<(), Fail> {
    let Some(found) = solved_path(rt.alloc(), Some(550))? else {
        return Err(Fail::from("no graph"));
    };
    assert!(rt; found.list.len() == 1_099 && matches!(found.cuts, Cuts::Apart(2)));
    Ok(())
}
