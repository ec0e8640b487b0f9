//! The value and the minimum cuts of graphs.

ghost use Rattle.std.specs.Prelude.{◌≡◌, ◌≤◌};
ghost use Rattle.cut_definitions.specs.Components.{IsConnected};
ghost use Rattle.cut_definitions.specs.Cuts.{value as least_value};

use crate::graphs::{GRAPHS, Known, edges_of};
use crate::sides::{all_sides, are_same};
use cactus_solver::{Cuts, Solved, SolvedList, solve, solve_at, solve_long_list};
use cut_definitions::{EdgeList, NoMemory};
use outside::OpenGate;
use std::alloc::Global;
use std::test::Fail;
use std::thread::Threads;
use weighted_graph::{Graph, laws};
use worker_team::{Alone, Crew};

/// Whether the value and exactly the sides were found.
fn agrees(alloc: Global, solved: &Solved, known: &Known) -> Result<bool, NoMemory> {
    let sides = all_sides(alloc, &solved.cactus)?;
    Ok(solved.value == known.value && are_same(&sides, known.sides))
}

/// Whether the solver finds what is known, if it is given the value.
fn is_solved_at<R: Threads + Sync>(
    crew: &Crew<R, OpenGate>,
    graph: &Graph,
    value: u64,
    known: &Known,
) -> Result<bool, NoMemory>
    requires connected { IsConnected graph.now }
    requires enough { 2 ≤ graph.now.vertices }
    requires value { value ≡ least_value graph.now }
{
    let solved = solve_at(crew, graph, value)?;
    agrees(crew.threads.alloc, &solved, known)
}

/// Whether the solver finds what is known by the list of edges.
fn is_solved_by_list(alloc: Global, list: EdgeList, known: &Known) -> Result<bool, NoMemory> {
    if list.n() < 2 {
        return Ok(false);
    }
    let SolvedList { cuts, .. } = solve_long_list(&Alone { alloc }, list)?;
    match cuts {
        Cuts::Joined(solved) => agrees(alloc, &solved, known),
        Cuts::Apart(_) => Ok(false),
    }
}

/// Whether the solver finds the value and exactly the sides, by rows, also if it is given the
/// value.
fn is_solved<R: Threads + Sync>(
    rt: &R,
    alloc: Global,
    list: &EdgeList,
    known: &Known,
) -> Result<bool, NoMemory> {
    if list.n() < 2 {
        return Ok(false);
    }
    laws::connected_is_one_component();
    let graph = Graph::build(alloc, list)?;
    if graph.components(alloc)? != 1 {
        return Ok(false);
    }
    let crew = Crew::new(rt, alloc, 4, &OpenGate);
    let solved = solve(&crew, &graph)?;
    Ok(agrees(alloc, &solved, known)? && is_solved_at(&crew, &graph, solved.value, known)?)
}

#[test]
fn graphs_are_solved(rt: HostRuntime) -> Result<(), Fail> {
    for known in &GRAPHS {
        let Some(list) = edges_of(rt.alloc(), known.text) else {
            assert!(rt; false, "{}", known.name);
            return Ok(());
        };
        let holds = is_solved(&rt, rt.alloc(), &list, known)?;
        assert!(rt; holds, "{}", known.name);
        let holds_by_list = is_solved_by_list(rt.alloc(), list, known)?;
        assert!(rt; holds_by_list, "{}", known.name);
    }
    Ok(())
}
