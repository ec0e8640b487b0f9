//! From a list of edges to its minimum cuts.

ghost use Rattle.std.specs.Prelude.{◌≡◌, ◌≤◌, IfOk};
ghost use Rattle.cut_definitions.specs.Components.{IsConnected};
ghost use Rattle.rooted_cactus.specs.Solving.{IsSolved};

use cactus_solver::{Cuts, Solved, SolvedList, solve_list};
use cut_definitions::EdgeList;
use outside::{Gate, NoMemory};
use std::thread::Threads;
use worker_team::Crew;

/// A connected graph, which is returned, and its minimum cuts.
pub(crate) fn solve_connected<R: Threads + Sync, G: Gate>(
    crew: &Crew<R, G>,
    list: EdgeList,
) -> Result<(EdgeList, Solved), NoMemory>
    requires enough { 2 ≤ list.vertices }
    requires connected { IsConnected list }
    ensures graph { IfOk result (λ r. r.0 ≡ list) }
    ensures solved { IfOk result (λ r. IsSolved list r.1) }
{
    let SolvedList { list, cuts } = solve_list(crew, list)?;
    match cuts {
        Cuts::Joined(solved) => Ok((list, solved)),
        Cuts::Apart(_) => unreachable!(),
    }
}
