//! The minimum cuts of a graph by its list of edges, and by rows where that does not tell them.

ghost use Rattle.std.specs.Prelude.{◌≡◌, ◌≤◌, IfOk, IfSome};
ghost use Rattle.cut_definitions.specs.Components.{IsConnected};
ghost use Rattle.cut_definitions.specs.Cuts.{value as least_value};
ghost use Rattle.min_value.specs.Kernels.{IsKept};
ghost use Rattle.rooted_cactus.specs.Solving.{IsSolved};
ghost use Rattle.cactus_solver.specs.Reducing.{IsReduced, list_in};
ghost use Rattle.cactus_solver.specs.SolvedLists.{AreCutsOf, IsTreeSolved};

use crate::list_classes::{ListClasses, classes_of};
use crate::reduced::Reduced;
use crate::solved_list::{Cuts, SolvedList, SolvedTree};
use crate::solver::tree_of_cuts;
use crate::sweep_team::SweepTeam;
use component_cuts::count_components;
use cut_definitions::{EdgeList, NoMemory};
use min_value::{
    FEW_EDGES, ValueWithKernel, ValueWithTies, reduce, reduce_by_scans, value as least_weight,
    value_with_kernel, value_with_ties,
};
use outside::Gate;
use region_sweep::cactus_by_tree;
use rooted_cactus::Solved;
use std::alloc::Global;
use std::thread::Threads;
use worker_team::{Crew, Team};

/// A graph with rows that stands for that of a list:
/// on classes that no minimum cut parts, where there are such.
pub(crate) fn with_rows<T: Team>(
    team: &T,
    list: EdgeList,
    classes: Option<ListClasses>,
) -> Result<Reduced, NoMemory>
    requires ready { T.ready team.now }
    requires enough { 2 ≤ list.vertices }
    requires kept { IfSome classes (λ c. IsKept list c.value c.list c.labels) }
    ensures list { IfOk result (λ r. list_in r ≡ list) }
    ensures reduced { IfOk result IsReduced }
{
    let Some(classes) = classes else {
        return Reduced::with_rows(team, list);
    };
    let between = Reduced::with_rows(team, classes.list)?;
    between.lead_from(team.alloc(), list, classes.labels)
}

/// The minimum cuts of a connected graph whose value is known,
/// by those of a graph that stands for it.
fn sweep_reduced<T: SweepTeam>(
    team: &T,
    reduced: Reduced,
    value: u64,
) -> Result<SolvedList<SolvedTree>, NoMemory>
    requires ready { T.ready team.now }
    requires reduced { IsReduced reduced }
    requires connected { IsConnected (list_in reduced) }
    requires value { value ≡ least_value (list_in reduced) }
    ensures list { IfOk result (λ r. r.list ≡ list_in reduced) }
    ensures cuts { IfOk result (λ r. AreCutsOf IsTreeSolved (list_in reduced) r.cuts) }
{
    let tree = tree_of_cuts(team, reduced.graph(), value)?;
    let (list, tree) = reduced.lift(team.alloc(), tree)?;
    Ok(SolvedList {
        list,
        cuts: Cuts::Joined(SolvedTree { value, tree }),
    })
}

/// The minimum cuts of a connected graph whose value is known, by those of a graph that stands for
/// it; scans make that smaller first, where edges can be contracted.
fn solve_reduced<T: SweepTeam>(
    team: &T,
    reduced: Reduced,
    value: u64,
) -> Result<SolvedList<SolvedTree>, NoMemory>
    requires ready { T.ready team.now }
    requires reduced { IsReduced reduced }
    requires connected { IsConnected (list_in reduced) }
    requires value { value ≡ least_value (list_in reduced) }
    ensures list { IfOk result (λ r. r.list ≡ list_in reduced) }
    ensures cuts { IfOk result (λ r. AreCutsOf IsTreeSolved (list_in reduced) r.cuts) }
{
    let kernel = reduce_by_scans(team, reduced.graph(), value)?;
    let reduced = reduced.lead_on(team.alloc(), kernel)?;
    sweep_reduced(team, reduced, value)
}

/// The minimum cuts of a graph whose list does not tell a value above 0, by its rows;
/// or the number of components.
fn solve_by_rows<T: SweepTeam>(team: &T, list: EdgeList) -> Result<SolvedList<SolvedTree>, NoMemory>
    requires ready { T.ready team.now }
    requires enough { 2 ≤ list.vertices }
    ensures list { IfOk result (λ r. r.list ≡ list) }
    ensures cuts { IfOk result (λ r. AreCutsOf IsTreeSolved list r.cuts) }
{
    let components = count_components(team.alloc(), &list)?;
    if components >= 2 {
        return Ok(SolvedList {
            list,
            cuts: Cuts::Apart(components),
        });
    }
    let reduced = Reduced::with_rows(team, list)?;
    let ValueWithKernel { value, kernel } = value_with_kernel(team, reduced.graph())?;
    let reduced = reduced.lead_on(team.alloc(), kernel)?;
    solve_reduced(team, reduced, value)
}

/// The minimum cuts of a graph with more than 1,024 edges, as `tree_of_list` finds them; a
/// shorter list is solved as well, but without rounds. Any team can do it, the calling
/// thread alone among them.
pub fn tree_of_long_list<T: SweepTeam>(
    team: &T,
    list: EdgeList,
) -> Result<SolvedList<SolvedTree>, NoMemory>
    requires ready { T.ready team.now }
    requires enough { 2 ≤ list.vertices }
    ensures list { IfOk result (λ r. r.list ≡ list) }
    ensures cuts { IfOk result (λ r. AreCutsOf IsTreeSolved list r.cuts) }
{
    // known by this call: it is an edge list
    let _n = list.n();
    match value_with_ties(team, &list)? {
        Some(ValueWithTies { value, ties }) if value > 0 => {
            let classes = classes_of(team.alloc(), &list, value, ties)?;
            let reduced = with_rows(team, list, classes)?;
            solve_reduced(team, reduced, value)
        }
        _ => solve_by_rows(team, list),
    }
}

/// The minimum cuts of a small graph, by rounds.
fn tree_of_few<R: Threads + Sync, G: Gate>(
    crew: &Crew<R, G>,
    list: EdgeList,
) -> Result<SolvedList<SolvedTree>, NoMemory>
    requires enough { 2 ≤ list.vertices }
    ensures list { IfOk result (λ r. r.list ≡ list) }
    ensures cuts { IfOk result (λ r. AreCutsOf IsTreeSolved list r.cuts) }
{
    // known by this call: it is an edge list
    let _n = list.n();
    let components = count_components(crew.threads.alloc, &list)?;
    if components >= 2 {
        return Ok(SolvedList {
            list,
            cuts: Cuts::Apart(components),
        });
    }
    let graph = crew.threads.graph(list)?;
    let value = least_weight(crew, &graph)?;
    let kernel = reduce(crew, &graph, value)?;
    let reduced = Reduced::Whole(graph).lead_on(crew.threads.alloc, kernel)?;
    sweep_reduced(&crew.threads, reduced, value)
}

/// The minimum cuts of a graph of two or more vertices, whose list of edges is taken over and
/// given back with the answer: how many components there are, where it has several, or the value
/// and the tree of the minimum cuts, in arrays.
///
/// A graph with at most 1,024 edges is solved as by `solve`. Of a larger one the value is told by
/// the list where forests make that shorter, and the same forests show classes that no minimum cut
/// parts. Where these are a tenth fewer than the vertices only the graph on the classes has rows.
/// Else the graph has rows; scans which lead to the value may leave a smaller graph at once, and
/// the rows are dropped once the tree is made. What has rows is numbered anew where that brings
/// neighbours nearer. Components are counted by the list, in O(m log(n) + n) steps.
///
/// Memory is in proportion to n + m. It is refused only where memory is
/// wanting; the list is gone then.
pub fn tree_of_list<R: Threads + Sync, G: Gate>(
    crew: &Crew<R, G>,
    list: EdgeList,
) -> Result<SolvedList<SolvedTree>, NoMemory>
    requires enough { 2 ≤ list.vertices }
    ensures list { IfOk result (λ r. r.list ≡ list) }
    ensures cuts { IfOk result (λ r. AreCutsOf IsTreeSolved list r.cuts) }
{
    if list.len() <= FEW_EDGES {
        return tree_of_few(crew, list);
    }
    tree_of_long_list(&crew.threads, list)
}

/// The list with the cactus of its minimum cuts, in its normal form, in place of their tree.
fn with_cactus(alloc: Global, found: SolvedList<SolvedTree>) -> Result<SolvedList<Solved>, NoMemory>
    requires enough { 2 ≤ found.list.vertices }
    requires cuts { AreCutsOf IsTreeSolved found.list found.cuts }
    ensures list { IfOk result (λ r. r.list ≡ found.list) }
    ensures cuts { IfOk result (λ r. AreCutsOf IsSolved found.list r.cuts) }
{
    let SolvedList { list, cuts } = found;
    let cuts = match cuts {
        Cuts::Apart(components) => Cuts::Apart(components),
        Cuts::Joined(SolvedTree { value, tree }) => {
            Cuts::Joined(cactus_by_tree(alloc, &list, value, tree)?)
        }
    };
    Ok(SolvedList { list, cuts })
}

/// The minimum cuts of a graph of two or more vertices, whose list of edges is taken over and
/// given back with the answer: how many components there are, where it has several, or the value
/// and the cactus of the minimum cuts, in its normal form.
///
/// The tree of the cuts comes from `tree_of_list`, and the cactus is made of it, when the graph
/// has no rows any more. Memory is in proportion to n + m. It is refused only where memory is
/// wanting; the list is gone then.
pub fn solve_list<R: Threads + Sync, G: Gate>(
    crew: &Crew<R, G>,
    list: EdgeList,
) -> Result<SolvedList<Solved>, NoMemory>
    requires enough { 2 ≤ list.vertices }
    ensures list { IfOk result (λ r. r.list ≡ list) }
    ensures cuts { IfOk result (λ r. AreCutsOf IsSolved list r.cuts) }
{
    let found = tree_of_list(crew, list)?;
    with_cactus(crew.threads.alloc, found)
}

/// What `solve_list` answers, by any team, the calling thread alone among them. It is for graphs
/// with more than 1,024 edges; a shorter list is solved as well, but without rounds.
pub fn solve_long_list<T: SweepTeam>(
    team: &T,
    list: EdgeList,
) -> Result<SolvedList<Solved>, NoMemory>
    requires ready { T.ready team.now }
    requires enough { 2 ≤ list.vertices }
    ensures list { IfOk result (λ r. r.list ≡ list) }
    ensures cuts { IfOk result (λ r. AreCutsOf IsSolved list r.cuts) }
{
    let found = tree_of_long_list(team, list)?;
    with_cactus(team.alloc(), found)
}
