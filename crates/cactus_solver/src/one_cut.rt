//! One minimum cut, at about the price of the value.

ghost use Rattle.std.specs.Prelude.{◌≡◌, ◌+◌, ◌<◌, ◌≤◌, ◌^◌, IfOk};
ghost use Rattle.cut_definitions.specs.Cuts.{value as least_value};
ghost use Rattle.cut_definitions.specs.Degrees.{IsLeastDegree};
ghost use Rattle.least_cut.specs.Lightest.{IsCutFound, IsLightestCut};
ghost use Rattle.cactus_solver.specs.Reducing.{IsReduced, list_in};

use crate::by_list::with_rows;
use crate::list_classes::classes_of;
use crate::reduced::Reduced;
use cut_definitions::{EdgeList, NoMemory};
use least_cut::{LightestCut, degree_is_value, lightest_cut_below, lightest_vertex_cut};
use min_value::{reduce_by_scans, value_by_contraction, value_by_sweeps};
use std::alloc::Global;
use worker_team::Team;

/// A minimum cut of a graph whose value is known, by that of a graph that stands for it.
fn cut_of_reduced(alloc: Global, reduced: &Reduced, value: u64) -> Result<LightestCut, NoMemory>
    requires reduced { IsReduced reduced.now }
    requires value { value ≡ least_value (list_in reduced.now) }
    requires fits { value + 1 < 2 ^ 64 }
    ensures { IfOk result (IsLightestCut (list_in reduced.now)) }
{
    let found = lightest_cut_below(alloc, reduced.graph(), value, value + 1)?;
    let cut = found.unwrap();
    reduced.lift_cut(alloc, cut)
}

/// A minimum cut of a graph whose value is known, by the graph on classes that no minimum cut
/// separates, if forests show such.
fn cut_at_value<T: Team>(team: &T, list: EdgeList, value: u64) -> Result<LightestCut, NoMemory>
    requires ready { T.ready team.now }
    requires enough { 2 ≤ list.vertices }
    requires value { value ≡ least_value list }
    ensures { IfOk result (IsLightestCut list) }
{
    // known by this call: it is an edge list, so no cut weighs more than 2^61
    let _n = list.n();
    let classes = classes_of(team.alloc(), &list, value, None)?;
    let reduced = with_rows(team, list, classes)?;
    cut_of_reduced(team.alloc(), &reduced, value)
}

/// A minimum cut of a graph by its rows: that of a lightest vertex alone, if it weighs no more
/// than the value.
fn cut_by_rows<T: Team>(
    team: &T,
    list: EdgeList,
    alone: LightestCut,
) -> Result<LightestCut, NoMemory>
    requires ready { T.ready team.now }
    requires enough { 2 ≤ list.vertices }
    requires alone { IsCutFound list alone }
    ensures { IfOk result (IsLightestCut list) }
{
    // known by this call: it is an edge list, so no cut weighs more than 2^61
    let _n = list.n();
    let reduced = Reduced::with_rows(team, list)?;
    let value = value_by_sweeps(team, reduced.graph())?;
    if alone.weight == value {
        return Ok(alone);
    }
    let kernel = reduce_by_scans(team, reduced.graph(), value)?;
    let reduced = reduced.lead_on(team.alloc(), kernel)?;
    cut_of_reduced(team.alloc(), &reduced, value)
}

/// A minimum cut of a graph, of which a lightest vertex alone is known: by its list of edges, if
/// that tells the value, and else by its rows.
fn cut_beside<T: Team>(
    team: &T,
    list: EdgeList,
    alone: LightestCut,
) -> Result<LightestCut, NoMemory>
    requires ready { T.ready team.now }
    requires enough { 2 ≤ list.vertices }
    requires alone { IsCutFound list alone }
    requires least { IsLeastDegree list alone.weight }
    ensures { IfOk result (IsLightestCut list) }
{
    if degree_is_value(&list, alone.weight) {
        return Ok(alone);
    }
    match value_by_contraction(team, &list, alone.weight)? {
        Some(value) if value < alone.weight => cut_at_value(team, list, value),
        Some(_) => Ok(alone),
        None => cut_by_rows(team, list, alone),
    }
}

/// The value of a graph of two or more vertices and one of its minimum cuts. Which of several
/// minimum cuts is free. The list of edges is taken over.
///
/// The value comes first, as `min_value::lesser_of_list` finds it. A vertex of that degree is a
/// minimum cut, alone. If there is none, forests show classes that no minimum cut separates, and a
/// sweep over the graph on these ends at the first cut that weighs the value. Any team can do it,
/// the calling thread alone among them. It takes memory O(n + m), and is refused only when out of
/// memory; the list is gone then.
pub fn minimum_cut<T: Team>(team: &T, list: EdgeList) -> Result<LightestCut, NoMemory>
    requires ready { T.ready team.now }
    requires enough { 2 ≤ list.vertices }
    ensures { IfOk result (IsLightestCut list) }
{
    let alone = lightest_vertex_cut(team.alloc(), &list)?;
    cut_beside(team, list, alone)
}
