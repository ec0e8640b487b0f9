//! Searches along residual arcs.
//!
//! A search is breadth-first, so the path that it finds to a vertex has as few arcs as any. It
//! touches only what it reaches: it clears the marks that it leaves along its own steps.

ghost use Rattle.std.specs.Prelude.{◌≡◌, ◌*◌, ◌<◌, ◌≤◌, ◌^◌, length, min, slice_index};
ghost use Rattle.cut_definitions.specs.Graph.{IsEdgeList};
ghost use Rattle.region_flow.specs.Residual.{IsResidual};
ghost use Rattle.region_flow.specs.Closed.{residual_on};
ghost use Rattle.max_flow.specs.Tree.{step_at, IsReady, AreWithin, IsTree, IsExpanded, Reaches, Extends, IsSearched, IsListed};
ghost use Rattle.region_flow.specs.Marks.{order_mark, IsAllUnmarked};

use region_flow::residual::residual_on;
use weighted_graph::{Arc, Graph};

/// The two vertices between which a flow goes.
#[derive(Clone, Copy, Debug)]
pub struct Ends {
    pub s: u32,
    pub t: u32,
}

/// A vertex that a search reached: from which place of the order, along which edge, and with which
/// bottleneck of the whole path.
#[derive(Clone, Copy, Debug)]
pub struct Step {
    pub vertex: u32,
    pub parent: u32,
    pub edge: u32,
    pub bottleneck: u64,
}

/// The bottleneck of a path extended by an arc to a vertex that was not reached before, or 0 if it
/// was.
fn bottleneck_along(arc: &Arc, from: Step, toward: &[u64], marks: &[u32]) -> u64
    requires edge { arc.now.edge < length toward.now }
    requires bounded { slice_index toward.now arc.now.edge ≤ 2 * arc.now.weight }
    requires small { arc.now.weight ≤ 2 ^ 61 }
    requires vertex { arc.now.to < length marks.now }
    ensures reached { 0 < order_mark marks.now arc.now.to → result ≡ 0 }
    ensures new { order_mark marks.now arc.now.to ≡ 0 → result ≡ min (residual_on from.vertex toward.now arc.now) from.bottleneck }
{
    // most arcs lead to vertices that were reached before, and need no look at their edge
    if marks[arc.to as usize] != 0 {
        return 0;
    }
    residual_on(arc, from.vertex, toward).min(from.bottleneck)
}

/// Appends the step to the order, unless its bottleneck is 0.
fn reach(marks: &mut [u32], steps: &mut [Step], count: u32, step: Step) -> u32
    requires vertex { step.vertex < length marks.old }
    requires new { 1 ≤ step.bottleneck → order_mark marks.old step.vertex ≡ 0 }
    requires free { 1 ≤ step.bottleneck → count < length steps.old }
    requires fits { length steps.old < 2 ^ 32 }
    ensures { Reaches marks.old steps.old count step marks.new steps.new result }
{
    if step.bottleneck == 0 {
        return count;
    }
    steps[count as usize] = step;
    marks[step.vertex as usize] = count + 1;
    count + 1
}

/// Follows the arcs from the vertex at a place of the order.
fn expand(
    graph: &Graph,
    toward: &[u64],
    place: u32,
    marks: &mut [u32],
    steps: &mut [Step],
    count: u32,
) -> u32
    requires residual { IsResidual graph.now toward.now }
    requires tree { IsTree graph.now toward.now marks.old steps.old count }
    requires place { place < count }
    ensures extends { Extends graph.now toward.now marks.old steps.old count marks.new steps.new result }
    ensures expanded { IsExpanded graph.now toward.now marks.new (step_at steps.old place).vertex }
{
    let from = steps[place as usize];
    let mut count = count;
    let row = graph.row(from.vertex);
    for arc in row {
        let step = Step {
            vertex: arc.to,
            parent: place,
            edge: arc.edge,
            bottleneck: bottleneck_along(arc, from, toward, marks),
        };
        count = reach(marks, steps, count, step);
    }
    count
}

/// Searches from `s`, the vertices of fewest arcs first, until `t` is reached, and returns the
/// number of vertices that were reached. It takes at most O(n + m), and only for what it reaches.
pub fn search(
    graph: &Graph,
    toward: &[u64],
    ends: Ends,
    marks: &mut [u32],
    steps: &mut [Step],
) -> u32
    requires edge_list { IsEdgeList graph.now }
    requires residual { IsResidual graph.now toward.now }
    requires ready { IsReady graph.now.vertices marks.old steps.old }
    requires ends { AreWithin graph.now.vertices ends }
    ensures { IsSearched graph.now toward.now ends.s ends.t marks.new steps.new result }
{
    steps[0] = Step {
        vertex: ends.s,
        parent: 0,
        edge: 0,
        bottleneck: u64::MAX,
    };
    marks[ends.s as usize] = 1;
    let mut count = 1;
    let mut place = 0;
    while place < count && marks[ends.t as usize] == 0 {
        count = expand(graph, toward, place, marks, steps, count);
        place += 1;
    }
    count
}

/// Clears the marks of all steps.
pub fn clear(marks: &mut [u32], steps: &[Step], count: u32)
    requires { IsListed marks.old steps.now count }
    ensures { IsAllUnmarked marks.new }
{
    for j in 0..count {
        marks[steps[j as usize].vertex as usize] = 0;
    }
}
