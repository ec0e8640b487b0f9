//! The parts of a chain, one after another.

ghost use Rattle.std.specs.Prelude.{◌≡◌, ◌≤◌, length, IfOk, OnOk, IsSome};
ghost use Rattle.cut_definitions.specs.Chain.{IsChain, IsJoined};
ghost use Rattle.cut_definitions.specs.Graph.{IsEdgeList};
ghost use Rattle.residual_chain.specs.Residuals.{first_end, leads};
ghost use Rattle.arc_search.specs.Marks.{mark_of};
ghost use Rattle.residual_chain.specs.Search.{steps, Reaches, IsSearchable};
ghost use Rattle.residual_chain.specs.Flow.{ShowsMinimumCuts};
ghost use Rattle.residual_chain.specs.Parts.{IsSourcePart, IsFilled};

use crate::open_arcs::OpenArcs;
use crate::search::reach;
use crate::split::split;
use arc_search::{Direction, PathMemory};
use cut_definitions::NoMemory;
use max_flow::Flow;
use std::alloc::Global;
use vertex_set::Side;
use weighted_graph::Graph;

/// The first part, which is the source side of the flow; the other vertices have no part yet. It
/// takes O(n) steps and 4 bytes a vertex, and fails only if it runs out of memory.
pub fn source_part(alloc: Global, source: &Side) -> Result<Vec<u32>, NoMemory>
    ensures { IfOk result (λ r. IsSourcePart source.now.vertices source.now.members r.items) }
{
    let n = source.n();
    let mut part_of = Vec::with_capacity(alloc, n as usize)?;
    for before in 0..n {
        part_of.push(u32::from(source.has(before + 1)))?;
    }
    Ok(part_of)
}

/// Puts all vertices without a part into one part.
fn fill_rest(part_of: &mut [u32], number: u32)
    ensures { IsFilled number part_of.old part_of.new }
{
    for part in part_of.iter_mut() {
        if *part == 0 {
            *part = number;
        }
    }
}

/// Marks what leads to `t` through vertices without a mark. The memory that it takes is freed at
/// its end.
fn mark_last(
    alloc: Global,
    graph: &Graph,
    flow: &Flow,
    t: u32,
    marks: &mut [u32],
) -> Result<(), NoMemory>
    requires from_one { 1 ≤ t }
    requires to_n { t ≤ graph.now.vertices }
    requires searchable { IsSearchable graph.now flow.now }
    requires marks { length marks.old ≡ graph.now.vertices }
    requires unmarked { mark_of marks.old t ≡ 0 }
    ensures { OnOk result (Reaches graph.now.vertices (steps Direction.Against (leads graph.now flow.now)) t 1 marks.old marks.new) }
{
    let mut queue = vec![in alloc; 0; graph.n() as usize + 1]?;
    let against = OpenArcs {
        graph,
        flow,
        direction: Direction::Against,
    };
    reach(against, t, 1, marks, queue.as_mut_slice());
    Ok(())
}

/// Finds the parts after the first, and returns the number of all parts.
///
/// The last part is what leads to `t`. No open arc leads to it from the other vertices without a
/// part, and path-based searches divide these. It takes O(n + m), and memory for five numbers a
/// vertex, which it frees. It fails only if it runs out of memory.
pub fn find_parts(
    alloc: Global,
    graph: &Graph,
    flow: &Flow,
    t: u32,
    part_of: &mut [u32],
) -> Result<u32, NoMemory>
    requires edge_list { IsEdgeList graph.now }
    requires joined { IsJoined graph.now (first_end flow.now.best) t }
    requires best { IsSome flow.now.best }
    requires flow { ShowsMinimumCuts graph.now flow.now (first_end flow.now.best) t }
    requires first { IsSourcePart graph.now.vertices flow.now.source.members part_of.old }
    ensures { IfOk result (λ parts. IsChain graph.now (first_end flow.now.best) t parts (mark_of part_of.new)) }
{
    let n = graph.n() as usize;
    let mut marks = vec![in alloc; 0; n]?;
    let marks = marks.as_mut_slice();
    marks.copy_from_slice(part_of);
    mark_last(alloc, graph, flow, t, marks)?;
    let mut memory = PathMemory::new(alloc, graph.n())?;
    let along = OpenArcs {
        graph,
        flow,
        direction: Direction::Along,
    };
    let last = split(along, 1, part_of, marks, &mut memory);
    fill_rest(part_of, last + 1);
    Ok(last + 1)
}
