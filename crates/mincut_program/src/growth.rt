//! The job `grow`: insertions of edges, one after another, and the minimum cuts after each.
//!
//! The cactus of all minimum cuts is kept from step to step. As long as some minimum cut does not
//! separate the two vertices of an insertion, exactly these cuts stay, and the value stays too. If
//! none is left, the graph is solved anew.

ghost use Rattle.std.specs.Prelude.{◌≡◌, ◌≤◌, IfOk, IfErr};
ghost use Rattle.std.specs.List.{All};
ghost use Rattle.cut_definitions.specs.Components.{IsConnected};
ghost use Rattle.cut_definitions.specs.Graph.{IsEdgeList, IsVertex};
ghost use Rattle.job_replies.specs.GrowReplies.{IsGrowReply, IsGrowStop};
ghost use Rattle.job_replies.specs.Growth.{HasGrown, IsGrowing};
ghost use Rattle.program_words.specs.Insertions.{IsInsertion};
ghost use Rattle.job_replies.specs.GrownGraphs.{with_insertion, StaysWithin};
ghost use Rattle.job_replies.specs.Jobs.{AreInRange, IsGrowText};
ghost use Rattle.job_replies.specs.Replies.{text_of, IsPrintable};

use crate::solving::solve_connected;
use answer_pages::Step;
use cactus_growth::{Grown, grow, laws, with_edge};
use cactus_solver::Solved;
use cut_definitions::EdgeList;
use job_replies::{Growing, Reply, apart_growth, grown_reply, step_for};
use outside::{Gate, NoMemory};
use program_words::Insertions;
use std::alloc::Global;
use std::thread::Threads;
use stop_lines::Stop;
use worker_team::Crew;

/// The list of a graph with one insertion. The list of the graph before is dropped.
fn inserted(
    alloc: Global,
    graph: EdgeList,
    insertion: (u64, u64, u64),
) -> Result<EdgeList, NoMemory>
    requires first { IsVertex graph.vertices insertion.0 }
    requires second { IsVertex graph.vertices insertion.1 }
    requires insertion { IsInsertion insertion }
    requires fits { IsEdgeList (with_insertion graph insertion) }
    ensures { IfOk result (λ list. list ≡ with_insertion graph insertion) }
{
    // known by this call: there are at most 4,194,304 vertices
    let _n = graph.n();
    let (u, v, w) = insertion;
    with_edge(alloc, &graph, u as u32, v as u32, w)
}

/// The graph with one insertion, and its minimum cuts.
fn grow_by<R: Threads + Sync, G: Gate>(
    crew: &Crew<R, G>,
    growing: Growing,
    insertion: (u64, u64, u64),
) -> Result<Growing, NoMemory>
    requires growing { IsGrowing growing }
    requires first { IsVertex growing.graph.vertices insertion.0 }
    requires second { IsVertex growing.graph.vertices insertion.1 }
    requires insertion { IsInsertion insertion }
    requires fits { IsEdgeList (with_insertion growing.graph insertion) }
    ensures graph { IfOk result (λ next. next.graph ≡ with_insertion growing.graph insertion) }
    ensures growing { IfOk result IsGrowing }
{
    laws::weights();
    laws::kept_cuts();
    let Growing { graph, solved } = growing;
    // known by this call: there are at most 4,194,304 vertices
    let _n = graph.n();
    let longer = inserted(crew.threads.alloc, graph, insertion)?;
    let value = solved.value;
    let (u, v, _) = insertion;
    match grow(crew.threads.alloc, solved.cactus, u as u32, v as u32)? {
        Grown::Kept(cactus) => Ok(Growing {
            graph: longer,
            solved: Solved { value, cactus },
        }),
        Grown::Gone => {
            let (graph, solved) = solve_connected(crew, longer)?;
            Ok(Growing { graph, solved })
        }
    }
}

/// The graph after all insertions, and what is printed of each step.
fn grow_all<R: Threads + Sync, G: Gate>(
    crew: &Crew<R, G>,
    insertions: &Insertions,
    start: Growing,
) -> Result<(Growing, Vec<Step>), NoMemory>
    requires growing { IsGrowing start }
    requires in_range { AreInRange start.graph.vertices insertions.now }
    requires insertions { All IsInsertion insertions.now }
    requires within { StaysWithin start.graph insertions.now }
    ensures { IfOk result (λ r. HasGrown start.graph insertions.now r.0 r.1.items) }
{
    let mut growing = start;
    let mut steps = Vec::new(crew.threads.alloc);
    'insertions: for i in 0..insertions.len() {
        growing = grow_by(crew, growing, insertions.at(i))?;
        steps.push(step_for(crew.threads.alloc, &growing)?)?;
    }
    Ok((growing, steps))
}

/// The reply for a connected graph that stays within the limits.
fn growth_reply<R: Threads + Sync, G: Gate>(
    crew: &Crew<R, G>,
    insertions: &Insertions,
    list: EdgeList,
) -> Result<Reply, NoMemory>
    requires enough { 2 ≤ list.vertices }
    requires connected { IsConnected list }
    requires in_range { AreInRange list.vertices insertions.now }
    requires insertions { All IsInsertion insertions.now }
    requires within { StaysWithin list insertions.now }
    ensures text { IfOk result (λ reply. IsGrowText list insertions.now (text_of reply)) }
    ensures printable { IfOk result IsPrintable }
{
    let (graph, solved) = solve_connected(crew, list)?;
    let start = Growing { graph, solved };
    let (growing, steps) = grow_all(crew, insertions, start)?;
    grown_reply(crew.threads.alloc, growing, steps)
}

/// The reply of the job `grow` for a graph. It fails with the first insertion after which the
/// graph would be too large, or if it runs out of memory.
pub fn grow_reply<R: Threads + Sync, G: Gate>(
    crew: &Crew<R, G>,
    insertions: &Insertions,
    list: EdgeList,
) -> Result<Reply, Stop>
    requires enough { 2 ≤ list.vertices }
    requires in_range { AreInRange list.vertices insertions.now }
    requires insertions { All IsInsertion insertions.now }
    ensures text { IfOk result (λ reply. IsGrowReply list insertions.now (text_of reply)) }
    ensures printable { IfOk result IsPrintable }
    ensures stop { IfErr result (IsGrowStop list insertions.now) }
{
    if let Some(reply) = apart_growth(crew.threads.alloc, insertions, &list)? {
        return Ok(reply);
    }
    let reply = growth_reply(crew, insertions, list)?;
    Ok(reply)
}
