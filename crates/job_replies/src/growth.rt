//! What the job `grow` keeps from step to step, what it prints of each step, and its reply after
//! the last one.

ghost use Rattle.std.specs.Prelude.{◌≡◌, ◌≤◌, List, IfErr, IfNone, IfOk, IfSome};
ghost use Rattle.std.specs.List.{All};
ghost use Rattle.cut_definitions.specs.Components.{IsConnected};
ghost use Rattle.cut_definitions.specs.Graph.{Graph as EdgeGraph};
ghost use Rattle.job_replies.specs.GrowReplies.{IsGrowReply, IsGrowStop};
ghost use Rattle.job_replies.specs.GrownGraphs.{step_of, StaysWithin};
ghost use Rattle.job_replies.specs.Jobs.{AreInRange, IsGrowText};
ghost use Rattle.job_replies.specs.Growth.{HasGrown, IsGrowing};
ghost use Rattle.job_replies.specs.Replies.{text_of, IsPrintable};
ghost use Rattle.program_words.specs.Insertions.{Insertion, IsInsertion};

use crate::apart::disconnected;
use crate::cuts::canonical_of;
use crate::limits::check_limits;
use crate::reply::Reply;
use answer_pages::Step;
use component_cuts::count_components;
use cut_definitions::{EdgeList, NoMemory};
use cut_listing::laws::number_of_minimum_cuts;
use flat_cactus::laws;
use program_words::Insertions;
use rooted_cactus::Solved;
use std::alloc::Global;
use stop_lines::Stop;

/// A graph, and its value and all its minimum cuts.
#[derive(Drop)]
pub struct Growing {
    pub graph: EdgeList,
    pub solved: Solved,
}

/// What is printed of a graph: its value and the number of its minimum cuts. It takes one step for
/// each node and block of the cactus, and fails only if it runs out of memory.
pub fn step_for(alloc: Global, growing: &Growing) -> Result<Step, NoMemory>
    requires { IsGrowing growing.now }
    ensures { IfOk result (λ step. step ≡ step_of growing.now.graph) }
{
    number_of_minimum_cuts();
    // known by this call: there are at most 4,194,304 vertices
    let _n = growing.graph.n();
    let count = growing.solved.cactus.count_within(alloc)?;
    Ok(Step {
        value: growing.solved.value,
        count,
    })
}

/// The reply after all insertions, from the last graph and what is printed of each step. It fails
/// only if it runs out of memory.
pub fn grown_reply(alloc: Global, growing: Growing, steps: Vec<Step>) -> Result<Reply, NoMemory>
    requires { IsGrowing growing }
    ensures text { (g : EdgeGraph) (is : List Insertion) → HasGrown g is growing steps.items → IfOk result (λ reply. IsGrowText g is (text_of reply)) }
    ensures printable { IfOk result IsPrintable }
{
    laws::flat_form();
    laws::flat_sides();
    let Growing { graph, solved } = growing;
    // known by this call: there are at most 4,194,304 vertices
    let _n = graph.n();
    let value = solved.value;
    let cactus = canonical_of(alloc, solved)?;
    Ok(Reply::Growth {
        steps,
        solved: Solved { value, cactus },
    })
}

/// The reply of `grow` for a graph in several components, or `None` for a connected graph. It
/// fails with the first insertion after which the graph would be too large, or if it runs out of
/// memory.
pub fn apart_growth(
    alloc: Global,
    insertions: &Insertions,
    list: &EdgeList,
) -> Result<Option<Reply>, Stop>
    requires enough { 2 ≤ list.now.vertices }
    requires in_range { AreInRange list.now.vertices insertions.now }
    requires insertions { All IsInsertion insertions.now }
    ensures text { IfOk result (λ found. IfSome found (λ reply. IsGrowReply list.now insertions.now (text_of reply))) }
    ensures printable { IfOk result (λ found. IfSome found IsPrintable) }
    ensures connected { IfOk result (λ found. IfNone found (IsConnected list.now)) }
    ensures within { IfOk result (λ found. StaysWithin list.now insertions.now) }
    ensures stop { IfErr result (IsGrowStop list.now insertions.now) }
{
    let components = count_components(alloc, list)?;
    match check_limits(insertions, list) {
        Ok(()) => {}
        Err(stop) => return Err(stop),
    }
    if components >= 2 {
        let reply = disconnected(alloc, components)?;
        return Ok(Some(reply));
    }
    Ok(None)
}
