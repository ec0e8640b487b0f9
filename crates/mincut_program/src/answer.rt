//! From the graph to what is written.

ghost use Rattle.std.specs.Prelude.{◌≡◌, ◌≤◌, IfOk, IfErr, length};
ghost use Rattle.cut_definitions.specs.Cuts.{value};
ghost use Rattle.job_replies.specs.Jobs.{AsksCuts, IsAnswerOf, IsInRange, IsStopFor};
ghost use Rattle.job_replies.specs.Replies.{text_of, IsPrintable};
ghost use Rattle.metis_reader.specs.Measures.{AreMeasures};
ghost use Rattle.program_words.specs.Texts.{value_line};
ghost use Rattle.program_words.specs.Words.{IsMakeable, IsReading};

use crate::cactus::joined_reply;
use crate::growth::grow_reply;
use cactus_solver::{Cuts, SolvedList, tree_of_list};
use cut_definitions::{EdgeList, VertexWeights};
use job_replies::{Reply, apart_reply, first_outside, no_cut, value_text};
use metis_reader::{Measures, MetisGraph};
use min_value::{WeightRange, value_of_measured};
use outside::{Gate, NoMemory};
use program_words::{Command, Job};
use std::thread::Threads;
use stop_lines::Stop;
use worker_team::Crew;

/// The reply of the job `value`.
fn value_reply<R: Threads + Sync, G: Gate>(
    crew: &Crew<R, G>,
    list: EdgeList,
    measures: Measures,
) -> Result<Reply, NoMemory>
    requires enough { 2 ≤ list.vertices }
    requires measured { AreMeasures list measures }
    ensures text { IfOk result (λ reply. text_of reply ≡ value_line (value list)) }
    ensures printable { IfOk result IsPrintable }
{
    let range = WeightRange {
        lightest: measures.lightest,
        heaviest: measures.heaviest,
    };
    let value = value_of_measured(crew, list, range, measures.least_degree)?;
    value_text(crew.threads.alloc, value)
}

/// The reply of a job on the cuts themselves.
fn reply_on_cuts<R: Threads + Sync, G: Gate>(
    crew: &Crew<R, G>,
    command: Command,
    list: EdgeList,
    weights: &VertexWeights,
) -> Result<Reply, Stop>
    requires enough { 2 ≤ list.vertices }
    requires weighed { length weights.now ≡ list.vertices }
    requires in_range { IsInRange command.job list.vertices }
    requires job { AsksCuts command.job }
    ensures text { IfOk result (λ reply. IsAnswerOf command weights.now list (text_of reply)) }
    ensures printable { IfOk result IsPrintable }
    ensures stop { IfErr result (IsStopFor command weights.now list) }
{
    let SolvedList { list, cuts } = tree_of_list(crew, list)?;
    match cuts {
        Cuts::Apart(components) => apart_reply(
            crew.threads.alloc,
            command,
            &list,
            components,
            weights,
        ),
        Cuts::Joined(found) => joined_reply(crew.threads.alloc, command, &list, weights, found),
    }
}

/// The reply of a command that reads a graph, or the reason why there is none.
pub fn answer<R: Threads + Sync, G: Gate>(
    crew: &Crew<R, G>,
    command: Command,
    read: MetisGraph,
) -> Result<Reply, Stop>
    requires weighed { length read.weights ≡ read.edges.vertices }
    requires measured { AreMeasures read.edges read.measures }
    requires reading { IsReading command.job }
    requires makeable { IsMakeable command.job }
    ensures text { IfOk result (λ reply. IsAnswerOf command read.weights read.edges (text_of reply)) }
    ensures printable { IfOk result IsPrintable }
    ensures stop { IfErr result (IsStopFor command read.weights read.edges) }
{
    let MetisGraph {
        edges: list,
        weights,
        measures,
    } = read;
    let n = list.n();
    if let Some(vertex) = first_outside(&command.job, n) {
        return Err(Stop::BadVertex { vertex, n });
    }
    if list.n() < 2 {
        let reply = no_cut(crew.threads.alloc)?;
        return Ok(reply);
    }
    if let Job::Value = command.job {
        let reply = value_reply(crew, list, measures)?;
        return Ok(reply);
    }
    if let Job::Grow(insertions) = &command.job {
        return grow_reply(crew, insertions, list);
    }
    reply_on_cuts(crew, command, list, &weights)
}
