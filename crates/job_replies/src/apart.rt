//! What the jobs reply for a graph in several components. Its minimum cuts are the unions of
//! components.

ghost use Rattle.std.specs.Prelude.{◌≡◌, ◌≤◌, IfOk, IfErr, length};
ghost use Rattle.cut_definitions.specs.Components.{HasComponents};
ghost use Rattle.cut_listing.specs.Asks.{IsAskWithin};
ghost use Rattle.job_replies.specs.Apart.{IsApartGraph, IsCountStop, IsTableStop, IsUnionBalance, IsUnionCount, IsUnionList, IsUnionStop};
ghost use Rattle.job_replies.specs.Jobs.{AsksCuts, IsAnswerOf, IsInRange, IsStopFor};
ghost use Rattle.job_replies.specs.Replies.{text_of, IsPrintable};
ghost use Rattle.program_words.specs.Texts.{disconnected_line};

use crate::asks::{ask_of, select_asked};
use crate::components::{are_unions_few, components_of};
use crate::reply::Reply;
use balanced_cut::balance_of;
use component_cuts::{BestRefusal, Components, laws};
use cut_definitions::{EdgeList, NoMemory, VertexWeights};
use cut_listing::Ask;
use program_words::{Command, Job};
use std::alloc::Global;
use stop_lines::Stop;

/// The reply that says how many components there are.
pub fn disconnected(alloc: Global, components: u32) -> Result<Reply, NoMemory>
    ensures text { IfOk result (λ reply. text_of reply ≡ disconnected_line components) }
    ensures printable { IfOk result IsPrintable }
{
    let text = format!(in alloc; "disconnected {components}\n")?;
    Ok(Reply::Text(text))
}

/// The list of the unions that are asked for, or `TooManyUnions` if there are too many for a list.
fn union_listing(
    alloc: Global,
    ask: Ask,
    graph: &EdgeList,
    parts: &Components,
    workers: u32,
) -> Result<Reply, Stop>
    requires apart { IsApartGraph graph.now parts.now }
    requires within { IsAskWithin graph.now.vertices ask }
    ensures text { IfOk result (λ reply. IsUnionList ask.entry graph.now (length parts.now.parts) (text_of reply)) }
    ensures printable { IfOk result IsPrintable }
    ensures stop { IfErr result (IsUnionStop graph.now (length parts.now.parts)) }
{
    laws::minimum_cuts();
    let n = graph.n();
    if !are_unions_few(parts, n) {
        let components = parts.len();
        return Err(Stop::TooManyUnions { components, n });
    }
    let unions = parts.sides(alloc)?;
    let sides = select_asked(ask, n, unions);
    Ok(Reply::Listing {
        value: 0,
        sides,
        workers,
    })
}

/// The number of the unions, or `CountTooLarge` if there are more than 127 components.
fn union_count(alloc: Global, graph: &EdgeList, parts: &Components) -> Result<Reply, Stop>
    requires apart { IsApartGraph graph.now parts.now }
    ensures text { IfOk result (λ reply. IsUnionCount graph.now (length parts.now.parts) (text_of reply)) }
    ensures printable { IfOk result IsPrintable }
    ensures stop { IfErr result (IsCountStop (length parts.now.parts)) }
{
    laws::minimum_cuts();
    laws::number();
    let Some(count) = parts.count() else {
        let components = parts.len();
        return Err(Stop::CountTooLarge { components });
    };
    let value = 0u64;
    let text = format!(in alloc; "value {value}\ncount {count}\n")?;
    Ok(Reply::Text(text))
}

/// A union of best balance, or `BalanceTooLarge` if components and masses are too large.
fn balanced_union(
    alloc: Global,
    graph: &EdgeList,
    weights: &VertexWeights,
    parts: &Components,
) -> Result<Reply, Stop>
    requires apart { IsApartGraph graph.now parts.now }
    requires weighed { length weights.now ≡ graph.now.vertices }
    ensures text { IfOk result (λ reply. IsUnionBalance graph.now weights.now (length parts.now.parts) (text_of reply)) }
    ensures printable { IfOk result IsPrintable }
    ensures stop { IfErr result (IsTableStop (length parts.now.parts) weights.now) }
{
    laws::minimum_cuts();
    laws::components();
    match parts.best(alloc, weights) {
        Ok(side) => {
            let balance = balance_of(&side, weights);
            Ok(Reply::Balanced {
                value: 0,
                balance,
                side,
            })
        }
        Err(BestRefusal::TooLarge { components, total }) => {
            Err(Stop::BalanceTooLarge { components, total })
        }
        Err(BestRefusal::NoMemory) => Err(Stop::NoMemory),
    }
}

/// The reply of a job on the cuts for a graph with these components, and with `count` of them.
fn union_reply(
    alloc: Global,
    command: &Command,
    graph: &EdgeList,
    count: u32,
    weights: &VertexWeights,
    parts: &Components,
) -> Result<Reply, Stop>
    requires weighed { length weights.now ≡ graph.now.vertices }
    requires components { HasComponents graph.now count }
    requires several { 2 ≤ count }
    requires apart { IsApartGraph graph.now parts.now }
    requires in_range { IsInRange command.now.job graph.now.vertices }
    requires job { AsksCuts command.now.job }
    ensures text { IfOk result (λ reply. IsAnswerOf command.now weights.now graph.now (text_of reply)) }
    ensures printable { IfOk result IsPrintable }
    ensures stop { IfErr result (IsStopFor command.now weights.now graph.now) }
{
    laws::components();
    laws::one_number();
    let workers = command.workers;
    match command.job {
        Job::Cactus | Job::Augment => Ok(disconnected(alloc, count)?),
        Job::Cuts => {
            let ask = ask_of(command.least, weights);
            union_listing(alloc, ask, graph, parts, workers)
        }
        Job::Part(u, v) => {
            let ask = Ask::Parting(u as u32, v as u32);
            union_listing(alloc, ask, graph, parts, workers)
        }
        Job::Count => union_count(alloc, graph, parts),
        Job::Balanced => balanced_union(alloc, graph, weights, parts),
        Job::Value | Job::Grow(_) | Job::Trial(_) => unreachable!(),
    }
}

/// The reply of a job on the cuts for a graph with `count` components, of which there are several.
/// It fails if a limit on the unions is exceeded, or if it runs out of memory.
pub fn apart_reply(
    alloc: Global,
    command: Command,
    graph: &EdgeList,
    count: u32,
    weights: &VertexWeights,
) -> Result<Reply, Stop>
    requires enough { 2 ≤ graph.now.vertices }
    requires weighed { length weights.now ≡ graph.now.vertices }
    requires components { HasComponents graph.now count }
    requires several { 2 ≤ count }
    requires in_range { IsInRange command.job graph.now.vertices }
    requires job { AsksCuts command.job }
    ensures text { IfOk result (λ reply. IsAnswerOf command weights.now graph.now (text_of reply)) }
    ensures printable { IfOk result IsPrintable }
    ensures stop { IfErr result (IsStopFor command weights.now graph.now) }
{
    let parts = components_of(alloc, graph, count)?;
    union_reply(alloc, &command, graph, count, weights, &parts)
}
