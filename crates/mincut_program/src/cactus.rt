//! From the tree of the minimum cuts to the reply. For the jobs `cactus` and `count` it goes by
//! the arrays of the tree if they suffice; otherwise it makes a cactus.

ghost use Rattle.std.specs.Prelude.{◌≡◌, ◌≤◌, ℕ, List, IfErr, IfOk, IfSome, length};
ghost use Rattle.answer_pages.specs.Listings.{count_text};
ghost use Rattle.answer_pages.specs.Text.{cactus_text};
ghost use Rattle.cactus_solver.specs.SolvedLists.{IsTreeSolved};
ghost use Rattle.cut_definitions.specs.Components.{HasComponents};
ghost use Rattle.cut_definitions.specs.Cuts.{mincuts, value};
ghost use Rattle.job_replies.specs.Jobs.{AsksCuts, IsAnswerOf, IsCactusText, IsInRange, IsStopFor};
ghost use Rattle.job_replies.specs.Replies.{text_of, IsPrintable};

use cactus_solver::SolvedTree;
use cut_definitions::{EdgeList, VertexWeights};
use flat_cactus::{FlatCactus, laws};
use job_replies::{Reply, cuts_reply, number_reply};
use outside::NoMemory;
use program_words::{Command, Job};
use region_sweep::cactus_by_tree;
use std::alloc::Global;
use stop_lines::Stop;
use tree_flattening::{canonical_flat, count_of_tree};

/// The canonical cactus of the minimum cuts, made flat by the arrays of their tree, if that has
/// exactly the nodes of the cactus.
fn flat_by_arrays(
    alloc: Global,
    list: &EdgeList,
    found: &SolvedTree,
) -> Result<Option<FlatCactus>, NoMemory>
    requires enough { 2 ≤ list.now.vertices }
    requires solved { IsTreeSolved list.now found.now }
    ensures { IfOk result (λ o. IfSome o (λ f. IsCactusText list.now (cactus_text found.now.value f))) }
{
    laws::flat_form();
    laws::flat_sides();
    canonical_flat(alloc, &found.tree, list.n())
}

/// The number of the minimum cuts by the arrays of their tree, if no node of it is empty.
fn count_by_arrays(
    alloc: Global,
    list: &EdgeList,
    found: &SolvedTree,
) -> Result<Option<Reply>, NoMemory>
    requires enough { 2 ≤ list.now.vertices }
    requires solved { IsTreeSolved list.now found.now }
    ensures text { IfOk result (λ o. IfSome o (λ reply. text_of reply ≡ count_text (value list.now) (length (mincuts list.now)))) }
    ensures printable { IfOk result (λ o. IfSome o IsPrintable) }
{
    let Some(count) = count_of_tree(alloc, list, &found.tree)? else {
        return Ok(None);
    };
    let reply = number_reply(alloc, found.value, count)?;
    Ok(Some(reply))
}

/// The reply of a job by the arrays of the tree of all minimum cuts, if they suffice.
fn reply_by_arrays(
    alloc: Global,
    command: &Command,
    list: &EdgeList,
    found: &SolvedTree,
) -> Result<Option<Reply>, NoMemory>
    requires enough { 2 ≤ list.now.vertices }
    requires one { HasComponents list.now 1 }
    requires in_range { IsInRange command.now.job list.now.vertices }
    requires job { AsksCuts command.now.job }
    requires solved { IsTreeSolved list.now found.now }
    ensures text { (masses : List ℕ) → IfOk result (λ o. IfSome o (λ reply. IsAnswerOf command.now masses list.now (text_of reply))) }
    ensures printable { IfOk result (λ o. IfSome o IsPrintable) }
{
    match command.job {
        Job::Cactus => {
            let Some(cactus) = flat_by_arrays(alloc, list, found)? else {
                return Ok(None);
            };
            Ok(Some(Reply::Cactus {
                value: found.value,
                cactus,
                workers: command.workers,
            }))
        }
        Job::Count => count_by_arrays(alloc, list, found),
        _ => Ok(None),
    }
}

/// The reply of a job on the cuts of a connected graph, from the tree of all its minimum cuts.
pub(crate) fn joined_reply(
    alloc: Global,
    command: Command,
    list: &EdgeList,
    weights: &VertexWeights,
    found: SolvedTree,
) -> Result<Reply, Stop>
    requires enough { 2 ≤ list.now.vertices }
    requires weighed { length weights.now ≡ list.now.vertices }
    requires one { HasComponents list.now 1 }
    requires in_range { IsInRange command.job list.now.vertices }
    requires job { AsksCuts command.job }
    requires solved { IsTreeSolved list.now found }
    ensures text { IfOk result (λ reply. IsAnswerOf command weights.now list.now (text_of reply)) }
    ensures printable { IfOk result IsPrintable }
    ensures stop { IfErr result (IsStopFor command weights.now list.now) }
{
    if let Some(reply) = reply_by_arrays(alloc, &command, list, &found)? {
        return Ok(reply);
    }
    let SolvedTree { value, tree } = found;
    let solved = cactus_by_tree(alloc, list, value, tree)?;
    cuts_reply(alloc, command, list, weights, solved)
}
