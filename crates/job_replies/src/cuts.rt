//! From a solved graph to what is written.

ghost use Rattle.std.specs.Prelude.{◌≡◌, ◌≤◌, ◌^◌, IfOk, IfErr, length, true};
ghost use Rattle.cut_definitions.specs.Components.{HasComponents};
ghost use Rattle.cut_definitions.specs.Cuts.{mincuts, value};
ghost use Rattle.cut_definitions.specs.Graph.{Graph as EdgeGraph};
ghost use Rattle.rooted_cactus.specs.Different.{HasNoEmptySide};
ghost use Rattle.rooted_cactus.specs.Normal.{is_normal};
ghost use Rattle.job_replies.specs.Jobs.{AsksCuts, IsAnswerOf, IsInRange, IsStopFor, IsCactusOf, IsCactusText, IsBalancedText, IsAugmentText};
ghost use Rattle.answer_pages.specs.Listings.{count_text};
ghost use Rattle.job_replies.specs.Asked.{IsListReply, IsListStop};
ghost use Rattle.rooted_cactus.specs.Solving.{IsSolved};
ghost use Rattle.cut_listing.specs.Asks.{IsAskWithin};
ghost use Rattle.cut_listing.specs.Listings.{IsList, IsRefusal};
ghost use Rattle.job_replies.specs.Replies.{text_of, IsPrintable};

use crate::asks::ask_of;
use crate::reply::Reply;
use balanced_cut::balance_of;
use canonical_cactus::{canonical, first_best};
use cut_definitions::{EdgeList, NoMemory, VertexWeights};
use cut_listing::laws::{count_of_minimum_cuts, minimum_cuts_in_order, number_of_minimum_cuts};
use cut_listing::{Ask, ListRefusal, Lister, list_balanced, list_parting};
use edge_augment::augment;
use edge_augment::laws::augmentation;
use flat_cactus::{flatten, laws};
use program_words::{Command, Job};
use rooted_cactus::{Cactus, Solved};
use std::alloc::Global;
use std::mem::forget;
use stop_lines::Stop;
use vertex_set::Side;

/// All minimum cuts, by their sides in order, or their number if there are too many for a list.
fn all_sides(alloc: Global, graph: &EdgeList, solved: &Solved) -> Result<Vec<Side>, ListRefusal>
    requires { IsSolved graph.now solved.now }
    ensures list { IfOk result (λ sides. IsList (2 ^ 30) graph.now.vertices Ask.All solved.now.cactus sides.items) }
    ensures refusal { IfErr result (IsRefusal (2 ^ 30) graph.now.vertices Ask.All solved.now.cactus) }
{
    let Ok(keep) = Box::new(alloc, |_side: &Side| true) else {
        return Err(ListRefusal::NoMemory);
    };
    let lister = Lister::new(graph.n(), Ask::All, keep);
    lister.list(alloc, &solved.cactus)
}

/// The sides of the minimum cuts that are asked for, in order, or their number if there are too
/// many for a list.
fn asked_sides(
    alloc: Global,
    ask: Ask,
    graph: &EdgeList,
    solved: &Solved,
) -> Result<Vec<Side>, ListRefusal>
    requires solved { IsSolved graph.now solved.now }
    requires within { IsAskWithin graph.now.vertices ask }
    ensures list { IfOk result (λ sides. IsList (2 ^ 30) graph.now.vertices ask.entry solved.now.cactus sides.items) }
    ensures refusal { IfErr result (IsRefusal (2 ^ 30) graph.now.vertices ask.entry solved.now.cactus) }
{
    // known by this call: the graph has at most 4,194,304 vertices
    let _n = graph.n();
    match ask {
        Ask::All => all_sides(alloc, graph, solved),
        Ask::Parting(u, v) => list_parting(alloc, &solved.cactus, u, v),
        Ask::Least(least, weights) => list_balanced(alloc, &solved.cactus, least, weights),
    }
}

/// The list of the minimum cuts that are asked for.
fn listing_reply(
    alloc: Global,
    ask: Ask,
    graph: &EdgeList,
    solved: Solved,
    workers: u32,
) -> Result<Reply, Stop>
    requires solved { IsSolved graph.now solved }
    requires within { IsAskWithin graph.now.vertices ask }
    ensures text { IfOk result (λ reply. IsListReply ask.entry graph.now (text_of reply)) }
    ensures printable { IfOk result IsPrintable }
    ensures stop { IfErr result (IsListStop ask.entry graph.now) }
{
    minimum_cuts_in_order();
    count_of_minimum_cuts();
    match asked_sides(alloc, ask, graph, &solved) {
        Ok(sides) => Ok(Reply::Listing {
            value: solved.value,
            sides,
            workers,
        }),
        Err(ListRefusal::TooLarge { cuts, n }) => Err(Stop::TooLarge { cuts, n }),
        Err(ListRefusal::NoMemory) => Err(Stop::NoMemory),
    }
}

/// The number of all minimum cuts of a solved graph, from the tree of its cactus. It takes one
/// step for each node and block, and fails only if it runs out of memory.
pub fn count_of_cuts(alloc: Global, solved: &Solved) -> Result<u64, NoMemory>
    requires few { solved.now.cactus.vertices ≤ 4194304 }
    requires normal { is_normal solved.now.cactus.root ≡ true }
    ensures { (g : EdgeGraph) → IsSolved g solved.now → IfOk result (λ count. count ≡ length (mincuts g)) }
{
    number_of_minimum_cuts();
    solved.cactus.count_within(alloc)
}

/// The reply with a value and a number of minimum cuts. It fails only if it runs out of memory.
pub fn number_reply(alloc: Global, value: u64, count: u64) -> Result<Reply, NoMemory>
    ensures text { IfOk result (λ reply. text_of reply ≡ count_text value count) }
    ensures printable { IfOk result IsPrintable }
{
    let text = format!(in alloc; "value {value}\ncount {count}\n")?;
    Ok(Reply::Text(text))
}

/// The reply with the value and the number of all minimum cuts.
fn count_reply(alloc: Global, graph: &EdgeList, solved: &Solved) -> Result<Reply, NoMemory>
    requires solved { IsSolved graph.now solved.now }
    ensures text { IfOk result (λ reply. text_of reply ≡ count_text (value graph.now) (length (mincuts graph.now))) }
    ensures printable { IfOk result IsPrintable }
{
    // known by this call: the graph has at most 4,194,304 vertices
    let _n = graph.n();
    let count = count_of_cuts(alloc, solved)?;
    let reply = number_reply(alloc, solved.value, count)?;
    Ok(reply)
}

/// The reply with the first of the most balanced minimum cuts, in the order of lists.
fn balanced_reply(
    alloc: Global,
    graph: &EdgeList,
    weights: &VertexWeights,
    solved: Solved,
) -> Result<Reply, NoMemory>
    requires enough { 2 ≤ graph.now.vertices }
    requires weighed { length weights.now ≡ graph.now.vertices }
    requires solved { IsSolved graph.now solved }
    ensures text { IfOk result (λ reply. IsBalancedText weights.now graph.now (text_of reply)) }
    ensures printable { IfOk result IsPrintable }
{
    let side = first_best(alloc, &solved.cactus, weights)?;
    let balance = balance_of(&side, weights);
    Ok(Reply::Balanced {
        value: solved.value,
        balance,
        side,
    })
}

/// The reply of a job on the cuts of a connected graph, from all its minimum cuts, for a command
/// that the caller keeps.
fn solved_reply(
    alloc: Global,
    command: &Command,
    graph: &EdgeList,
    weights: &VertexWeights,
    solved: Solved,
) -> Result<Reply, Stop>
    requires enough { 2 ≤ graph.now.vertices }
    requires weighed { length weights.now ≡ graph.now.vertices }
    requires one { HasComponents graph.now 1 }
    requires in_range { IsInRange command.now.job graph.now.vertices }
    requires job { AsksCuts command.now.job }
    requires solved { IsSolved graph.now solved }
    ensures text { IfOk result (λ reply. IsAnswerOf command.now weights.now graph.now (text_of reply)) }
    ensures printable { IfOk result IsPrintable }
    ensures stop { IfErr result (IsStopFor command.now weights.now graph.now) }
{
    match command.job {
        Job::Cuts => {
            let ask = ask_of(command.least, weights);
            listing_reply(alloc, ask, graph, solved, command.workers)
        }
        Job::Part(u, v) => {
            let ask = Ask::Parting(u as u32, v as u32);
            listing_reply(alloc, ask, graph, solved, command.workers)
        }
        Job::Count => Ok(count_reply(alloc, graph, &solved)?),
        Job::Balanced => Ok(balanced_reply(alloc, graph, weights, solved)?),
        Job::Cactus => Ok(cactus_reply(alloc, graph, solved, command.workers)?),
        Job::Augment => Ok(augment_reply(alloc, graph, solved)?),
        Job::Value | Job::Grow(_) | Job::Trial(_) => unreachable!(),
    }
}

/// The reply of a job on the cuts of a connected graph, from all its minimum cuts. It fails if a
/// list has too many cuts, or if it runs out of memory.
pub fn cuts_reply(
    alloc: Global,
    command: Command,
    graph: &EdgeList,
    weights: &VertexWeights,
    solved: Solved,
) -> Result<Reply, Stop>
    requires enough { 2 ≤ graph.now.vertices }
    requires weighed { length weights.now ≡ graph.now.vertices }
    requires one { HasComponents graph.now 1 }
    requires in_range { IsInRange command.job graph.now.vertices }
    requires job { AsksCuts command.job }
    requires solved { IsSolved graph.now solved }
    ensures text { IfOk result (λ reply. IsAnswerOf command weights.now graph.now (text_of reply)) }
    ensures printable { IfOk result IsPrintable }
    ensures stop { IfErr result (IsStopFor command weights.now graph.now) }
{
    solved_reply(alloc, &command, graph, weights, solved)
}

/// The canonical cactus of a solved graph, in O(n log n). It fails only if it runs out of memory.
pub fn canonical_of(alloc: Global, solved: Solved) -> Result<Cactus, NoMemory>
    requires { HasNoEmptySide solved.cactus }
    ensures { (g : EdgeGraph) → IsSolved g solved → IfOk result (λ cactus. IsCactusOf g cactus) }
{
    let cactus = canonical(alloc, solved.cactus)?;
    // known by this call: that it is a cactus
    let _n = cactus.n();
    Ok(cactus)
}

/// The reply with all minimum cuts as a cactus.
fn cactus_reply(
    alloc: Global,
    graph: &EdgeList,
    solved: Solved,
    workers: u32,
) -> Result<Reply, NoMemory>
    requires enough { 2 ≤ graph.now.vertices }
    requires solved { IsSolved graph.now solved }
    ensures text { IfOk result (λ reply. IsCactusText graph.now (text_of reply)) }
    ensures printable { IfOk result IsPrintable }
{
    laws::flat_form();
    laws::flat_sides();
    let value = solved.value;
    let cactus = canonical_of(alloc, solved)?;
    let flat = flatten(alloc, &cactus)?;
    // the run ends soon: freeing each node of a large cactus would take a tenth of its time
    forget(cactus);
    Ok(Reply::Cactus {
        value,
        cactus: flat,
        workers,
    })
}

/// The reply with the fewest unit edges that raise the value.
fn augment_reply(alloc: Global, graph: &EdgeList, solved: Solved) -> Result<Reply, NoMemory>
    requires enough { 2 ≤ graph.now.vertices }
    requires solved { IsSolved graph.now solved }
    ensures text { IfOk result (λ reply. IsAugmentText graph.now (text_of reply)) }
    ensures printable { IfOk result IsPrintable }
{
    augmentation();
    let value = solved.value;
    let cactus = canonical_of(alloc, solved)?;
    let plan = augment(alloc, &cactus)?;
    Ok(Reply::Augmentation { value, plan })
}
