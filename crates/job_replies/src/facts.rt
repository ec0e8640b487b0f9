//! The graph that the job `trial` makes, and what the job prints of it once it is solved.

ghost use Rattle.std.specs.Prelude.{◌≡◌, ◌≤◌, IfOk, string_bytes};
ghost use Rattle.rooted_cactus.specs.Solving.{IsSolved};
ghost use Rattle.cut_definitions.specs.Components.{IsConnected};
ghost use Rattle.graph_maker.specs.Made.{made_graph};
ghost use Rattle.job_replies.specs.Trials.{ones, trial_text, IsFactsText};
ghost use Rattle.job_replies.specs.Replies.{text_of, IsPrintable, TakesMemory};

use crate::cuts::count_of_cuts;
use crate::reply::Reply;
use balanced_cut::{balance_of, best};
use cut_definitions::{EdgeList, NoMemory, VertexWeights};
use graph_maker::laws::connected_making;
use graph_maker::make;
use rooted_cactus::Solved;
use std::alloc::Global;

/// The text of five lines.
fn facts_text(
    alloc: Global,
    n: u32,
    m: usize,
    value: u64,
    count: u64,
    balance: u128,
) -> Result<String, NoMemory>
    ensures { IfOk result (λ text. string_bytes text ≡ trial_text n m value count balance) }
{
    format!(in alloc; "vertices {n}\nedges {m}\nvalue {value}\ncount {count}\nbalance {balance}\n")
}

/// Masses of 1, one for each vertex of the graph.
fn masses_of_one(alloc: Global, graph: &EdgeList) -> Result<VertexWeights, NoMemory>
    ensures { IfOk result (λ weights. weights ≡ ones graph.now.vertices) }
{
    let list = vec![in alloc; 1; graph.n() as usize]?;
    Ok(VertexWeights::from_list(list))
}

/// The text of a solved graph: its numbers of vertices and edges, its value, the number of its
/// minimum cuts and the greatest balance of one.
fn describe(alloc: Global, graph: &EdgeList, solved: &Solved) -> Result<String, NoMemory>
    requires enough { 2 ≤ graph.now.vertices }
    requires solved { IsSolved graph.now solved.now }
    ensures { IfOk result (λ text. IsFactsText graph.now (string_bytes text)) }
{
    // known by this call: the graph has at most 4,194,304 vertices
    let _n = graph.n();
    let count = count_of_cuts(alloc, solved)?;
    let weights = masses_of_one(alloc, graph)?;
    let side = best(alloc, &solved.cactus, &weights)?;
    let balance = balance_of(&side, &weights);
    facts_text(alloc, graph.n(), graph.len(), solved.value, count, balance)
}

/// The graph that is made for a number of 12 to 100,000. It is connected. It fails only if it runs
/// out of memory.
pub fn made_for(alloc: Global, number: u32) -> Result<EdgeList, NoMemory>
    requires from { 12 ≤ number }
    requires to { number ≤ 100000 }
    ensures graph { IfOk result (λ graph. graph ≡ made_graph number) }
    ensures enough { IfOk result (λ graph. 2 ≤ graph.vertices) }
    ensures connected { IfOk result IsConnected }
{
    connected_making();
    make(alloc, number)
}

/// The reply with five facts about a solved graph, which is taken over. It fails only if it runs
/// out of memory.
pub fn facts_reply(alloc: Global, graph: EdgeList, solved: Solved) -> Result<Reply, NoMemory>
    requires enough { 2 ≤ graph.vertices }
    requires solved { IsSolved graph solved }
    ensures text { IfOk result (λ reply. IsFactsText graph (text_of reply)) }
    ensures printable { IfOk result IsPrintable }
    ensures ready { IfOk result (λ reply. ¬ TakesMemory reply) }
{
    let text = describe(alloc, &graph, &solved)?;
    Ok(Reply::Text(text))
}
