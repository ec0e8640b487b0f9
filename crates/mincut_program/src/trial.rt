//! The job `trial`: a graph is made for a number, solved, and described.

ghost use Rattle.std.specs.Prelude.{◌≤◌, IfOk};
ghost use Rattle.job_replies.specs.Replies.{text_of, IsPrintable, TakesMemory};
ghost use Rattle.job_replies.specs.Trials.{IsTrialText};

use crate::solving::solve_connected;
use job_replies::{Reply, facts_reply, made_for};
use outside::{Gate, NoMemory};
use std::thread::Threads;
use worker_team::Crew;

/// The reply for the graph that is made for a number: its numbers of vertices and edges, its
/// value, the number of its minimum cuts and the greatest balance of one. It fails only if it runs
/// out of memory.
pub fn trial_reply<R: Threads + Sync, G: Gate>(
    crew: &Crew<R, G>,
    number: u32,
) -> Result<Reply, NoMemory>
    requires from { 12 ≤ number }
    requires to { number ≤ 100000 }
    ensures text { IfOk result (λ reply. IsTrialText number (text_of reply)) }
    ensures printable { IfOk result IsPrintable }
    ensures ready { IfOk result (λ reply. ¬ TakesMemory reply) }
{
    let list = made_for(crew.threads.alloc, number)?;
    let (graph, solved) = solve_connected(crew, list)?;
    facts_reply(crew.threads.alloc, graph, solved)
}
