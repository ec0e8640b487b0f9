//! What is written to `out`.

ghost use Rattle.std.specs.Prelude.{◌≡◌, ◌≢◌, Err, IsErrOf, OnOk};
ghost use Rattle.job_replies.specs.Answers.{Wrote, Failed};
ghost use Rattle.job_replies.specs.Replies.{text_of, IsPrintable, TakesMemory};

use answer_pages::{
    AugmentText, BalancedText, CactusText, Crew, GrowthText, ListingText, PrintRefusal, Step,
    print_text,
};
use edge_augment::Plan;
use flat_cactus::{FlatCactus, flatten};
use outside::{Sink, write_whole};
use rooted_cactus::Solved;
use std::alloc::Global;
use std::thread::Threads;
use vertex_set::Side;

/// What there is to write to `out`.
#[derive(Drop)]
pub enum Reply {
    /// A text that is in memory.
    Text(String),
    /// The weight of the minimum cuts, the flat cactus of them all, and the number of workers that
    /// make the text.
    Cactus {
        value: u64,
        cactus: FlatCactus,
        workers: u32,
    },
    /// The weight of the minimum cuts, the sides of a list of them, and the number of workers that
    /// make the text.
    Listing {
        value: u64,
        sides: Vec<Side>,
        workers: u32,
    },
    /// The weight of the minimum cuts, and the balance and the side of one.
    Balanced {
        value: u64,
        balance: u128,
        side: Side,
    },
    /// What is printed of each of some insertions, and all minimum cuts after the last one, with
    /// their weight.
    Growth {
        steps: Vec<Step>,
        solved: Solved,
    },
    /// The weight of the minimum cuts, and the fewest unit edges that raise it.
    Augmentation {
        value: u64,
        plan: Plan,
    },
}

/// Writes a text that is in memory.
fn write_text<K: Sink>(out: &mut K, text: &str) -> Result<(), PrintRefusal>
    ensures whole { OnOk result (Wrote text.now (K.taken out.old) (K.taken out.new) (K.faults out.old) (K.faults out.new)) }
    ensures failed { IsErrOf result PrintRefusal.SinkFailed → Failed text.now (K.taken out.old) (K.taken out.new) (K.faults out.old) (K.faults out.new) }
    ensures no_memory { result ≢ Err PrintRefusal.NoMemory }
{
    match write_whole(out, text.as_bytes()) {
        Ok(()) => Ok(()),
        Err(_) => Err(PrintRefusal::SinkFailed),
    }
}

/// Writes all of a reply. If it runs out of memory, nothing is written; for a reply that is in
/// memory it takes none.
pub fn write_reply<R: Threads + Sync, K: Sink>(
    rt: &R,
    alloc: Global,
    out: &mut K,
    reply: &Reply,
) -> Result<(), PrintRefusal>
    requires { IsPrintable reply.now }
    ensures whole { OnOk result (Wrote (text_of reply.now) (K.taken out.old) (K.taken out.new) (K.faults out.old) (K.faults out.new)) }
    ensures failed { IsErrOf result PrintRefusal.SinkFailed → Failed (text_of reply.now) (K.taken out.old) (K.taken out.new) (K.faults out.old) (K.faults out.new) }
    ensures kept { IsErrOf result PrintRefusal.NoMemory → out.new ≡ out.old }
    ensures memory { IsErrOf result PrintRefusal.NoMemory → TakesMemory reply.now }
{
    match reply {
        Reply::Text(text) => write_text(out, text.as_str()),
        Reply::Cactus {
            value,
            cactus,
            workers,
        } => {
            let crew = Crew::for_cactus(rt, alloc, *workers, cactus)?;
            print_text(alloc, CactusText(crew, *value, cactus), out)
        }
        Reply::Listing {
            value,
            sides,
            workers,
        } => {
            let crew = Crew::for_sides(rt, alloc, *workers, sides)?;
            print_text(alloc, ListingText(crew, *value, sides), out)
        }
        Reply::Balanced {
            value,
            balance,
            side,
        } => print_text(alloc, BalancedText(*value, *balance, side), out),
        Reply::Growth { steps, solved } => {
            let cactus = flatten(alloc, &solved.cactus)?;
            print_text(alloc, GrowthText(steps, solved.value, &cactus), out)
        }
        Reply::Augmentation { value, plan } => { print_text(alloc, AugmentText(*value, plan), out) }
    }
}
