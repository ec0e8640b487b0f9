ghost use Rattle.std.specs.Prelude.{◌≡◌, ◌≢◌, ◌≤◌, ◌⊎◌, ℕ, List, IfOk, IfErr, IfSome, OnOk, IsErrOf};
ghost use Rattle.std.specs.Io.KnownBytes.{IsAtEnd};
ghost use Rattle.outside.specs.Faults.{Rose};
ghost use Rattle.cut_definitions.specs.Graph.{Graph};
ghost use Rattle.program_words.specs.declared.command.Command.{Command};
ghost use Rattle.job_replies.specs.Jobs.{IsInRange, IsWithin};
ghost use Rattle.metis_reader.specs.declared.fault.Fault.{Fault};
ghost use Rattle.metis_reader.specs.File.{graph_of, masses_of};
ghost use Rattle.program_words.specs.Words.{texts, command_of, AsksNothing, IsMakeable, IsReading, ReadsGraph};
ghost use Rattle.job_replies.specs.Intake.{IsCause, IsJobAnswer, IsJobReply, IsReply};
ghost use Rattle.job_replies.specs.Replies.{text_of, IsPrintable, TakesMemory};
ghost use Rattle.job_replies.specs.Answers.{over_status, TakesReply, ReplyFailed, Told, TellingFailed};

use crate::answer::answer;
use crate::trial::trial_reply;
use job_replies::{Reply, finish, notice_reply, take_in};
use outside::{Gate, Sink, Source};
use program_words::{Command, Job, WordsRefusal, notice_of, read_words};
use std::alloc::Global;
use std::thread::Threads;
use stop_lines::{Status, Stop};
use worker_team::Crew;

/// The reply of a command that reads a graph, for the graph of the source.
fn reading_reply<R: Threads + Sync, S: Source, G: Gate>(
    crew: &Crew<R, G>,
    command: Command,
    source: &mut S,
) -> Result<Reply, Stop>
    requires reading { IsReading command.job }
    requires makeable { IsMakeable command.job }
    ensures text { IfOk result (λ reply. IfSome (S.left source.old) (λ bytes. IsJobAnswer command bytes (text_of reply))) }
    ensures printable { IfOk result IsPrintable }
    ensures ended { IfOk result (λ reply. IsAtEnd (S.left source.new)) }
    ensures same { IfOk result (λ reply. S.faults source.new ≡ S.faults source.old) }
    ensures cause { IfErr result (λ stop. (words : List (List ℕ)) → command_of words ≡ Some command
        → IsCause words (S.left source.old) (S.left source.new) (S.faults source.old) (S.faults source.new) stop) }
    ensures words { result ≢ Err Stop.BadWords }
{
    let graph = take_in(crew.threads.alloc, source)?;
    answer(crew, command, graph)
}

/// The reply of a command. A trial leaves the source as it is.
fn job_reply<R: Threads + Sync, S: Source, G: Gate>(
    rt: &R,
    alloc: Global,
    command: Command,
    source: &mut S,
    gate: &G,
) -> Result<Reply, Stop>
    requires number { IsMakeable command.job }
    ensures text { IfOk result (λ reply. IsJobReply command (S.left source.old) (text_of reply)) }
    ensures printable { IfOk result IsPrintable }
    ensures ended { IfOk result (λ reply. IsReading command.job → IsAtEnd (S.left source.new)) }
    ensures ready { IfOk result (λ reply. TakesMemory reply → IsAtEnd (S.left source.new)) }
    ensures same { IfOk result (λ reply. S.faults source.new ≡ S.faults source.old) }
    ensures cause { IfErr result (λ stop. (words : List (List ℕ)) → command_of words ≡ Some command
        → IsCause words (S.left source.old) (S.left source.new) (S.faults source.old) (S.faults source.new) stop) }
    ensures words { result ≢ Err Stop.BadWords }
    ensures unread { ¬ IsReading command.job → source.new ≡ source.old }
{
    let crew = Crew::new(rt, alloc, command.workers, gate);
    match command.job {
        Job::Trial(number) => Ok(trial_reply(&crew, number)?),
        Job::Value
        | Job::Cactus
        | Job::Cuts
        | Job::Part(..)
        | Job::Count
        | Job::Balanced
        | Job::Augment
        | Job::Grow(_) => { reading_reply(&crew, command, source) }
    }
}

/// The reply that the words ask for. Nothing is written yet.
fn reply<R: Threads + Sync, S: Source, G: Gate>(
    rt: &R,
    alloc: Global,
    words: &[String],
    source: &mut S,
    gate: &G,
) -> Result<Reply, Stop>
    ensures text { IfOk result (λ reply. IsReply (texts words.now) (S.left source.old) (text_of reply)) }
    ensures printable { IfOk result IsPrintable }
    ensures ended { IfOk result (λ reply. ReadsGraph (texts words.now) → IsAtEnd (S.left source.new)) }
    ensures ready { IfOk result (λ reply. TakesMemory reply → IsAtEnd (S.left source.new)) }
    ensures same { IfOk result (λ reply. S.faults source.new ≡ S.faults source.old) }
    ensures asked { OnOk result (AsksNothing (texts words.now) → ⊥) }
    ensures cause { IfErr result (IsCause (texts words.now) (S.left source.old) (S.left source.new) (S.faults source.old) (S.faults source.new)) }
    ensures asks_nothing { AsksNothing (texts words.now) → IsErrOf result Stop.BadWords ⊎ IsErrOf result Stop.NoMemory }
    ensures unread { ¬ ReadsGraph (texts words.now) → source.new ≡ source.old }
{
    if let Some(notice) = notice_of(words) {
        return notice_reply(alloc, notice);
    }
    match read_words(alloc, words) {
        Ok(command) => job_reply(rt, alloc, command, source, gate),
        Err(WordsRefusal::BadWords) => Err(Stop::BadWords),
        Err(WordsRefusal::NoMemory) => Err(Stop::NoMemory),
    }
}

/// All that the program does, over any source and sinks. It reads the words, and reads the source
/// to its end. Then it writes the text of the reply to `out`, or the line that says why there is
/// none to `err`. It returns how that ended. The job `trial` makes its graph and reads nothing.
/// The runtime starts the threads of the workers.
///
/// Memory is in proportion to the graph and to what is printed. If workers share large regions,
/// each has a graph of its own. On a graph of several components `balanced` takes a table of at
/// most 2^32 bits. The value takes a sweep of flows, each of which is local on most graphs. The
/// jobs on all minimum cuts take a further sweep, which lists all but one of the parts of each
/// region that it splits.
pub fn run<R: Threads + Sync, S: Source, K: Sink, E: Sink, G: Gate>(
    rt: &R,
    alloc: Global,
    words: &[String],
    source: &mut S,
    out: &mut K,
    err: &mut E,
    gate: &G,
) -> Status
    // If a run writes no reply, its line says why: the status and the line are those of a stop
    // that has its cause. Words that are no command and ask for no notice are bad. A fault is the
    // first one of the bytes, and nothing is read after the read with which they fix it. A failed
    // read is reported if no fault was fixed before it. A vertex that is not there and a limit
    // that is exceeded are named after all was read. Memory runs out only before anything is read,
    // at a read that ends at most 65,536 bytes after the end of the header, or once all was read.
    ensures told { result ≢ Status.Ok → result ≢ Status.WriteFault → Told (texts words.now) (S.left source.old) (S.left source.new)
        (S.faults source.old) (S.faults source.new) (E.taken err.old) (E.taken err.new) result }
    ensures asks_nothing { AsksNothing (texts words.now) →
        (result ≡ Status.BadWords) ⊎ (result ≡ Status.OutOfMemory)
        ⊎ ((result ≡ Status.WriteFault) × Rose (E.faults err.old) (E.faults err.new)) }
    ensures unread { ¬ ReadsGraph (texts words.now) → source.new ≡ source.old }

    // A fault of writing comes only if a count of faults rose, and a first part of the text was
    // written.
    ensures write_fault { result ≡ Status.WriteFault →
        (ReplyFailed (texts words.now) (S.left source.old) (K.taken out.old) (K.taken out.new) (K.faults out.old) (K.faults out.new) × (err.new ≡ err.old))
        ⊎ (TellingFailed (texts words.now) (S.left source.old) (S.left source.new) (S.faults source.old) (S.faults source.new)
        (E.taken err.old) (E.taken err.new) (E.faults err.old) (E.faults err.new) × (out.new ≡ out.old)) }

    // A count of faults that changed shows in the status.
    ensures source_changed { S.faults source.new ≢ S.faults source.old →
        (result ≡ Status.ReadFault) ⊎ ((result ≡ Status.WriteFault) × Rose (E.faults err.old) (E.faults err.new)) }
    ensures out_changed { K.faults out.new ≢ K.faults out.old → result ≡ Status.WriteFault }
    ensures err_changed { E.faults err.new ≢ E.faults err.old → result ≡ Status.WriteFault }

    // At `Ok`, a job that reads a graph has read the source to its end. No count changed, the
    // whole reply was written, and nothing was written to `err`.
    ensures ok_end { result ≡ Status.Ok → ReadsGraph (texts words.now) → IsAtEnd (S.left source.new) }
    ensures ok_source { result ≡ Status.Ok → S.faults source.new ≡ S.faults source.old }
    ensures ok_out { result ≡ Status.Ok → K.faults out.new ≡ K.faults out.old }
    ensures ok_text { result ≡ Status.Ok → TakesReply (texts words.now) (S.left source.old) (K.taken out.old) (K.taken out.new) }
    ensures ok_err { result ≡ Status.Ok → err.new ≡ err.old }

    // With another status nothing was written to `out`, unless a write failed.
    ensures out_kept { result ≢ Status.Ok → result ≢ Status.WriteFault → out.new ≡ out.old }

    // Suppose that memory suffices and no count rose. Then a graph within the limits has its
    // reply, a vertex that is not there and a limit that is exceeded are reported, and a fault is
    // refused.
    ensures accepted { (bytes : List ℕ) (graph : Graph) (command : Command) → command_of (texts words.now) ≡ Some command
        → S.left source.old ≡ Some bytes → graph_of bytes ≡ Ok graph
        → IsInRange command.job graph.vertices → (2 ≤ graph.vertices → IsWithin command (masses_of bytes) graph) → ¬ Rose (S.faults source.old) (S.faults source.new)
        → ¬ Rose (K.faults out.old) (K.faults out.new) → ¬ Rose (E.faults err.old) (E.faults err.new)
        → (result ≡ Status.Ok) ⊎ (result ≡ Status.OutOfMemory) }
    ensures outside { (bytes : List ℕ) (graph : Graph) (command : Command) → command_of (texts words.now) ≡ Some command
        → S.left source.old ≡ Some bytes → graph_of bytes ≡ Ok graph
        → ¬ IsInRange command.job graph.vertices → ¬ Rose (S.faults source.old) (S.faults source.new)
        → ¬ Rose (K.faults out.old) (K.faults out.new) → ¬ Rose (E.faults err.old) (E.faults err.new)
        → (result ≡ Status.BadVertex) ⊎ (result ≡ Status.OutOfMemory) }
    ensures over_limit { (bytes : List ℕ) (graph : Graph) (command : Command) → command_of (texts words.now) ≡ Some command
        → S.left source.old ≡ Some bytes → graph_of bytes ≡ Ok graph
        → IsInRange command.job graph.vertices → 2 ≤ graph.vertices → ¬ IsWithin command (masses_of bytes) graph
        → ¬ Rose (S.faults source.old) (S.faults source.new)
        → ¬ Rose (K.faults out.old) (K.faults out.new) → ¬ Rose (E.faults err.old) (E.faults err.new)
        → (result ≡ over_status command.job) ⊎ (result ≡ Status.OutOfMemory) }
    ensures faulty { (bytes : List ℕ) (fault : Fault) → ReadsGraph (texts words.now)
        → S.left source.old ≡ Some bytes → graph_of bytes ≡ Err fault → ¬ Rose (S.faults source.old) (S.faults source.new)
        → ¬ Rose (K.faults out.old) (K.faults out.new) → ¬ Rose (E.faults err.old) (E.faults err.new)
        → (result ≡ Status.Refused) ⊎ (result ≡ Status.OutOfMemory) }

    // A trial has its text, whatever is left to read.
    ensures made { (command : Command) (number : ℕ) → command_of (texts words.now) ≡ Some command → command.job ≡ Job.Trial number
        → ¬ Rose (K.faults out.old) (K.faults out.new) → ¬ Rose (E.faults err.old) (E.faults err.new)
        → (result ≡ Status.Ok) ⊎ (result ≡ Status.OutOfMemory) }
{
    let found = reply(rt, alloc, words, source, gate);
    finish(rt, alloc, out, err, found)
}
