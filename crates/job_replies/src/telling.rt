//! What is written besides replies of jobs: a notice that the words ask for, and the line that
//! says why there is no reply.

ghost use Rattle.std.specs.Prelude.{◌≡◌, IfOk, IfErr};
ghost use Rattle.job_replies.specs.Answers.{Writes};
ghost use Rattle.job_replies.specs.Replies.{text_of, IsPrintable, TakesMemory};
ghost use Rattle.program_words.specs.Notices as notices;
ghost use Rattle.stop_lines.specs.Stops.{status_of, line_of};

use crate::reply::Reply;
use outside::{Sink, write_whole};
use program_words::Notice;
use std::alloc::Global;
use stop_lines::{Status, Stop, line_for, status_for};

/// Writes the line that says why there is nothing to write to `out`, and returns the status. It
/// takes no memory.
pub fn tell<E: Sink>(err: &mut E, stop: Stop) -> Status
    ensures { Writes (status_of stop) (line_of stop) (E.taken err.old) (E.taken err.new) (E.faults err.old) (E.faults err.new) result }
{
    let line = line_for(stop);
    match write_whole(err, line.as_str().as_bytes()) {
        Ok(()) => status_for(stop),
        Err(_) => Status::WriteFault,
    }
}

/// The reply with the text of a notice. It fails only if it runs out of memory.
pub fn notice_reply(alloc: Global, notice: Notice) -> Result<Reply, Stop>
    ensures text { IfOk result (λ reply. text_of reply ≡ notices.text_of notice) }
    ensures printable { IfOk result IsPrintable }
    ensures ready { IfOk result (λ reply. ¬ TakesMemory reply) }
    ensures memory { IfErr result (λ stop. stop ≡ Stop.NoMemory) }
{
    match String::from_str(alloc, notice.text()) {
        Ok(text) => Ok(Reply::Text(text)),
        Err(_) => Err(Stop::NoMemory),
    }
}
