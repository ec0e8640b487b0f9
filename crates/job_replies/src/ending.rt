//! The end of a run: what was found is written, or a line says why there is nothing to write.

ghost use Rattle.std.specs.Prelude.{◌⊎◌, IfOk};
ghost use Rattle.job_replies.specs.Endings.{IsBroken, IsReplied, IsStopped};
ghost use Rattle.job_replies.specs.Replies.{IsPrintable};

use crate::reply::{Reply, write_reply};
use crate::telling::tell;
use answer_pages::PrintRefusal;
use outside::Sink;
use std::alloc::Global;
use std::mem::forget;
use std::thread::Threads;
use stop_lines::{Status, Stop};

/// Writes the reply that was found to `out`. If there is none, or if there is not enough memory to
/// write it, a line on `err` says why. It returns how that ended. The memory of the reply is left
/// to the end of the process.
pub fn finish<R: Threads + Sync, K: Sink, E: Sink>(
    rt: &R,
    alloc: Global,
    out: &mut K,
    err: &mut E,
    found: Result<Reply, Stop>,
) -> Status
    requires { IfOk found IsPrintable }
    ensures { IsReplied found (K.taken out.old) (K.taken out.new) (K.faults out.old) (K.faults out.new) err.old err.new result
        ⊎ (IsBroken found (K.taken out.old) (K.taken out.new) (K.faults out.old) (K.faults out.new) err.old err.new result
        ⊎ IsStopped found (E.taken err.old) (E.taken err.new) (E.faults err.old) (E.faults err.new) out.old out.new result) }
{
    match found {
        Ok(reply) => {
            let written = write_reply(rt, alloc, out, &reply);
            // the run is over: freeing each node of a large cactus would take a tenth of its time
            forget(reply);
            match written {
                Ok(()) => Status::Ok,
                Err(PrintRefusal::SinkFailed) => Status::WriteFault,
                Err(PrintRefusal::NoMemory) => tell(err, Stop::NoMemory),
            }
        }
        Err(stop) => tell(err, stop),
    }
}
