//! Runs of the program over a text in memory.

use mincut_program::{Status, run};
use outside::{Gate, MemorySink, MemorySource, OpenGate, Sink, SinkFailed, Source};
use std::alloc::Global;
use std::sync::atomic::{AtomicU64, Ordering};
use std::test::Fail;
use std::thread::Threads;

/// Which calls fail, and the greatest number of bytes of each read.
#[derive(Clone, Copy)]
pub struct Script<'a> {
    pub cuts: &'a [usize],
    pub reads: &'a [u64],
    pub writes: &'a [u64],
    pub tells: &'a [u64],
}

/// No read or write fails, and each read returns as many bytes as it can.
pub const HONEST: Script = Script {
    cuts: &[],
    reads: &[],
    writes: &[],
    tells: &[],
};

/// No byte can be read.
pub const UNREADABLE: Script = Script {
    cuts: &[],
    reads: &[0],
    writes: &[],
    tells: &[],
};

/// What a run must return, and write to `out` and to `err`.
#[derive(Clone, Copy)]
pub struct Wanted<'a> {
    pub status: Status,
    pub out: &'a str,
    pub err: &'a str,
}

// A gate that counts how often a worker passes.
#[derive(Drop)]
struct CountingGate {
    passes: AtomicU64,
}

impl Gate for CountingGate {
    fn pass(&self, _worker: u32) {
        self.passes.fetch_add(1, Ordering::SeqCst);
    }
}

// For this many turns the first pass of worker 0 waits for worker 1.
const TURNS: u32 = 1_000_000_000;

// A gate that holds worker 0 at its first pass until worker 1 has passed.
#[derive(Drop)]
struct MeetingGate {
    first: AtomicU64,
    second: AtomicU64,
    met: AtomicU64,
}

impl Gate for MeetingGate {
    fn pass(&self, worker: u32) {
        if worker == 1 {
            self.second.store(1, Ordering::SeqCst);
        }
        if worker != 0 || self.first.swap(1, Ordering::SeqCst) != 0 {
            return;
        }
        for _ in 0..TURNS {
            if self.second.load(Ordering::SeqCst) == 1 {
                self.met.store(1, Ordering::SeqCst);
                return;
            }
        }
    }
}

/// Words as they are passed to the program.
pub(crate) fn strings_of(alloc: Global, words: &[&str]) -> Result<Vec<String>, Fail> {
    let mut strings = Vec::new(alloc);
    for word in words {
        strings.push(String::from_str(alloc, word)?)?;
    }
    Ok(strings)
}

fn source_of(alloc: Global, text: &[u8], script: &Script) -> Result<MemorySource, Fail> {
    let cuts = script.cuts.to_vec(alloc)?;
    let reads = script.reads.to_vec(alloc)?;
    Ok(MemorySource::new(text.to_vec(alloc)?, cuts, reads))
}

fn sink_of(alloc: Global, room: usize, failing: &[u64]) -> Result<MemorySink, Fail> {
    let sink = MemorySink::new(alloc, room, failing.to_vec(alloc)?)?;
    Ok(sink)
}

/// What a run is given, and its sinks.
#[derive(Drop)]
struct Stage {
    words: Vec<String>,
    source: MemorySource,
    err: MemorySink,
}

impl Stage {
    fn new(alloc: Global, words: &[&str], text: &[u8], script: &Script) -> Result<Stage, Fail> {
        let source = source_of(alloc, text, script)?;
        Stage::over(alloc, words, source, script.tells)
    }

    /// What a run over this source is given; the writes with these numbers to its `err` fail.
    fn over(
        alloc: Global,
        words: &[&str],
        source: MemorySource,
        tells: &[u64],
    ) -> Result<Stage, Fail> {
        Ok(Stage {
            words: strings_of(alloc, words)?,
            source,
            err: sink_of(alloc, 100, tells)?,
        })
    }

    /// The status of a run that writes to `out`.
    fn run_to<R: Threads + Sync, K: Sink, G: Gate>(
        &mut self,
        rt: &R,
        alloc: Global,
        out: &mut K,
        gate: &G,
    ) -> Status {
        run(
            rt,
            alloc,
            &self.words,
            &mut self.source,
            out,
            &mut self.err,
            gate,
        )
    }
}

/// Whether a run by this script returns and writes exactly what it must.
pub(crate) fn gives<R: Threads + Sync>(
    rt: &R,
    alloc: Global,
    words: &[&str],
    text: &[u8],
    script: &Script,
    wanted: &Wanted,
) -> Result<bool, Fail> {
    let mut stage = Stage::new(alloc, words, text, script)?;
    let mut out = sink_of(alloc, 1_000, script.writes)?;
    let status = stage.run_to(rt, alloc, &mut out, &OpenGate);
    Ok(
        status == wanted.status
            && out.taken() == wanted.out.as_bytes()
            && stage.err.taken() == wanted.err.as_bytes(),
    )
}

/// What a run without failures writes to a sink with room for 8,000,000 bytes.
pub(crate) fn printed<R: Threads + Sync>(
    rt: &R,
    alloc: Global,
    words: &[&str],
    text: &[u8],
) -> Result<Vec<u8>, Fail> {
    let mut stage = Stage::new(alloc, words, text, &HONEST)?;
    let mut out = sink_of(alloc, 8_000_000, &[])?;
    let _status = stage.run_to(rt, alloc, &mut out, &OpenGate);
    Ok(out.taken().to_vec(alloc)?)
}

/// Whether a run without failures returns `Ok`, writes this text, and nothing to `err`.
pub(crate) fn answers<R: Threads + Sync>(
    rt: &R,
    alloc: Global,
    words: &[&str],
    text: &[u8],
    out: &str,
) -> Result<bool, Fail> {
    let wanted = Wanted {
        status: Status::Ok,
        out,
        err: "",
    };
    gives(rt, alloc, words, text, &HONEST, &wanted)
}

/// Whether a run without failures returns this status, writes nothing to `out`, and this line to
/// `err`.
pub(crate) fn tells<R: Threads + Sync>(
    rt: &R,
    alloc: Global,
    words: &[&str],
    text: &[u8],
    status: Status,
    err: &str,
) -> Result<bool, Fail> {
    let wanted = Wanted {
        status,
        out: "",
        err,
    };
    gives(rt, alloc, words, text, &HONEST, &wanted)
}

/// Whether worker 0 waits at the gate in a run without failures, and worker 1 passes it meanwhile.
pub(crate) fn meets<R: Threads + Sync>(
    rt: &R,
    alloc: Global,
    words: &[&str],
    text: &[u8],
) -> Result<bool, Fail> {
    let mut stage = Stage::new(alloc, words, text, &HONEST)?;
    let mut out = sink_of(alloc, 1_000, &[])?;
    let gate = MeetingGate {
        first: AtomicU64::new(0),
        second: AtomicU64::new(0),
        met: AtomicU64::new(0),
    };
    let status = stage.run_to(rt, alloc, &mut out, &gate);
    Ok(status == Status::Ok && gate.met.load(Ordering::SeqCst) == 1)
}

/// How often a worker passes the gate in a run without failures.
pub(crate) fn passes_of<R: Threads + Sync>(
    rt: &R,
    alloc: Global,
    words: &[&str],
    text: &[u8],
) -> Result<u64, Fail> {
    let mut stage = Stage::new(alloc, words, text, &HONEST)?;
    let mut out = sink_of(alloc, 1_000, &[])?;
    let gate = CountingGate {
        passes: AtomicU64::new(0),
    };
    let _status = stage.run_to(rt, alloc, &mut out, &gate);
    Ok(gate.passes.load(Ordering::SeqCst))
}

/// Whether a run whose read with this number fails says so, writes nothing, and reads no further.
/// The read after the failed one fails too, and is made here.
pub(crate) fn reads_no_more<R: Threads + Sync>(
    rt: &R,
    alloc: Global,
    words: &[&str],
    text: &[u8],
    cuts: &[usize],
    read: u64,
) -> Result<bool, Fail> {
    let failing = [read, read.saturating_add(1)];
    let cuts = cuts.to_vec(alloc)?;
    let source = MemorySource::new(text.to_vec(alloc)?, cuts, failing.to_vec(alloc)?);
    let mut stage = Stage::over(alloc, words, source, &[])?;
    let mut out = sink_of(alloc, 1_000, &[])?;
    let status = stage.run_to(rt, alloc, &mut out, &OpenGate);
    let is_next = stage.source.read(&mut [0u8; 1]).is_err();
    Ok(
        is_next
            && status == Status::ReadFault
            && out.taken().is_empty()
            && stage.err.taken() == b"read failed\n".as_slice(),
    )
}

/// Whether a run whose write with this number fails says so by its status alone, with a prefix of
/// the text written.
pub(crate) fn writes_part<R: Threads + Sync>(
    rt: &R,
    alloc: Global,
    words: &[&str],
    text: &[u8],
    whole: &str,
    write: u64,
) -> Result<bool, Fail> {
    let mut stage = Stage::new(alloc, words, text, &HONEST)?;
    let mut out = sink_of(alloc, 1_000, &[write])?;
    let status = stage.run_to(rt, alloc, &mut out, &OpenGate);
    let is_part = whole.as_bytes().starts_with(out.taken());
    Ok(status == Status::WriteFault && is_part && stage.err.taken().is_empty())
}

// Takes one byte at each write.
#[derive(Drop)]
struct ByteSink {
    bytes: Vec<u8>,
    faults: u64,
}

impl Sink for ByteSink {
    ghost use Rattle.std.specs.Prelude.{None};

    ghost taken = { λ _. None };

    ghost faults = { λ s. s.faults };

    fn write(&mut self, piece: &[u8]) -> Result<usize, SinkFailed> {
        if piece.is_empty() {
            return Ok(0);
        }
        if self.bytes.push(piece[0]).is_ok() {
            return Ok(1);
        }
        self.faults = self.faults.saturating_add(1);
        Err(SinkFailed)
    }
}

/// What a run without failures writes to a sink that takes one byte at each write, if it returns
/// `Ok`.
fn printed_by_bytes<R: Threads + Sync>(
    rt: &R,
    alloc: Global,
    words: &[&str],
    text: &[u8],
) -> Result<Option<Vec<u8>>, Fail> {
    let mut stage = Stage::new(alloc, words, text, &HONEST)?;
    let mut out = ByteSink {
        bytes: Vec::new(alloc),
        faults: 0,
    };
    let status = stage.run_to(rt, alloc, &mut out, &OpenGate);
    Ok((status == Status::Ok).then_some(out.bytes))
}

/// Whether a run whose sink takes one byte at each write returns `Ok`, and writes the same as to a
/// sink that takes all.
pub(crate) fn answers_by_bytes<R: Threads + Sync>(
    rt: &R,
    alloc: Global,
    words: &[&str],
    text: &[u8],
) -> Result<bool, Fail> {
    let Some(bytes) = printed_by_bytes(rt, alloc, words, text)? else {
        return Ok(false);
    };
    let whole = printed(rt, alloc, words, text)?;
    Ok(bytes.as_slice() == whole.as_slice())
}
