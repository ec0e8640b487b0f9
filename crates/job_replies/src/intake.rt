//! From the source to the graph.

ghost use Rattle.std.specs.Prelude.{◌≡◌, ◌≢◌, ℕ, List, Ok, IfOk, IfErr, IfSome, length};
ghost use Rattle.std.specs.Io.KnownBytes.{IsAtEnd};
ghost use Rattle.metis_reader.specs.File.{graph_of, masses_of};
ghost use Rattle.metis_reader.specs.Measures.{AreMeasures};
ghost use Rattle.program_words.specs.Words.{ReadsGraph};
ghost use Rattle.job_replies.specs.Intake.{IsCause};

use metis_reader::{MetisGraph, Reader};
use outside::Source;
use std::alloc::Global;
use stop_lines::Stop;

/// Reads the source to its end, and returns the graph of its bytes.
///
/// It stops at the first fault and at the first read that fails; nothing is read after that.
pub fn take_in<S: Source>(alloc: Global, source: &mut S) -> Result<MetisGraph, Stop>
    ensures graph { IfOk result (λ graph. IfSome (S.left source.old) (λ bytes. graph_of bytes ≡ Ok graph.edges)) }
    ensures masses { IfOk result (λ graph. IfSome (S.left source.old) (λ bytes. masses_of bytes ≡ graph.weights)) }
    ensures weighed { IfOk result (λ graph. length graph.weights ≡ graph.edges.vertices) }
    ensures measured { IfOk result (λ graph. AreMeasures graph.edges graph.measures) }
    ensures ended { IfOk result (λ graph. IsAtEnd (S.left source.new)) }
    ensures same { IfOk result (λ graph. S.faults source.new ≡ S.faults source.old) }
    ensures cause { IfErr result (λ stop. (words : List (List ℕ)) → ReadsGraph words
        → IsCause words (S.left source.old) (S.left source.new) (S.faults source.old) (S.faults source.new) stop) }
    ensures words { result ≢ Err Stop.BadWords }
{
    let mut reader = Reader::new(alloc);
    let mut room = [0u8; 65_536];
    'reading: loop {
        match source.read(&mut room) {
            Ok(0) => return Ok(reader.finish()?),
            Ok(count) => reader.feed(&room[..count])?,
            Err(_) => return Err(Stop::ReadFailed),
        }
    }
}
