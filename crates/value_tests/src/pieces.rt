//! Texts that come in pieces.

use cut_definitions::Edge;
use metis_reader::{Fault, FaultKind, MetisGraph, ReadRefusal, Reader};
use std::alloc::Global;

/// What the reader returns for a text that comes in pieces of this length.
pub(crate) fn graph(alloc: Global, text: &[u8], length: usize) -> Result<MetisGraph, ReadRefusal> {
    let mut reader = Reader::new(alloc);
    for piece in text.chunks(length.max(1)) {
        reader.feed(piece)?;
    }
    reader.finish()
}

/// Whether a text that comes in pieces of this length is refused with this fault.
pub(crate) fn is_refused(alloc: Global, text: &[u8], length: usize, fault: Fault) -> bool {
    graph(alloc, text, length).err() == Some(ReadRefusal::Fault(fault))
}

/// Whether a text that comes in pieces of this length has exactly these edges.
pub(crate) fn has_edges(alloc: Global, text: &[u8], length: usize, edges: &[Edge]) -> bool {
    match graph(alloc, text, length) {
        Ok(graph) => graph.edges.edges() == edges,
        Err(_) => false,
    }
}

/// Whether each of these pieces, fed in turn, is taken or refused with the fault.
fn tells_from_second(reader: &mut Reader, fault: Fault) -> bool {
    let told = Err(ReadRefusal::Fault(fault));
    let first = reader.feed(b"2 1\nx") == Ok(());
    let second = reader.feed(b"\n") == told;
    let third = reader.feed(b"1\n") == told;
    first && second && third && reader.feed(b"") == told
}

#[test]
fn a_fault_is_told_by_the_piece_that_fixes_it(rt: HostRuntime) {
    let mut reader = Reader::new(rt.alloc());
    let fault = Fault {
        kind: FaultKind::BadNumber,
        line: 2,
    };
    assert!(rt; tells_from_second(&mut reader, fault));
}
