//! Each fault, and its line.

use crate::pieces::is_refused;
use metis_reader::{Fault, FaultKind};

type Row = (&'static [u8], FaultKind, u64);

const ROWS: [Row; 28] = [
    (b"", FaultKind::NoHeader, 0),
    (b"3\n", FaultKind::HeaderWords, 1),
    (b"3", FaultKind::HeaderWords, 1),
    (b"2 1 0 1 5\n", FaultKind::HeaderWords, 1),
    (b"3 x3\n", FaultKind::BadNumber, 1),
    (b"18446744073709551616 0\n", FaultKind::BadNumber, 1),
    (b"2 1 2\n", FaultKind::BadFormat, 1),
    (b"4194305 0\n", FaultKind::TooManyVertices, 1),
    (b"2 16777217\n", FaultKind::TooManyEdges, 1),
    (b"1 0 10 0\n", FaultKind::BadConstraints, 1),
    (b"2 1\n3\n1\n", FaultKind::NeighbourRange, 2),
    (b"2 1\n0\n1\n", FaultKind::NeighbourRange, 2),
    (b"2 1\n1\n1\n", FaultKind::SelfLoop, 2),
    (b"2 1 1\n2 0\n1 0\n", FaultKind::ZeroWeight, 2),
    (b"2 1 1\n2\n1 7\n", FaultKind::WordMissing, 2),
    (b"2 0\n2\n1\n", FaultKind::TooManyEntries, 2),
    (b"2 1\n2\n1\n1\n", FaultKind::ExtraLine, 4),
    (
        b"2 1 1\n2 2305843009213693953\n1 2305843009213693953\n",
        FaultKind::WeightSum,
        3,
    ),
    (b"2 1\n2\n", FaultKind::MissingLines, 2),
    (b"3 2\n2\n1\n\n", FaultKind::TooFewEntries, 4),
    (b"3 2\n2 2\n1\n1\n", FaultKind::Repeated, 2),
    (b"3 2 1\n2 3\n1 4 3 1\n2 1\n", FaultKind::Unsymmetric, 2),
    (b"4 2\n2\n\n4\n3 1\n", FaultKind::Unsymmetric, 2),
    (b"3 2\n2\n1 1\n2\n", FaultKind::Repeated, 3),
    (
        b"4 2 1\n3 1 2 2\n1 2\n%\n1 3\n\n",
        FaultKind::Unsymmetric,
        2,
    ),
    (b"2 1 1\n2 7\n1", FaultKind::WordMissing, 3),
    (b"2 1 1\n2 7\n", FaultKind::MissingLines, 2),
    (b"2 1 1\n% x\n\t2 7\r\n1 7\n 9\n", FaultKind::ExtraLine, 5),
];

#[test]
fn each_fault_is_told(rt: HostRuntime) {
    for (text, kind, line) in &ROWS {
        let fault = Fault {
            kind: *kind,
            line: *line,
        };
        for length in [1, 2, 3, 1_000] {
            assert!(rt; is_refused(rt.alloc(), text, length, fault));
        }
    }
}
