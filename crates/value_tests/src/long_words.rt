//! Words of seven to nine digits, which the reader takes in two ways,
//! cut into pieces at every place.

use crate::pieces::{has_edges, is_refused};
use cut_definitions::Edge;
use metis_reader::{Fault, FaultKind};

/// A text, and the weight of its edge from 1 to 2.
type Weighed = (&'static [u8], u64);

const WEIGHED: [Weighed; 12] = [
    (b"2 1\n0000002\n00000001\n", 1),
    (b"2 1 1\n2 1234567\n1 1234567\n", 1_234_567),
    (b"2 1 1\n2 12345678\n1 12345678\n", 12_345_678),
    (b"2 1 1\n00000002 7654321\n0000001 07654321\n", 7_654_321),
    (b"2 1 1\n2 99999999\n1 099999999", 99_999_999),
    (
        b"2 1 1\r\n0000002  9876543 \r\n 1\t009876543\r\n",
        9_876_543,
    ),
    (
        b"  2  1  1  \r\n\t00000002\t\t10000000\r\n%\r\n1  10000000  ",
        10_000_000,
    ),
    (b"2 1\n2 \n1\r\n", 1),
    (b"2 1 1\n%\n 2\t\t7  \n% 1\n\t1 \r 7\t\n%", 7),
    (b"2 1 11 2\n3 4 2 7\n5 6 1 7 \n", 7),
    (b"2 1\n0000002\n0000001", 1),
    (
        b"2 1 1\n000000002 123456789\n000000001 0123456789\n",
        123_456_789,
    ),
];

#[test]
fn long_words_are_read_in_pieces(rt: HostRuntime) {
    for (text, weight) in &WEIGHED {
        let edge = Edge {
            u: 1,
            v: 2,
            w: *weight,
        };
        for length in 1..17 {
            assert!(rt; has_edges(rt.alloc(), text, length, &[edge]));
        }
    }
}

/// A text, its fault, and the fault's line.
type Faulty = (&'static [u8], FaultKind, u64);

const FAULTY: [Faulty; 16] = [
    (b"2 1\n0000003\n1234567\n", FaultKind::NeighbourRange, 2),
    (b"2 1\n2  2\r\n00000001\n", FaultKind::TooManyEntries, 3),
    (b"2 1\n2\n0000002\n", FaultKind::SelfLoop, 3),
    (b"2 1\n000002x 2\n1\n", FaultKind::BadNumber, 2),
    (b"2 1 1\n2 000000x \n1 7\n", FaultKind::BadNumber, 2),
    (b"2 1 1\n0000002\r\n1234567 1\n", FaultKind::WordMissing, 2),
    (b"2 1 1\n2 1234567\n1 12345670\n", FaultKind::Unsymmetric, 2),
    (b"2 1\n2 \n% 1 1\n1\t\n%\n 1 \n", FaultKind::ExtraLine, 6),
    (b"2 1 1\n2  7 \n%\n1\t\t\n", FaultKind::WordMissing, 4),
    (b"2 1 1\n%\n2 0000000\t\n1 7\n", FaultKind::ZeroWeight, 3),
    (b"2 1 1\n000000003 7\n1 7\n", FaultKind::NeighbourRange, 2),
    (
        b"3 3 1\n2 5 3 1\n%\n1 5 3 4\n1 1 2 0\n",
        FaultKind::ZeroWeight,
        5,
    ),
    (
        b"3 3 1\n2 5 3 1\n1 5  3\n1 1 2 4\n",
        FaultKind::WordMissing,
        3,
    ),
    (b"3 2\n2 3\r\n%\r\n1 x\r\n1\r\n", FaultKind::BadNumber, 4),
    (b"3 2 1\n2 1 3 7%\n1 1\n1 7\n", FaultKind::BadNumber, 2),
    (
        b"2 1 1\n2 123456789\n%\n1 123456788\n",
        FaultKind::Unsymmetric,
        2,
    ),
];

#[test]
fn faults_of_long_words_are_told(rt: HostRuntime) {
    for (text, kind, line) in &FAULTY {
        let fault = Fault {
            kind: *kind,
            line: *line,
        };
        for length in 1..17 {
            assert!(rt; is_refused(rt.alloc(), text, length, fault));
        }
    }
}
