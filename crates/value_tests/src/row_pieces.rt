//! Rows of several entries, cut into pieces at every place: the reader takes the same from them.

use crate::pieces::has_edges;
use cut_definitions::Edge;

const LIGHT: [Edge; 6] = [
    Edge { u: 1, v: 2, w: 1 },
    Edge { u: 1, v: 3, w: 1 },
    Edge { u: 1, v: 4, w: 1 },
    Edge { u: 2, v: 3, w: 1 },
    Edge { u: 3, v: 5, w: 1 },
    Edge { u: 4, v: 5, w: 1 },
];

/// Their weights have one, two, and seven to nine digits.
const HEAVY: [Edge; 6] = [
    Edge {
        u: 1,
        v: 2,
        w: 1_234_567,
    },
    Edge { u: 1, v: 3, w: 1 },
    Edge {
        u: 1,
        v: 4,
        w: 12_345_678,
    },
    Edge {
        u: 2,
        v: 3,
        w: 7_654_321,
    },
    Edge {
        u: 3,
        v: 5,
        w: 123_456_789,
    },
    Edge { u: 4, v: 5, w: 20 },
];

type Rows = (&'static [u8], &'static [Edge]);

const ROWS: [Rows; 12] = [
    (b"5 6\n2 3 4\n1 3\n1 2 5\n1 5\n3 4", &LIGHT),
    (b"5 6\r\n4 3 2\r\n3 1\r\n5 2 1\r\n5 1\r\n4 3\r\n", &LIGHT),
    (b"5 6\n2  3  4 \n 1  3\n1  2  5  \n1 5 \n3  4  \n", &LIGHT),
    (
        b"%\n5 6\n% 2 3 4\n2\t3\t4\n%\n%1\n1\t3\t\n\t1 2 5\n1 5\n%% 3\n3 4\n%",
        &LIGHT,
    ),
    (
        b"5 6\n0000002 00000003 000000004\n0000001 0000003\n00000001 0000002 000000005\n000000001 0000005\n0000003 00000004\n",
        &LIGHT,
    ),
    (
        b"5 6 110 2\n7 1 2 2 3 4\n7 1 2 1 3\n1234567 12345678 123456789 1 2 5\n0 0 0 1 5\n1 1 1 3 4\n",
        &LIGHT,
    ),
    (
        b"5 6 1\n2 1234567 3 1 4 12345678\n1 1234567 3 7654321\n1 1 2 7654321 5 123456789\n1 12345678 5 20\n3 123456789 4 20",
        &HEAVY,
    ),
    (
        b"5 6 1\r\n4 12345678 3 1 2 1234567\r\n1 1234567 3 7654321\r\n5 123456789 1 1 2 7654321\r\n5 20 1 12345678\r\n3 123456789 4 20\r\n",
        &HEAVY,
    ),
    (
        b"5 6 1\n2  1234567 3  1  4 12345678 \n 1 1234567  3 7654321\n1 1  2  7654321  5  123456789\n1 12345678  5  20  \n3 123456789 4 20 \n",
        &HEAVY,
    ),
    (
        b"5 6 1\n%1 1\n2\t1234567\t3\t1\t4\t12345678\n%\n1 1234567\t3 7654321\t\n%%\n% 1\n\t1 1\t2 7654321 5\t123456789\n1 12345678 5 20\n%\n3 123456789 4\t20\n%",
        &HEAVY,
    ),
    (
        b"5 6 1\n0000002 1234567 00000003 0000001 000000004 012345678\n0000001 001234567 0000003 07654321\n1 00000001 2 7654321 0000005 123456789\n1 12345678 000000005 0000020\n0000003 123456789 4 000000020\n",
        &HEAVY,
    ),
    (
        b"5 6 111\n7 1 2 1234567 3 1 4 12345678\n7 1 1 1234567 3 7654321\n0 0 1 1 2 7654321 5 123456789\n12345678 1 1 12345678 5 20\n1 1234567 3 123456789 4 20\n",
        &HEAVY,
    ),
];

#[test]
fn rows_are_read_in_pieces(rt: HostRuntime) {
    for (text, edges) in &ROWS {
        assert!(rt; has_edges(rt.alloc(), text, 1_000, edges));
        for length in 1..41 {
            assert!(rt; has_edges(rt.alloc(), text, length, edges));
        }
    }
}
