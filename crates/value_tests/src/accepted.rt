//! Files that are accepted, and their edges.

use crate::pieces::has_edges;
use cut_definitions::Edge;

type Accepted = (&'static [u8], &'static [Edge]);

const ACCEPTED: [Accepted; 9] = [
    (b"2 1 1\n2 7\n1 7\n", &[Edge { u: 1, v: 2, w: 7 }]),
    (
        b"2 1 1\n2 2305843009213693952\n1 2305843009213693952\n",
        &[Edge {
            u: 1,
            v: 2,
            w: 2305843009213693952,
        }],
    ),
    (
        b"% made by hand\r\n2\t1 011\r\n% first vertex\r\n7 2 3\r\n4 1 3",
        &[Edge { u: 1, v: 2, w: 3 }],
    ),
    (
        b"3 3\n2 3\n1 3\n1 2\n",
        &[
            Edge { u: 1, v: 2, w: 1 },
            Edge { u: 1, v: 3, w: 1 },
            Edge { u: 2, v: 3, w: 1 },
        ],
    ),
    (
        b"3 3 1\n2 5 3 1\n1 5 3 4\n1 1 2 4\n",
        &[
            Edge { u: 1, v: 2, w: 5 },
            Edge { u: 1, v: 3, w: 1 },
            Edge { u: 2, v: 3, w: 4 },
        ],
    ),
    (
        b"\n2 1 111 02\n9 8 7 2 000000000000000000000000006\n0 0 0 1 6\n\n%\n",
        &[Edge { u: 1, v: 2, w: 6 }],
    ),
    (
        b"4 4\n4 3\n3 4\n2 1\n2 1\n",
        &[
            Edge { u: 1, v: 3, w: 1 },
            Edge { u: 1, v: 4, w: 1 },
            Edge { u: 2, v: 3, w: 1 },
            Edge { u: 2, v: 4, w: 1 },
        ],
    ),
    (b"0 0\n", &[]),
    (b"1 0\n\n", &[]),
];

#[test]
fn files_are_read(rt: HostRuntime) {
    for (text, edges) in &ACCEPTED {
        for length in [1, 2, 3, 1_000] {
            assert!(rt; has_edges(rt.alloc(), text, length, edges));
        }
    }
}
