//! What is written for graphs that grow.

use crate::graphs::{SQUARE, TWO_PIECES};
use crate::runs::{answers, tells};
use mincut_program::Status;
use std::test::Fail;

const GROWTHS: &[(&[&str], &[u8], &str)] = &[
    (
        &["grow", "1", "3", "1"],
        SQUARE,
        "step 1 value 2 count 2\ncactus 2 4 3 2 0\nnode 0 1 3\nnode 1 2\nnode 2 4\nbridge 0 1\nbridge 0 2\n",
    ),
    (
        &["grow", "1", "3", "1", "2", "4", "1"],
        SQUARE,
        "step 1 value 2 count 2\nstep 2 value 3 count 4\ncactus 3 4 5 4 0\nnode 0 1\nnode 1\nnode 2 2\nnode 3 3\nnode 4 4\nbridge 0 1\nbridge 1 2\nbridge 1 3\nbridge 1 4\n",
    ),
    (&["grow", "1", "3", "1"], TWO_PIECES, "disconnected 2\n"),
];

#[test]
fn growths_are_printed(rt: HostRuntime) -> Result<(), Fail> {
    for (words, text, out) in GROWTHS {
        assert!(rt; answers(&rt, rt.alloc(), words, text, out)?, "{out}");
    }
    Ok(())
}

const HEAVIEST: &[u8] = b"2 1 1\n2 2305843009213693952\n1 2305843009213693952\n";

const STOPS: &[(&[&str], &[u8], Status, &str)] = &[
    (
        &["grow", "1", "9", "1"],
        SQUARE,
        Status::BadVertex,
        "vertex 9 not in 1..4\n",
    ),
    (
        &["grow", "1", "2", "1"],
        HEAVIEST,
        Status::GrowTooLarge,
        "grow too large at edge 1\n",
    ),
];

#[test]
fn insertions_that_do_not_fit_are_told(rt: HostRuntime) -> Result<(), Fail> {
    for (words, text, status, line) in STOPS {
        assert!(rt;
            tells(&rt, rt.alloc(), words, text, *status, line)?,
            "{line}"
        );
    }
    Ok(())
}
