//! Graphs with several components, whose minimum cuts are the unions of these.

use crate::graphs::TWO_PIECES;
use crate::runs::{answers, tells};
use mincut_program::Status;
use std::alloc::Global;
use std::test::Fail;

const THREE_APART: &[u8] = b"3 0\n\n\n\n";

const TWO_MASSES: &[u8] = b"2 0 10\n4294967296\n4294967296\n";

const UNIONS: &[(&[&str], &[u8], &str)] = &[
    (&["cuts"], TWO_PIECES, "value 0\ncuts 1\n3 4\n"),
    (&["part", "2", "3"], TWO_PIECES, "value 0\ncuts 1\n3 4\n"),
    (&["part", "1", "2"], TWO_PIECES, "value 0\ncuts 0\n"),
    (&["cuts", "--least", "3"], TWO_PIECES, "value 0\ncuts 0\n"),
    (&["count"], TWO_PIECES, "value 0\ncount 1\n"),
    (&["balanced"], TWO_PIECES, "value 0\nbalance 2\nside 3 4\n"),
    (&["augment"], TWO_PIECES, "disconnected 2\n"),
    (&["cuts"], THREE_APART, "value 0\ncuts 3\n2\n2 3\n3\n"),
    (
        &["part", "1", "2"],
        THREE_APART,
        "value 0\ncuts 2\n2\n2 3\n",
    ),
];

#[test]
fn unions_are_printed(rt: HostRuntime) -> Result<(), Fail> {
    for (words, text, out) in UNIONS {
        assert!(rt; answers(&rt, rt.alloc(), words, text, out)?, "{out}");
    }
    Ok(())
}

/// The text of a graph with this many vertices and no edge.
fn edgeless(alloc: Global, n: u32) -> Result<Vec<u8>, Fail> {
    let mut text = Vec::new(alloc);
    let header = format!(in alloc; "{n} 0\n")?;
    text.extend_from_slice(header.as_bytes())?;
    for _ in 0..n {
        text.push(b'\n')?;
    }
    Ok(text)
}

/// There are 2 to the 126th power sets of components without that of vertex 1, and one of them is
/// empty.
#[test]
fn the_number_of_127_components_is_told(rt: HostRuntime) -> Result<(), Fail> {
    let text = edgeless(rt.alloc(), 127)?;
    let number = "value 0\ncount 85070591730234615865843651857942052863\n";
    assert!(rt; answers(&rt, rt.alloc(), &["count"], &text, number)?);
    Ok(())
}

const MANY: &[(&str, Status, &str)] = &[
    (
        "count",
        Status::CountTooLarge,
        "count too large: 128 components\n",
    ),
    (
        "cuts",
        Status::ListTooLarge,
        "list too large: 2^127-1 cuts, 128 vertices\n",
    ),
];

#[test]
fn too_many_unions_are_told(rt: HostRuntime) -> Result<(), Fail> {
    let text = edgeless(rt.alloc(), 128)?;
    for (job, status, line) in MANY {
        assert!(rt;
            tells(&rt, rt.alloc(), &[*job], &text, *status, line)?,
            "{line}"
        );
    }
    Ok(())
}

#[test]
fn a_balance_that_is_too_large_is_told(rt: HostRuntime) -> Result<(), Fail> {
    let line = "balance too large: 2 components, weight 8589934592\n";
    assert!(rt;
        tells(
            &rt,
            rt.alloc(),
            &["balanced"],
            TWO_MASSES,
            Status::BalanceTooLarge,
            line
        )?
    );
    Ok(())
}
