//! What is written for graphs.

ghost use Rattle.std.specs.Prelude.{◌≤◌};

use crate::graphs::{
    COMMENTED, COMPLETE, HEAVY_END, HEAVY_PAIR, NO_VERTEX, ONE_EDGE, ONE_VERTEX, PATH, SQUARE,
    TRIANGLE, TWO_CYCLES, TWO_PIECES,
};
use crate::runs::{HONEST, Script, UNREADABLE, Wanted, answers, gives, meets, passes_of, tells};
use mincut_program::Status;
use std::alloc::Global;
use std::test::Fail;

const VALUES: &[(&[u8], &str)] = &[
    (TRIANGLE, "value 2\n"),
    (PATH, "value 5\n"),
    (TWO_PIECES, "value 0\n"),
    (ONE_EDGE, "value 7\n"),
    (HEAVY_PAIR, "value 5\n"),
    (COMMENTED, "value 3\n"),
    (
        b"2 1 1\n2 2305843009213693952\n1 2305843009213693952\n",
        "value 2305843009213693952\n",
    ),
    (ONE_VERTEX, "no cut\n"),
    (NO_VERTEX, "no cut\n"),
];

#[test]
fn values_are_printed(rt: HostRuntime) -> Result<(), Fail> {
    for (text, out) in VALUES {
        assert!(rt; answers(&rt, rt.alloc(), &["value"], text, out)?, "{out}");
    }
    Ok(())
}

// The cactuses of the triangle and of the complete graph have a node without vertices.
const CACTUSES: &[(&[u8], &str)] = &[
    (
        TRIANGLE,
        "cactus 2 3 4 3 0\nnode 0 1\nnode 1\nnode 2 2\nnode 3 3\nbridge 0 1\nbridge 1 2\nbridge 1 3\n",
    ),
    (
        PATH,
        "cactus 5 3 3 2 0\nnode 0 1\nnode 1 2\nnode 2 3\nbridge 0 1\nbridge 1 2\n",
    ),
    (
        SQUARE,
        "cactus 2 4 4 0 1\nnode 0 1\nnode 1 2\nnode 2 3\nnode 3 4\ncycle 0 1 2 3\n",
    ),
    (
        COMPLETE,
        "cactus 3 4 5 4 0\nnode 0 1\nnode 1\nnode 2 2\nnode 3 3\nnode 4 4\nbridge 0 1\nbridge 1 2\nbridge 1 3\nbridge 1 4\n",
    ),
    (
        TWO_CYCLES,
        "cactus 4 6 7 0 2\nnode 0 1\nnode 1 2\nnode 2 3\nnode 3\nnode 4 4\nnode 5 5\nnode 6 6\ncycle 0 1 2 3\ncycle 3 4 5 6\n",
    ),
    (
        ONE_EDGE,
        "cactus 7 2 2 1 0\nnode 0 1\nnode 1 2\nbridge 0 1\n",
    ),
    (
        HEAVY_PAIR,
        "cactus 5 3 2 1 0\nnode 0 1 2\nnode 1 3\nbridge 0 1\n",
    ),
    (TWO_PIECES, "disconnected 2\n"),
    (ONE_VERTEX, "no cut\n"),
    (NO_VERTEX, "no cut\n"),
];

#[test]
fn one_cactus_is_printed(rt: HostRuntime) -> Result<(), Fail> {
    for (text, out) in CACTUSES {
        for workers in ["1", "4", "8"] {
            let words = ["cactus", "--workers", workers];
            assert!(rt; answers(&rt, rt.alloc(), &words, text, out)?, "{out}");
        }
    }
    Ok(())
}

const TRIANGLE_CUTS: &str = "value 2\ncuts 3\n2\n2 3\n3\n";

const SQUARE_BALANCED: &str = "value 2\nbalance 2\nside 2 3\n";

const LISTS: &[(&[&str], &[u8], &str)] = &[
    (&["cuts"], TRIANGLE, TRIANGLE_CUTS),
    (&["cuts", "--workers=2"], TRIANGLE, TRIANGLE_CUTS),
    (&["cuts"], PATH, "value 5\ncuts 2\n2 3\n3\n"),
    (
        &["cuts"],
        SQUARE,
        "value 2\ncuts 6\n2\n2 3\n2 3 4\n3\n3 4\n4\n",
    ),
    (&["cuts"], COMPLETE, "value 3\ncuts 4\n2\n2 3 4\n3\n4\n"),
    (
        &["cuts", "--workers", "64"],
        ONE_EDGE,
        "value 7\ncuts 1\n2\n",
    ),
    (
        &["cuts"],
        TWO_CYCLES,
        "value 4\ncuts 11\n2\n2 3\n2 3 4 5 6\n3\n3 4 5 6\n4\n4 5\n4 5 6\n5\n5 6\n6\n",
    ),
    (&["cuts"], HEAVY_PAIR, "value 5\ncuts 1\n3\n"),
    (&["cuts"], ONE_VERTEX, "no cut\n"),
    (&["cuts"], NO_VERTEX, "no cut\n"),
    (&["part", "2", "2"], TRIANGLE, "value 2\ncuts 0\n"),
    (&["part", "2", "3"], TRIANGLE, "value 2\ncuts 2\n2\n3\n"),
    (&["part", "1", "1"], ONE_VERTEX, "no cut\n"),
    (&["count"], TRIANGLE, "value 2\ncount 3\n"),
    (&["count"], TWO_CYCLES, "value 4\ncount 11\n"),
    (&["count"], ONE_VERTEX, "no cut\n"),
    (
        &["balanced"],
        TWO_CYCLES,
        "value 4\nbalance 3\nside 4 5 6\n",
    ),
    (&["balanced"], SQUARE, SQUARE_BALANCED),
    (&["balanced", "--workers", "1"], SQUARE, SQUARE_BALANCED),
    (&["balanced", "--workers", "8"], SQUARE, SQUARE_BALANCED),
    (&["balanced"], NO_VERTEX, "no cut\n"),
    (&["balanced"], HEAVY_END, "value 1\nbalance 3\nside 2 3 4\n"),
    (
        &["cuts", "--least", "2"],
        HEAVY_END,
        "value 1\ncuts 2\n2 3 4\n3 4\n",
    ),
    (&["--least=4", "cuts"], HEAVY_END, "value 1\ncuts 0\n"),
    (&["cuts", "--least", "0"], TRIANGLE, TRIANGLE_CUTS),
    (
        &["cuts", "--least", "2"],
        SQUARE,
        "value 2\ncuts 2\n2 3\n3 4\n",
    ),
    (&["balanced"], COMMENTED, "value 3\nbalance 4\nside 2\n"),
];

#[test]
fn cuts_are_listed(rt: HostRuntime) -> Result<(), Fail> {
    for (words, text, out) in LISTS {
        assert!(rt; answers(&rt, rt.alloc(), words, text, out)?, "{out}");
    }
    Ok(())
}

const ABSENT: &[(&[&str], &[u8], &str)] = &[
    (&["part", "2", "9"], TRIANGLE, "vertex 9 not in 1..3\n"),
    (&["part", "0", "9"], TRIANGLE, "vertex 0 not in 1..3\n"),
    (&["part", "1", "2"], ONE_VERTEX, "vertex 2 not in 1..1\n"),
    (&["part", "1", "1"], NO_VERTEX, "vertex 1 not in 1..0\n"),
    (&["part", "2", "9"], TWO_PIECES, "vertex 9 not in 1..4\n"),
    (&["part", "007", "2"], ONE_EDGE, "vertex 7 not in 1..2\n"),
    (
        &["part", "18446744073709551615", "2"],
        ONE_EDGE,
        "vertex 18446744073709551615 not in 1..2\n",
    ),
];

#[test]
fn vertices_that_are_not_there_are_told(rt: HostRuntime) -> Result<(), Fail> {
    for (words, text, line) in ABSENT {
        assert!(rt;
            tells(&rt, rt.alloc(), words, text, Status::BadVertex, line)?,
            "{line}"
        );
    }
    Ok(())
}

/// The text of a ring of three or more vertices.
fn ring_of(alloc: Global, n: u32) -> Result<Vec<u8>, Fail>
    requires { 3 ≤ n }
{
    let mut text = Vec::new(alloc);
    let header = format!(in alloc; "{n} {n}\n2 {n}\n")?;
    text.extend_from_slice(header.as_bytes())?;
    for v in 2..n {
        let line = format!(in alloc; "{} {}\n", v - 1, v + 1)?;
        text.extend_from_slice(line.as_bytes())?;
    }
    let last = format!(in alloc; "{} 1\n", n - 1)?;
    text.extend_from_slice(last.as_bytes())?;
    Ok(text)
}

#[test]
fn a_list_that_is_too_large_is_told(rt: HostRuntime) -> Result<(), Fail> {
    let text = ring_of(rt.alloc(), 1291)?;
    let number = "value 2\ncount 832695\n";
    assert!(rt; answers(&rt, rt.alloc(), &["count"], &text, number)?);
    let line = "list too large: 832695 cuts, 1291 vertices\n";
    assert!(rt;
        tells(
            &rt,
            rt.alloc(),
            &["cuts"],
            &text,
            Status::ListTooLarge,
            line
        )?
    );
    Ok(())
}

/// 899 times 901 of the cuts of the ring separate the two vertices.
#[test]
fn a_list_of_parting_cuts_may_be_too_large(rt: HostRuntime) -> Result<(), Fail> {
    let text = ring_of(rt.alloc(), 1800)?;
    let words = ["part", "1", "900"];
    let line = "list too large: 809999 cuts, 1800 vertices\n";
    assert!(rt; tells(&rt, rt.alloc(), &words, &text, Status::ListTooLarge, line)?);
    Ok(())
}

const SINGLE: &[usize] = &[1; 20];

#[test]
fn reads_may_be_cut_anywhere(rt: HostRuntime) -> Result<(), Fail> {
    let wanted = Wanted {
        status: Status::Ok,
        out: TRIANGLE_CUTS,
        err: "",
    };
    for first in 1..TRIANGLE.len() {
        let script = Script {
            cuts: &[first],
            ..HONEST
        };
        assert!(rt;
            gives(&rt, rt.alloc(), &["cuts"], TRIANGLE, &script, &wanted)?,
            "at {first}"
        );
    }
    let script = Script {
        cuts: SINGLE,
        ..HONEST
    };
    assert!(rt; gives(&rt, rt.alloc(), &["cuts"], TRIANGLE, &script, &wanted)?);
    Ok(())
}

const TWELVE: &str = "vertices 12\nedges 15\nvalue 4\ncount 9\nbalance 4\n";

// 160 rings of four, and as many edges between them: few enough edges for a value by rounds.
const RINGS: &str = "vertices 640\nedges 800\nvalue 4\ncount 13040\nbalance 320\n";

const THOUSAND: &str = "vertices 1000\nedges 1250\nvalue 4\ncount 31625\nbalance 500\n";

const TWO_THOUSAND: &str = "vertices 2000\nedges 2500\nvalue 4\ncount 125750\nbalance 1000\n";

const FOUR_THOUSAND: &str = "vertices 4000\nedges 5000\nvalue 4\ncount 501500\nbalance 2000\n";

const TRIALS: &[(&[&str], &str)] = &[
    (&["trial", "12"], TWELVE),
    (&["trial", "15"], TWELVE),
    (&["--workers=64", "trial", "012"], TWELVE),
    (&["trial", "640", "--workers", "1"], RINGS),
    (&["trial", "640", "--workers", "8"], RINGS),
    (&["trial", "1000", "--workers", "1"], THOUSAND),
    (&["trial", "1000", "--workers", "8"], THOUSAND),
    (&["trial", "2001"], TWO_THOUSAND),
    (&["trial", "4000"], FOUR_THOUSAND),
];

#[test]
fn trials_are_printed_unread(rt: HostRuntime) -> Result<(), Fail> {
    for (words, out) in TRIALS {
        let wanted = Wanted {
            status: Status::Ok,
            out,
            err: "",
        };
        assert!(rt;
            gives(&rt, rt.alloc(), words, TRIANGLE, &UNREADABLE, &wanted)?,
            "{out}"
        );
    }
    Ok(())
}

/// The cactus is made by `reduce`, which runs a round of its own after those of the value. Its
/// result has fewer vertices.
#[test]
fn a_kernel_is_made(rt: HostRuntime) -> Result<(), Fail> {
    let value = passes_of(&rt, rt.alloc(), &["value", "--workers", "1"], TWO_CYCLES)?;
    let cactus = passes_of(&rt, rt.alloc(), &["cactus", "--workers", "1"], TWO_CYCLES)?;
    assert!(rt; 1 <= value && value < cactus, "{value} and {cactus}");
    Ok(())
}

/// Worker 0 of the first round waits until worker 1 is there.
#[test]
fn two_workers_meet(rt: HostRuntime) -> Result<(), Fail> {
    for job in ["value", "cactus"] {
        let words = [job, "--workers", "2"];
        assert!(rt; meets(&rt, rt.alloc(), &words, TWO_CYCLES)?, "{job}");
    }
    Ok(())
}
