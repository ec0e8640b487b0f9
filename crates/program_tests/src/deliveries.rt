//! Reads and writes that fail in turn, files that end early, and a sink that takes one byte at a
//! time.

use crate::graphs::{COMPLETE, HEAVY_PAIR, ONE_EDGE, PATH, SQUARE, TRIANGLE, TWO_CYCLES};
use crate::runs::{
    HONEST, Script, Wanted, answers, answers_by_bytes, gives, reads_no_more, tells, writes_part,
};
use mincut_program::Status;
use std::alloc::Global;
use std::test::Fail;
use std::thread::Threads;

const SINGLE: &[usize] = &[1; 16];

const CUTS: &str = "value 2\ncuts 3\n2\n2 3\n3\n";

/// The triangle, byte by byte, with a failure of the read with this number.
fn fails_at<'a>(read: &'a [u64]) -> Script<'a> {
    Script {
        cuts: SINGLE,
        reads: read,
        ..HONEST
    }
}

/// Sixteen bytes and the end of the input take seventeen reads.
#[test]
fn each_read_may_fail(rt: HostRuntime) -> Result<(), Fail> {
    for k in 0..17u64 {
        assert!(rt;
            reads_no_more(&rt, rt.alloc(), &["cuts"], TRIANGLE, SINGLE, k)?,
            "read {k}"
        );
    }
    let whole = Wanted {
        status: Status::Ok,
        out: CUTS,
        err: "",
    };
    assert!(rt;
        gives(
            &rt,
            rt.alloc(),
            &["cuts"],
            TRIANGLE,
            &fails_at(&[17]),
            &whole
        )?
    );
    Ok(())
}

/// The number of the first write of a run, among the first hundred, that does not fail although it
/// should. There must be no such write.
fn first_unmade<R: Threads + Sync>(rt: &R, alloc: Global) -> Result<u64, Fail> {
    for k in 0..100u64 {
        if !writes_part(rt, alloc, &["cuts"], TRIANGLE, CUTS, k)? {
            return Ok(k);
        }
    }
    Ok(100)
}

#[test]
fn each_write_may_fail(rt: HostRuntime) -> Result<(), Fail> {
    let writes = first_unmade(&rt, rt.alloc())?;
    assert!(rt; 1 <= writes && writes < 100);
    let last = Script {
        writes: &[writes],
        ..HONEST
    };
    let whole = Wanted {
        status: Status::Ok,
        out: CUTS,
        err: "",
    };
    assert!(rt; gives(&rt, rt.alloc(), &["cuts"], TRIANGLE, &last, &whole)?);
    Ok(())
}

// A file, and what the program says for its first bytes, up to which number of them.
const ENDS: &[(&[u8], &[(usize, &str)])] = &[
    (
        TRIANGLE,
        &[
            (0, "refused: NoHeader at line 0\n"),
            (2, "refused: HeaderWords at line 1\n"),
            (4, "refused: MissingLines at line 1\n"),
            (8, "refused: MissingLines at line 2\n"),
            (12, "refused: MissingLines at line 3\n"),
            (14, "refused: TooFewEntries at line 4\n"),
            (16, "value 2\n"),
        ],
    ),
    (
        ONE_EDGE,
        &[
            (0, "refused: NoHeader at line 0\n"),
            (2, "refused: HeaderWords at line 1\n"),
            (6, "refused: MissingLines at line 1\n"),
            (8, "refused: WordMissing at line 2\n"),
            (10, "refused: MissingLines at line 2\n"),
            (12, "refused: WordMissing at line 3\n"),
            (14, "value 7\n"),
        ],
    ),
    (
        HEAVY_PAIR,
        &[
            (0, "refused: NoHeader at line 0\n"),
            (2, "refused: HeaderWords at line 1\n"),
            (6, "refused: MissingLines at line 1\n"),
            (8, "refused: WordMissing at line 2\n"),
            (10, "refused: MissingLines at line 2\n"),
            (12, "refused: WordMissing at line 2\n"),
            (14, "refused: MissingLines at line 2\n"),
            (16, "refused: WordMissing at line 3\n"),
            (18, "refused: MissingLines at line 3\n"),
            (20, "refused: WordMissing at line 3\n"),
            (22, "refused: MissingLines at line 3\n"),
            (24, "refused: WordMissing at line 4\n"),
            (26, "refused: TooFewEntries at line 4\n"),
            (28, "refused: WordMissing at line 4\n"),
            (30, "value 5\n"),
        ],
    ),
];

/// Whether the program says this for this many first bytes of a file.
fn says<R: Threads + Sync>(
    rt: &R,
    alloc: Global,
    file: &[u8],
    count: usize,
    text: &str,
) -> Result<bool, Fail> {
    let Some(first) = file.get(..count) else {
        return Ok(false);
    };
    if text.starts_with("value") {
        return answers(rt, alloc, &["value"], first, text);
    }
    tells(rt, alloc, &["value"], first, Status::Refused, text)
}

/// Whether the program says for each number of first bytes what the table has.
fn says_all<R: Threads + Sync>(
    rt: &R,
    alloc: Global,
    file: &[u8],
    ends: &[(usize, &str)],
) -> Result<bool, Fail> {
    let mut count = 0;
    for (last, text) in ends {
        for k in count..last.saturating_add(1) {
            if !says(rt, alloc, file, k, text)? {
                return Ok(false);
            }
        }
        count = last.saturating_add(1);
    }
    Ok(count == file.len() + 1)
}

#[test]
fn a_file_may_end_anywhere(rt: HostRuntime) -> Result<(), Fail> {
    for (file, ends) in ENDS {
        assert!(rt;
            says_all(&rt, rt.alloc(), file, ends)?,
            "of {} bytes",
            file.len()
        );
    }
    Ok(())
}

const JOBS: &[&str] = &["value", "cactus", "cuts", "count", "balanced", "augment"];

#[test]
fn a_sink_may_take_one_byte_at_a_time(rt: HostRuntime) -> Result<(), Fail> {
    for job in JOBS {
        for file in [TRIANGLE, PATH, SQUARE, COMPLETE, ONE_EDGE, TWO_CYCLES] {
            assert!(rt; answers_by_bytes(&rt, rt.alloc(), &[job], file)?, "{job}");
        }
    }
    Ok(())
}
