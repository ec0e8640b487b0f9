//! Faults of the input, and reads and writes that fail.

use crate::graphs::TRIANGLE;
use crate::runs::{HONEST, Script, Wanted, gives, tells};
use mincut_program::Status;
use std::test::Fail;

const FAULTS: &[(&[u8], &str)] = &[
    (b"", "refused: NoHeader at line 0\n"),
    (b"3 x3\n", "refused: BadNumber at line 1\n"),
    (
        b"3 2 1\n2 3\n1 4 3 1\n2 1\n",
        "refused: Unsymmetric at line 2\n",
    ),
    (
        b"2 1 1\n2 2305843009213693953\n1 2305843009213693953\n",
        "refused: WeightSum at line 3\n",
    ),
    (b"2 1 1\n2 7\n1", "refused: WordMissing at line 3\n"),
    (b"2 1 1\n2 7\n", "refused: MissingLines at line 2\n"),
    (b"2 1\n2\n1\n1\n", "refused: ExtraLine at line 4\n"),
];

#[test]
fn first_faults_are_named(rt: HostRuntime) -> Result<(), Fail> {
    for (text, line) in FAULTS {
        assert!(rt;
            tells(&rt, rt.alloc(), &["value"], text, Status::Refused, line)?,
            "{line}"
        );
    }
    Ok(())
}

const READ_FAILED: Wanted = Wanted {
    status: Status::ReadFault,
    out: "",
    err: "read failed\n",
};

const BROKEN: &[u8] = b"3 x3\n2 3\n";

/// The second read fails, after this many bytes.
fn second_fails<'a>(cut: &'a [usize]) -> Script<'a> {
    Script {
        cuts: cut,
        reads: &[1],
        ..HONEST
    }
}

#[test]
fn failed_reads_are_told(rt: HostRuntime) -> Result<(), Fail> {
    let early = second_fails(&[4]);
    assert!(rt; gives(&rt, rt.alloc(), &["value"], TRIANGLE, &early, &READ_FAILED)?);
    assert!(rt; gives(&rt, rt.alloc(), &["value"], BROKEN, &early, &READ_FAILED)?);
    Ok(())
}

#[test]
fn nothing_is_read_behind_a_fault(rt: HostRuntime) -> Result<(), Fail> {
    let wanted = Wanted {
        status: Status::Refused,
        out: "",
        err: "refused: BadNumber at line 1\n",
    };
    assert!(rt;
        gives(
            &rt,
            rt.alloc(),
            &["value"],
            BROKEN,
            &second_fails(&[5]),
            &wanted
        )?
    );
    Ok(())
}

const WRITE_FAILED: Wanted = Wanted {
    status: Status::WriteFault,
    out: "",
    err: "",
};

#[test]
fn failed_writes_are_told(rt: HostRuntime) -> Result<(), Fail> {
    let write = Script {
        writes: &[0],
        ..HONEST
    };
    assert!(rt; gives(&rt, rt.alloc(), &["value"], TRIANGLE, &write, &WRITE_FAILED)?);
    let tell = Script {
        tells: &[0],
        ..HONEST
    };
    assert!(rt; gives(&rt, rt.alloc(), &["value"], BROKEN, &tell, &WRITE_FAILED)?);
    Ok(())
}
