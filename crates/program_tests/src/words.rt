//! Which words are a command.

use crate::graphs::TRIANGLE;
use crate::runs::{UNREADABLE, Wanted, answers, gives, strings_of};
use mincut_program::{Job, Status, read_words};
use std::alloc::Global;
use std::test::Fail;

const USAGE: &str = "usage: mincut JOB [U V] [--workers N]\n";

const PLACES: &[&[&str]] = &[
    &["value", "--workers", "8"],
    &["--workers=8", "value"],
    &["value", "--workers=064"],
    &["--workers", "1", "value"],
];

#[test]
fn the_option_stands_anywhere(rt: HostRuntime) -> Result<(), Fail> {
    for words in PLACES {
        assert!(rt; answers(&rt, rt.alloc(), words, TRIANGLE, "value 2\n")?);
    }
    Ok(())
}

const NO_COMMANDS: &[&[&str]] = &[
    &["count", "3"],
    &["Value"],
    &["value", "3"],
    &["part", "1"],
    &["part", "1", "2", "3"],
    &["part", "1", "x"],
    &["cuts", "2"],
    &["augment", "3"],
    &["grow", "1", "1", "1"],
    &["grow", "1", "2"],
    &["grow", "1", "2", "0"],
    &["grow", "1", "2", "1", "3"],
    &["trial"],
    &["trial", "11"],
    &["trial", "100001"],
    &["trial", "12", "13"],
    &["value", "value"],
    &["value", "--workers", "0"],
    &["value", "--workers", "65"],
    &["value", "--workers"],
    &["value", "--workers", "8", "--workers", "9"],
    &["value", "--threads", "8"],
    &["value", "--help"],
    &["count", "--least", "2"],
    &["trial", "12", "--least", "2"],
    &["cuts", "--least"],
    &["cuts", "--least", "-1"],
    &["cuts", "--least", "18446744073709551616"],
    &["cuts", "--least", "2", "--least", "2"],
    &[""],
    &[],
];

#[test]
fn other_words_are_refused_unread(rt: HostRuntime) -> Result<(), Fail> {
    let wanted = Wanted {
        status: Status::BadWords,
        out: "",
        err: USAGE,
    };
    for words in NO_COMMANDS {
        assert!(rt; gives(&rt, rt.alloc(), words, TRIANGLE, &UNREADABLE, &wanted)?);
    }
    Ok(())
}

const HELP: &str = "usage: mincut JOB [U V] [--workers N]\n\
    the graph comes in METIS text from standard input: mincut JOB < GRAPH\n\
    value: prints the least weight of a cut\n\
    count: prints this value and the number of minimum cuts\n\
    cactus: prints all minimum cuts as one cactus\n\
    cuts: lists the minimum cuts, each by its side without vertex 1\n\
    part U V: lists those that separate the vertices U and V\n\
    balanced: prints a minimum cut whose lighter side is heaviest\n\
    augment: prints the fewest edges of weight 1 that raise the value, and the sets that show it\n\
    grow U V W ..: inserts edges U V of weight W, and prints value and count after each, then the cactus\n\
    trial N: prints five facts about a graph of about N vertices that it makes, 12 to 100000\n\
    --workers N: the number of threads, 1 to 64, and 4 if not given; the text is the same\n\
    --least W, with cuts: only those whose lighter side weighs W or more\n\
    --help, -h: prints this text\n\
    --version, -V: prints the version\n";

const NOTICES: &[(&str, &str)] = &[
    ("--help", HELP),
    ("-h", HELP),
    ("--version", "mincut 0.4.0\n"),
    ("-V", "mincut 0.4.0\n"),
];

#[test]
fn notices_are_printed_unread(rt: HostRuntime) -> Result<(), Fail> {
    for (word, out) in NOTICES {
        let wanted = Wanted {
            status: Status::Ok,
            out,
            err: "",
        };
        assert!(rt;
            gives(&rt, rt.alloc(), &[*word], TRIANGLE, &UNREADABLE, &wanted)?,
            "{word}"
        );
    }
    Ok(())
}

/// Whether these words are the job that separates these two vertices.
fn are_part(alloc: Global, words: &[&str], u: u64, v: u64) -> Result<bool, Fail> {
    let strings = strings_of(alloc, words)?;
    let Ok(command) = read_words(alloc, &strings) else {
        return Ok(false);
    };
    let Job::Part(first, second) = command.job else {
        return Ok(false);
    };
    Ok(first == u && second == v)
}

#[test]
fn numbers_may_begin_with_zeros(rt: HostRuntime) -> Result<(), Fail> {
    assert!(rt; are_part(rt.alloc(), &["part", "007", "2"], 7, 2)?);
    Ok(())
}

const CODES: [Status; 11] = [
    Status::Ok,
    Status::Refused,
    Status::BadWords,
    Status::ReadFault,
    Status::WriteFault,
    Status::OutOfMemory,
    Status::ListTooLarge,
    Status::BadVertex,
    Status::CountTooLarge,
    Status::BalanceTooLarge,
    Status::GrowTooLarge,
];

#[test]
fn statuses_are_numbered(rt: HostRuntime) {
    for i in 0..CODES.len() {
        assert!(rt; CODES[i].code() as usize == i);
    }
}
