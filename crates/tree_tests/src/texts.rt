//! Texts of cactuses.

ghost use Rattle.std.specs.Prelude.{◌≤◌};

use crate::flats::{Lists, filled};
use crate::trees::{TWO_AND_ONE, cactus_of};
use cactus_text::{Page, TextRefusal, print, print_flat, read};
use cactus_tree::{Cactus, FlatCactus};
use cut_definitions::NoMemory;
use outside::{MemorySink, Sink, SinkFailed};
use std::alloc::Global;
use std::test::Fail;

/// Nodes with 1 and 2, and with 3, joined by a bridge.
const TWO_NODES: Lists = Lists {
    n: 3,
    nodes: &[&[1, 2], &[3]],
    bridges: &[(0, 1)],
    cycles: &[],
};

const TWO_NODES_TEXT: &str = "cactus 5 3 2 1 0\nnode 0 1 2\nnode 1 3\nbridge 0 1\n";

/// A ring of a node with a vertex and of two empty nodes.
const RING: Lists = Lists {
    n: 1,
    nodes: &[&[1], &[], &[]],
    bridges: &[],
    cycles: &[&[0, 1, 2]],
};

const RING_TEXT: &str =
    "cactus 4611686018427387904 1 3 0 1\nnode 0 1\nnode 1\nnode 2\ncycle 0 1 2\n";

const FOUR_NODES_TEXT: &str =
    "cactus 2 4 4 0 1\nnode 0 1\nnode 1 2\nnode 2 3\nnode 3 4\ncycle 0 1 2 3\n";

/// Whether the value 5 and a cactus are printed as the text.
fn is_printed(alloc: Global, cactus: &Cactus, text: &str) -> Result<bool, NoMemory>
    requires { cactus.now.vertices ≤ 4194304 }
{
    let mut sink = MemorySink::new(alloc, 200, Vec::new(alloc))?;
    let printed = print(alloc, cactus, 5, &mut sink).is_ok();
    Ok(printed && sink.taken() == text.as_bytes())
}

#[test]
fn a_cactus_is_printed(rt: HostRuntime) -> Result<(), Fail> {
    let cactus = cactus_of(rt.alloc(), &TWO_AND_ONE)?;
    let holds = is_printed(rt.alloc(), &cactus, TWO_NODES_TEXT)?;
    assert!(rt; holds);
    Ok(())
}

/// A sink after a value and a flat cactus were printed to it, and whether they were printed whole.
/// The sink has room for `room` bytes, and its writes with some numbers fail.
fn printed_into(
    alloc: Global,
    room: usize,
    failing: &[u64],
    flat: &FlatCactus,
    value: u64,
) -> Result<(MemorySink, bool), NoMemory> {
    let mut sink = MemorySink::new(alloc, room, failing.to_vec(alloc)?)?;
    let mut page = Page::new(alloc)?;
    let whole = print_flat(&mut page, flat, value, &mut sink).is_ok();
    Ok((sink, whole))
}

/// Whether a value and a flat cactus are printed as the text.
fn is_flat_printed(
    alloc: Global,
    flat: &FlatCactus,
    value: u64,
    text: &str,
) -> Result<bool, NoMemory> {
    let (sink, whole) = printed_into(alloc, 200, &[], flat, value)?;
    Ok(whole && sink.taken() == text.as_bytes())
}

const PRINTED: &[(Lists, u64, &str)] = &[
    (TWO_NODES, 5, TWO_NODES_TEXT),
    (RING, 4611686018427387904, RING_TEXT),
];

#[test]
fn bridges_and_cycles_are_printed(rt: HostRuntime) -> Result<(), Fail> {
    for (lists, value, text) in PRINTED {
        let flat = filled(rt.alloc(), lists)?;
        let holds = is_flat_printed(rt.alloc(), &flat, *value, text)?;
        assert!(rt; holds, "at {value}");
    }
    Ok(())
}

/// A sink that takes one byte at each write, and fails once it has no room.
#[derive(Drop)]
struct Narrow {
    bytes: Vec<u8>,
    room: usize,
    faults: u64,
}

impl Sink for Narrow {
    ghost use Rattle.std.specs.Prelude.{None};

    ghost taken = { λ _. None };

    ghost faults = { λ s. s.faults };

    fn write(&mut self, piece: &[u8]) -> Result<usize, SinkFailed> {
        if piece.is_empty() {
            return Ok(0);
        }
        if self.bytes.len() < self.room && self.bytes.push(piece[0]).is_ok() {
            return Ok(1);
        }
        self.faults = self.faults.saturating_add(1);
        Err(SinkFailed)
    }
}

/// Whether a sink with this much room takes this much of the text, and fails once if that is not
/// the whole text.
fn takes_first_part(alloc: Global, flat: &FlatCactus, room: usize) -> Result<bool, NoMemory> {
    let mut sink = Narrow {
        bytes: Vec::new(alloc),
        room,
        faults: 0,
    };
    let mut page = Page::new(alloc)?;
    let printed = print_flat(&mut page, flat, 5, &mut sink).is_ok();
    let is_whole = room == TWO_NODES_TEXT.len();
    Ok(
        printed == is_whole
            && sink.faults == u64::from(!is_whole)
            && sink.bytes.len() == room
            && TWO_NODES_TEXT.as_bytes().starts_with(&sink.bytes),
    )
}

#[test]
fn a_first_part_is_taken(rt: HostRuntime) -> Result<(), Fail> {
    let flat = filled(rt.alloc(), &TWO_NODES)?;
    for room in [0, 1, 20, 47, 48] {
        let holds = takes_first_part(rt.alloc(), &flat, room)?;
        assert!(rt; holds, "at {room}");
    }
    Ok(())
}

/// A path of 3000 bridges.
fn long_way(alloc: Global) -> Result<FlatCactus, NoMemory> {
    let mut flat = FlatCactus::new(alloc, 1);
    for i in 0..3000 {
        flat.push_bridge(i, i + 1)?;
    }
    Ok(flat)
}

/// Whether the text is printed whole, or up to the page whose write fails.
fn goes_out_in_pages(alloc: Global, flat: &FlatCactus) -> Result<bool, NoMemory> {
    let (whole, is_whole) = printed_into(alloc, 60000, &[], flat, 7)?;
    let (part, is_part_whole) = printed_into(alloc, 60000, &[1], flat, 7)?;
    Ok(
        is_whole
            && !is_part_whole
            && whole.taken().len() == 48803
            && part.taken().len() == 32766
            && whole.taken().starts_with(part.taken()),
    )
}

#[test]
fn a_long_text_goes_out_in_pages(rt: HostRuntime) -> Result<(), Fail> {
    let flat = long_way(rt.alloc())?;
    let holds = goes_out_in_pages(rt.alloc(), &flat)?;
    assert!(rt; holds);
    Ok(())
}

/// Whether the text is read, and what was read is printed as the same text.
fn is_read(alloc: Global, text: &str) -> Result<bool, NoMemory> {
    match read(alloc, text.as_bytes()) {
        Ok(file) => is_flat_printed(alloc, &file.cactus, file.value, text),
        Err(_) => Ok(false),
    }
}

#[test]
fn what_was_printed_is_read(rt: HostRuntime) -> Result<(), Fail> {
    for text in [TWO_NODES_TEXT, RING_TEXT, FOUR_NODES_TEXT] {
        let holds = is_read(rt.alloc(), text)?;
        assert!(rt; holds, "at {text}");
    }
    Ok(())
}

const BROKEN: &[(&str, u64)] = &[
    ("", 1),
    ("cactus 5 3 2 1 0", 1),
    ("cactus 5 3 2 1 0 \n", 1),
    ("cactus 5  3 2 1 0\n", 1),
    ("cactus 05 3 2 1 0\n", 1),
    ("cactus 5 3 2 1\n", 1),
    ("cactus 4611686018427387905 1 1 0 0\nnode 0 1\n", 1),
    ("cactus 5 0 0 0 0\n", 1),
    ("cactus 5 4194305 0 0 0\n", 1),
    ("cactus 5 1 18446744073709551616 0 0\n", 1),
    ("cactus 5 1 18446744073709551615 0 0\n", 2),
    ("cactus 5 3 2 1 0\nnode 0 1 2\nnode 1 3\n", 4),
    ("cactus 5 3 2 0 0\nnode 0 1 2\nnode 1 3\n", 4),
    ("cactus 5 3 2 1 0\nnode 0 1 2\nnode 1 2\nbridge 0 1\n", 3),
    ("cactus 5 3 2 1 0\nnode 0 2 1\nnode 1 3\nbridge 0 1\n", 2),
    ("cactus 5 3 2 1 0\nnode 0 3\nnode 1 1 2\nbridge 0 1\n", 2),
    ("cactus 5 3 2 1 0\nnode 0 1\nnode 1 2 4\nbridge 0 1\n", 3),
    ("cactus 5 3 2 1 0\nnode 0 1\nnode 1 2\nbridge 0 1\n", 5),
    ("cactus 5 3 2 1 0\nnode 0 1 2\nnode 1 3\nbridge 1 0\n", 4),
    ("cactus 5 3 2 1 0\nnode 0 1 2\nnode 1 3\nbridge 0 2\n", 4),
    ("cactus 5 3 2 1 0\nnode 0 1 2\nnode 1 3\nbridge 0 1", 4),
    ("cactus 5 3 2 1 0\nnode 0 1 2\nnode 1 3\nbridge 0 1\n\n", 5),
    ("cactus 5 3 2 1 0\nnode 0 1 2\r\nnode 1 3\nbridge 0 1\n", 2),
    ("cactus 5 2 2 0 1\nnode 0 1\nnode 1 2\ncycle 0 1\n", 4),
    (
        "cactus 5 2 3 0 1\nnode 0 1\nnode 1 2\nnode 2\ncycle 0 1 1\n",
        5,
    ),
    (
        "cactus 5 2 3 0 1\nnode 0 1\nnode 1 2\nnode 2\ncycle 1 0 2\n",
        5,
    ),
    (
        "cactus 5 2 3 0 1\nnode 0 1\nnode 1 2\nnode 2\ncycle 0 1 3\n",
        5,
    ),
    (
        "cactus 5 2 5 1 1\nnode 0 1\nnode 1 2\nnode 2\nnode 3\nnode 4\nbridge 0 1\ncycle 0 1 2\n",
        9,
    ),
    (
        "cactus 5 2 4 0 1\nnode 0 1\nnode 1 2\nnode 2\nnode 3\ncycle 0 1 2\n",
        7,
    ),
];

/// Whether the text is refused, with the number of this line.
fn is_refused_at(alloc: Global, text: &str, line: u64) -> bool {
    read(alloc, text.as_bytes()).err() == Some(TextRefusal::Malformed(line))
}

#[test]
fn the_first_line_that_breaks_a_rule_is_named(rt: HostRuntime) -> Result<(), Fail> {
    for (text, line) in BROKEN {
        assert!(rt; is_refused_at(rt.alloc(), text, *line), "at {text}");
    }
    Ok(())
}
