//! Texts by their lines, each of which is known by its number. So a part of a text can be made
//! without what comes before it.

ghost use Rattle.std.specs.Prelude.{◌≡◌, ℕ, ◌+◌, ◌-◌, ◌*◌, ◌^◌, ◌<◌, ◌≤◌, ◌++◌, length, min, slice_index_or, []};
ghost use Rattle.answer_pages.specs.Lines.{joined_between, room_wanted, texts};
ghost use Rattle.answer_pages.specs.Puts.{Puts};

use crate::page::Page;
use crate::pages::put_side;
use crate::printing::{put_line, put_node};
use flat_cactus::FlatCactus;
use outside::{Sink, SinkFailed};
use vertex_set::Side;

/// Lines that follow one another.
#[derive(Clone, Copy)]
pub enum Lines<'a> {
    /// A line for each node of a cactus, with its number and its vertices.
    Nodes(&'a FlatCactus),
    /// A line for each of some bridges.
    Bridges(&'a [(u64, u64)]),
    /// A line for each cycle of a cactus.
    Cycles(&'a FlatCactus),
    /// A line for each of some sides.
    Sides(&'a [Side]),
    /// Numbers of one line, each with a space before it.
    Vertices(&'a [u32]),
    /// Numbers of up to 64 bits of one line, each with a space before it.
    Members(&'a [u64]),
}

impl Lines<'_> {
    /// The number of lines.
    pub(crate) fn count(&self) -> usize
        ensures { result ≡ length (texts self.now) }
    {
        match self {
            Lines::Nodes(cactus) => cactus.nodes(),
            Lines::Bridges(bridges) => bridges.len(),
            Lines::Cycles(cactus) => cactus.cycles(),
            Lines::Sides(sides) => sides.len(),
            Lines::Vertices(numbers) => numbers.len(),
            Lines::Members(numbers) => numbers.len(),
        }
    }

    /// Puts the line with this number.
    fn put_one<K: Sink>(&self, page: &mut Page, sink: &mut K, i: usize) -> Result<(), SinkFailed>
        requires { i < length (texts self.now) }
        ensures { Puts (page.old ++ slice_index_or (texts self.now) i []) (K.taken sink.old) (K.taken sink.new) (K.faults sink.old) (K.faults sink.new) page.new result }
    {
        match self {
            Lines::Nodes(cactus) => put_node(page, sink, i, cactus.node(i)),
            Lines::Bridges(bridges) => {
                let (upper, lower) = *bridges.get(i).unwrap();
                put_line(page, sink, b"bridge", &[upper, lower])
            }
            Lines::Cycles(cactus) => put_line(page, sink, b"cycle", cactus.cycle(i)),
            Lines::Sides(sides) => put_side(page, sink, sides.get(i).unwrap()),
            Lines::Vertices(numbers) => page.put_number(sink, *numbers.get(i).unwrap()),
            Lines::Members(numbers) => page.put_number(sink, *numbers.get(i).unwrap()),
        }
    }

    /// Puts the lines from one number up to before another.
    pub(crate) fn put<K: Sink>(
        &self,
        page: &mut Page,
        sink: &mut K,
        from: usize,
        to: usize,
    ) -> Result<(), SinkFailed>
        requires ordered { from ≤ to }
        requires within { to ≤ length (texts self.now) }
        ensures { Puts (page.old ++ joined_between (texts self.now) from to) (K.taken sink.old) (K.taken sink.new) (K.faults sink.old) (K.faults sink.new) page.new result }
    {
        'each_line: for i in from..to {
            self.put_one(page, sink, i)?;
        }
        Ok(())
    }

    /// The number of bytes that are kept for a line: eight for each number, and eight more for a
    /// line with a word. They are enough if no number has more than seven digits, as in all texts
    /// of this program.
    pub(crate) fn room_for(&self, i: usize) -> usize
        requires { i < length (texts self.now) }
        ensures { result ≡ min (room_wanted self.now i) (2 ^ 64 - 1) }
    {
        match self {
            Lines::Nodes(cactus) => room_for_numbers(cactus.node(i).len() + 1),
            Lines::Bridges(_) => room_for_numbers(2),
            Lines::Cycles(cactus) => room_for_numbers(cactus.cycle(i).len()),
            Lines::Sides(sides) => room_for_numbers(sides.get(i).unwrap().len() as usize),
            Lines::Vertices(_) | Lines::Members(_) => NUMBER_SIZE,
        }
    }

    /// The first line from one on for which `room` bytes may not be enough, or the number of lines
    /// if there is none.
    pub(crate) fn next_long(&self, from: usize, room: usize) -> usize
        requires { from ≤ length (texts self.now) }
        ensures no_less { from ≤ result }
        ensures no_more { result ≤ length (texts self.now) }
        ensures short { (j : ℕ) → from ≤ j → j < result → min (room_wanted self.now j) (2 ^ 64 - 1) ≤ room }
        ensures long { result < length (texts self.now) → room < min (room_wanted self.now result) (2 ^ 64 - 1) }
    {
        let count = self.count();
        let mut i = from;
        'lines: while i < count && self.room_for(i) <= room {
            i += 1;
        }
        i
    }
}

/// The greatest number of bytes of a number in a text of this program, with a space before it.
const NUMBER_SIZE: usize = 8;

/// The greatest number of bytes of a line with `count` numbers.
fn room_for_numbers(count: usize) -> usize
    ensures { result ≡ min (8 * count + 8) (2 ^ 64 - 1) }
{
    count
        .saturating_mul(NUMBER_SIZE)
        .saturating_add(NUMBER_SIZE)
}
