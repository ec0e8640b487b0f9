//! Listings of cuts, line by line through one page.

ghost use Rattle.std.specs.Prelude.{◌≡◌, ◌∷◌, ◌++◌, [], MatchOption, codes, map};
ghost use Rattle.answer_pages.specs.Puts.{Puts};
ghost use Rattle.answer_pages.specs.Text.{spaced, line};
ghost use Rattle.answer_pages.specs.Listings.{above, side_line, listing_text, balanced_text};

use crate::numbered_lines::Lines;
use crate::page::Page;
use crate::pieces::TextMaker;
use crate::printing::put_line;
use crate::text::Text;
use itoa::Buffer;
use outside::{Sink, SinkFailed};
use vertex_set::Side;

/// The least member above a vertex.
fn next_above(side: &Side, low: u32) -> Option<u32>
    ensures next { MatchOption result (above low side.now.members ≡ []) (λ v. above low side.now.members ≡ v ∷ above v side.now.members) }
    ensures all { above 0 side.now.members ≡ side.now.members }
{
    if low >= side.n() {
        return None;
    }
    side.next_from(low + 1)
}

/// Puts the members above a vertex, each with a space before it.
fn put_above<K: Sink>(
    page: &mut Page,
    sink: &mut K,
    side: &Side,
    low: u32,
) -> Result<(), SinkFailed>
    ensures puts { Puts (page.old ++ spaced (above low side.now.members)) (K.taken sink.old) (K.taken sink.new) (K.faults sink.old) (K.faults sink.new) page.new result }
    ensures all { above 0 side.now.members ≡ side.now.members }
{
    let mut last = low;
    'each_member: while let Some(member) = next_above(side, last) {
        page.put_number(sink, member)?;
        last = member;
    }
    Ok(())
}

/// Puts a side with some members: the least of them, and those above it.
fn put_from<K: Sink>(
    page: &mut Page,
    sink: &mut K,
    side: &Side,
    least: u32,
) -> Result<(), SinkFailed>
    requires { side.now.members ≡ least ∷ above least side.now.members }
    ensures { Puts (page.old ++ side_line side.now.members) (K.taken sink.old) (K.taken sink.new) (K.faults sink.old) (K.faults sink.new) page.new result }
{
    let mut buffer = Buffer::new();
    page.put(sink, buffer.format(least).as_bytes())?;
    put_above(page, sink, side, least)?;
    page.put(sink, b"\n")
}

/// Puts the line of a side.
pub(crate) fn put_side<K: Sink>(
    page: &mut Page,
    sink: &mut K,
    side: &Side,
) -> Result<(), SinkFailed>
    ensures { Puts (page.old ++ side_line side.now.members) (K.taken sink.old) (K.taken sink.new) (K.faults sink.old) (K.faults sink.new) page.new result }
{
    match next_above(side, 0) {
        Some(least) => put_from(page, sink, side, least),
        None => page.put(sink, b"\n"),
    }
}

/// Puts the line of a side with the word `side` before it.
fn put_worded_side<K: Sink>(page: &mut Page, sink: &mut K, side: &Side) -> Result<(), SinkFailed>
    ensures { Puts (page.old ++ line (codes "side") side.now.members) (K.taken sink.old) (K.taken sink.new) (K.faults sink.old) (K.faults sink.new) page.new result }
{
    page.put(sink, b"side")?;
    put_above(page, sink, side, 0)?;
    page.put(sink, b"\n")
}

/// The text of a listing of cuts: the maker of its lines, the value, and the sides.
///
/// It has the value, the number of the sides, and the sides, one on each line. Besides the text it
/// takes about n/64 steps for each side.
#[derive(Drop)]
pub struct ListingText<'a, M>(pub M, pub u64, pub &'a [Side]);

impl<M: TextMaker> Text for ListingText<'_, M> {
    ghost ready = { λ t. M.ready t.0 };

    ghost bytes = { λ t. listing_text t.1 (map (λ s. s.members) t.2.now) };

    fn put<K: Sink>(self, page: &mut Page, sink: &mut K) -> Result<(), SinkFailed> {
        let ListingText(mut maker, value, sides) = self;
        put_line(page, sink, b"value", &[value as u128])?;
        put_line(page, sink, b"cuts", &[sides.len() as u128])?;
        maker.put_all(page, sink, Lines::Sides(sides))
    }
}

/// The text of a side with its balance: the value of its cut, the balance, and the side. Besides
/// the text it takes about n/64 steps.
#[derive(Clone, Copy, Drop)]
pub struct BalancedText<'a>(pub u64, pub u128, pub &'a Side);

impl Text for BalancedText<'_> {
    ghost bytes = { λ t. balanced_text t.0 t.1 t.2.now.members };

    fn put<K: Sink>(self, page: &mut Page, sink: &mut K) -> Result<(), SinkFailed> {
        let BalancedText(value, balance, side) = self;
        put_line(page, sink, b"value", &[value as u128])?;
        put_line(page, sink, b"balance", &[balance])?;
        put_worded_side(page, sink, side)
    }
}
