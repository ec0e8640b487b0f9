//! Long texts that several workers make in parallel, a piece each, and that are written in their
//! order.
//!
//! In each round the lines that come next are dealt to the pieces. Each piece takes as many lines
//! as surely fit. The pieces are made in parallel, and written one after another. No promise
//! depends on which lines a piece was dealt, nor on whether it was made. If a piece does not have
//! the text of the lines that come next, these lines are put one by one.

ghost use Rattle.std.specs.Prelude.{⊤, Some, ◌≡◌, ◌<◌, ◌≤◌, ◌+◌, ◌++◌, ◌*◌, ◌/◌, ◌∷◌, false, IfOk, codes, length, min};
ghost use Rattle.std.specs.List.{All, concat};
ghost use Rattle.std.specs.Thread.{IsSync};
ghost use Rattle.answer_pages.specs.Lines.{joined_between, texts};
ghost use Rattle.answer_pages.specs.Pieces.{IsMade, numbers_in, vertices_of_first, workers_of};
ghost use Rattle.answer_pages.specs.Puts.{Puts};
ghost use Rattle.answer_pages.specs.Text.{line};

use crate::numbered_lines::Lines;
use crate::page::Page;
use cut_definitions::NoMemory;
use flat_cactus::FlatCactus;
use outside::{Sink, SinkFailed, write_whole};
use std::alloc::Global;
use std::thread;
use std::thread::Threads;
use vertex_set::Side;

/// The greatest number of bytes in a piece: some milliseconds of work.
const PIECE_SIZE: usize = 2_097_152;

/// What makes lines into text.
pub trait TextMaker: Drop {
    /// What the maker needs for its work.
    ghost ready: { Self → Type 0 } = { λ _. ⊤ };

    /// Puts all lines.
    fn put_all<K: Sink>(
        &mut self,
        page: &mut Page,
        sink: &mut K,
        lines: Lines,
    ) -> Result<(), SinkFailed>
        requires { ready self.old }
        ensures puts { Puts (page.old ++ concat (texts lines.entry)) (K.taken sink.old) (K.taken sink.new) (K.faults sink.old) (K.faults sink.new) page.new result }
        ensures ready { ready self.new };
}

/// One worker, which puts one line after another.
#[derive(Clone, Copy, Drop)]
pub struct OneWorker;

impl TextMaker for OneWorker {
    fn put_all<K: Sink>(
        &mut self,
        page: &mut Page,
        sink: &mut K,
        lines: Lines,
    ) -> Result<(), SinkFailed> {
        lines.put(page, sink, 0, lines.count())
    }
}

/// The text of a piece, in memory.
#[derive(Drop)]
struct PieceText {
    bytes: Vec<u8>,
    faults: u64,
}

impl Sink for PieceText {
    ghost taken = { λ t. Some t.bytes.items };

    ghost faults = { λ t. t.faults };

    fn write(&mut self, piece: &[u8]) -> Result<usize, SinkFailed> {
        if self.bytes.extend_from_slice(piece).is_err() {
            self.faults = self.faults.saturating_add(1);
            return Err(SinkFailed);
        }
        Ok(piece.len())
    }
}

/// Lines that one worker makes into text, from one number up to another.
#[derive(Drop)]
struct Piece {
    from: usize,
    to: usize,
    is_made: bool,
    page: Page,
    text: PieceText,
}

impl Piece {
    /// A piece of no lines.
    fn new(alloc: Global) -> Result<Piece, NoMemory>
        ensures { IfOk result (λ p. p.is_made ≡ false) }
    {
        let page = Page::new(alloc)?;
        let text = PieceText {
            bytes: Vec::new(alloc),
            faults: 0,
        };
        Ok(Piece {
            from: 0,
            to: 0,
            is_made: false,
            page,
            text,
        })
    }

    /// Takes as many lines as there is room for, from one on and all before another, and returns
    /// the number of the next one.
    fn take(&mut self, lines: Lines, from: usize, to: usize) -> usize
        requires ordered { from ≤ to }
        requires within { to ≤ length (texts lines) }
        ensures no_less { from ≤ result }
        ensures no_more { result ≤ to }
        ensures unmade { self.new.is_made ≡ false }
    {
        let mut room = PIECE_SIZE;
        let mut end = from;
        'lines: while end < to {
            let wanted = lines.room_for(end);
            if wanted > room {
                break;
            }
            room -= wanted;
            end += 1;
        }
        self.from = from;
        self.to = end;
        self.is_made = false;
        end
    }

    /// Makes the lines into text, if they are lines of this kind and there is enough memory.
    fn make(&mut self, lines: Lines)
        ensures { IsMade (texts lines.entry) self.new }
    {
        self.is_made = false;
        if self.from > self.to || self.to > lines.count() {
            return;
        }
        self.page.clear();
        self.text.bytes.clear();
        self.is_made = lines
            .put(&mut self.page, &mut self.text, self.from, self.to)
            .is_ok()
            && self.page.flush(&mut self.text).is_ok();
    }

    /// Puts the lines from one number up to before another. If it was made of these lines, it puts
    /// its own text.
    fn put<K: Sink>(
        &self,
        page: &mut Page,
        sink: &mut K,
        lines: Lines,
        from: usize,
        to: usize,
    ) -> Result<(), SinkFailed>
        requires made { IsMade (texts lines) self.now }
        requires ordered { from ≤ to }
        requires within { to ≤ length (texts lines) }
        ensures { Puts (page.old ++ joined_between (texts lines.entry) from to) (K.taken sink.old) (K.taken sink.new) (K.faults sink.old) (K.faults sink.new) page.new result }
    {
        if self.is_made && self.from == from && self.to == to {
            page.flush(sink)?;
            return write_whole(sink, &self.text.bytes);
        }
        lines.put(page, sink, from, to)
    }
}

/// Pieces of no lines.
fn new_pieces(alloc: Global, count: usize) -> Result<Vec<Piece>, NoMemory>
    ensures { IfOk result (λ pieces. length pieces.items ≡ count) }
{
    let mut pieces = Vec::with_capacity(alloc, count)?;
    'pieces: for _i in 0..count {
        let piece = Piece::new(alloc)?;
        pieces.push(piece)?;
    }
    Ok(pieces)
}

/// Deals lines to pieces, from one number on and all before another, and returns the number of the
/// next one.
fn deal(pieces: &mut [Piece], lines: Lines, from: usize, to: usize) -> usize
    requires ordered { from < to }
    requires within { to ≤ length (texts lines) }
    ensures more { from < result }
    ensures no_more { result ≤ to }
    ensures unmade { All (IsMade (texts lines.entry)) pieces.new }
{
    let mut next = from;
    'pieces: for i in 0..pieces.len() {
        next = pieces[i].take(lines, next, to);
    }
    if next == from { to } else { next }
}

/// Makes the lines of all pieces into text in parallel, if two or more have lines.
fn make_all<R: Threads + Sync>(rt: &R, pieces: &mut [Piece], lines: Lines)
    requires unmade { All (IsMade (texts lines)) pieces.old }
    ensures made { All (IsMade (texts lines.entry)) pieces.new }
{
    if pieces.len() < 2 || pieces[1].from >= pieces[1].to {
        return;
    }
    let threads = pieces.len();
    thread::for_each_mut(
        rt,
        pieces,
        threads,
        &|_place: usize, piece: &mut Piece|
            ensures { IsMade (texts lines.entry) piece.exit.now }
        { piece.make(lines) },
    );
}

/// Puts the lines from one number up to before another, from the pieces as far as they have them.
fn put_made<K: Sink>(
    pieces: &[Piece],
    page: &mut Page,
    sink: &mut K,
    lines: Lines,
    from: usize,
    to: usize,
) -> Result<(), SinkFailed>
    requires made { All (IsMade (texts lines)) pieces.now }
    requires ordered { from ≤ to }
    requires within { to ≤ length (texts lines) }
    ensures { Puts (page.old ++ joined_between (texts lines.entry) from to) (K.taken sink.old) (K.taken sink.new) (K.faults sink.old) (K.faults sink.new) page.new result }
{
    let mut next = from;
    'pieces: for i in 0..pieces.len() {
        let end = pieces[i].to.clamp(next, to);
        pieces[i].put(page, sink, lines, next, end)?;
        next = end;
    }
    lines.put(page, sink, next, to)
}

/// Workers that make pieces of a text in parallel. A piece takes a few MiB. If it runs out of
/// memory, its lines are put one by one.
#[derive(Drop)]
pub struct Crew<'a, R> {
    rt: &'a R,
    pieces: Vec<Piece>,
}

impl<'a, R: Threads + Sync> Crew<'a, R> {
    /// Workers for the text of a cactus: one for each piece that it fills, at eight bytes for each
    /// number, but at most `workers`. Each has a page of its own. It fails only if it runs out of
    /// memory for the pages.
    pub fn for_cactus(
        rt: &'a R,
        alloc: Global,
        workers: u32,
        cactus: &FlatCactus,
    ) -> Result<Crew<'a, R>, NoMemory>
        ensures { IfOk result (λ c. workers_of c ≡ min workers (8 * numbers_in cactus.now / 2097152)) }
    {
        let (_, members) = cactus.cycle_lists();
        let vertices = cactus.nodes().saturating_add(cactus.n() as usize);
        let joined = cactus
            .bridges()
            .len()
            .saturating_mul(3)
            .saturating_add(members.len());
        let numbers = vertices.saturating_add(joined);
        Crew::new(rt, alloc, workers, numbers.saturating_mul(8))
    }

    /// Workers for the text of a listing, as from `for_cactus`, at three bytes for each vertex and
    /// side.
    pub fn for_sides(
        rt: &'a R,
        alloc: Global,
        workers: u32,
        sides: &[Side],
    ) -> Result<Crew<'a, R>, NoMemory>
        ensures { IfOk result (λ c. workers_of c ≡ min workers (3 * (length sides.now * vertices_of_first sides.now) / 2097152)) }
    {
        let n = match sides.first() {
            Some(side) => side.n() as usize,
            None => 0,
        };
        let size = sides.len().saturating_mul(n).saturating_mul(3);
        Crew::new(rt, alloc, workers, size)
    }

    /// Workers for a text of about `size` bytes.
    fn new(rt: &'a R, alloc: Global, workers: u32, size: usize) -> Result<Crew<'a, R>, NoMemory>
        ensures { IfOk result (λ c. workers_of c ≡ min workers (size / 2097152)) }
    {
        let count = (workers as usize).min(size / PIECE_SIZE);
        let pieces = new_pieces(alloc, count)?;
        Ok(Crew { rt, pieces })
    }

    /// Puts the lines from one number up to before another.
    fn put_run<K: Sink>(
        &mut self,
        page: &mut Page,
        sink: &mut K,
        lines: Lines,
        from: usize,
        to: usize,
    ) -> Result<(), SinkFailed>
        requires ordered { from ≤ to }
        requires within { to ≤ length (texts lines) }
        ensures { Puts (page.old ++ joined_between (texts lines.entry) from to) (K.taken sink.old) (K.taken sink.new) (K.faults sink.old) (K.faults sink.new) page.new result }
    {
        let pieces = self.pieces.as_mut_slice();
        let mut next = from;
        'rounds: while next < to {
            let end = deal(pieces, lines, next, to);
            make_all(self.rt, pieces, lines);
            put_made(pieces, page, sink, lines, next, end)?;
            next = end;
        }
        Ok(())
    }

    /// Puts a line for which no piece has room. All its numbers are made in the way of lines.
    fn put_long<K: Sink>(
        &mut self,
        page: &mut Page,
        sink: &mut K,
        lines: Lines,
        i: usize,
    ) -> Result<(), SinkFailed>
        requires { i < length (texts lines) }
        ensures { Puts (page.old ++ joined_between (texts lines.entry) i (i + 1)) (K.taken sink.old) (K.taken sink.new) (K.faults sink.old) (K.faults sink.new) page.new result }
    {
        match lines {
            Lines::Nodes(cactus) => self.put_long_node(page, sink, i, cactus.node(i)),
            Lines::Cycles(cactus) => self.put_long_cycle(page, sink, cactus.cycle(i)),
            _ => lines.put(page, sink, i, i + 1),
        }
    }

    /// Puts the line of a node with very many vertices.
    fn put_long_node<K: Sink>(
        &mut self,
        page: &mut Page,
        sink: &mut K,
        number: usize,
        vertices: &[u32],
    ) -> Result<(), SinkFailed>
        ensures { Puts (page.old ++ line (codes "node") (number ∷ vertices.now)) (K.taken sink.old) (K.taken sink.new) (K.faults sink.old) (K.faults sink.new) page.new result }
    {
        page.put(sink, b"node")?;
        page.put_number(sink, number)?;
        self.put_run(page, sink, Lines::Vertices(vertices), 0, vertices.len())?;
        page.put(sink, b"\n")
    }

    /// Puts the line of a cycle with very many nodes.
    fn put_long_cycle<K: Sink>(
        &mut self,
        page: &mut Page,
        sink: &mut K,
        members: &[u64],
    ) -> Result<(), SinkFailed>
        ensures { Puts (page.old ++ line (codes "cycle") members.now) (K.taken sink.old) (K.taken sink.new) (K.faults sink.old) (K.faults sink.new) page.new result }
    {
        page.put(sink, b"cycle")?;
        self.put_run(page, sink, Lines::Members(members), 0, members.len())?;
        page.put(sink, b"\n")
    }
}

impl<R: Threads + Sync> TextMaker for Crew<'_, R> {
    ghost ready = { λ c. IsSync R.row };

    fn put_all<K: Sink>(
        &mut self,
        page: &mut Page,
        sink: &mut K,
        lines: Lines,
    ) -> Result<(), SinkFailed> {
        let count = lines.count();
        let mut next = 0;
        'runs: while next < count {
            let long = lines.next_long(next, PIECE_SIZE);
            self.put_run(page, sink, lines, next, long)?;
            next = long;
            if long < count {
                self.put_long(page, sink, lines, long)?;
                next = long + 1;
            }
        }
        Ok(())
    }
}
