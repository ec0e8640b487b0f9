//! A page between a text and a sink.

ghost use Rattle.std.specs.Prelude.{◌≡◌, ◌≤◌, ◌+◌, [], ◌∷◌, ◌++◌, IfOk, OnOk, length};
ghost use Rattle.std.specs.List.{flat_map};
ghost use Rattle.answer_pages.specs.Puts.{Puts};

use cut_definitions::NoMemory;
use itoa::{Buffer, Integer};
use outside::{Sink, SinkFailed, write_whole};
use std::alloc::Global;
use std::marker::Model;

/// The number of bytes that are written at once.
const PAGE_SIZE: usize = 32768;

/// Bytes on their way to a sink, which are held until there are enough for a write. Contracts see
/// what the page holds.
///
/// It takes its memory when it is made. What the sink took and what the page holds are together
/// the text so far.
#[derive(Drop)]
pub struct Page {
    bytes: Vec<u8>,
}

impl Model for Page {
    ghost use Rattle.std.specs.Prelude.{◌≤◌, List, ℕ, length, vec_capacity};

    ghost Value = { List ℕ };

    ghost view = { λ p. p.bytes.items };

    ghost invariant = { λ p. (length p.bytes.items ≤ 32768) × (32768 ≤ vec_capacity p.bytes) };
}

impl Page {
    /// A page that holds nothing. It takes 32 KiB, and fails only if it runs out of memory.
    pub fn new(alloc: Global) -> Result<Page, NoMemory>
        ensures { IfOk result (λ p. p ≡ []) }
    {
        let bytes = Vec::with_capacity(alloc, PAGE_SIZE)?;
        Ok(Page { bytes })
    }

    /// Drops what the page holds.
    pub(crate) fn clear(&mut self)
        ensures { self.new ≡ [] }
    {
        self.bytes.clear();
    }

    /// Writes out what the page holds. It fails if the sink does.
    pub fn flush<K: Sink>(&mut self, sink: &mut K) -> Result<(), SinkFailed>
        ensures puts { Puts self.old (K.taken sink.old) (K.taken sink.new) (K.faults sink.old) (K.faults sink.new) self.new result }
        ensures empty { OnOk result (self.new ≡ []) }
    {
        write_whole(sink, &self.bytes)?;
        self.clear();
        Ok(())
    }

    /// Makes room for `count` more bytes. If the page would get too full, what it holds is written
    /// out.
    fn make_room<K: Sink>(&mut self, sink: &mut K, count: usize) -> Result<(), SinkFailed>
        requires { count ≤ 41 }
        ensures puts { Puts self.old (K.taken sink.old) (K.taken sink.new) (K.faults sink.old) (K.faults sink.new) self.new result }
        ensures room { OnOk result (length self.new + count ≤ 32768) }
    {
        if count > PAGE_SIZE - self.bytes.len() {
            self.flush(sink)?;
        }
        Ok(())
    }

    /// Puts a short piece after what the page holds. If the page would get too full, what it holds
    /// is written out before.
    pub fn put<K: Sink>(&mut self, sink: &mut K, piece: &[u8]) -> Result<(), SinkFailed>
        requires { length piece.now ≤ 40 }
        ensures { Puts (self.old ++ piece.now) (K.taken sink.old) (K.taken sink.new) (K.faults sink.old) (K.faults sink.new) self.new result }
    {
        self.make_room(sink, piece.len())?;
        self.bytes.extend_from_slice(piece).unwrap();
        Ok(())
    }

    /// Puts a number in decimal, with a space before it.
    pub fn put_number<K: Sink, I: Integer>(
        &mut self,
        sink: &mut K,
        number: I,
    ) -> Result<(), SinkFailed>
        ensures { Puts (self.old ++ (32 ∷ I.text number)) (K.taken sink.old) (K.taken sink.new) (K.faults sink.old) (K.faults sink.new) self.new result }
    {
        let mut buffer = Buffer::new();
        let digits = buffer.format(number).as_bytes();
        self.make_room(sink, digits.len() + 1)?;
        self.bytes.push(b' ').unwrap();
        self.bytes.extend_from_slice(digits).unwrap();
        Ok(())
    }

    /// Puts numbers in decimal, each with a space before it.
    pub fn put_numbers<K: Sink, I: Integer>(
        &mut self,
        sink: &mut K,
        numbers: &[I],
    ) -> Result<(), SinkFailed>
        ensures { Puts (self.old ++ flat_map (λ n. 32 ∷ I.text n) numbers.now) (K.taken sink.old) (K.taken sink.new) (K.faults sink.old) (K.faults sink.new) self.new result }
    {
        'each_number: for i in 0..numbers.len() {
            self.put_number(sink, numbers[i])?;
        }
        Ok(())
    }
}
