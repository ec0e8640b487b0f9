//! The text of a cactus, line by line.

ghost use Rattle.std.specs.Prelude.{◌≡◌, ◌≤◌, ◌∷◌, ◌++◌, [], OnOk, OnErr, IsErrOf, codes, length};
ghost use Rattle.std.specs.Io.KnownBytes.{Appends};
ghost use Rattle.std.specs.List.{flat_map};
ghost use Rattle.outside.specs.Faults.{HasCause, AppendsPrefix, Rose};
ghost use Rattle.flat_cactus.specs.Flattened.{flat_of};
ghost use Rattle.answer_pages.specs.Text.{cactus_text, line, first_line};
ghost use Rattle.answer_pages.specs.Puts.{Puts};

use crate::numbered_lines::Lines;
use crate::page::Page;
use crate::pieces::{OneWorker, TextMaker};
use crate::text::{PrintRefusal, Text, print_text, write_text};
use flat_cactus::{FlatCactus, flatten};
use itoa::Integer;
use outside::{Sink, SinkFailed};
use rooted_cactus::Cactus;
use std::alloc::Global;

/// Puts a line: a word and numbers, with a space before each.
pub(crate) fn put_line<K: Sink, I: Integer>(
    page: &mut Page,
    sink: &mut K,
    word: &[u8],
    numbers: &[I],
) -> Result<(), SinkFailed>
    requires { length word.now ≤ 40 }
    ensures { Puts (page.old ++ (word.now ++ flat_map (λ n. 32 ∷ I.text n) numbers.now ++ 10 ∷ [])) (K.taken sink.old) (K.taken sink.new) (K.faults sink.old) (K.faults sink.new) page.new result }
{
    page.put(sink, word)?;
    page.put_numbers(sink, numbers)?;
    page.put(sink, b"\n")
}

/// Puts the line of a node.
pub(crate) fn put_node<K: Sink>(
    page: &mut Page,
    sink: &mut K,
    number: usize,
    vertices: &[u32],
) -> Result<(), SinkFailed>
    ensures { Puts (page.old ++ line (codes "node") (number ∷ vertices.now)) (K.taken sink.old) (K.taken sink.new) (K.faults sink.old) (K.faults sink.new) page.new result }
{
    page.put(sink, b"node")?;
    page.put_number(sink, number)?;
    page.put_numbers(sink, vertices)?;
    page.put(sink, b"\n")
}

/// Puts the first line: the value, and the numbers of vertices, nodes, bridges and cycles.
fn put_first_line<K: Sink>(
    page: &mut Page,
    sink: &mut K,
    cactus: &FlatCactus,
    value: u64,
) -> Result<(), SinkFailed>
    ensures { Puts (page.old ++ first_line value cactus.now) (K.taken sink.old) (K.taken sink.new) (K.faults sink.old) (K.faults sink.new) page.new result }
{
    let counts = [
        value,
        cactus.n() as u64,
        cactus.nodes() as u64,
        cactus.bridges().len() as u64,
        cactus.cycles() as u64,
    ];
    put_line(page, sink, b"cactus", &counts)
}

/// The text of a flat cactus with a value: the maker of its lines, the value, and the cactus.
///
/// A maker with several workers makes a long text in parallel. The text is the same.
#[derive(Drop)]
pub struct CactusText<'a, M>(pub M, pub u64, pub &'a FlatCactus);

impl<M: TextMaker> Text for CactusText<'_, M> {
    ghost ready = { λ t. M.ready t.0 };

    ghost bytes = { λ t. cactus_text t.1 t.2.now };

    fn put<K: Sink>(self, page: &mut Page, sink: &mut K) -> Result<(), SinkFailed> {
        let CactusText(mut maker, value, cactus) = self;
        put_first_line(page, sink, cactus, value)?;
        maker.put_all(page, sink, Lines::Nodes(cactus))?;
        maker.put_all(page, sink, Lines::Bridges(cactus.bridges()))?;
        maker.put_all(page, sink, Lines::Cycles(cactus))
    }
}

/// Writes the text of a flat cactus with a value, through an empty page. It takes time in
/// proportion to the text, and no memory.
///
/// It fails only if a write fails. What was written then is a first part of the text.
pub fn print_flat<K: Sink>(
    page: &mut Page,
    cactus: &FlatCactus,
    value: u64,
    sink: &mut K,
) -> Result<(), SinkFailed>
    requires { page.old ≡ [] }
    ensures whole { OnOk result (Appends (K.taken sink.old) (K.taken sink.new) (cactus_text value cactus.now)) }
    ensures prefix { OnErr result (AppendsPrefix (K.taken sink.old) (K.taken sink.new) (cactus_text value cactus.now)) }
    ensures cause { HasCause (K.faults sink.old) (K.faults sink.new) result }
{
    write_text(page, CactusText(OneWorker, value, cactus), sink)
}

/// Writes the text of a cactus with a value.
///
/// The nodes are numbered in the order in which the tree is entered. All memory, for the flat
/// cactus and one page, is taken before the first byte. If it runs out of memory, nothing is
/// written, and the sink is unchanged. If a write fails, what was written is a first part of the
/// text. It takes time in proportion to the text.
pub fn print<K: Sink>(
    alloc: Global,
    cactus: &Cactus,
    value: u64,
    sink: &mut K,
) -> Result<(), PrintRefusal>
    ensures whole { OnOk result (Appends (K.taken sink.old) (K.taken sink.new) (cactus_text value (flat_of cactus.now))) }
    ensures same_count { OnOk result (K.faults sink.new ≡ K.faults sink.old) }
    ensures prefix { IsErrOf result PrintRefusal.SinkFailed → AppendsPrefix (K.taken sink.old) (K.taken sink.new) (cactus_text value (flat_of cactus.now)) }
    ensures rose { IsErrOf result PrintRefusal.SinkFailed → Rose (K.faults sink.old) (K.faults sink.new) }
    ensures memory { IsErrOf result PrintRefusal.NoMemory → sink.new ≡ sink.old }
{
    let flat = flatten(alloc, cactus)?;
    print_text(alloc, CactusText(OneWorker, value, &flat), sink)
}
