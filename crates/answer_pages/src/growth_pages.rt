//! The text of a growth, line by line through one page: its steps, and the cactus at its end.

ghost use Rattle.std.specs.Prelude.{◌≤◌, ◌∷◌, ◌++◌, [], length};
ghost use Rattle.answer_pages.specs.Puts.{Puts};
ghost use Rattle.answer_pages.specs.Text.{spaced};
ghost use Rattle.answer_pages.specs.Growing.{step_line, step_lines, growth_text};

use crate::page::Page;
use crate::pieces::OneWorker;
use crate::printing::CactusText;
use crate::text::Text;
use flat_cactus::FlatCactus;
use outside::{Sink, SinkFailed};

/// What the text says of one step of a growth.
#[derive(Clone, Copy, Debug, PartialEq, Eq)]
pub struct Step {
    /// The value of the graph.
    pub value: u64,
    /// The number of its minimum cuts.
    pub count: u64,
}

/// Puts a word and a number.
fn put_entry<K: Sink>(
    page: &mut Page,
    sink: &mut K,
    word: &[u8],
    number: u64,
) -> Result<(), SinkFailed>
    requires { length word.now ≤ 40 }
    ensures { Puts (page.old ++ (word.now ++ spaced (number ∷ []))) (K.taken sink.old) (K.taken sink.new) (K.faults sink.old) (K.faults sink.new) page.new result }
{
    page.put(sink, word)?;
    page.put_numbers(sink, &[number])
}

/// Puts the line of a step.
fn put_step<K: Sink>(
    page: &mut Page,
    sink: &mut K,
    number: u64,
    step: Step,
) -> Result<(), SinkFailed>
    ensures { Puts (page.old ++ step_line number step) (K.taken sink.old) (K.taken sink.new) (K.faults sink.old) (K.faults sink.new) page.new result }
{
    put_entry(page, sink, b"step", number)?;
    put_entry(page, sink, b" value", step.value)?;
    put_entry(page, sink, b" count", step.count)?;
    page.put(sink, b"\n")
}

/// Puts the lines of steps, numbered from 1 on.
fn put_steps<K: Sink>(page: &mut Page, sink: &mut K, steps: &[Step]) -> Result<(), SinkFailed>
    ensures { Puts (page.old ++ step_lines 1 steps.now) (K.taken sink.old) (K.taken sink.new) (K.faults sink.old) (K.faults sink.new) page.new result }
{
    'each_step: for i in 0..steps.len() {
        put_step(page, sink, i as u64 + 1, steps[i])?;
    }
    Ok(())
}

/// The text of a growth: its steps, and the value and the cactus at its end.
///
/// It has a line for each step, with its number, counted from 1, the value and the number of the
/// minimum cuts. Then comes the text of the cactus with the value.
#[derive(Clone, Copy, Drop)]
pub struct GrowthText<'a>(pub &'a [Step], pub u64, pub &'a FlatCactus);

impl Text for GrowthText<'_> {
    ghost bytes = { λ t. growth_text t.0.now t.1 t.2.now };

    fn put<K: Sink>(self, page: &mut Page, sink: &mut K) -> Result<(), SinkFailed> {
        let GrowthText(steps, value, cactus) = self;
        put_steps(page, sink, steps)?;
        CactusText(OneWorker, value, cactus).put(page, sink)
    }
}
