//! What is promised of each text that is written through a page to a sink.

ghost use Rattle.std.specs.Prelude.{⊤, ◌≡◌, ℕ, List, ◌++◌, [], OnOk, OnErr, IsErrOf};
ghost use Rattle.std.specs.Io.KnownBytes.{Appends};
ghost use Rattle.outside.specs.Faults.{HasCause, AppendsPrefix, Rose};
ghost use Rattle.answer_pages.specs.Puts.{Puts};
ghost use Rattle.answer_pages.specs.declared.text.PrintRefusal.TheVariants.{NoMemory};

use crate::page::Page;
use outside::{Sink, SinkFailed};
use std::alloc::{AllocError, Global};

/// Why a text was not printed.
#[derive(Clone, Copy, Debug, PartialEq, Eq, Drop)]
pub enum PrintRefusal {
    /// A write failed. A first part of the text was written.
    SinkFailed,
    /// There was not enough memory. Nothing was written.
    NoMemory,
}

impl From<AllocError> for PrintRefusal {
    ghost from_gives = { λ _ refusal. refusal ≡ NoMemory };

    fn from(_: AllocError) -> PrintRefusal {
        PrintRefusal::NoMemory
    }
}

/// A text that can be put line by line.
pub trait Text: Drop {
    /// What the text needs in order to be put.
    ghost ready: { Self → Type 0 } = { λ _. ⊤ };

    /// The bytes of the text.
    ghost bytes: { Self → List ℕ };

    /// Puts all of it. It takes time in proportion to the text, and fails only if a write fails.
    fn put<K: Sink>(self, page: &mut Page, sink: &mut K) -> Result<(), SinkFailed>
        requires { ready self }
        ensures { Puts (page.old ++ bytes self) (K.taken sink.old) (K.taken sink.new) (K.faults sink.old) (K.faults sink.new) page.new result };
}

/// Writes a text through an empty page.
pub(crate) fn write_text<T: Text, K: Sink>(
    page: &mut Page,
    text: T,
    sink: &mut K,
) -> Result<(), SinkFailed>
    requires ready { T.ready text }
    requires empty { page.old ≡ [] }
    ensures whole { OnOk result (Appends (K.taken sink.old) (K.taken sink.new) (T.bytes text)) }
    ensures prefix { OnErr result (AppendsPrefix (K.taken sink.old) (K.taken sink.new) (T.bytes text)) }
    ensures cause { HasCause (K.faults sink.old) (K.faults sink.new) result }
{
    text.put(page, sink)?;
    page.flush(sink)
}

/// Writes a text through a page that is made for it.
///
/// The page is made before the first byte. If there is not enough memory for it, nothing is
/// written, and the sink is unchanged. If a write fails, what was written is a first part of the
/// text. It takes time in proportion to the text.
pub fn print_text<T: Text, K: Sink>(
    alloc: Global,
    text: T,
    sink: &mut K,
) -> Result<(), PrintRefusal>
    requires { T.ready text }
    ensures whole { OnOk result (Appends (K.taken sink.old) (K.taken sink.new) (T.bytes text)) }
    ensures same_count { OnOk result (K.faults sink.new ≡ K.faults sink.old) }
    ensures prefix { IsErrOf result PrintRefusal.SinkFailed → AppendsPrefix (K.taken sink.old) (K.taken sink.new) (T.bytes text) }
    ensures rose { IsErrOf result PrintRefusal.SinkFailed → Rose (K.faults sink.old) (K.faults sink.new) }
    ensures memory { IsErrOf result PrintRefusal.NoMemory → sink.new ≡ sink.old }
{
    let mut page = Page::new(alloc)?;
    match write_text(&mut page, text, sink) {
        Ok(()) => Ok(()),
        Err(_) => Err(PrintRefusal::SinkFailed),
    }
}
