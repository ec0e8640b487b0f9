//! The replies of one line that need no minimum cut.

ghost use Rattle.std.specs.Prelude.{◌≡◌, IfOk};
ghost use Rattle.job_replies.specs.Replies.{text_of, IsPrintable};
ghost use Rattle.program_words.specs.Texts.{no_cut_line, value_line};

use crate::reply::Reply;
use cut_definitions::NoMemory;
use std::alloc::Global;

/// The reply for a graph of fewer than two vertices, which has no cut. It fails only if it runs
/// out of memory.
pub fn no_cut(alloc: Global) -> Result<Reply, NoMemory>
    ensures text { IfOk result (λ reply. text_of reply ≡ no_cut_line) }
    ensures printable { IfOk result IsPrintable }
{
    let text = String::from_str(alloc, "no cut\n")?;
    Ok(Reply::Text(text))
}

/// The reply with a value. It fails only if it runs out of memory.
pub fn value_text(alloc: Global, value: u64) -> Result<Reply, NoMemory>
    ensures text { IfOk result (λ reply. text_of reply ≡ value_line value) }
    ensures printable { IfOk result IsPrintable }
{
    let text = format!(in alloc; "value {value}\n")?;
    Ok(Reply::Text(text))
}
