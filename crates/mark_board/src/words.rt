//! Words of marks.

ghost use Rattle.std.specs.Prelude.{◌≡◌, ℕ, ◌+◌, ◌<◌, true, false, length, slice_index};
ghost use Rattle.std.specs.Slots.{slots_items, slots_len, IsFull};
ghost use lib.ListN.{get_elem?};
ghost use mathlib.Core.Option.{some};
ghost use Rattle.mark_board.specs.Marks.{HasBit};

use atomic_table::Closed;
use std::alloc::Global;

/// Copies the words of a closed table after its first one.
pub(crate) fn copy_words(words: &mut [u64], closed: &Closed<(), Global>)
    requires { (length words.old < slots_len closed.now.words) × IsFull closed.now.words }
    ensures { (k : ℕ) → k < length words.old → get_elem? (slots_items closed.now.words) (k + 1) ≡ some (slice_index words.new k) }
{
    for k in 0..words.len() {
        words[k] = closed.word(k + 1);
    }
}

/// Whether no bit is set.
pub(crate) fn are_zero(words: &[u64]) -> bool
    ensures none { result ≡ true → (k : ℕ) → k < length words.now → slice_index words.now k ≡ 0 }
    ensures bit { result ≡ false → HasBit words.now }
{
    for word in words {
        if *word != 0 {
            return false;
        }
    }
    true
}
