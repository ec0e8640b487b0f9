//! Bits in words: place k of a list of words is bit k mod 64 of word k div 64.

ghost use Rattle.std.specs.Prelude.{◌≡◌, ◌==◌, ◌&&◌, ℕ, ◌+◌, ◌*◌, ◌/◌, ◌^◌, ◌<◌, ◌≤◌, false, nat_lt, not, length, slice_index, bit_and, bit_or, MatchOption};
ghost use Rattle.std.specs.List.{filter, range_with_len};
ghost use Rattle.std.specs.Int.{bit_not, w64};
ghost use Rattle.vertex_set.specs.Side.{has_bit, IsNextBit, IsFirstDifference, IsOrderAt};

use std::cmp::Ordering;

/// Sets the bits that are set in other words.
pub(crate) fn join_words(words: &mut [u64], others: &[u64])
    requires { length words.old ≡ length others.now }
    ensures { (k : ℕ) → k < length words.old → slice_index words.new k ≡ bit_or (slice_index words.old k) (slice_index others.now k) }
{
    for k in 0..words.len() {
        words[k] |= others[k];
    }
}

/// Clears the bits that are set in other words.
pub(crate) fn clear_words(words: &mut [u64], others: &[u64])
    requires { length words.old ≡ length others.now }
    ensures fits { (k : ℕ) → slice_index others.now k < 2 ^ 64 }
    ensures cleared { (k : ℕ) → k < length words.old → slice_index words.new k ≡ bit_and (slice_index words.old k) (bit_not w64 (slice_index others.now k)) }
{
    for k in 0..words.len() {
        words[k] &= !others[k];
    }
}

/// Flips each bit.
fn flip_words(words: &mut [u64])
    ensures fits { (k : ℕ) → slice_index words.old k < 2 ^ 64 }
    ensures flipped { (k : ℕ) → k < length words.old → slice_index words.new k ≡ bit_not w64 (slice_index words.old k) }
{
    for k in 0..words.len() {
        words[k] = !words[k];
    }
}

/// Clears one bit.
fn clear_bit(words: &mut [u64], place: usize)
    requires { place / 64 < length words.old }
    ensures { (k : ℕ) → has_bit words.new k ≡ has_bit words.old k && not (place == k) }
{
    words[place / 64] &= !(1 << (place % 64));
}

/// Clears the bits from a place of the last word on.
fn clear_from(words: &mut [u64], end: usize)
    requires { length words.old ≡ end / 64 + 1 }
    ensures { (k : ℕ) → has_bit words.new k ≡ has_bit words.old k && nat_lt k end }
{
    words[end / 64] &= !(u64::MAX << (end % 64));
}

/// Flips the bits of the places from 1 to one of the last word, and clears all others.
pub(crate) fn flip_within(words: &mut [u64], end: usize)
    requires { length words.old ≡ end / 64 + 1 }
    ensures { (k : ℕ) → has_bit words.new k ≡ (not (has_bit words.old k) && not (0 == k)) && nat_lt k end }
{
    flip_words(words);
    clear_bit(words, 0);
    clear_from(words, end);
}

/// The number of bits that are set.
pub(crate) fn count_bits(words: &[u64]) -> u64
    requires few { length words.now ≤ 2 ^ 32 }
    ensures { result ≡ length (filter (has_bit words.now) (range_with_len 0 (length words.now * 64))) }
{
    let mut count = 0;
    for word in words {
        count += word.count_ones() as u64;
    }
    count
}

/// Whether the bit of a place is set.
pub(crate) fn is_set(words: &[u64], place: usize) -> bool
    requires { place / 64 < length words.now }
    ensures { result ≡ has_bit words.now place }
{
    words[place / 64] >> (place % 64) & 1 == 1
}

/// The least place from `from` on whose bit is set, or none.
pub(crate) fn next_bit(words: &[u64], from: usize) -> Option<usize>
    requires within { from / 64 < length words.now }
    requires few { length words.now ≤ 2 ^ 32 }
    ensures { MatchOption result ((k : ℕ) → from ≤ k → has_bit words.now k ≡ false) (IsNextBit words.now from) }
{
    let at = from / 64;
    let first = words[at] & (u64::MAX << (from % 64));
    if first != 0 {
        return Some(at * 64 + first.trailing_zeros() as usize);
    }
    for next in at + 1..words.len() {
        let word = words[next];
        if word != 0 {
            return Some(next * 64 + word.trailing_zeros() as usize);
        }
    }
    None
}

/// The least place whose bits differ in two lists of words, as far as both go.
pub(crate) fn first_difference(words: &[u64], others: &[u64]) -> Option<usize>
    requires few { length words.now ≤ 2 ^ 32 }
    ensures { MatchOption result
        ((k : ℕ) → k / 64 < length words.now → k / 64 < length others.now → has_bit words.now k ≡ has_bit others.now k)
        (IsFirstDifference words.now others.now) }
{
    for at in 0..words.len().min(others.len()) {
        let differing = words[at] ^ others[at];
        if differing != 0 {
            return Some(at * 64 + differing.trailing_zeros() as usize);
        }
    }
    None
}

/// The order of a list of places that contains `place`, against the list of set places. They agree
/// before `place`, and the second list lacks it. So the first list comes before the second if some
/// later place is set, and otherwise after it.
pub(crate) fn order_at(words: &[u64], place: usize) -> Ordering
    requires within { place / 64 < length words.now }
    requires few { length words.now ≤ 2 ^ 32 }
    ensures { IsOrderAt words.now place result }
{
    match next_bit(words, place) {
        Some(_) => Ordering::Less,
        None => Ordering::Greater,
    }
}
