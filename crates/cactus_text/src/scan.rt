//! Lines of a text, and the numbers of a line.

ghost use Rattle.std.specs.Prelude.{◌≡◌, ◌<◌, ◌≤◌, ◌+◌, ◌*◌, ◌^◌, ◌≢◌, [], ◌∷◌, ◌++◌, true, false, ℕ, List, length, take, drop, slice_index, None, Some, IfOk, MatchOption, IfSome, IsSome};
ghost use Rattle.std.specs.Option.{SomeIff};
ghost use Rattle.std.specs.Char.{digit_value};
ghost use Rattle.cactus_text.specs.Reading.{lines, numbers_of};
ghost use Rattle.cactus_text.specs.Scanned.{IsLeading, IsRest, IsWord, TakesNumber};

use cut_definitions::NoMemory;
use std::marker::Model;

/// The lines of a text that are still to come, each with the line feed that ends it.
#[derive(Drop)]
pub struct Lines<'a> {
    rest: &'a [u8],
}

impl<'a> Model for Lines<'a> {
    ghost use Rattle.std.specs.Prelude.{List, ℕ};
    ghost use Rattle.cactus_text.specs.Reading.{lines, numbers_of};

    ghost Value = { List (List ℕ) };

    ghost view = { λ l. lines l.rest.now };
}

impl<'a> Lines<'a> {
    /// The lines of a text.
    pub fn new(text: &'a [u8]) -> Lines<'a>
        ensures { result ≡ lines text.now }
    {
        Lines { rest: text }
    }

    /// The next line; none at the end of the text. One step for each byte.
    pub fn next(&mut self) -> Option<&'a [u8]>
        ensures { MatchOption result (self.old ≡ []) (λ l. self.old ≡ l.now ∷ self.new) }
    {
        if self.rest.is_empty() {
            return None;
        }
        let (line, rest) = self.rest.split_at(line_length(self.rest));
        self.rest = rest;
        Some(line)
    }
}

/// The number of bytes of the first line, with its line feed.
fn line_length(text: &[u8]) -> usize
    requires { 0 < length text.now }
    ensures within { result ≤ length text.now }
    ensures line { lines text.now ≡ take result text.now ∷ lines (drop result text.now) }
{
    let mut i = 0;
    'scan: while i < text.len() && text[i] != b'\n' {
        i += 1;
    }
    if i < text.len() { i + 1 } else { i }
}

/// What follows a word at the front; none if the word is not there.
fn behind<'a>(word: &[u8], bytes: &'a [u8]) -> Option<&'a [u8]>
    ensures { MatchOption result ((rest : List ℕ) → bytes.now ≢ word.now ++ rest) (λ r. bytes.now ≡ word.now ++ r.now) }
{
    match bytes.strip_prefix(word) {
        Some(rest) => Some(rest),
        None => None,
    }
}

/// What comes next in a line.
#[derive(Clone, Copy, Debug, PartialEq, Eq, Drop)]
pub enum Item {
    /// A space and a number below 2^64 without leading zeros.
    Number(u64),
    /// The line feed, with nothing after it.
    End,
    /// Anything else.
    Broken,
}

/// The rest of a line.
#[derive(Drop)]
pub struct Items<'a> {
    rest: &'a [u8],
}

impl<'a> Items<'a> {
    /// What follows the word at the front of the line; none if the word is not there.
    pub fn after(word: &[u8], line: &'a [u8]) -> Option<Items<'a>>
        ensures { MatchOption result ((rest : List ℕ) → line.now ≢ word.now ++ rest) (λ i. line.now ≡ word.now ++ i.rest.now) }
    {
        Some(Items {
            rest: behind(word, line)?,
        })
    }

    /// Returns what comes next, and removes it from the line. One step for each byte.
    pub fn next(&mut self) -> Item
        ensures number { (number : ℕ) → result ≡ Item.Number number → TakesNumber self.old.rest.now number self.new.rest.now }
        ensures ended { result ≡ Item.End → self.old.rest.now ≡ 10 ∷ [] }
        ensures broken { result ≡ Item.Broken → (numbers : List ℕ) → IsRest self.old.rest.now numbers → ⊥ }
    {
        if self.is_at_end() {
            return Item::End;
        }
        let Some(text) = behind(b" ", self.rest) else {
            return Item::Broken;
        };
        match leading_number(text) {
            Some((number, length)) => {
                self.rest = &text[length..];
                Item::Number(number)
            }
            None => Item::Broken,
        }
    }

    /// The next number; none if something else comes.
    pub fn number(&mut self) -> Option<u64>
        ensures some { IfSome result (λ n. TakesNumber self.old.rest.now n self.new.rest.now) }
        ensures none { (number : ℕ) (numbers : List ℕ) → IsRest self.old.rest.now (number ∷ numbers) → IsSome result }
    {
        match self.next() {
            Item::Number(number) => Some(number),
            Item::End => None,
            Item::Broken => None,
        }
    }

    /// Whether the line ends here.
    pub fn is_at_end(&self) -> bool
        ensures yes { result ≡ true → self.now.rest.now ≡ 10 ∷ [] }
        ensures no { result ≡ false → self.now.rest.now ≢ 10 ∷ [] }
    {
        self.rest == b"\n".as_slice()
    }
}

/// The digit at a place, as a number; none if there is no digit.
fn digit_at(text: &[u8], i: usize) -> Option<u8>
    ensures { MatchOption result (10 ≤ digit_value (slice_index text.now i)) (λ d. (i < length text.now) × (d < 10) × (d ≡ digit_value (slice_index text.now i))) }
{
    if i < text.len() && text[i].is_ascii_digit() {
        Some(text[i] - b'0')
    } else {
        None
    }
}

/// A number with one more digit; none if it is 2^64 or more.
fn with_digit(number: u64, digit: u8) -> Option<u64>
    ensures { SomeIff result (number * 10 + digit < 2 ^ 64) (number * 10 + digit) }
{
    number.checked_mul(10)?.checked_add(u64::from(digit))
}

/// Whether this many digits at the front are one or more, without a leading zero.
fn is_plain(text: &[u8], count: usize) -> bool
    requires { count ≤ length text.now }
    ensures some { result ≡ true → 0 < count }
    ensures plain { result ≡ true → 1 < count → slice_index text.now 0 ≢ 48 }
    ensures zero { result ≡ false → 1 < count → slice_index text.now 0 ≡ 48 }
    ensures one { result ≡ false → count ≢ 1 }
{
    if count > 1 {
        text[0] != b'0'
    } else {
        count == 1
    }
}

/// The number that the digits at the front write, and how many they are. None if there is no
/// digit, a leading zero, or the number is 2^64 or more.
fn leading_number(text: &[u8]) -> Option<(u64, usize)>
    ensures some { IfSome result (λ r. IsLeading text.now r.0 r.1) }
    ensures none { (number count : ℕ) → IsLeading text.now number count → IsSome result }
{
    let mut number = 0;
    let mut i = 0;
    'digits: while let Some(digit) = digit_at(text, i) {
        number = with_digit(number, digit)?;
        i += 1;
    }
    if is_plain(text, i) {
        Some((number, i))
    } else {
        None
    }
}

/// Whether a line is a word and exactly as many numbers as the room has places. If so, they are
/// put into the room; otherwise some places can be overwritten. One step for each byte.
pub fn read_numbers(word: &[u8], line: &[u8], room: &mut [u64]) -> bool
    requires { IsWord word.now }
    ensures all { result ≡ true → numbers_of word.now line.now ≡ Some room.new }
    ensures other { result ≡ false → (numbers : List ℕ) → numbers_of word.now line.now ≡ Some numbers → length numbers ≢ length room.new }
{
    let Some(mut items) = Items::after(word, line) else {
        return false;
    };
    'numbers: for i in 0..room.len() {
        let Some(number) = items.number() else {
            return false;
        };
        room[i] = number;
    }
    items.is_at_end()
}

/// Whether a line is a word and some numbers. If so, they are put into the room in place of what
/// was there. One step for each byte. It fails only if it runs out of memory.
pub fn read_line(word: &[u8], line: &[u8], room: &mut Vec<u64>) -> Result<bool, NoMemory>
    requires { IsWord word.now }
    ensures all { IfOk result (λ b. b ≡ true → numbers_of word.now line.now ≡ Some room.new.items) }
    ensures other { IfOk result (λ b. b ≡ false → numbers_of word.now line.now ≡ None) }
{
    room.clear();
    let Some(mut items) = Items::after(word, line) else {
        return Ok(false);
    };
    'numbers: loop {
        match items.next() {
            Item::Number(number) => room.push(number)?,
            Item::End => return Ok(true),
            Item::Broken => return Ok(false),
        }
    }
}
