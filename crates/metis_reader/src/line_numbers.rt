ghost use Rattle.std.specs.Prelude.{◌≡◌, ◌≤◌, ◌<◌, ◌^◌, ℕ, suc, true, length, vec_capacity};
ghost use Rattle.std.specs.List.{All};
ghost use Rattle.metis_reader.specs.declared.line_numbers.Run.{Run};
ghost use Rattle.metis_reader.specs.Numbers.{line_from, numbers_of};

use cut_definitions::NoMemory;
use std::alloc::Global;
use std::marker::Model;

/// Lines that directly follow one another: the index of the first one, and its number.
#[derive(Clone, Copy)]
pub struct Run {
    first: usize,
    line: u64,
}

/// Whether a line directly follows another.
fn follows(line: u64, last: u64) -> bool
    ensures { result ≡ true → line ≡ suc last }
{
    line > last && line - last == 1
}

/// The number of the line at an index.
fn line_at(runs: &[Run], index: usize) -> u64
    requires { line_from 0 runs.now index < 2 ^ 64 }
    ensures { result ≡ line_from 0 runs.now index }
{
    let mut line = 0u64;
    for i in 0..runs.len() {
        if runs[i].first <= index {
            line = runs[i].line.saturating_add((index - runs[i].first) as u64);
        }
    }
    line
}

/// The numbers of the vertex lines. A line that directly follows the one before takes no memory.
#[derive(Drop)]
pub struct LineNumbers {
    runs: Vec<Run>,
    lines: usize,
    // the number of the last line
    last: u64,
    ghost few: { length runs.items ≤ lines },
    ghost some: { 1 ≤ lines → 1 ≤ length runs.items },
    ghost before: { All (λ (r : Run). r.first < lines) runs.items },
    ghost last_is: { (k : ℕ) → lines ≡ suc k → last ≡ line_from 0 runs.items k },
    ghost fits: { All (λ n. n < 2 ^ 64) (numbers_of runs.items lines) },
}

impl Model for LineNumbers {
    ghost use Rattle.metis_reader.specs.Numbers.{LineList, numbers_of};
    ghost use Rattle.std.specs.Prelude.{vec_capacity};

    ghost Value = { LineList };

    ghost view = { λ w. record { items = numbers_of w.runs.items w.lines; room = vec_capacity w.runs } };
}

impl LineNumbers {
    ghost use Rattle.std.specs.Prelude.{◌≡◌, ◌≤◌, ◌<◌, ◌++◌, ◌∷◌, [], IfOk, length, slice_index};

    pub fn none(alloc: Global) -> LineNumbers
        ensures { result.items ≡ [] }
    {
        LineNumbers {
            runs: Vec::new(alloc),
            lines: 0,
            last: 0,
        }
    }

    /// Room for `count` numbers.
    pub fn with_capacity(alloc: Global, count: usize) -> Result<LineNumbers, NoMemory>
        ensures items { IfOk result (λ n. n.items ≡ []) }
        ensures room { IfOk result (λ n. n.room ≡ count) }
    {
        Ok(LineNumbers {
            runs: Vec::with_capacity(alloc, count)?,
            lines: 0,
            last: 0,
        })
    }

    pub fn len(&self) -> usize
        ensures { result ≡ length self.now.items }
    {
        self.lines
    }

    pub fn at(&self, index: usize) -> u64
        requires { index < length self.now.items }
        ensures { result ≡ slice_index self.now.items index }
    {
        line_at(&self.runs, index)
    }

    /// Adds the number of the next line.
    #[inline(always)]
    pub fn push_reserved(&mut self, line: u64)
        requires { length self.old.items < self.old.room }
        ensures items { self.new.items ≡ self.old.items ++ line ∷ [] }
        ensures room { self.new.room ≡ self.old.room }
    {
        if self.lines > 0 && follows(line, self.last) {
            self.lines += 1;
            self.last = line;
            return;
        }
        self.runs.push_reserved(Run {
            first: self.lines,
            line,
        });
        self.lines += 1;
        self.last = line;
    }
}
