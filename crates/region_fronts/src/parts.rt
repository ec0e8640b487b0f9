//! The parts of a region, as a split lists them.

ghost use Rattle.std.specs.Prelude.{◌≡◌, ◌≢◌, ◌≤◌, ◌<◌, ◌+◌, ℕ, All, IfOk, IfErr, IsTrue, length, map, replicate, slice_index, slice_index_or, slice_set};
ghost use Rattle.std.specs.List.Sorted.{IsNonDecreasingBy, IsPermutation};
ghost use Rattle.region_fronts.specs.Listed.{part_list, AreAllPlaced, AreRuns, IsPartList, IsZeroEmpty};

use cut_definitions::NoMemory;
use std::alloc::Global;
use std::marker::Model;

/// A vertex with the number of its part.
#[derive(Clone, Copy)]
struct Placed {
    number: u32,
    vertex: u32,
}

/// The parts of a region, all of them or all but one, each with the list of its vertices.
///
/// Vertices are put one at a time, in any order; `finish` makes the lists.
#[derive(Drop)]
pub struct Parts {
    count: u32,
    // the number of the part that is not listed, or 0 if all are
    unlisted: u32,
    // for each vertex the number of its part, or 0 if it is not listed
    numbers: Vec<u32>,
    // the vertices that were put
    placed: Vec<Placed>,
    list: Vec<u32>,
    // where the list of each part starts and ends, by its number
    starts: Vec<usize>,
    ends: Vec<usize>,
}

impl Model for Parts {
    ghost use Rattle.region_fronts.specs.Listed.{PartsState, AreKept};

    ghost Value = { PartsState };

    ghost view = { λ p. record {
      count = p.count;
      unlisted = p.unlisted;
      numbers = p.numbers.items;
      list = p.list.items;
      starts = p.starts.items;
      ends = p.ends.items;
    } };

    ghost invariant = { λ p. AreKept p.count p.numbers.items p.placed.items p.list.items p.starts.items p.ends.items };
}

/// Clears the numbers of the vertices that were put.
fn clear_numbers(numbers: &mut [u32], placed: &[Placed])
    requires { AreAllPlaced numbers.old placed.now }
    ensures { (v : ℕ) → slice_index numbers.new v ≡ 0 }
{
    for p in placed {
        numbers[p.vertex as usize] = 0;
    }
}

/// Whether the numbers never fall.
fn is_ascending(placed: &[Placed]) -> bool
    ensures { IsTrue result → IsNonDecreasingBy (λ (p : Placed). p.number) placed.now }
{
    for k in 1..placed.len() {
        if placed[k].number < placed[k - 1].number {
            return false;
        }
    }
    true
}

/// Sorts vertices by their numbers.
fn sort_by_number(placed: &mut [Placed])
    ensures moved { IsPermutation placed.old placed.new }
    ensures ascends { IsNonDecreasingBy (λ (p : Placed). p.number) placed.new }
{
    // a split that finds the parts in their order needs no sort
    if is_ascending(placed) {
        return;
    }
    placed.sort_unstable_by_key(|p| p.number);
}

/// Lists the vertices in their order.
fn list_vertices(placed: &[Placed], list: &mut Vec<u32>) -> Result<(), NoMemory>
    ensures { IfOk result (λ _. list.new.items ≡ map (λ (p : Placed). p.vertex) placed.now) }
{
    list.clear();
    for p in placed {
        list.push(p.vertex)?;
    }
    Ok(())
}

/// The place where the vertices with a number end, starting at a place.
fn end_of(placed: &[Placed], start: usize, number: u32) -> usize
    requires { start ≤ length placed.now }
    ensures ordered { start ≤ result }
    ensures within { result ≤ length placed.now }
    ensures inside { (k : ℕ) (d : Placed) → start ≤ k → k < result → (slice_index_or placed.now k d).number ≡ number }
    ensures next { (d : Placed) → result < length placed.now → (slice_index_or placed.now result d).number ≢ number }
{
    let mut end = start;
    while end < placed.len() && placed[end].number == number {
        end += 1;
    }
    end
}

/// Writes where each number starts and ends among vertices that are sorted by number.
fn lay_out(
    placed: &[Placed],
    count: u32,
    starts: &mut Vec<usize>,
    ends: &mut Vec<usize>,
) -> Result<(), NoMemory>
    requires ascends { IsNonDecreasingBy (λ (p : Placed). p.number) placed.now }
    requires from_one { All (λ (p : Placed). 1 ≤ p.number) placed.now }
    requires zero { IsZeroEmpty starts.old.items ends.old.items }
    ensures runs { IfOk result (λ _. AreRuns placed.now count starts.new.items ends.new.items) }
    ensures zero { IsZeroEmpty starts.new.items ends.new.items }
{
    starts.truncate(1);
    ends.truncate(1);
    let mut place = 0;
    for before in 0..count {
        let end = end_of(placed, place, before + 1);
        starts.push(place)?;
        ends.push(end)?;
        place = end;
    }
    Ok(())
}

impl Parts {
    /// No parts, for vertices 1 to n. It takes memory for a number for each vertex, in O(n) steps,
    /// and fails only if it runs out of memory.
    pub fn new(alloc: Global, n: u32) -> Result<Parts, NoMemory>
        ensures numbers { IfOk result (λ p. p.numbers ≡ replicate (n + 1) 0) }
        ensures count { IfOk result (λ p. p.count ≡ 0) }
        ensures unlisted { IfOk result (λ p. p.unlisted ≡ 0) }
    {
        let numbers = vec![in alloc; 0u32; n as usize + 1]?;
        let starts = vec![in alloc; 0usize; 1]?;
        let ends = vec![in alloc; 0usize; 1]?;
        Ok(Parts {
            count: 0,
            unlisted: 0,
            numbers,
            placed: Vec::new(alloc),
            list: Vec::new(alloc),
            starts,
            ends,
        })
    }

    /// Clears all parts, and keeps the memory. It takes a step for each vertex that was put.
    pub fn begin(&mut self)
        ensures none { (v : ℕ) → slice_index self.new.numbers v ≡ 0 }
        ensures long { length self.new.numbers ≡ length self.old.numbers }
        ensures count { self.new.count ≡ 0 }
        ensures unlisted { self.new.unlisted ≡ 0 }
    {
        clear_numbers(self.numbers.as_mut_slice(), &self.placed);
        self.placed.clear();
        self.list.clear();
        self.count = 0;
        self.unlisted = 0;
    }

    /// Puts a vertex that is not listed into a part, by its number, from 1 on. If it runs out of
    /// memory, nothing changes.
    pub fn put(&mut self, v: u32, number: u32) -> Result<(), NoMemory>
        requires from_one { 1 ≤ number }
        requires within { v < length self.old.numbers }
        requires free { slice_index self.old.numbers v ≡ 0 }
        ensures numbers { IfOk result (λ _. self.new.numbers ≡ slice_set self.old.numbers v number) }
        ensures same { IfErr result (λ _. self.new ≡ self.old) }
    {
        self.placed.push(Placed { number, vertex: v })?;
        self.numbers[v as usize] = number;
        Ok(())
    }

    /// Makes the lists of the parts 1 to `count` from the vertices that were put.
    ///
    /// With m vertices it takes O(m log m + `count`) steps, or O(m + `count`) if they were put in
    /// the order of their numbers. It takes memory only if it did not have as much before. If it
    /// runs out of memory, the numbers are kept, and no part has a list.
    pub fn finish(&mut self, count: u32, unlisted: u32) -> Result<(), NoMemory>
        requires from_one { 1 ≤ count }
        requires to_count { (v : ℕ) → slice_index self.old.numbers v ≤ count }
        ensures numbers { self.new.numbers ≡ self.old.numbers }
        ensures count { IfOk result (λ _. self.new.count ≡ count) }
        ensures unlisted { IfOk result (λ _. self.new.unlisted ≡ unlisted) }
        ensures lists { IfOk result (λ _. (i : ℕ) → 1 ≤ i → i ≤ count → IsPartList self.new.numbers i (part_list self.new i)) }
        ensures none { IfErr result (λ _. self.new.count ≡ 0) }
    {
        self.count = 0;
        sort_by_number(self.placed.as_mut_slice());
        list_vertices(&self.placed, &mut self.list)?;
        lay_out(&self.placed, count, &mut self.starts, &mut self.ends)?;
        self.count = count;
        self.unlisted = unlisted;
        Ok(())
    }

    /// The number of parts.
    pub fn count(&self) -> u32
        ensures { result ≡ self.now.count }
    {
        self.count
    }

    /// The number of the part that is not listed, or 0 if all are.
    pub fn unlisted(&self) -> u32
        ensures { result ≡ self.now.unlisted }
    {
        self.unlisted
    }

    /// The number of the part of a vertex, or 0 if it is not listed.
    pub fn number(&self, v: u32) -> u32
        requires { v < length self.now.numbers }
        ensures { result ≡ slice_index self.now.numbers v }
    {
        self.numbers[v as usize]
    }

    /// The vertices of a part, each once. The part that is not listed has none.
    pub fn part(&self, i: u32) -> &[u32]
        requires { i ≤ self.now.count }
        ensures { result.now ≡ part_list self.now i }
    {
        let start = self.starts[i as usize];
        let end = self.ends[i as usize];
        &self.list[start..end]
    }
}
