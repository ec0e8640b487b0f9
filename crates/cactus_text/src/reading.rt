//! A flat cactus, read from its text.

ghost use Rattle.std.specs.Prelude.{◌≡◌, ◌<◌, ◌≤◌, ◌-◌, ◌^◌, ◌&&◌, ℕ, true, nat_le, nat_lt, IfOk, OnOk, IsErrOf, codes, length, slice_index};
ghost use Rattle.std.specs.List.{All, list_all};
ghost use Rattle.cactus_text.specs.Reading.{lines, numbers_of, counts_of, ascends, distinct, is_node, is_cycle, no_node, plus_node, plus_cycle, with_node, with_bridge, with_cycle, with_line, is_complete, is_whole, stated, file_of};
ghost use Rattle.cactus_text.specs.Reader.{IsReader, Takes};

use crate::scan::{Lines, read_line, read_numbers};
use crate::sets::Seen;
use crate::tree::is_tree;
use cut_definitions::{MOST_VERTICES, NoMemory};
use flat_cactus::FlatCactus;
use std::alloc::Global;

const MOST_VALUE: u64 = 1 << 62;

/// What a text states.
#[derive(Drop)]
pub struct CactusFile {
    pub value: u64,
    pub cactus: FlatCactus,
}

/// Why a text was not read.
#[derive(Clone, Copy, Debug, PartialEq, Eq, Drop)]
pub enum TextRefusal {
    /// The number, counted from 1, of the first line that breaks a rule.
    Malformed(u64),
    /// The call ran out of memory.
    NoMemory,
}

/// What the first line names.
#[derive(Clone, Copy, Drop)]
struct Counts {
    value: u64,
    vertices: u32,
    nodes: u64,
    bridges: u64,
    cycles: u64,
}

/// The numbers of the first line.
fn read_counts(line: &[u8]) -> Option<Counts>
    ensures { result ≡ counts_of (numbers_of (codes "cactus") line.now) }
{
    let mut numbers = [0; 5];
    if !read_numbers(b"cactus", line, &mut numbers) {
        return None;
    }
    let [value, vertices, nodes, bridges, cycles] = numbers;
    if value > MOST_VALUE || vertices < 1 || vertices > u64::from(MOST_VERTICES) {
        return None;
    }
    Some(Counts {
        value,
        vertices: vertices as u32,
        nodes,
        bridges,
        cycles,
    })
}

/// A flat cactus that grows line by line.
#[derive(Drop)]
struct Reader {
    counts: Counts,
    flat: FlatCactus,
    seen: Seen,
    /// For each node the number, counted from 1, of the last cycle that has it, or 0 if none has.
    last_cycles: Vec<u64>,
}

impl Reader {
    fn new(alloc: Global, counts: Counts) -> Reader
        ensures flat { result.flat ≡ no_node counts.vertices }
        ensures counts { result.counts ≡ counts }
        ensures reader { IsReader result }
    {
        Reader {
            counts,
            flat: FlatCactus::new(alloc, counts.vertices),
            seen: Seen::new(alloc),
            last_cycles: Vec::new(alloc),
        }
    }

    /// Takes a line, whose numbers are put into the room. It returns false if the line breaks a
    /// rule; the reader is then finished.
    fn take(&mut self, line: &[u8], room: &mut Vec<u64>) -> Result<bool, NoMemory>
        requires { IsReader self.old }
        ensures { Takes (with_line self.old.counts self.old.flat line.now) self.old self.new result }
    {
        if (self.flat.nodes() as u64) < self.counts.nodes {
            self.take_node(line, room)
        } else if (self.flat.bridges().len() as u64) < self.counts.bridges {
            self.take_bridge(line)
        } else if (self.flat.cycles() as u64) < self.counts.cycles {
            self.take_cycle(line, room)
        } else {
            Ok(false)
        }
    }

    fn take_node(&mut self, line: &[u8], room: &mut Vec<u64>) -> Result<bool, NoMemory>
        requires { IsReader self.old }
        ensures { Takes (with_node self.old.flat (numbers_of (codes "node") line.now)) self.old self.new result }
    {
        if !read_line(b"node", line, room)? {
            return Ok(false);
        }
        let Some((number, vertices)) = room.split_first() else {
            return Ok(false);
        };
        if !self.may_have(*number, vertices) {
            return Ok(false);
        }
        self.add_node(vertices)?;
        Ok(true)
    }

    /// Whether the next node may have this number and these vertices.
    fn may_have(&self, number: u64, vertices: &[u64]) -> bool
        requires { IsReader self.now }
        ensures node { result ≡ is_node self.now.flat number vertices.now }
        ensures small { result ≡ true → All (λ v. v < 2 ^ 32) vertices.now }
    {
        number == self.flat.nodes() as u64
            && ascend(vertices, self.flat.n())
            && self.seen.has_none(vertices)
            && (number > 0 || vertices.contains(&1))
    }

    /// Appends a node with its vertices.
    fn add_node(&mut self, vertices: &[u64]) -> Result<(), NoMemory>
        requires reader { IsReader self.old }
        requires small { All (λ v. v < 2 ^ 32) vertices.now }
        ensures flat { OnOk result (self.new.flat ≡ plus_node self.old.flat vertices.now) }
        ensures reader { OnOk result (IsReader self.new) }
        ensures counts { self.new.counts ≡ self.old.counts }
    {
        self.last_cycles.push(0)?;
        self.seen.add(vertices)?;
        push_vertices(&mut self.flat, vertices)
    }

    fn take_bridge(&mut self, line: &[u8]) -> Result<bool, NoMemory>
        requires { IsReader self.old }
        ensures { Takes (with_bridge self.old.flat (numbers_of (codes "bridge") line.now)) self.old self.new result }
    {
        let mut numbers = [0; 2];
        if !read_numbers(b"bridge", line, &mut numbers) {
            return Ok(false);
        }
        let [i, j] = numbers;
        if i >= j || j >= self.flat.nodes() as u64 {
            return Ok(false);
        }
        self.flat.push_bridge(i, j)?;
        Ok(true)
    }

    fn take_cycle(&mut self, line: &[u8], room: &mut Vec<u64>) -> Result<bool, NoMemory>
        requires { IsReader self.old }
        ensures { Takes (with_cycle self.old.flat (numbers_of (codes "cycle") line.now)) self.old self.new result }
    {
        if !read_line(b"cycle", line, room)? {
            return Ok(false);
        }
        push_members(&mut self.flat, room)?;
        Ok(self.has_different(room))
    }

    /// Whether the last cycle has three or more different numbers of nodes, the first of them the
    /// least.
    fn has_different(&mut self, cycle: &[u64]) -> bool
        requires some { 0 < length self.old.flat.cycles }
        requires one_each { length self.old.last_cycles.items ≡ length self.old.flat.nodes }
        requires earlier { (i : ℕ) → slice_index self.old.last_cycles.items i < length self.old.flat.cycles }
        ensures cycle { result ≡ is_cycle (length self.old.flat.nodes) cycle.now }
        ensures flat { self.new.flat ≡ self.old.flat }
        ensures seen { self.new.seen ≡ self.old.seen }
        ensures counts { self.new.counts ≡ self.old.counts }
        ensures one_each { length self.new.last_cycles.items ≡ length self.old.flat.nodes }
        ensures earlier { (i : ℕ) → slice_index self.new.last_cycles.items i ≤ length self.old.flat.cycles }
    {
        if cycle.len() < 3 || !are_within(cycle, cycle[0], self.flat.nodes() as u64) {
            return false;
        }
        are_different(&mut self.last_cycles, self.flat.cycles() as u64, cycle)
    }

    /// Whether no line is missing, and every vertex is in some node.
    fn is_complete(&self) -> bool
        requires { IsReader self.now }
        ensures { result ≡ is_complete self.now.counts self.now.flat }
    {
        self.flat.nodes() as u64 == self.counts.nodes
            && self.flat.bridges().len() as u64 == self.counts.bridges
            && self.flat.cycles() as u64 == self.counts.cycles
            && self.seen.has_all(self.flat.n())
    }

    /// Whether no line is missing, and the whole is a cactus.
    fn is_whole(&self, alloc: Global) -> Result<bool, NoMemory>
        requires { IsReader self.now }
        ensures { IfOk result (λ b. b ≡ is_whole self.now.counts self.now.flat) }
    {
        if !self.is_complete() {
            return Ok(false);
        }
        is_tree(alloc, &self.flat)
    }
}

/// Whether the numbers ascend from 1 or more to `high` or less.
fn ascend(numbers: &[u64], high: u32) -> bool
    ensures ascending { result ≡ ascends 1 high numbers.now }
    ensures small { result ≡ true → All (λ v. v < 2 ^ 32) numbers.now }
{
    let mut low = 1;
    'numbers: for i in 0..numbers.len() {
        if numbers[i] < low || numbers[i] > u64::from(high) {
            return false;
        }
        low = numbers[i] + 1;
    }
    true
}

/// Whether the numbers are at least `low` and below `end`.
fn are_within(numbers: &[u64], low: u64, end: u64) -> bool
    ensures { result ≡ list_all (λ i. nat_le low i && nat_lt i end) numbers.now }
{
    'numbers: for i in 0..numbers.len() {
        if numbers[i] < low || numbers[i] >= end {
            return false;
        }
    }
    true
}

/// Whether the nodes of a cycle are different. Marks each with the number of the cycle, which no
/// node has yet.
fn are_different(marks: &mut [u64], cycle: u64, nodes: &[u64]) -> bool
    requires fresh { (i : ℕ) → slice_index marks.old i < cycle }
    requires below { All (λ i. i < length marks.old) nodes.now }
    ensures different { result ≡ distinct nodes.now }
    ensures count { length marks.new ≡ length marks.old }
    ensures earlier { (i : ℕ) → slice_index marks.new i ≤ cycle }
{
    let mut i = nodes.len();
    'back: while i > 0 {
        i -= 1;
        let node = nodes[i] as usize;
        if marks[node] == cycle {
            return false;
        }
        marks[node] = cycle;
    }
    true
}

/// Appends a node with its vertices.
fn push_vertices(flat: &mut FlatCactus, vertices: &[u64]) -> Result<(), NoMemory>
    requires { All (λ v. v < 2 ^ 32) vertices.now }
    ensures { OnOk result (flat.new ≡ plus_node flat.old vertices.now) }
{
    flat.push_node()?;
    'vertices: for i in 0..vertices.len() {
        flat.push_vertex(vertices[i] as u32)?;
    }
    Ok(())
}

/// Appends a cycle with its nodes.
fn push_members(flat: &mut FlatCactus, nodes: &[u64]) -> Result<(), NoMemory>
    ensures { OnOk result (flat.new ≡ plus_cycle flat.old nodes.now) }
{
    flat.push_cycle()?;
    'members: for i in 0..nodes.len() {
        flat.push_member(nodes[i])?;
    }
    Ok(())
}

/// The flat cactus of the lines after the first one, or the number of the first of them that
/// breaks a rule.
fn read_rest(
    alloc: Global,
    counts: Counts,
    lines: Lines,
) -> Result<Result<FlatCactus, u64>, NoMemory>
    requires { length lines < 2 ^ 64 - 2 }
    ensures { IfOk result (λ r. r ≡ stated 2 counts (no_node counts.vertices) lines.entry) }
{
    let mut lines = lines;
    let mut reader = Reader::new(alloc, counts);
    let mut room = Vec::new(alloc);
    let mut number = 2;
    'lines: while let Some(line) = lines.next() {
        if !reader.take(line, &mut room)? {
            return Ok(Err(number));
        }
        number += 1;
    }
    if !reader.is_whole(alloc)? {
        return Ok(Err(number));
    }
    Ok(Ok(reader.flat))
}

/// Reads the text of a cactus.
///
/// It is refused exactly if it is not the text of a value and a cactus. The refusal has the
/// number, counted from 1, of the first line that breaks a rule. A last line without a line feed
/// breaks a rule. A missing line has the number one past the last, and a further line has its own.
/// If only the whole breaks a rule, the number is also one past the last.
///
/// A number that only the first line names takes no memory. It takes time in proportion to the
/// text, and to the joins of its nodes. Otherwise it fails only if it runs out of memory.
pub fn read(alloc: Global, text: &[u8]) -> Result<CactusFile, TextRefusal>
    ensures ok { IfOk result (λ f. file_of (lines text.now) ≡ Ok (record { value = f.value; flat = f.cactus })) }
    ensures malformed { (number : ℕ) → IsErrOf result (TextRefusal.Malformed number) → file_of (lines text.now) ≡ Err number }
{
    let mut lines = Lines::new(text);
    let Some(first) = lines.next() else {
        return Err(TextRefusal::Malformed(1));
    };
    let Some(counts) = read_counts(first) else {
        return Err(TextRefusal::Malformed(1));
    };
    match read_rest(alloc, counts, lines) {
        Ok(Ok(cactus)) => Ok(CactusFile {
            value: counts.value,
            cactus,
        }),
        Ok(Err(number)) => Err(TextRefusal::Malformed(number)),
        Err(_) => Err(TextRefusal::NoMemory),
    }
}
