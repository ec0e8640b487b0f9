//! What a reader keeps beside the flat cactus to judge a line at once.

ghost use Rattle.std.specs.Prelude.{◌≡◌, ◌||◌, ◌==◌, ◌<◌, ◌≤◌, [], ℕ, List, not, false, IfOk, OnOk, length, slice_index, slice_index_or};
ghost use Rattle.std.specs.List.{All, list_all, range_with_len, fold};
ghost use Rattle.cut_definitions.specs.Cuts.{has};
ghost use Rattle.flat_cactus.specs.FlatCuts.{cycle_edges};
ghost use Rattle.cactus_text.specs.Reading.{relabelled};
ghost use Rattle.cactus_text.specs.Labels.{IsLabelled};

use cut_definitions::NoMemory;
use std::alloc::Global;
use std::marker::Model;

/// The vertices that were in a line so far. Its memory grows with the greatest of them.
#[derive(Drop)]
pub struct Seen {
    marks: Vec<bool>,
}

impl Model for Seen {
    ghost use Rattle.std.specs.Prelude.{List, Bool};

    ghost Value = { List Bool };

    ghost view = { λ s. s.marks.items };
}

impl Seen {
    /// No vertex.
    pub fn new(alloc: Global) -> Seen
        ensures { result ≡ [] }
    {
        Seen {
            marks: Vec::new(alloc),
        }
    }

    /// Whether a vertex is there.
    fn has(&self, v: u64) -> bool
        ensures { result ≡ slice_index_or self.now v false }
    {
        match self.marks.get(v as usize) {
            Some(mark) => *mark,
            None => false,
        }
    }

    /// Whether none of the vertices is there. One step for each.
    pub fn has_none(&self, vertices: &[u64]) -> bool
        ensures { result ≡ list_all (λ v. not (slice_index_or self.now v false)) vertices.now }
    {
        'vertices: for i in 0..vertices.len() {
            if self.has(vertices[i]) {
                return false;
            }
        }
        true
    }

    /// Inserts a vertex.
    fn insert(&mut self, v: u64) -> Result<(), NoMemory>
        ensures { OnOk result ((u : ℕ) → slice_index_or self.new u false ≡ (v == u || slice_index_or self.old u false)) }
    {
        let place = v as usize;
        'grow: while self.marks.len() <= place {
            self.marks.push(false)?;
        }
        self.marks[place] = true;
        Ok(())
    }

    /// Inserts vertices. It takes a step for each of them and for each number by which the set
    /// grows, and fails only if it runs out of memory.
    pub fn add(&mut self, vertices: &[u64]) -> Result<(), NoMemory>
        ensures { OnOk result ((u : ℕ) → slice_index_or self.new u false ≡ (has vertices.now u || slice_index_or self.old u false)) }
    {
        let mut i = vertices.len();
        'back: while i > 0 {
            i -= 1;
            self.insert(vertices[i])?;
        }
        Ok(())
    }

    /// Whether all vertices of 1 to n are there, in O(n).
    pub fn has_all(&self, n: u32) -> bool
        ensures { result ≡ list_all (λ v. slice_index_or self.now v false) (range_with_len 1 n) }
    {
        if n as usize >= self.marks.len() {
            return n == 0;
        }
        let mut all = true;
        'vertices: for v in 0..n {
            all &= self.marks[v as usize + 1];
        }
        all
    }
}

/// Which nodes are joined so far: each node names a node of its set that has no greater number.
///
/// It is union-find. The sets are trees by those names. A join puts one root below the other, and
/// a search halves its path (Tarjan and van Leeuwen, 1984).
#[derive(Drop)]
pub struct Joined {
    above: Vec<usize>,
    ghost down: { (i : ℕ) → slice_index above.items i ≤ i },
}

impl Joined {
    /// Sets of one node each, for `count` nodes, no two of which are joined. It takes 8 bytes a
    /// node, and fails only if it runs out of memory.
    pub fn new(alloc: Global, count: usize) -> Result<Joined, NoMemory>
        ensures count { IfOk result (λ j. length j.above.items ≡ count) }
        ensures labels { IfOk result (λ j. IsLabelled j.above.items (range_with_len 0 count)) }
    {
        let mut above = Vec::new(alloc);
        'nodes: for i in 0..count {
            above.push(i)?;
        }
        Ok(Joined { above })
    }

    /// The least node of a set, from one of its nodes.
    fn least(&mut self, node: usize) -> usize
        requires { node < length self.old.above.items }
        ensures within { result < length self.old.above.items }
        ensures same { length self.new.above.items ≡ length self.old.above.items }
        ensures least { slice_index self.new.above.items result ≡ result }
        ensures kept { (r : ℕ) → slice_index self.old.above.items r ≡ r → slice_index self.new.above.items r ≡ r }
        ensures labels { (labels : List ℕ) → IsLabelled self.old.above.items labels → IsLabelled self.new.above.items labels }
        ensures label { (labels : List ℕ) → IsLabelled self.old.above.items labels → slice_index labels result ≡ slice_index labels node }
    {
        let mut at = node;
        'climb: while self.above[at] < at {
            let next = self.above[self.above[at]];
            self.above[at] = next;
            at = next;
        }
        at
    }

    /// Joins two nodes.
    pub fn join(&mut self, i: usize, j: usize)
        requires first { i < length self.old.above.items }
        requires second { j < length self.old.above.items }
        ensures count { length self.new.above.items ≡ length self.old.above.items }
        ensures labels { (labels : List ℕ) → IsLabelled self.old.above.items labels → IsLabelled self.new.above.items (relabelled labels (i, j)) }
    {
        let a = self.least(i);
        let b = self.least(j);
        self.above[a.max(b)] = a.min(b);
    }

    /// Joins the nodes of a cycle by its edges, one join for each.
    pub fn join_along(&mut self, cycle: &[u64])
        requires below { All (λ i. i < length self.old.above.items) cycle.now }
        requires some { 0 < length cycle.now }
        ensures count { length self.new.above.items ≡ length self.old.above.items }
        ensures labels { (labels : List ℕ) → IsLabelled self.old.above.items labels → IsLabelled self.new.above.items (fold relabelled labels (cycle_edges cycle.now)) }
    {
        'members: for i in 1..cycle.len() {
            self.join(cycle[i - 1] as usize, cycle[i] as usize);
        }
        self.join(cycle[cycle.len() - 1] as usize, cycle[0] as usize);
    }

    /// Whether all nodes are joined, so that only the first is the least of its set. One step for
    /// each node.
    pub fn is_one(&self) -> bool
        ensures { (labels : List ℕ) → IsLabelled self.now.above.items labels → result ≡ list_all (λ l. l == slice_index labels 0) labels }
    {
        'nodes: for i in 1..self.above.len() {
            if self.above[i] == i {
                return false;
            }
        }
        true
    }
}
