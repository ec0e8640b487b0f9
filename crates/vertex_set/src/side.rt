//! A set of vertices, kept as words of bits.

ghost use Rattle.std.specs.Prelude.{◌≡◌, ℕ, ◌≤◌, ◌↔◌, [], false, length, IfOk, IsTrue, MatchOption};
ghost use Rattle.std.specs.Ordering.{nat_cmp, ordering_then};
ghost use Rattle.std.specs.Cmp.Lexicographic.{slice_cmp};
ghost use Rattle.cut_definitions.specs.Weight.{complement, either, minus};
ghost use Rattle.cut_definitions.specs.Cuts.{has, IsAscendingWithin};
ghost use Rattle.cut_definitions.specs.Scan.{single};
ghost use Rattle.vertex_set.specs.Side.{listed, IsNextFrom};

use crate::words::{
    clear_words, count_bits, first_difference, flip_within, is_set, join_words, next_bit, order_at,
};
use cut_definitions::NoMemory;
use std::alloc::Global;
use std::cmp::Ordering;
use std::marker::Model;

/// A set of the vertices 1 to n.
///
/// Bit v of the words is that of vertex v. Bit 0 and the bits past n are never set.
#[derive(Drop)]
pub struct Side {
    n: u32,
    words: Vec<u64>,
}

impl Model for Side {
    ghost use Rattle.vertex_set.specs.Side.{VertexList, listed, has_bit, AreWords};

    ghost Value = { VertexList };

    ghost view = { λ s. listed s.n (has_bit s.words.items) };

    ghost invariant = { λ s. AreWords s.n s.words.items };
}

impl Side {
    /// The empty set of vertices of 1 to n. It takes n/8 bytes, in O(n/64) steps, and fails only
    /// if it runs out of memory.
    pub fn empty(alloc: Global, n: u32) -> Result<Side, NoMemory>
        ensures { IfOk result (λ s. s ≡ record { vertices = n; members = [] }) }
    {
        let words = vec![in alloc; 0u64; (n as usize + 1) / 64 + 1]?;
        Ok(Side { n, words })
    }

    /// Inserts a vertex of 1 to n. If it is a member already, nothing changes.
    pub fn insert(&mut self, v: u32)
        requires from_one { 1 ≤ v }
        requires to_n { v ≤ self.old.vertices }
        ensures { self.new ≡ listed self.old.vertices (either (has self.old.members) (single v)) }
    {
        self.words[v as usize / 64] |= 1 << (v % 64);
    }

    /// Removes a vertex of 1 to n. If it is not a member, nothing changes.
    pub fn remove(&mut self, v: u32)
        requires from_one { 1 ≤ v }
        requires to_n { v ≤ self.old.vertices }
        ensures { self.new ≡ listed self.old.vertices (minus (has self.old.members) (single v)) }
    {
        self.words[v as usize / 64] &= !(1 << (v % 64));
    }

    /// Whether a vertex of 1 to n is a member.
    pub fn has(&self, v: u32) -> bool
        requires from_one { 1 ≤ v }
        requires to_n { v ≤ self.now.vertices }
        ensures { result ≡ has self.now.members v }
    {
        is_set(&self.words, v as usize)
    }

    /// The greatest number that a member can have.
    pub fn n(&self) -> u32
        ensures value { result ≡ self.now.vertices }
        ensures ascending { IsAscendingWithin 1 self.now.vertices self.now.members }
    {
        self.n
    }

    /// Makes this set the union with another one over the same n, in n/64 steps.
    pub fn join_in(&mut self, other: &Side)
        requires { self.old.vertices ≡ other.now.vertices }
        ensures { self.new ≡ listed self.old.vertices (either (has self.old.members) (has other.now.members)) }
    {
        join_words(&mut self.words, &other.words);
    }

    /// Removes all members of another set over the same n, in n/64 steps.
    pub fn take_out(&mut self, other: &Side)
        requires { self.old.vertices ≡ other.now.vertices }
        ensures { self.new ≡ listed self.old.vertices (minus (has self.old.members) (has other.now.members)) }
    {
        clear_words(&mut self.words, &other.words);
    }

    /// Makes this set its complement in 1 to n, in n/64 steps.
    pub fn flip(&mut self)
        ensures { self.new ≡ listed self.old.vertices (complement (has self.old.members)) }
    {
        let end = self.n as usize + 1;
        flip_within(&mut self.words, end);
    }

    /// The number of members, in n/64 steps.
    pub fn len(&self) -> u32
        ensures { result ≡ length self.now.members }
    {
        count_bits(&self.words) as u32
    }

    /// Whether there is no member.
    pub fn is_empty(&self) -> bool
        ensures { IsTrue result ↔ (self.now.members ≡ []) }
    {
        self.next_from(0).is_none()
    }

    /// The least member that is v or greater, for any v; none exactly if there is no such member.
    /// Words without members are skipped, 64 vertices a step.
    pub fn next_from(&self, v: u32) -> Option<u32>
        ensures { MatchOption result ((u : ℕ) → v ≤ u → has self.now.members u ≡ false) (IsNextFrom self.now v) }
    {
        if v > self.n {
            return None;
        }
        match next_bit(&self.words, v as usize) {
            Some(found) => Some(found as u32),
            None => None,
        }
    }

    /// The order of the ascending lists of members, in which a prefix comes first. If the lists
    /// are equal, it is the order of n. Equal words are skipped, 64 vertices a step.
    pub fn compare(&self, other: &Side) -> Ordering
        ensures { result ≡ ordering_then (slice_cmp nat_cmp self.now.members other.now.members) (nat_cmp self.now.vertices other.now.vertices) }
    {
        match first_difference(&self.words, &other.words) {
            None => self.n.cmp(&other.n),
            Some(place) => {
                if is_set(&self.words, place) {
                    order_at(&other.words, place)
                } else {
                    order_at(&self.words, place).reverse()
                }
            }
        }
    }
}
