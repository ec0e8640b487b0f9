//! Classes of vertices, which are merged one pair at a time.

ghost use Rattle.std.specs.Prelude.{◌≡◌, ◌+◌, ◌<◌, ◌≤◌, ℕ, IfOk, IsFalse, IsTrue, length, slice_index};
ghost use Rattle.cut_definitions.specs.Weight.{VertexSet};
ghost use Rattle.vertex_classes.specs.Classes.{no_vertex, AreJoined, AreNumbersOf, AreParents, HasClasses, HasJoined, HasSameClasses, Respects};

use crate::numbering::{class_numbers, count_firsts};
use cut_definitions::NoMemory;
use std::alloc::Global;
use std::marker::Model;

/// The first vertex of a class. On the way there, every second vertex gets the parent of its
/// parent, so that the next search is shorter.
fn first_of(parents: &mut [u32], v: u32) -> u32
    requires parents { AreParents parents.old }
    requires within { v < length parents.old }
    ensures parents { AreParents parents.new }
    ensures same { HasSameClasses parents.old parents.new }
    ensures firsts { (u : ℕ) → slice_index parents.old u ≡ u → slice_index parents.new u ≡ u }
    ensures joined { AreJoined parents.old result v }
    ensures first { slice_index parents.new result ≡ result }
    ensures within { result < length parents.old }
{
    let mut at = v;
    while parents[at as usize] != at {
        let parent = parents[at as usize];
        let next = parents[parent as usize];
        parents[at as usize] = next;
        at = next;
    }
    at
}

/// A list of numbers in which each is its own parent.
fn own_parents(alloc: Global, count: u32) -> Result<Vec<u32>, NoMemory>
    ensures long { IfOk result (λ parents. length parents.items ≡ count) }
    ensures own { IfOk result (λ parents. (v : ℕ) → v < count → slice_index parents.items v ≡ v) }
{
    let mut parents = Vec::with_capacity(alloc, count as usize)?;
    for v in 0..count {
        parents.push(v)?;
    }
    Ok(parents)
}

/// Classes of the numbers 0 to n, in which 0 is no vertex. Contracts see the parents. This is
/// union-find by the trees of Galler and Fischer (1964), with path halving (Tarjan and van
/// Leeuwen, 1984).
#[derive(Drop)]
pub struct Classes {
    parents: Vec<u32>,
}

impl Model for Classes {
    ghost use Rattle.std.specs.Prelude.{ℕ, ◌≤◌, List, length};
    ghost use Rattle.vertex_classes.specs.Classes.{AreParents};

    ghost Value = { List ℕ };

    ghost view = { λ c. c.parents.items };

    ghost invariant = { λ c. AreParents c.parents.items × (1 ≤ length c.parents.items) × (length c.parents.items ≤ 4194305) };
}

impl Classes {
    /// Each number from 0 to n in a class of its own. It takes 4 bytes for each, in O(n) steps,
    /// and fails only if it runs out of memory.
    pub fn new(alloc: Global, n: u32) -> Result<Classes, NoMemory>
        requires { n ≤ 4194304 }
        ensures long { IfOk result (λ c. length c ≡ n + 1) }
        ensures alone { IfOk result (λ c. (s : VertexSet) → Respects c s) }
    {
        let parents = own_parents(alloc, n + 1)?;
        Ok(Classes { parents })
    }

    /// Whether two numbers are in one class. The paths to the first vertices of both are halved.
    pub fn are_joined(&mut self, u: u32, v: u32) -> bool
        requires first { u < length self.old }
        requires second { v < length self.old }
        ensures same { HasSameClasses self.old self.new }
        ensures yes { IsTrue result → AreJoined self.old u v }
        ensures no { IsFalse result → ¬ AreJoined self.old u v }
    {
        let parents = self.parents.as_mut_slice();
        let first = first_of(parents, u);
        let second = first_of(parents, v);
        first == second
    }

    /// Merges the classes of two numbers. The paths to the first vertices of both are halved.
    pub fn join(&mut self, u: u32, v: u32)
        requires first { u < length self.old }
        requires second { v < length self.old }
        ensures { HasJoined self.old self.new u v }
    {
        let parents = self.parents.as_mut_slice();
        let first = first_of(parents, u);
        let second = first_of(parents, v);
        let last = first.max(second);
        parents[last as usize] = first.min(second);
    }

    /// The numbers of the classes of the vertices 1 to n. Classes are numbered from 1 in the order
    /// of their least vertices, and 0 is alone. It takes 4 bytes a vertex, and fails only if it
    /// runs out of memory.
    pub fn numbers(&self, alloc: Global) -> Result<Vec<u32>, NoMemory>
        requires { Respects self.now no_vertex }
        ensures numbers { IfOk result (λ l. AreNumbersOf self.now l.items) }
        ensures few { length self.now ≤ 4194305 }
    {
        class_numbers(alloc, &self.parents)
    }

    /// The number of the classes of the vertices 1 to n; 0 is alone. It takes O(n) steps and no
    /// memory.
    pub fn count(&self) -> u32
        requires { Respects self.now no_vertex }
        ensures { HasClasses self.now result }
    {
        count_firsts(&self.parents)
    }
}
