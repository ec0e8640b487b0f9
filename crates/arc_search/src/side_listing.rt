//! The parts of a region that are listed from one side:
//! what leads to a vertex, or what is led to from the outside.

ghost use Rattle.std.specs.Prelude.{◌≡◌, ◌≢◌, ◌+◌, ◌++◌, ◌<◌, ◌≤◌, ◌^◌, ◌⊎◌, ℕ, false, if◌then◌else◌, nat_lt, IfOk, OnOk, IsTrue, length, slice_index};
ghost use Rattle.std.specs.List.{All, AllPairs};
ghost use Rattle.cut_definitions.specs.Weight.{VertexSet};
ghost use Rattle.cut_definitions.specs.Cuts.{has};
ghost use Rattle.weighted_graph.specs.Searches.{is_seen};
ghost use Rattle.arc_search.specs.Closed.{IsClosed};
ghost use Rattle.arc_search.specs.Listing.{ListingState, IsBorder, IsKept, IsNothingListed, IsMet, IsRowMet, IsBordered, StaysAtBorder, HasMore, AreTaken};
ghost use Rattle.cut_definitions.specs.Graph.{IsVertex};

use crate::path_memory::PathMemory;
use crate::step_arcs::StepArcs;
use crate::walking::walk;
use cut_definitions::NoMemory;
use std::alloc::Global;
use std::marker::Model;
use weighted_graph::Graph;

/// The parts that are listed so far, numbered from 1 on,
/// and the vertices of the region that arcs join to them.
#[derive(Drop)]
pub struct Listing {
    turns: Vec<u32>,
    count: u32,
    list: Vec<u32>,
    border: Vec<u32>,
    at_border: Vec<bool>,

    // for the search: 0 just where it is to go, so nowhere between two calls
    marks: Vec<u32>,
}

impl Model for Listing {
    ghost use Rattle.arc_search.specs.Listing.{ListingState, IsLaidOut};

    ghost Value = { ListingState };

    ghost view = { λ l. record {
      turns = l.turns.items;
      count = l.count;
      list = l.list.items;
      border = l.border.items;
      at_border = l.at_border.items;
    } };

    ghost invariant = { λ l. IsLaidOut l.turns.items l.marks.items };
}

/// Gives each of the vertices a number.
fn write(numbers: &mut [u32], vertices: &[u32], number: u32)
    requires { All (λ (v : ℕ). v < length numbers.old) vertices.now }
    ensures { (v : ℕ) → slice_index numbers.new v ≡ (if has vertices.now v then number else slice_index numbers.old v) }
{
    for v in vertices {
        numbers[*v as usize] = number;
    }
}

/// Takes the marks of the vertices away.
pub fn unmark(marks: &mut [bool], vertices: &[u32])
    requires { All (λ (v : ℕ). v < length marks.old) vertices.now }
    ensures { (v : ℕ) → is_seen marks.new v ≡ (if has vertices.now v then false else is_seen marks.old v) }
{
    for v in vertices {
        marks[*v as usize] = false;
    }
}

/// The regions of a graph: the label of each vertex.
#[derive(Clone, Copy)]
struct Regions<'a> {
    graph: &'a Graph,
    labels: &'a [u32],
}

/// Puts a vertex at the border, unless it is outside the region, listed or there already.
fn put(
    labels: &[u32],
    region: u32,
    turns: &[u32],
    border: &mut Vec<u32>,
    at_border: &mut [bool],
    v: u32,
) -> Result<(), NoMemory>
    requires labels { v < length labels.now }
    requires turns { v < length turns.now }
    requires at_border { v < length at_border.old }
    requires from_one { 1 ≤ v }
    ensures border { OnOk result ((n : ℕ) → IsBorder n border.old.items at_border.old → IsBorder n border.new.items at_border.new) }
    ensures more { OnOk result (HasMore border.old.items border.new.items) }
    ensures stays { OnOk result (StaysAtBorder at_border.old at_border.new) }
    ensures met { OnOk result (IsMet labels.now region turns.now at_border.new v) }
{
    if labels[v as usize] != region || turns[v as usize] != 0 || at_border[v as usize] {
        return Ok(());
    }
    border.push(v)?;
    at_border[v as usize] = true;
    Ok(())
}

/// Puts all ends of the row of a vertex, and the vertex itself, into the border, each unless it is
/// outside the region, listed or there already.
fn put_ends(
    regions: Regions<'_>,
    turns: &[u32],
    border: &mut Vec<u32>,
    at_border: &mut [bool],
    v: u32,
) -> Result<(), NoMemory>
    requires to_n { v ≤ regions.graph.now.vertices }
    requires labels { length regions.labels.now ≡ regions.graph.now.vertices + 1 }
    requires turns { length turns.now ≡ regions.graph.now.vertices + 1 }
    requires border { IsBorder regions.graph.now.vertices border.old.items at_border.old }
    ensures border { OnOk result (IsBorder regions.entry.graph.now.vertices border.new.items at_border.new) }
    ensures more { OnOk result (HasMore border.old.items border.new.items) }
    ensures stays { OnOk result (StaysAtBorder at_border.old at_border.new) }
    ensures met { OnOk result (IsRowMet regions.entry.graph.now regions.entry.labels.now turns.now at_border.new v) }
{
    let region = regions.labels[v as usize];
    let row = regions.graph.row(v);
    for arc in row {
        put(regions.labels, region, turns, border, at_border, arc.to)?;
    }
    Ok(())
}

/// Puts vertices on the list, and the ends of their rows at the border.
fn list_all(
    regions: Regions<'_>,
    turns: &[u32],
    list: &mut Vec<u32>,
    border: &mut Vec<u32>,
    at_border: &mut [bool],
    found: &[u32],
) -> Result<(), NoMemory>
    requires labels { length regions.labels.now ≡ regions.graph.now.vertices + 1 }
    requires turns { length turns.now ≡ regions.graph.now.vertices + 1 }
    requires border { IsBorder regions.graph.now.vertices border.old.items at_border.old }
    requires within { All (IsVertex regions.graph.now.vertices) found.now }
    ensures list { OnOk result (list.new.items ≡ list.old.items ++ found.now) }
    ensures border { OnOk result (IsBorder regions.entry.graph.now.vertices border.new.items at_border.new) }
    ensures more { OnOk result (HasMore border.old.items border.new.items) }
    ensures stays { OnOk result (StaysAtBorder at_border.old at_border.new) }
    ensures met { OnOk result (All (IsRowMet regions.entry.graph.now regions.entry.labels.now turns.now at_border.new) found.now) }
{
    for v in found {
        list.push(*v)?;
        put_ends(regions, turns, border, at_border, *v)?;
    }
    Ok(())
}

/// Gives further parts to vertices all of which are reached from the first.
fn take_parts<A: StepArcs>(
    arcs: &A,
    count: u32,
    turns: &mut [u32],
    marks: &mut [u32],
    memory: &mut PathMemory,
    found: &[u32],
) -> u32
    requires can { A.can_search arcs.now }
    requires turns { length turns.old ≡ A.vertices arcs.now + 1 }
    requires marks { length marks.old ≡ A.vertices arcs.now + 1 }
    requires nobody { slice_index turns.old 0 ≡ 0 }
    requires to_count { (v : ℕ) → slice_index turns.old v ≤ count }
    requires marked { (v : ℕ) → 1 ≤ v → v < length marks.old → slice_index marks.old v ≢ 0 }
    requires some { 1 ≤ length found.now }
    requires within { All (IsVertex (A.vertices arcs.now)) found.now }
    requires new { All (λ (v : ℕ). slice_index turns.old v ≡ 0) found.now }
    requires closed { IsClosed (A.goes arcs.now) (λ v. nat_lt 0 (slice_index turns.old v)) }
    requires followed { (u v : ℕ) → IsTrue (A.goes arcs.now u v) → IsTrue (has found.now u) → (1 ≤ slice_index turns.old v) ⊎ IsTrue (has found.now v) }
    requires leads { (x : VertexSet) → IsClosed (A.goes arcs.now) x → IsTrue (x (slice_index found.now 0)) → (v : ℕ) → IsTrue (has found.now v) → IsTrue (x v) }
    requires few { count + A.vertices arcs.now < 2 ^ 32 }
    requires memory { A.vertices arcs.now ≤ memory.old }
    ensures taken { AreTaken (A.vertices arcs.now) (A.goes arcs.now) found.now (λ v. slice_index turns.old v) (λ v. slice_index turns.new v) count result }
    ensures marked { (v : ℕ) → 1 ≤ v → v < length marks.new → slice_index marks.new v ≢ 0 }
    ensures memory { memory.new ≡ memory.old }
{
    write(marks, found, 0);
    walk(
        arcs,
        found[0],
        count,
        &mut turns[1..],
        &mut marks[1..],
        memory,
    )
}

impl Listing {
    /// A listing for vertices 1 to n with nothing listed. It takes time and memory O(n); want of
    /// memory is the only refusal.
    pub fn new(alloc: Global, n: u32) -> Result<Listing, NoMemory>
        ensures { IfOk result (IsNothingListed n) }
    {
        let size = n as usize + 1;
        let turns = vec![in alloc; 0u32; size]?;
        let at_border = vec![in alloc; false; size]?;
        let marks = vec![in alloc; 1u32; size]?;
        Ok(Listing {
            turns,
            count: 0,
            list: Vec::new(alloc),
            border: Vec::new(alloc),
            at_border,
            marks,
        })
    }

    /// The number of the part of each vertex from 0 on, from 1 in the order of listing;
    /// 0 where it is not listed.
    pub fn turns(&self) -> &[u32]
        ensures { result.now ≡ self.now.turns }
    {
        self.turns.as_slice()
    }

    /// How many parts are listed.
    pub fn count(&self) -> u32
        ensures { result ≡ self.now.count }
    {
        self.count
    }

    /// All listed vertices, each once.
    pub fn list(&self) -> &[u32]
        ensures { result.now ≡ self.now.list }
    {
        self.list.as_slice()
    }

    /// The vertices that arcs from listed ones led to before they were listed themselves, each
    /// once, in the order in which they were found; some may be listed by now.
    pub fn border(&self) -> &[u32]
        ensures { result.now ≡ self.now.border }
    {
        self.border.as_slice()
    }

    /// Lists different vertices of 1 to n, or none, as the first part.
    ///
    /// It takes one step for each of their arcs. Want of memory is the only refusal.
    pub fn take_first(
        &mut self,
        graph: &Graph,
        labels: &[u32],
        found: &[u32],
    ) -> Result<(), NoMemory>
        requires labels { length labels.now ≡ graph.now.vertices + 1 }
        requires nothing { IsNothingListed graph.now.vertices self.old }
        requires within { All (IsVertex graph.now.vertices) found.now }
        requires apart { AllPairs (λ (u v : ℕ). u ≢ v) found.now }
        ensures turns { OnOk result ((v : ℕ) → slice_index self.new.turns v ≡ (if has found.now v then 1 else 0)) }
        ensures count { OnOk result (self.new.count ≡ 1) }
        ensures kept { OnOk result (IsKept graph.now.vertices self.new) }
        ensures bordered { OnOk result (IsBordered graph.now labels.now self.new) }
        ensures list { OnOk result (self.new.list ≡ found.now) }
    {
        let turns = self.turns.as_mut_slice();
        write(turns, found, 1);
        self.count = 1;
        let at_border = self.at_border.as_mut_slice();
        list_all(
            Regions { graph, labels },
            turns,
            &mut self.list,
            &mut self.border,
            at_border,
            found,
        )?;
        Ok(())
    }

    /// Lists different vertices as further parts: all of them are reached from the first, and they
    /// lead only to one another and to what is listed.
    ///
    /// It takes one step for each of their arcs, and the memory for the search comes from the
    /// caller. Want of memory is the only refusal.
    pub fn take<A: StepArcs>(
        &mut self,
        graph: &Graph,
        labels: &[u32],
        arcs: &A,
        memory: &mut PathMemory,
        found: &[u32],
    ) -> Result<(), NoMemory>
        requires labels { length labels.now ≡ graph.now.vertices + 1 }
        requires kept { IsKept graph.now.vertices self.old }
        requires bordered { IsBordered graph.now labels.now self.old }
        requires few { self.old.count ≤ graph.now.vertices }
        requires can { A.can_search arcs.now }
        requires vertices { A.vertices arcs.now ≡ graph.now.vertices }
        requires memory { graph.now.vertices ≤ memory.old }
        requires some { 1 ≤ length found.now }
        requires within { All (IsVertex graph.now.vertices) found.now }
        requires apart { AllPairs (λ (u v : ℕ). u ≢ v) found.now }
        requires new { All (λ (v : ℕ). slice_index self.old.turns v ≡ 0) found.now }
        requires closed { IsClosed (A.goes arcs.now) (λ v. nat_lt 0 (slice_index self.old.turns v)) }
        requires followed { (u v : ℕ) → IsTrue (A.goes arcs.now u v) → IsTrue (has found.now u) →
            (1 ≤ slice_index self.old.turns v) ⊎ IsTrue (has found.now v) }
        requires leads { (x : VertexSet) → IsClosed (A.goes arcs.now) x → IsTrue (x (slice_index found.now 0)) →
            (v : ℕ) → IsTrue (has found.now v) → IsTrue (x v) }
        ensures taken { OnOk result (AreTaken graph.now.vertices (A.goes arcs.now) found.now
            (λ v. slice_index self.old.turns v) (λ v. slice_index self.new.turns v) self.old.count self.new.count) }
        ensures kept { OnOk result (IsKept graph.now.vertices self.new) }
        ensures bordered { OnOk result (IsBordered graph.now labels.now self.new) }
        ensures list { OnOk result (self.new.list ≡ self.old.list ++ found.now) }
        ensures border { OnOk result (HasMore self.old.border self.new.border) }
        ensures memory { memory.new ≡ memory.old }
    {
        let _n = graph.n();
        let turns = self.turns.as_mut_slice();
        let marks = self.marks.as_mut_slice();
        self.count = take_parts(arcs, self.count, turns, marks, memory, found);
        let at_border = self.at_border.as_mut_slice();
        list_all(
            Regions { graph, labels },
            turns,
            &mut self.list,
            &mut self.border,
            at_border,
            found,
        )?;
        Ok(())
    }

    /// Forgets all parts, in time of the list and the border.
    pub fn clear(&mut self)
        requires { (n : ℕ) × IsKept n self.old }
        ensures { (n : ℕ) → IsKept n self.old → IsNothingListed n self.new }
    {
        write(self.turns.as_mut_slice(), self.list.as_slice(), 0);
        unmark(self.at_border.as_mut_slice(), self.border.as_slice());
        self.list.clear();
        self.border.clear();
        self.count = 0;
    }
}
