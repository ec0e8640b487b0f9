//! For each region a list of its open vertices, which are those that an edge joins to another
//! label.

ghost use Rattle.std.specs.Prelude.{◌≡◌, ◌≢◌, ◌↔◌, ◌+◌, ◌-◌, ◌<◌, ◌≤◌, ◌^◌, ◌++◌, ◌∷◌, [], ℕ, None, IfOk, IfSome, OnOk, OnErr, IsTrue, IsFalse, length, take, slice_get, slice_index, slice_set};
ghost use Rattle.std.specs.List.{All, Contains};
ghost use Rattle.cut_definitions.specs.Components.{IsConnected};
ghost use Rattle.weighted_graph.specs.RowLaws.{IsArcAt};
ghost use Rattle.weighted_graph.specs.Rows.{row_of};
ghost use Rattle.cut_definitions.specs.Regions.{IsOpenAt};
ghost use Rattle.region_fronts.specs.Open.{IsShutAt};
ghost use Rattle.region_fronts.specs.Beside.{IsFirstToOpen, IsOpenIn, LeadsToNoneBefore};
ghost use Rattle.region_fronts.specs.Newest.{IsAnother, IsNewestBut, IsNoneFrom};
ghost use Rattle.region_fronts.specs.Fronts.{FrontsState, list_at, lists_of, IsCovered, KeepsAll, KeepsFronts, HasEnds, AreFew, AreApart, IsAtFront, taken_out};

use crate::order::Order;
use cut_definitions::NoMemory;
use std::alloc::Global;
use std::marker::Model;
use weighted_graph::{Arc, Graph};

/// For each label, the vertices that were found open under it. A vertex whose label has changed
/// since then may still be in the list.
///
/// It takes 28 bytes for each vertex at first, and memory for entries as vertices are put.
#[derive(Drop)]
pub struct Fronts {
    n: u32,
    lists: Vec<Vec<u32>>,

    // for each vertex, the label under whose list it was put last, or 0 if it is no longer in that
    // list
    standing: Vec<u32>,

    // each label whose list is not empty, with the list that was filled last on top
    stack: Vec<u32>,

    // which entry of a list is looked at next; if the oldest enter first, all entries before this
    // place belong to a later turn
    order: Order,
    turn: usize,
}

impl Model for Fronts {
    ghost use Rattle.region_fronts.specs.Fronts.{FrontsState, IsLaidOut, lists_of};

    ghost Value = { FrontsState };

    ghost view = { λ f. record { vertices = f.n; lists = lists_of f.lists.items } };

    ghost invariant = { λ f. IsLaidOut f.n (lists_of f.lists.items) f.standing.items f.stack.items };
}

/// The label of a vertex.
fn label(labels: &[u32], v: u32) -> u32
    requires { v < length labels.now }
    ensures { result ≡ slice_index labels.now v }
{
    labels[v as usize]
}

/// Whether a vertex is in a region, and an edge joins it to another label.
fn is_open(graph: &Graph, labels: &[u32], v: u32) -> bool
    requires to_n { v ≤ graph.now.vertices }
    requires labels { length labels.now ≡ graph.now.vertices + 1 }
    ensures yes { IsTrue result → IsOpenAt graph.now labels.now v }
    ensures no { IsFalse result → IsShutAt graph.now labels.now v }
{
    let region = label(labels, v);
    if region == 0 {
        return false;
    }
    let row = graph.row(v);
    for arc in row {
        if label(labels, arc.to) != region {
            return true;
        }
    }
    false
}

/// The greatest length of a row that is searched for an open vertex beside another.
const LONG_ROW: usize = 32;

/// How many of the newest entries of a list are searched for another open vertex.
const LATE: usize = 4;

/// Whether an arc leads to an open vertex of a region whose row is not long.
fn leads_to_open(graph: &Graph, labels: &[u32], region: u32, to: u32) -> bool
    requires to_n { to ≤ graph.now.vertices }
    requires labels { length labels.now ≡ graph.now.vertices + 1 }
    ensures { IsTrue result ↔ IsOpenIn graph.now labels.now region to }
{
    if label(labels, to) != region || graph.row(to).len() > LONG_ROW {
        return false;
    }
    is_open(graph, labels, to)
}

/// The first arc of a vertex to an open vertex of its region, if both have rows of at most 32
/// arcs. The result is none exactly if there is no such arc.
///
/// It takes a step for each arc of the row, and for each arc of the rows that these lead to: about
/// a thousand at most.
pub fn open_beside(graph: &Graph, labels: &[u32], v: u32) -> Option<Arc>
    requires to_n { v ≤ graph.now.vertices }
    requires labels { length labels.now ≡ graph.now.vertices + 1 }
    ensures arc { IfSome result (IsArcAt graph.now v) }
    ensures first { IfSome result (IsFirstToOpen graph.now labels.now v) }
    ensures none { result ≡ None → length (row_of graph.now v) ≤ 32 → LeadsToNoneBefore graph.now labels.now v (length (row_of graph.now v)) }
{
    let region = label(labels, v);
    let row = graph.row(v);
    if row.len() > LONG_ROW {
        return None;
    }
    for arc in row {
        if leads_to_open(graph, labels, region, arc.to) {
            return Some(*arc);
        }
    }
    None
}

/// Whether a vertex is another open vertex of the region of `t`.
fn is_another(graph: &Graph, labels: &[u32], t: u32, v: u32) -> bool
    requires t_to_n { t ≤ graph.now.vertices }
    requires to_n { v ≤ graph.now.vertices }
    requires labels { length labels.now ≡ graph.now.vertices + 1 }
    ensures { IsTrue result ↔ IsAnother graph.now labels.now t v }
{
    // known by this call: the graph is an edge list
    let _n = graph.n();
    if v == t || label(labels, v) != label(labels, t) {
        return false;
    }
    is_open(graph, labels, v)
}

/// Lists without entries.
fn empty_lists(alloc: Global, count: usize) -> Result<Vec<Vec<u32>>, NoMemory>
    ensures count { IfOk result (λ lists. length (lists_of lists.items) ≡ count) }
    ensures empty { IfOk result (λ lists. (region : ℕ) → list_at (lists_of lists.items) region ≡ []) }
{
    let mut lists: Vec<Vec<u32>> = Vec::with_capacity(alloc, count)?;
    'lists: for _list in 0..count {
        lists.push(Vec::new(alloc))?;
    }
    Ok(lists)
}

/// Appends a vertex to the list of a region.
fn append(lists: &mut Vec<Vec<u32>>, region: u32, v: u32) -> Result<(), NoMemory>
    requires { region < length lists.old.items }
    ensures ok { OnOk result (lists_of lists.new.items ≡ slice_set (lists_of lists.old.items) region (list_at (lists_of lists.old.items) region ++ v ∷ [])) }
    ensures err { OnErr result (lists_of lists.new.items ≡ lists_of lists.old.items) }
{
    lists[region as usize].push(v)?;
    Ok(())
}

/// Puts a label on top of the stack, if its list is empty.
fn put_on_top(stack: &mut Vec<u32>, lists: &[Vec<u32>], region: u32) -> Result<(), NoMemory>
    requires { region < length lists.now }
    ensures kept { (label : ℕ) → Contains stack.old.items label → Contains stack.new.items label }
    ensures no_other { (label : ℕ) → Contains stack.new.items label → label ≢ region → Contains stack.old.items label }
    ensures there { OnOk result (length (list_at (lists_of lists.now) region) ≡ 0 → Contains stack.new.items region) }
{
    if lists[region as usize].is_empty() {
        stack.push(region)?;
    }
    Ok(())
}

/// The first label from the top whose list is not empty; those above it are removed from the
/// stack.
fn first_filled(stack: &mut Vec<u32>, lists: &[Vec<u32>]) -> Option<u32>
    requires stacked { (region : ℕ) → 1 ≤ length (list_at (lists_of lists.now) region) → Contains stack.old.items region }
    requires labels { (region : ℕ) → Contains stack.old.items region → region < length lists.now }
    ensures stacked { (region : ℕ) → 1 ≤ length (list_at (lists_of lists.now) region) → Contains stack.new.items region }
    ensures no_other { (region : ℕ) → Contains stack.new.items region → Contains stack.old.items region }
    ensures some { IfSome result (λ region. 1 ≤ length (list_at (lists_of lists.now) region)) }
    ensures none { result ≡ None → (region : ℕ) → length (list_at (lists_of lists.now) region) ≡ 0 }
{
    while !stack.is_empty() {
        let region = stack[stack.len() - 1];
        if !lists[region as usize].is_empty() {
            return Some(region);
        }
        let _empty = stack.pop();
    }
    None
}

impl Fronts {
    /// Empty lists, for vertices 1 to n and labels 0 to n + 1. The order says which entry of a
    /// list comes next.
    ///
    /// It takes O(n) steps and memory, and fails only if it runs out of memory.
    pub fn new(alloc: Global, n: u32, order: Order) -> Result<Fronts, NoMemory>
        ensures vertices { IfOk result (λ f. f.vertices ≡ n) }
        ensures empty { IfOk result (λ f. (region : ℕ) → list_at f.lists region ≡ []) }
    {
        let lists = empty_lists(alloc, n as usize + 2)?;
        let standing = vec![in alloc; 0u32; n as usize + 1]?;
        let stack = Vec::new(alloc);
        Ok(Fronts {
            n,
            lists,
            standing,
            stack,
            order,
            turn: 0,
        })
    }

    /// The number of entries in the list of a region.
    fn count(&self, region: u32) -> usize
        ensures { result ≡ length (list_at self.now.lists region) }
    {
        match self.lists.get(region as usize) {
            Some(list) => list.len(),
            None => 0,
        }
    }

    /// The entry at a place of the list of a region.
    fn at(&self, region: u32, place: usize) -> u32
        requires { place < length (list_at self.now.lists region) }
        ensures value { result ≡ slice_index (list_at self.now.lists region) place }
        ensures to_n { result ≤ self.now.vertices }
    {
        self.lists[region as usize][place]
    }

    /// Removes the entry at a place of the list of a region. The last entry takes its place.
    fn take_out(&mut self, region: u32, place: usize)
        requires { place < length (list_at self.old.lists region) }
        ensures { self.new ≡ taken_out self.old region place }
    {
        let v = self.lists[region as usize].swap_remove(place);
        if self.standing[v as usize] == region {
            self.standing[v as usize] = 0;
        }
    }

    /// The label on top among those whose lists are not empty.
    fn top(&mut self) -> Option<u32>
        ensures same { self.new ≡ self.old }
        ensures some { IfSome result (λ region. 1 ≤ length (list_at self.old.lists region)) }
        ensures none { result ≡ None → (region : ℕ) → length (list_at self.old.lists region) ≡ 0 }
    {
        first_filled(&mut self.stack, self.lists.as_slice())
    }

    /// The place in the list of a region at which the search for the next vertex continues.
    fn place_in_turn(&self, region: u32) -> usize
        requires { 1 ≤ length (list_at self.now.lists region) }
        ensures { result < length (list_at self.now.lists region) }
    {
        let count = self.count(region);
        match self.order {
            Order::Newest => count - 1,
            Order::Oldest => { if self.turn < count { self.turn } else { 0 } }
        }
    }

    /// Removes the entry at a place of the list of a region, and moves on past the place. The
    /// entry that is there now is newer than all after it.
    fn pass_over(&mut self, region: u32, place: usize)
        requires { place < length (list_at self.old.lists region) }
        ensures { self.new ≡ taken_out self.old region place }
    {
        self.take_out(region, place);
        self.turn = place.saturating_add(1);
    }

    /// Puts a vertex of a region into the list of the region, unless it is there already.
    fn put(&mut self, region: u32, v: u32) -> Result<(), NoMemory>
        requires region { region ≤ self.old.vertices + 1 }
        requires outside { 1 ≤ region }
        requires to_n { v ≤ self.old.vertices }
        ensures vertices { self.new.vertices ≡ self.old.vertices }
        ensures kept { KeepsAll self.old self.new }
        ensures there { OnOk result (Contains (list_at self.new.lists region) v) }
    {
        if self.standing[v as usize] == region {
            return Ok(());
        }
        put_on_top(&mut self.stack, self.lists.as_slice(), region)?;
        append(&mut self.lists, region, v)?;
        self.standing[v as usize] = region;
        Ok(())
    }

    /// Puts a vertex into the list of its label, unless it has entered the source.
    fn put_labelled(&mut self, labels: &[u32], v: u32) -> Result<(), NoMemory>
        requires to_n { v ≤ self.old.vertices }
        requires labels { length labels.now ≡ self.old.vertices + 1 }
        requires few { slice_index labels.now v ≤ self.old.vertices + 1 }
        ensures vertices { self.new.vertices ≡ self.old.vertices }
        ensures kept { KeepsAll self.old self.new }
        ensures there { OnOk result (1 ≤ slice_index labels.now v → IsAtFront labels.now self.new v) }
    {
        let region = label(labels, v);
        if region == 0 {
            return Ok(());
        }
        self.put(region, v)
    }

    /// Puts both ends of an edge into the lists of their labels, if these differ.
    fn put_apart(&mut self, labels: &[u32], v: u32, to: u32) -> Result<(), NoMemory>
        requires v_to_n { v ≤ self.old.vertices }
        requires to_to_n { to ≤ self.old.vertices }
        requires labels { length labels.now ≡ self.old.vertices + 1 }
        requires few { AreFew self.old.vertices labels.now }
        ensures vertices { self.new.vertices ≡ self.old.vertices }
        ensures kept { KeepsAll self.old self.new }
        ensures there { OnOk result (AreApart labels.now self.new v to) }
    {
        if label(labels, v) == label(labels, to) {
            return Ok(());
        }
        self.put_labelled(labels, v)?;
        self.put_labelled(labels, to)
    }

    /// Puts a vertex of a region into the list of its label if an edge joins it to another label.
    /// It does the same for each vertex of a region at the other end of such an edge. What is
    /// there already is not put again.
    ///
    /// It goes once along the row of the vertex. If it runs out of memory, what was put so far
    /// stays.
    pub fn put_ends(&mut self, graph: &Graph, labels: &[u32], v: u32) -> Result<(), NoMemory>
        requires to_n { v ≤ graph.now.vertices }
        requires labels { length labels.now ≡ graph.now.vertices + 1 }
        requires few { AreFew graph.now.vertices labels.now }
        requires vertices { self.old.vertices ≡ graph.now.vertices }
        ensures vertices { self.new.vertices ≡ self.old.vertices }
        ensures kept { KeepsAll self.old self.new }
        ensures ends { OnOk result (HasEnds graph.now labels.now self.new v) }
    {
        let row = graph.row(v);
        for arc in row {
            self.put_apart(labels, v, arc.to)?;
        }
        Ok(())
    }

    /// Puts the ends of several vertices, each as `put_ends` does. One step for each arc of their
    /// rows. If it runs out of memory, what was put so far stays.
    pub fn put_all_ends(
        &mut self,
        graph: &Graph,
        labels: &[u32],
        moved: &[u32],
    ) -> Result<(), NoMemory>
        requires to_n { All (λ v. v ≤ graph.now.vertices) moved.now }
        requires labels { length labels.now ≡ graph.now.vertices + 1 }
        requires few { AreFew graph.now.vertices labels.now }
        requires vertices { self.old.vertices ≡ graph.now.vertices }
        ensures vertices { self.new.vertices ≡ self.old.vertices }
        ensures kept { KeepsAll self.old self.new }
        ensures ends { OnOk result (All (HasEnds graph.now labels.now self.new) moved.now) }
    {
        for i in 0..moved.len() {
            self.put_ends(graph, labels, moved[i])?;
        }
        Ok(())
    }

    /// The vertex at a place of the list of a region, counted from 0; none if the list ends before
    /// the place.
    ///
    /// Entries at the place that have another label by now are removed first; the last entry takes
    /// the place of each. So the list never grows, and nothing before the place changes. One step
    /// for each entry that is removed.
    pub fn read(&mut self, labels: &[u32], region: u32, place: usize) -> Option<u32>
        requires { length labels.now ≡ self.old.vertices + 1 }
        ensures vertices { self.new.vertices ≡ self.old.vertices }
        ensures some { IfSome result (λ v. slice_index labels.now v ≡ region) }
        ensures at { IfSome result (λ v. slice_get (list_at self.new.lists region) place ≡ Some v) }
        ensures to_n { IfSome result (λ v. v ≤ self.new.vertices) }
        ensures next { IfSome result (λ v. place + 1 < 2 ^ 64) }
        ensures none { result ≡ None → length (list_at self.new.lists region) ≤ place }
        ensures before { take place (list_at self.new.lists region) ≡ take place (list_at self.old.lists region) }
        ensures no_longer { length (list_at self.new.lists region) ≤ length (list_at self.old.lists region) }
        ensures others { (other : ℕ) → other ≢ region → list_at self.new.lists other ≡ list_at self.old.lists other }
        ensures kept { KeepsFronts labels.now self.old self.new }
    {
        while place < self.count(region) {
            let v = self.at(region, place);
            if label(labels, v) == region {
                return Some(v);
            }
            self.take_out(region, place);
        }
        None
    }

    /// An open vertex in the list of the label on top, or none if all vertices have entered. If
    /// the newest enter first, it is the last of the list, and otherwise one of those put
    /// earliest. The contract leaves this choice free.
    ///
    /// Entries that have another label by now, or are no longer open, are removed first. The
    /// vertex itself stays in its list. Each entry is removed once, and a look at a vertex goes
    /// along its row up to the first arc to another label.
    pub fn next(&mut self, graph: &Graph, labels: &[u32]) -> Option<u32>
        requires connected { IsConnected graph.now }
        requires labels { length labels.now ≡ graph.now.vertices + 1 }
        requires vertices { self.old.vertices ≡ graph.now.vertices }
        requires root { slice_index labels.now 1 ≡ 0 }
        requires covered { IsCovered graph.now labels.now self.old }
        ensures vertices { self.new.vertices ≡ self.old.vertices }
        ensures covered { IsCovered graph.now labels.now self.new }
        ensures some { IfSome result (IsOpenAt graph.now labels.now) }
        ensures none { result ≡ None → (v : ℕ) → 1 ≤ v → v ≤ graph.now.vertices → slice_index labels.now v ≡ 0 }
    {
        let _list = graph.edge_list();
        while let Some(region) = self.top() {
            let place = self.place_in_turn(region);
            let v = self.at(region, place);
            if label(labels, v) == region && is_open(graph, labels, v) {
                return Some(v);
            }
            self.pass_over(region, place);
        }
        None
    }

    /// The last entry in the list of the region of `t` that is another open vertex of that region,
    /// if it is one of the last four. The result is none exactly if none of these is such a
    /// vertex.
    ///
    /// A look at an entry goes along its row up to the first arc to another label.
    pub fn newest_but(&self, graph: &Graph, labels: &[u32], t: u32) -> Option<u32>
        requires labels { length labels.now ≡ graph.now.vertices + 1 }
        requires vertices { self.now.vertices ≡ graph.now.vertices }
        requires to_n { t ≤ graph.now.vertices }
        ensures some { IfSome result (λ v. IsNewestBut graph.now labels.now t (list_at self.now.lists (slice_index labels.now t)) v) }
        ensures none { result ≡ None → let list = list_at self.now.lists (slice_index labels.now t) in IsNoneFrom graph.now labels.now t list (length list - 4) }
    {
        let region = label(labels, t);
        let count = self.count(region);
        for back in 0..LATE.min(count) {
            let v = self.at(region, count - 1 - back);
            if is_another(graph, labels, t, v) {
                return Some(v);
            }
        }
        None
    }
}
