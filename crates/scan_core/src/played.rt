//! The machine as a value, which tests run.

ghost use Rattle.std.specs.Prelude.{◌≡◌, ◌↔◌, ℕ, ◌+◌, ◌-◌, ◌<◌, ◌≤◌, length, take, IfOk, OnErr, IsTrue, MatchOption};
ghost use Rattle.cut_definitions.specs.Safe.{IsFair};
ghost use Rattle.cut_definitions.specs.Cuts.{has, value as value_of};
ghost use Rattle.cut_definitions.specs.Weight.{IsCut};
ghost use Rattle.scan_core.specs.declared.event.Event.TheVariants.{Load, Lower, IsMarked, Mark, Split, Join, Take};
ghost use Rattle.scan_core.specs.Machine.{Machine, seat_at, opening_machine};
ghost use Rattle.scan_core.specs.Shown.{ArePartedEdges, Shows, IsLiveSeat, IsAnswer, IsShownLive, IsSafeHere, HasGone};

use crate::event::Event;
use cut_definitions::{EdgeList, NoMemory};
use std::alloc::Global;
use std::marker::Model;
use vertex_set::Side;
use weighted_graph::Graph;

/// Whether a seat is live, and the bound that it saw last.
#[derive(Clone, Copy)]
pub struct CoreSeat {
    pub live: bool,
    pub seen: u64,
}

/// The machine of a board: a bound that falls, marked edges, taken vertices and up to 1,000 seats.
///
/// A core shows a machine, which is a relation on what it keeps. When opened, it shows the opening
/// state. An allowed event turns a core that shows a state into one that shows the state after it.
#[derive(Drop)]
pub struct Core {
    graph: Graph,
    slack: u64,
    value: u64,
    parted: Vec<u32>,
    bound: u64,
    marked: Vec<bool>,
    taken: Vec<bool>,
    seats: Vec<CoreSeat>,
}

impl Model for Core {
    ghost use Rattle.std.specs.Prelude.{◌≡◌, ◌+◌, length};
    ghost use Rattle.cut_definitions.specs.Graph.{IsEdgeList};
    ghost use Rattle.cut_definitions.specs.Cuts.{value as value_of};
    ghost use Rattle.scan_core.specs.Shown.{CoreView, ArePartedEdges};

    ghost Value = { CoreView };

    ghost view = { λ c. record { graph = c.graph; slack = c.slack; bound = c.bound; marked = c.marked.items; taken = c.taken.items; seats = c.seats.items } };

    ghost invariant = { λ c. IsEdgeList c.graph × (c.value ≡ value_of c.graph) × ArePartedEdges c.graph c.parted.items × (length c.marked.items ≡ length c.graph.edges) × (length c.taken.items ≡ c.graph.vertices + 1) };
}

/// Whether a set of vertices is neither empty nor everything.
fn is_cut(side: &Side) -> bool
    ensures { IsTrue result ↔ IsCut side.now.vertices (has side.now.members) }
{
    let mut some_in = false;
    let mut some_out = false;
    for i in 0..side.n() {
        if side.has(i + 1) {
            some_in = true;
        } else {
            some_out = true;
        }
    }
    some_in && some_out
}

impl Core {
    /// The opening state: no marks, no taken vertices, and seat 1, which has seen the bound. The
    /// bound is the weight of some cut, `value` the value of the graph, and `parted` lists the
    /// edges that some minimum cut separates. It takes O(n + m) steps and memory, and fails only
    /// if it runs out of memory.
    pub fn open(
        alloc: Global,
        graph: &Graph,
        bound: u64,
        slack: u64,
        value: u64,
        parted: &[u32],
    ) -> Result<Core, NoMemory>
        requires fair { IsFair graph.now bound }
        requires value { value ≡ value_of graph.now }
        requires parted { ArePartedEdges graph.now parted.now }
        ensures { IfOk result (λ core. Shows core (opening_machine graph.now slack bound)) }
    {
        let marked = vec![in alloc; false; graph.edges()]?;
        let taken = vec![in alloc; false; graph.n() as usize + 1]?;
        let first = CoreSeat {
            live: true,
            seen: bound,
        };
        let seats = vec![in alloc; first; 1]?;
        let parted = Vec::from_slice(alloc, parted)?;
        let edges = Vec::from_slice(alloc, graph.edge_list())?;
        let graph = Graph::from_list(alloc, EdgeList::from_edges(graph.n(), edges))?;
        Ok(Core {
            graph,
            slack,
            value,
            parted,
            bound,
            marked,
            taken,
            seats,
        })
    }

    /// Makes the step of an event if it is allowed, and returns whether it was. If not, nothing
    /// changes.
    ///
    /// It is not allowed exactly in these cases. A seat is not live, or would be joined into
    /// itself. The side is no cut of the graph. The edge or the vertex is not in range. The edge
    /// of a mark is not safe for the bound that the seat saw last. Or 1,000 seats were made. The
    /// call fails only if it runs out of memory, and then changes nothing.
    pub fn step(&mut self, event: &Event) -> Result<bool, NoMemory>
        ensures answer { IfOk result (λ answer. IsAnswer self.old self.new event.now answer) }
        ensures refused { OnErr result (self.new ≡ self.old) }
    {
        match event {
            Event::Load { seat } => Ok(self.load(*seat)),
            Event::Lower { seat, side } => Ok(self.lower(*seat, side)),
            Event::IsMarked { seat, edge } => Ok(self.look(*seat, *edge)),
            Event::Mark { seat, edge } => Ok(self.mark(*seat, *edge)),
            Event::Split { seat } => self.split(*seat),
            Event::Join { seat, other } => Ok(self.join(*seat, *other)),
            Event::Take { seat, vertex } => Ok(self.take(*seat, *vertex)),
        }
    }

    /// Makes the steps of events in turn, those that are allowed, and returns how many were. If it
    /// runs out of memory, the state is that after some prefix of the events.
    pub fn replay(&mut self, events: &[Event]) -> Result<u64, NoMemory>
        ensures ok { IfOk result (λ count. (m : Machine) → Shows self.old m → HasGone m events.now count self.new) }
        ensures refused { OnErr result ((m : Machine) → Shows self.old m → (k : ℕ) × (count : ℕ) × HasGone m (take k events.now) count self.new) }
    {
        let mut count = 0;
        for event in events {
            if self.step(event)? {
                count += 1;
            }
        }
        Ok(count)
    }

    /// The bound.
    pub fn bound(&self) -> u64
        ensures { (m : Machine) → Shows self.now m → result ≡ m.bound }
    {
        self.bound
    }

    /// Whether an edge, counted from 0, is marked.
    pub fn is_marked(&self, edge: u32) -> bool
        requires { edge < length self.now.graph.edges }
        ensures { (m : Machine) → Shows self.now m → result ≡ m.is_marked edge }
    {
        self.marked[edge as usize]
    }

    /// Whether a vertex of 1 to n is taken.
    pub fn is_taken(&self, v: u32) -> bool
        requires { (1 ≤ v) × (v ≤ self.now.graph.vertices) }
        ensures { (m : Machine) → Shows self.now m → result ≡ m.is_taken v }
    {
        self.taken[v as usize]
    }

    /// The bound that a seat saw last; none exactly if the seat is not live.
    pub fn seen(&self, seat: u32) -> Option<u64>
        ensures { (m : Machine) → Shows self.now m → MatchOption result (¬ IsLiveSeat m seat) (λ seen. IsLiveSeat m seat × (seen ≡ (seat_at m (seat - 1)).seen)) }
    {
        if self.is_live(seat) {
            Some(self.seats[seat as usize - 1].seen)
        } else {
            None
        }
    }

    fn is_live(&self, seat: u32) -> bool
        ensures { IsTrue result ↔ IsShownLive self.now seat }
    {
        let place = seat as usize;
        if place == 0 || place > self.seats.len() {
            return false;
        }
        self.seats[place - 1].live
    }

    /// Whether an edge in range is safe for the bound that a live seat saw last: no minimum cut
    /// that weighs less than bound plus slack separates its ends.
    fn is_safe(&self, seat: u32, edge: u32) -> bool
        requires live { IsShownLive self.now seat }
        requires edge { edge < length self.now.graph.edges }
        ensures { IsTrue result ↔ IsSafeHere self.now seat edge }
    {
        let seen = self.seats[seat as usize - 1].seen;
        if self.value as u128 >= seen as u128 + self.slack as u128 {
            return true;
        }
        !self.parted.contains(&edge)
    }

    fn load(&mut self, seat: u32) -> bool
        ensures { IsAnswer self.old self.new (Load seat) result }
    {
        if !self.is_live(seat) {
            return false;
        }
        self.seats[seat as usize - 1].seen = self.bound;
        true
    }

    fn lower(&mut self, seat: u32, side: &Side) -> bool
        ensures { IsAnswer self.old self.new (Lower seat side.now) result }
    {
        if !self.is_live(seat) || side.n() != self.graph.n() || !is_cut(side) {
            return false;
        }
        self.bound = self.bound.min(self.graph.weight_of(side));
        self.seats[seat as usize - 1].seen = self.bound;
        true
    }

    fn look(&mut self, seat: u32, edge: u32) -> bool
        ensures { IsAnswer self.old self.new (IsMarked seat edge) result }
    {
        self.is_live(seat) && (edge as usize) < self.graph.edges()
    }

    fn mark(&mut self, seat: u32, edge: u32) -> bool
        ensures { IsAnswer self.old self.new (Mark seat edge) result }
    {
        if !self.is_live(seat) || edge as usize >= self.graph.edges() || !self.is_safe(seat, edge) {
            return false;
        }
        self.marked[edge as usize] = true;
        true
    }

    fn split(&mut self, seat: u32) -> Result<bool, NoMemory>
        ensures answer { IfOk result (λ answer. IsAnswer self.old self.new (Split seat) answer) }
        ensures refused { OnErr result (self.new ≡ self.old) }
    {
        if !self.is_live(seat) || self.seats.len() >= 1000 {
            return Ok(false);
        }
        let new = CoreSeat {
            live: true,
            seen: self.bound,
        };
        self.seats.push(new)?;
        self.seats[seat as usize - 1].seen = self.bound;
        Ok(true)
    }

    fn join(&mut self, seat: u32, other: u32) -> bool
        ensures { IsAnswer self.old self.new (Join seat other) result }
    {
        if !self.is_live(seat) || !self.is_live(other) || seat == other {
            return false;
        }
        self.seats[other as usize - 1] = CoreSeat {
            live: false,
            seen: 0,
        };
        self.seats[seat as usize - 1].seen = self.bound;
        true
    }

    fn take(&mut self, seat: u32, vertex: u32) -> bool
        ensures { IsAnswer self.old self.new (Take seat vertex) result }
    {
        if !self.is_live(seat) || vertex == 0 || vertex > self.graph.n() {
            return false;
        }
        self.taken[vertex as usize] = true;
        true
    }
}
