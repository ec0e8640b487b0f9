//! The vertices outside the source, in the order in which they are to enter.

ghost use Rattle.std.specs.Prelude.{◌≡◌, ℕ, ◌+◌, ◌≤◌, IfOk, IfSome, length, slice_index};
ghost use Rattle.least_cut.specs.Front.{FrontState, IsPassed, IsOutsideAt};

use cut_definitions::NoMemory;
use region_flow::RegionFlow;
use std::alloc::Global;
use std::marker::Model;
use weighted_graph::Graph;

/// Vertices that are joined to the source, and how far all vertices were looked through. Busy
/// ones, with rows more than four times as long as on the average, come first, since a search that
/// comes to one has a long row to go along; among the others, and among the busy ones, the latest
/// comes first; of those that were put at once, those with heavy edges.
///
/// No answer rests on which vertices it has: where it has none that is outside, it looks for one.
#[derive(Drop)]
pub struct Front {
    n: u32,

    // the first `count` are a stack of vertices, and the last `busy` one of busy
    // vertices, with its top foremost
    stack: Vec<u32>,
    count: u32,
    busy: u32,
    put: Vec<bool>,

    // a longer row makes a vertex busy
    long: usize,

    // all vertices before this one have entered
    passed: u32,
}

impl Model for Front {
    ghost use Rattle.least_cut.specs.Front.{FrontState, IsLaidOut};

    ghost Value = { FrontState };

    ghost view = { λ f. record { vertices = f.n; passed = f.passed } };

    ghost invariant = { λ f. IsLaidOut f.n f.stack.items f.put.items f.count f.busy };
}

impl Front {
    /// An empty front for the vertices of a graph.
    pub fn new(alloc: Global, graph: &Graph) -> Result<Front, NoMemory>
        ensures vertices { IfOk result (λ f. f.vertices ≡ graph.now.vertices) }
        ensures passed { IfOk result (λ f. f.passed ≡ 1) }
    {
        let n = graph.n();
        let size = n as usize + 1;
        let stack = vec![in alloc; 0u32; size]?;
        let put = vec![in alloc; false; size]?;
        Ok(Front {
            n,
            stack,
            count: 0,
            busy: 0,
            put,
            long: graph.edges().saturating_mul(8) / size,
            passed: 1,
        })
    }

    /// Puts a vertex on top of its stack, unless it was put before.
    fn put(&mut self, graph: &Graph, v: u32)
        requires { self.old.vertices ≡ graph.now.vertices }
        ensures { self.new ≡ self.old }
    {
        if v > self.n || self.count + self.busy > self.n || self.put[v as usize] {
            return;
        }
        self.put[v as usize] = true;
        if graph.row(v).len() > self.long {
            self.stack[(self.n - self.busy) as usize] = v;
            self.busy += 1;
        } else {
            self.stack[self.count as usize] = v;
            self.count += 1;
        }
    }

    /// Puts the neighbours of a vertex to which an edge of at most this weight leads
    /// on top of their stacks, unless they were put before. Answers whether no edge
    /// of the vertex weighs more.
    fn put_light(&mut self, graph: &Graph, v: u32, most: u64) -> bool
        requires vertices { self.old.vertices ≡ graph.now.vertices }
        requires to_n { v ≤ graph.now.vertices }
        ensures { self.new ≡ self.old }
    {
        let mut all = true;
        for arc in graph.row(v) {
            if arc.weight <= most {
                self.put(graph, arc.to);
            } else {
                all = false;
            }
        }
        all
    }

    /// Puts the neighbours of a vertex to which an edge of more than this weight leads on top of
    /// their stacks, unless they were put before.
    fn put_heavy(&mut self, graph: &Graph, v: u32, most: u64)
        requires vertices { self.old.vertices ≡ graph.now.vertices }
        requires to_n { v ≤ graph.now.vertices }
        ensures { self.new ≡ self.old }
    {
        for arc in graph.row(v) {
            if arc.weight > most {
                self.put(graph, arc.to);
            }
        }
    }

    /// Puts the neighbours of a vertex on top of their stacks, unless they were put before. Those
    /// to which an edge leads that is heavier than its edges on the average come last, and so on
    /// top: once the vertex has entered, they need least from afar.
    pub fn put_neighbours(&mut self, graph: &Graph, v: u32)
        requires vertices { self.old.vertices ≡ graph.now.vertices }
        requires to_n { v ≤ graph.now.vertices }
        ensures { self.new ≡ self.old }
    {
        let count = graph.row(v).len() as u64;
        if count == 0 {
            return;
        }
        let average = graph.degree(v) / count;
        if !self.put_light(graph, v, average) {
            self.put_heavy(graph, v, average);
        }
    }

    /// Takes busy vertices from the top of their stack until one is outside the
    /// source; 0 where there is none.
    fn pop_busy(&mut self, flow: &RegionFlow) -> u32
        requires { length flow.now.labels ≡ self.old.vertices + 1 }
        ensures same { self.new ≡ self.old }
        ensures some { 1 ≤ result → IsOutsideAt flow.now.labels self.old.vertices result }
    {
        while self.busy > 0 {
            self.busy -= 1;
            let v = self.stack[(self.n - self.busy) as usize];
            if v <= self.n && flow.label(v) != 0 {
                return v;
            }
        }
        0
    }

    /// Takes vertices that are not busy from the top of their stack until one is outside the
    /// source; 0 where there is none.
    fn pop(&mut self, flow: &RegionFlow) -> u32
        requires { length flow.now.labels ≡ self.old.vertices + 1 }
        ensures same { self.new ≡ self.old }
        ensures some { 1 ≤ result → IsOutsideAt flow.now.labels self.old.vertices result }
    {
        while self.count > 0 {
            self.count -= 1;
            let v = self.stack[self.count as usize];
            if v <= self.n && flow.label(v) != 0 {
                return v;
            }
        }
        0
    }

    /// The next vertex that is to enter, if one is outside.
    pub fn next(&mut self, flow: &RegionFlow) -> Option<u32>
        requires labels { length flow.now.labels ≡ self.old.vertices + 1 }
        requires passed { IsPassed flow.now.labels self.old.passed }
        ensures vertices { self.new.vertices ≡ self.old.vertices }
        ensures passed { IsPassed flow.now.labels self.new.passed }
        ensures some { IfSome result (IsOutsideAt flow.now.labels self.old.vertices) }
        ensures none { result ≡ None → (v : ℕ) → 1 ≤ v → v ≤ self.old.vertices → slice_index flow.now.labels v ≡ 0 }
    {
        let busy = self.pop_busy(flow);
        if busy > 0 {
            return Some(busy);
        }
        let v = self.pop(flow);
        if v > 0 {
            return Some(v);
        }
        while self.passed <= self.n {
            if flow.label(self.passed) != 0 {
                return Some(self.passed);
            }
            self.passed += 1;
        }
        None
    }
}
