//! Scans of a graph with a cap, in which vertices can be dropped.

ghost use Rattle.std.specs.Prelude.{◌≡◌, ◌↔◌, ℕ, ◌≤◌, ◌^◌, true, false, List, ◌∷◌, None, IfOk, IfSome, IfNone, if◌then◌else◌};
ghost use Rattle.std.specs.List.{sum_by};
ghost use Rattle.cut_definitions.specs.Graph.{Graph};
ghost use Rattle.cut_definitions.specs.Weight.{VertexSet, parts, weight};
ghost use Rattle.cut_definitions.specs.Cuts.{has};
ghost use Rattle.weighted_graph.specs.declared.graph.Arc.{Arc};

use crate::maxima::{first_greatest, write, write_ones};
use crate::raising::raise_along;
use cut_definitions::NoMemory;
use std::alloc::Global;
use std::marker::Model;
use weighted_graph::{Arc, Graph};

/// A vertex that was scanned, the weight of the set of all vertices scanned so far, and whether
/// that set has all vertices.
#[derive(Clone, Copy, Debug, PartialEq, Eq)]
pub struct Scanned {
    pub vertex: u32,
    pub prefix_weight: u64,
    pub all: bool,
}

/// A scan of a graph by maximum adjacency, with a cap: CAPFOREST (Nagamochi, Ono and Ibaraki,
/// 1994). In each turn it takes a vertex with the greatest weight to those taken before, where
/// weights above the cap count as the cap.
///
/// It keeps no copy of its graph, and takes all its memory when it is made. A tree of maxima over
/// the vertices finds the greatest weight, so a vertex with d neighbours costs O((d + 1) log n). A
/// vertex that is dropped counts as not in the graph.
#[derive(Drop)]
pub struct Scan {
    n: u32,
    root: u32,
    cap: u64,

    // A tree of maxima over the keys of all numbers below 2^height, a power of two above n. The
    // key of a waiting vertex is one more than its link, all others are 0.
    height: u32,
    size: usize,
    tree: Vec<u64>,

    // a mark for each scanned vertex, and these vertices, latest first, from `free` on
    scanned: Vec<bool>,
    order: Vec<u32>,
    free: usize,

    // the weight of the set of the scanned vertices
    prefix: u64,
}

impl Model for Scan {
    ghost use Rattle.std.specs.Prelude.{drop};
    ghost use Rattle.capped_scan.specs.Scan.{ScanState, IsLaidOut};

    ghost Value = { ScanState };

    ghost view = { λ s. record {
      vertices = s.n;
      root = s.root;
      cap = s.cap;
      order = drop s.free s.order.items;
      prefix = s.prefix;
      keys = drop s.size s.tree.items;
    } };

    ghost invariant = { λ s. IsLaidOut s.n s.root s.size s.height s.free s.tree.items s.order.items s.scanned.items };
}

impl Scan {
    ghost use Rattle.capped_scan.specs.Scan.{ScanState, StandsFor, IsChoice, IsStarted, IsWithout, IsNext, IsAbsorbed, IsRowOf, NoneWaits, waits, link_of, rank};

    /// A scan of the graph that begins at vertex 1 with the cap 0. Without a vertex, nothing
    /// waits.
    ///
    /// It takes time and memory O(n), which is all the memory that the scan ever takes. It fails
    /// only if it runs out of memory.
    pub fn new(alloc: Global, graph: &Graph) -> Result<Scan, NoMemory>
        ensures stands { IfOk result (λ s. StandsFor s graph.now) }
        ensures started { 1 ≤ graph.now.vertices → IfOk result (λ s. IsStarted s graph.now.vertices 1 0) }
    {
        let n = graph.n();
        let places = n as usize + 1;
        let mut size = 1;
        let mut height = 0;
        while size < places {
            size *= 2;
            height += 1;
        }
        let mut scan = Scan {
            n,
            root: n.min(1),
            cap: 0,
            height,
            size,
            tree: vec![in alloc; 0u64; 2 * size]?,
            scanned: vec![in alloc; false; places]?,
            order: vec![in alloc; 0u32; places]?,
            free: places,
            prefix: 0,
        };
        scan.restart(n.min(1), 0);
        Ok(scan)
    }

    /// Starts anew: nothing is scanned or dropped, and the scan begins at the root, a vertex of 1
    /// to n. With the cap 0 every link is 0. O(n).
    pub fn start(&mut self, root: u32, cap: u64)
        requires root_from_one { 1 ≤ root }
        requires root_to_n { root ≤ self.old.vertices }
        ensures started { IsStarted self.new self.old.vertices root cap }
        ensures stands { (g : Graph) → StandsFor self.old g → StandsFor self.new g }
    {
        self.restart(root, cap);
    }

    /// The vertex that `next` would scan; nothing changes. None exactly if every vertex is scanned
    /// or dropped.
    pub fn peek(&mut self, graph: &Graph) -> Option<u32>
        requires { StandsFor self.old graph.now }
        ensures unchanged { self.new ≡ self.old }
        ensures none { (result ≡ None) ↔ NoneWaits self.old }
        ensures choice { IfSome result (λ x. IsChoice self.old x) }
    {
        self.choose()
    }

    /// Scans a vertex: first the root, unless it was dropped, then in each turn one with the
    /// greatest link, the least number among ties. None exactly if every vertex is scanned or
    /// dropped.
    pub fn next(&mut self, graph: &Graph) -> Option<Scanned>
        requires { StandsFor self.old graph.now }
        ensures stands { StandsFor self.new graph.now }
        ensures none { (result ≡ None) ↔ NoneWaits self.old }
        ensures unchanged { IfNone result (self.new ≡ self.old) }
        ensures scanned { IfSome result (λ s. IsNext graph.now self.old self.new s.vertex s.prefix_weight s.all) }
    {
        let vertex = self.choose()?;
        let inside = self.absorb(graph.row(vertex), vertex);
        self.prefix = self.prefix + graph.degree(vertex) - 2 * inside;
        Some(Scanned {
            vertex,
            prefix_weight: self.prefix,
            all: self.free == 1,
        })
    }

    /// The smaller of the cap and the weight from the scanned vertices to a vertex of 1 to n. It
    /// is 0 if that vertex is scanned or dropped, or nothing is scanned. Every cut that separates
    /// it from the vertex scanned last weighs at least that.
    pub fn link(&self, graph: &Graph, y: u32) -> u64
        requires stands { StandsFor self.now graph.now }
        requires from_one { 1 ≤ y }
        requires to_n { y ≤ graph.now.vertices }
        ensures waiting { waits self.now y ≡ true → result ≡ rank graph.now self.now y }
        ensures not_waiting { waits self.now y ≡ false → result ≡ 0 }
        ensures lower { (x : ℕ) (before : List ℕ) (s : VertexSet) → self.now.order ≡ x ∷ before → parts s x y ≡ true → result ≤ weight graph.now s }
    {
        self.tree[self.size + y as usize].saturating_sub(1)
    }

    /// Drops a vertex of 1 to n that is not scanned, so that it never will be. O(log n).
    pub fn drop_vertex(&mut self, y: u32)
        requires from_one { 1 ≤ y }
        requires to_n { y ≤ self.old.vertices }
        requires not_scanned { has self.old.order y ≡ false }
        ensures dropped { IsWithout self.old self.new y }
        ensures stands { (g : Graph) → StandsFor self.old g → StandsFor self.new g }
    {
        let leaf = self.size + y as usize;
        write(self.tree.as_mut_slice(), self.size, leaf, 0);
    }

    /// Starts anew from a root with a cap.
    fn restart(&mut self, root: u32, cap: u64)
        requires { root ≤ self.old.vertices }
        ensures started { IsStarted self.new self.old.vertices root cap }
        ensures prefix { self.new.prefix ≡ 0 }
        ensures keys { (v : ℕ) → waits self.new v ≡ true → (1 ≤ v) × (v ≤ self.old.vertices) }
    {
        self.root = root;
        self.cap = cap;
        self.prefix = 0;
        self.free = self.order.len();
        self.scanned.as_mut_slice().fill(false);
        write_ones(self.tree.as_mut_slice(), self.size, self.n as usize);
    }

    /// The vertex that is scanned next.
    fn choose(&self) -> Option<u32>
        ensures none { (result ≡ None) ↔ NoneWaits self.now }
        ensures choice { IfSome result (λ x. IsChoice self.now x) }
    {
        let tree = self.tree.as_slice();
        if self.free == self.order.len() && tree[self.size + self.root as usize] > 0 {
            return Some(self.root);
        }
        let leaf = first_greatest(tree, self.height);
        if tree[leaf] == 0 {
            return None;
        }
        Some((leaf - self.size) as u32)
    }

    /// Scans a waiting vertex, and raises the keys along its row. It returns the weight of the row
    /// to the vertices scanned before.
    fn absorb(&mut self, row: &[Arc], x: u32) -> u64
        requires waiting { waits self.old x ≡ true }
        requires row { IsRowOf self.old.vertices row.now }
        requires small { (v : ℕ) → link_of self.old v ≤ 2 ^ 61 }
        requires capped { (v : ℕ) → link_of self.old v ≤ self.old.cap }
        ensures absorbed { IsAbsorbed self.old self.new x row.now }
        ensures inside { result ≡ sum_by (λ (a : Arc). if has self.old.order a.to then a.weight else 0) row.now }
    {
        let tree = self.tree.as_mut_slice();
        write(tree, self.size, self.size + x as usize, 0);
        let inside = raise_along(row, self.cap, self.scanned.as_slice(), tree, self.size);
        self.scanned[x as usize] = true;
        self.free -= 1;
        self.order[self.free] = x;
        inside
    }
}
