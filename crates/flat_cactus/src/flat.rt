//! The flat cactus: nodes, bridges and cycles by the numbers of the nodes.

ghost use Rattle.std.specs.Prelude.{◌≡◌, ◌<◌, ◌+◌, [], ◌∷◌, ◌++◌, slice_range, IfOk, OnOk, OnErr, Some, length, slice_get};
ghost use Rattle.flat_cactus.specs.Flat.{AreStarts, appended_to_last, cut_at, items_in, start_of};

use cut_definitions::NoMemory;
use std::alloc::Global;
use std::marker::Model;

/// A cactus whose nodes are numbered from 0: the vertices of each node, the bridges as pairs of
/// node numbers, and the cycles as lists of node numbers.
///
/// Its lists may be any; only what is built from a tree or read from a text is surely a cactus.
/// The vertices of all nodes are in one vector, and the members of all cycles in another. Each has
/// a vector of the places where the lists begin.
#[derive(Drop)]
pub struct FlatCactus {
    n: u32,
    vertices: Vec<u32>,
    node_starts: Vec<usize>,
    bridges: Vec<(u64, u64)>,
    members: Vec<u64>,
    cycle_starts: Vec<usize>,
}

impl Model for FlatCactus {
    ghost use Rattle.std.specs.Prelude.{length};
    ghost use Rattle.flat_cactus.specs.Flat.{Flat, AreStarts, BeginsFirst, cut_at};

    ghost Value = { Flat };

    ghost view = { λ c. record {
      vertices = c.n;
      nodes = cut_at c.node_starts.items c.vertices.items;
      bridges = c.bridges.items;
      cycles = cut_at c.cycle_starts.items c.members.items;
    } };

    ghost invariant = { λ c. AreStarts c.node_starts.items (length c.vertices.items) × AreStarts c.cycle_starts.items (length c.members.items) × BeginsFirst c.node_starts.items (length c.vertices.items) × BeginsFirst c.cycle_starts.items (length c.members.items) };
}

/// The list with this number, among the lists that begin at the places.
fn list_at<'a, T>(items: &'a [T], starts: &[usize], i: usize) -> &'a [T]
    requires starts { AreStarts starts.now (length items.now) }
    requires number { i < length starts.now }
    ensures { result.now ≡ slice_range items.now (start_of starts.now (length items.now) i) (start_of starts.now (length items.now) (i + 1)) }
{
    match starts.get(i + 1) {
        Some(next) => &items[starts[i]..*next],
        None => &items[starts[i]..],
    }
}

impl FlatCactus {
    /// The flat cactus without nodes, bridges and cycles, for vertices of 1 to n. It takes no
    /// memory.
    pub fn new(alloc: Global, n: u32) -> FlatCactus
        ensures { result ≡ record { vertices = n; nodes = []; bridges = []; cycles = [] } }
    {
        FlatCactus {
            n,
            vertices: Vec::new(alloc),
            node_starts: Vec::new(alloc),
            bridges: Vec::new(alloc),
            members: Vec::new(alloc),
            cycle_starts: Vec::new(alloc),
        }
    }

    /// The flat cactus without nodes, bridges and cycles, for vertices of 1 to n. It has room for
    /// all vertices, for `nodes` nodes, and for as many bridges and members of cycles. It fails
    /// only if it runs out of memory.
    pub fn with_capacity(alloc: Global, n: u32, nodes: usize) -> Result<FlatCactus, NoMemory>
        ensures { IfOk result (λ f. f ≡ record { vertices = n; nodes = []; bridges = []; cycles = [] }) }
    {
        let vertices = Vec::with_capacity(alloc, n as usize)?;
        let node_starts = Vec::with_capacity(alloc, nodes)?;
        let bridges = Vec::with_capacity(alloc, nodes)?;
        let members = Vec::with_capacity(alloc, nodes)?;
        Ok(FlatCactus {
            n,
            vertices,
            node_starts,
            bridges,
            members,
            cycle_starts: Vec::new(alloc),
        })
    }

    /// Appends a node without vertices. If it runs out of memory, the cactus is unchanged.
    pub fn push_node(&mut self) -> Result<(), NoMemory>
        ensures ok { OnOk result (self.new ≡ record self.old { nodes = self.old.nodes ++ [] ∷ [] }) }
        ensures err { OnErr result (self.new ≡ self.old) }
    {
        self.node_starts.push(self.vertices.len())?;
        Ok(())
    }

    /// Appends a vertex to the last node. If it runs out of memory, the cactus is unchanged.
    pub fn push_vertex(&mut self, v: u32) -> Result<(), NoMemory>
        requires { 0 < length self.old.nodes }
        ensures ok { OnOk result (self.new ≡ record self.old { nodes = appended_to_last self.old.nodes v }) }
        ensures err { OnErr result (self.new ≡ self.old) }
    {
        self.vertices.push(v)?;
        Ok(())
    }

    /// Appends a bridge between the nodes with these numbers. If it runs out of memory, the cactus
    /// is unchanged.
    pub fn push_bridge(&mut self, i: u64, j: u64) -> Result<(), NoMemory>
        ensures ok { OnOk result (self.new ≡ record self.old { bridges = self.old.bridges ++ (i, j) ∷ [] }) }
        ensures err { OnErr result (self.new ≡ self.old) }
    {
        self.bridges.push((i, j))?;
        Ok(())
    }

    /// Appends a cycle without nodes. If it runs out of memory, the cactus is unchanged.
    pub fn push_cycle(&mut self) -> Result<(), NoMemory>
        ensures ok { OnOk result (self.new ≡ record self.old { cycles = self.old.cycles ++ [] ∷ [] }) }
        ensures err { OnErr result (self.new ≡ self.old) }
    {
        self.cycle_starts.push(self.members.len())?;
        Ok(())
    }

    /// Appends the node with this number to the last cycle. If it runs out of memory, the cactus
    /// is unchanged.
    pub fn push_member(&mut self, node: u64) -> Result<(), NoMemory>
        requires { 0 < length self.old.cycles }
        ensures ok { OnOk result (self.new ≡ record self.old { cycles = appended_to_last self.old.cycles node }) }
        ensures err { OnErr result (self.new ≡ self.old) }
    {
        self.members.push(node)?;
        Ok(())
    }

    /// The number of vertices.
    pub fn n(&self) -> u32
        ensures { result ≡ self.now.vertices }
    {
        self.n
    }

    /// The number of nodes.
    pub fn nodes(&self) -> usize
        ensures { result ≡ length self.now.nodes }
    {
        self.node_starts.len()
    }

    /// The vertices of a node, counted from 0, as a borrowed slice.
    pub fn node(&self, i: usize) -> &[u32]
        requires { i < length self.now.nodes }
        ensures { slice_get self.now.nodes i ≡ Some result.now }
    {
        list_at(&self.vertices, &self.node_starts, i)
    }

    /// Where the vertices of each node begin in one list of them all, and that list, as borrowed
    /// slices.
    pub fn node_lists(&self) -> (&[usize], &[u32])
        ensures cut { cut_at result.0.now result.1.now ≡ self.now.nodes }
        ensures total { length result.1.now ≡ items_in self.now.nodes }
    {
        (&self.node_starts, &self.vertices)
    }

    /// Where the members of each cycle begin in one list of them all, and that list, as borrowed
    /// slices.
    pub fn cycle_lists(&self) -> (&[usize], &[u64])
        ensures cut { cut_at result.0.now result.1.now ≡ self.now.cycles }
        ensures total { length result.1.now ≡ items_in self.now.cycles }
    {
        (&self.cycle_starts, &self.members)
    }

    /// All bridges, as a borrowed slice of pairs of node numbers.
    pub fn bridges(&self) -> &[(u64, u64)]
        ensures { result.now ≡ self.now.bridges }
    {
        &self.bridges
    }

    /// The number of cycles.
    pub fn cycles(&self) -> usize
        ensures { result ≡ length self.now.cycles }
    {
        self.cycle_starts.len()
    }

    /// The nodes of a cycle, counted from 0, in their order, as a borrowed slice.
    pub fn cycle(&self, i: usize) -> &[u64]
        requires { i < length self.now.cycles }
        ensures { slice_get self.now.cycles i ≡ Some result.now }
    {
        list_at(&self.members, &self.cycle_starts, i)
    }
}
