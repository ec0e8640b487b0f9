//! The rooted cactus over the vertices 1 to n.

ghost use Rattle.std.specs.Prelude.{◌≡◌, ◌≤◌, ◌+◌, ◌-◌, ◌^◌, [], IfOk, length, map, min, true};
ghost use Rattle.std.specs.List.{range_with_len};
ghost use Rattle.rooted_cactus.specs.Trees.{blocks, vertices};
ghost use Rattle.rooted_cactus.specs.Entered.{entered};
ghost use Rattle.rooted_cactus.specs.Rooted.{Rooted, IsCactus, sides_of};
ghost use Rattle.rooted_cactus.specs.Sides.{cuts};
ghost use Rattle.rooted_cactus.specs.Spread.{AreClasses, spread_set};
ghost use Rattle.rooted_cactus.specs.Widths.{widths};
ghost use Rattle.cut_definitions.specs.Contraction.{lift};
ghost use Rattle.rooted_cactus.specs.Normal.{is_normal};
ghost use Rattle.rooted_cactus.specs.Different.{HasDifferent, HasNoEmptySide, HaveSameSides};
ghost use Rattle.rooted_cactus.specs.Formula.{census};
ghost use Rattle.rooted_cactus.specs.Numbers.{number, total, triangle};

use crate::tree::{
    Blocks, Node, TrimmingMaker, blocks_are_normal, count_cuts, count_node, entries_of,
    is_normal_below, number_of, put_together, spread_node,
};
use crate::vertex_list::VertexList;
use cut_definitions::NoMemory;
use std::alloc::Global;
use std::marker::Model;

/// A tree of nodes, joined by bridges and cycles, in which each of the vertices 1 to n is in
/// exactly one node.
///
/// Vertex 1 is in the root, the vertices of each node ascend, and each cycle has two or more nodes
/// below its upper one.
#[derive(Drop)]
pub struct Cactus {
    n: u32,
    root: Node,
}

impl Model for Cactus {
    ghost use Rattle.rooted_cactus.specs.Rooted.{Rooted, IsCactus};
    ghost use Rattle.rooted_cactus.specs.contracts.tree.Node as node;
    ghost use Rattle.std.specs.Coded.{codes};

    ghost Value = { Rooted };

    ghost coded = { Prim.hlevel (codes, node.the_row.coded) };

    ghost view = { λ c. record { vertices = c.n; root = c.root } };

    ghost invariant = { λ c. IsCactus c.n c.root };
}

/// The ascending list of the vertices 1 to n.
fn all_vertices(alloc: Global, n: u32) -> Result<VertexList, NoMemory>
    ensures { IfOk result (λ l. l ≡ range_with_len 1 n) }
{
    let mut list = VertexList::with_capacity(alloc, n as usize)?;
    'vertices: for v in 0..n {
        list.push(v + 1)?;
    }
    Ok(list)
}

impl Cactus {
    /// The cactus of one node with all vertices, which has no cut. It takes n steps and 4n bytes,
    /// and fails only if it runs out of memory.
    pub fn single(alloc: Global, n: u32) -> Result<Cactus, NoMemory>
        requires { 1 ≤ n }
        ensures n { IfOk result (λ c. c.vertices ≡ n) }
        ensures vertices { IfOk result (λ c. vertices c.root ≡ range_with_len 1 n) }
        ensures blocks { IfOk result (λ c. blocks c.root ≡ []) }
    {
        let vertices = all_vertices(alloc, n)?;
        let root = Node {
            vertices,
            blocks: Blocks::new(alloc),
        };
        Ok(Cactus { n, root })
    }

    /// The cactus of a finished tree, which is taken over. One step; it takes no memory.
    pub fn from_root(n: u32, root: Node) -> Cactus
        requires { IsCactus n root }
        ensures { result ≡ record { vertices = n; root = root } }
    {
        Cactus { n, root }
    }

    /// Returns the tree, and takes the cactus over. One step; it takes no memory.
    pub fn into_root(self) -> Node
        ensures value { result ≡ self.root }
        ensures cactus { IsCactus self.vertices result }
    {
        self.root
    }

    /// The root, which has vertex 1.
    pub fn root(&self) -> &Node
        ensures value { result.now ≡ self.now.root }
        ensures cactus { IsCactus self.now.vertices self.now.root }
    {
        &self.root
    }

    /// The number of vertices.
    pub fn n(&self) -> u32
        ensures value { result ≡ self.now.vertices }
        ensures cactus { IsCactus self.now.vertices self.now.root }
    {
        self.n
    }

    /// The number of nodes, or 2^64 - 1 if there are more. It takes one step for each node and no
    /// memory, and calls itself once for each level of the tree.
    pub fn nodes(&self) -> u64
        ensures { result ≡ min (length (entered self.now.root)) (2 ^ 64 - 1) }
    {
        count_node(&self.root)
    }

    /// Whether every cycle has three or more nodes, and every empty node lies in two or more
    /// blocks. If an empty node lies in exactly two blocks, both have to be cycles.
    ///
    /// It takes one step for each node and no memory, and calls itself once for each level of the
    /// tree.
    pub fn is_normal(&self) -> bool
        ensures { result ≡ is_normal self.now.root }
    {
        blocks_are_normal(&self.root.blocks)
    }

    /// Whether the cactus is normal, as from `is_normal`, by a loop with a stack, so that a deep
    /// tree does not overflow the call stack.
    ///
    /// It takes one step for each node and block, and memory for the nodes on the stack, at most 8
    /// bytes a node. It fails only if it runs out of memory.
    pub fn is_normal_within(&self, alloc: Global) -> Result<bool, NoMemory>
        ensures { IfOk result (λ b. b ≡ is_normal self.now.root) }
    {
        let is_normal = is_normal_below(alloc, self.root())?;
        Ok(is_normal)
    }

    /// The cactus without what can be spared. It is normal, and has the same set of sides.
    ///
    /// No side of the cactus may be empty. A bridge to an empty node with one other block is
    /// replaced by that block. In a cycle, an empty node that has a bridge alone is replaced by
    /// the node below that bridge. The rest of the tree keeps its form.
    ///
    /// The tree is taken over and its nodes are moved. It takes one step for each node and block,
    /// in loops, so that a deep tree does not overflow the call stack. It takes memory in
    /// proportion to the nodes, and fails only if it runs out of memory; the cactus is dropped
    /// then.
    pub fn normal(self, alloc: Global) -> Result<Cactus, NoMemory>
        requires { HasNoEmptySide self }
        ensures n { IfOk result (λ c. c.vertices ≡ self.vertices) }
        ensures normal { IfOk result (λ c. is_normal c.root ≡ true) }
        ensures sides { IfOk result (λ c. HaveSameSides c self) }
    {
        let n = self.n();
        let entries = entries_of(alloc, self.into_root(), n as usize)?;
        let root = put_together::<TrimmingMaker>(alloc, entries)?;
        Ok(Cactus::from_root(n, root))
    }

    /// The number of the different sides of the cuts of a normal cactus over at most 4,194,304
    /// vertices.
    ///
    /// Each bridge counts 1, and each cycle of k nodes k (k - 1) / 2. From the sum is taken the
    /// number of the empty nodes that lie in exactly two blocks, both cycles: only there do two
    /// cuts have the same side.
    ///
    /// It takes one step for each node and block and no memory, and calls itself once for each
    /// level of the tree. For a tree that may be deep there is `count_within`, which works by
    /// loops.
    pub fn count(&self) -> u64
        requires normal { is_normal self.now.root ≡ true }
        requires few { self.now.vertices ≤ 4194304 }
        ensures number { result ≡ number self.now.root }
        ensures blocks { result + (census self.now.root).empties ≡ (census self.now.root).bridges + total (map triangle (widths self.now.root)) }
        ensures sides { HasDifferent result (sides_of self.now) }
    {
        number_of(self.root())
    }

    /// The number of the sides, as from `count`, by a loop with a stack, so that a deep tree does
    /// not overflow the call stack.
    ///
    /// It takes one step for each node and block, and memory for the nodes on the stack, at most 8
    /// bytes a node. It fails only if it runs out of memory.
    pub fn count_within(&self, alloc: Global) -> Result<u64, NoMemory>
        requires normal { is_normal self.now.root ≡ true }
        requires few { self.now.vertices ≤ 4194304 }
        ensures number { IfOk result (λ k. k ≡ number self.now.root) }
        ensures blocks { IfOk result (λ k. k + (census self.now.root).empties ≡ (census self.now.root).bridges + total (map triangle (widths self.now.root))) }
        ensures sides { IfOk result (λ k. HasDifferent k (sides_of self.now)) }
    {
        let number = count_cuts(alloc, self.root())?;
        Ok(number)
    }

    /// Replaces each vertex of the cactus by those vertices of 1 to n that have it as their class.
    ///
    /// Each side becomes the set of the vertices whose class is in it, and the tree keeps its
    /// form. It takes O(n log n) to gather and sort the vertices, and one step for each node. It
    /// works by loops, so that a deep tree does not overflow the call stack. It takes memory in
    /// proportion to n and the nodes, and fails only if it runs out of memory; the cactus is
    /// dropped then.
    pub fn spread(self, alloc: Global, n: u32, classes: &[u32]) -> Result<Cactus, NoMemory>
        requires { AreClasses n self.vertices classes.now }
        ensures n { IfOk result (λ c. c.vertices ≡ n) }
        ensures lists { IfOk result (λ c. entered c.root ≡ map (lift classes.now) (entered self.root)) }
        ensures cuts { IfOk result (λ c. cuts c.root ≡ map (spread_set n classes.now) (cuts self.root)) }
        ensures sides { IfOk result (λ c. sides_of c ≡ map (lift classes.now) (sides_of self)) }
        ensures widths { IfOk result (λ c. widths c.root ≡ widths self.root) }
    {
        let root = spread_node(alloc, self.root, classes, self.n)?;
        Ok(Cactus { n, root })
    }
}
