//! Labels, which give each vertex a class; a contraction makes each class one vertex.

ghost use Rattle.std.specs.Prelude.{◌≡◌, ℕ, ◌≤◌, IfOk, length, map};
ghost use Rattle.cut_definitions.specs.Contraction.{label, classes, lift, IsLabels};
ghost use Rattle.vertex_classes.specs.Classes.{no_vertex, AreNumbersOf, Respects};
ghost use Rattle.weighted_graph.specs.Labels.{AreKept};

use cut_definitions::NoMemory;
use std::alloc::Global;
use std::marker::Model;
use vertex_classes::Classes;
use vertex_set::Side;

/// A class of 1 to k for each of the vertices 1 to n. Each class is used, and vertex 1 is in class
/// 1. There are at most 4,194,304 vertices. Contracts see the list of the classes in the order of
/// the vertices.
#[derive(Drop)]
pub struct Labels {
    class_of: Vec<u32>,
    count: u32,
}

impl Model for Labels {
    ghost use Rattle.std.specs.Prelude.{ℕ, List};
    ghost use Rattle.weighted_graph.specs.Labels.{AreKept};

    ghost Value = { List ℕ };

    ghost view = { λ l. l.class_of.items };

    ghost invariant = { λ l. AreKept l.class_of.items l.count };
}

impl Labels {
    /// The labels in a list, which has one for each vertex and is taken over. It takes no memory,
    /// and O(n) steps.
    pub fn from_list(list: Vec<u32>) -> Labels
        requires labels { IsLabels list.items }
        requires few { length list.items ≤ 4194304 }
        ensures { result ≡ list.items }
    {
        let mut count = 0;
        for class in &list {
            count = count.max(*class);
        }
        Labels {
            class_of: list,
            count,
        }
    }

    /// The labels that number classes of vertices in the order of their least vertices. The number
    /// 0 is alone in its class. It takes 4 bytes a vertex, and fails only if it runs out of
    /// memory.
    pub fn of_classes(alloc: Global, classes: &Classes) -> Result<Labels, NoMemory>
        requires { Respects classes.now no_vertex }
        ensures { IfOk result (AreNumbersOf classes.now) }
    {
        let numbers = classes.numbers(alloc)?;
        Ok(Labels::from_list(numbers))
    }

    /// The class of a vertex of 1 to n.
    pub fn label(&self, v: u32) -> u32
        requires from_one { 1 ≤ v }
        requires to_n { v ≤ length self.now }
        ensures value { result ≡ label self.now v }
        ensures from_one { 1 ≤ result }
        ensures to_classes { result ≤ classes self.now }
    {
        self.class_of[v as usize - 1]
    }

    /// The number k of classes.
    pub fn classes(&self) -> u32
        ensures value { result ≡ classes self.now }
        ensures labels { IsLabels self.now }
        ensures few { length self.now ≤ 4194304 }
    {
        self.count
    }

    /// The number n of vertices.
    pub fn n(&self) -> u32
        ensures { result ≡ length self.now }
    {
        self.class_of.len() as u32
    }

    /// The classes of the vertices 1 to n, in their order, as a borrowed slice.
    pub fn as_slice(&self) -> &[u32]
        ensures value { result.now ≡ self.now }
        ensures labels { IsLabels self.now }
    {
        &self.class_of
    }

    /// The composition: first these labels, then `next`, which has a label for each of their
    /// classes. O(n). It fails only if it runs out of memory.
    pub fn compose(&self, alloc: Global, next: &Labels) -> Result<Labels, NoMemory>
        requires { length next.now ≡ classes self.now }
        ensures { IfOk result (λ l. l ≡ map (label next.now) self.now) }
    {
        // known by this call: the labels of `next` are labels,
        // which makes the composed ones labels
        let _next = next.classes();
        let mut composed = Vec::new(alloc);
        for class in &self.class_of {
            composed.push(next.label(*class))?;
        }
        Ok(Labels::from_list(composed))
    }

    /// All vertices whose class is in a set of classes, in O(n). It fails only if it runs out of
    /// memory.
    pub fn lift(&self, alloc: Global, side: &Side) -> Result<Side, NoMemory>
        requires { side.now.vertices ≡ classes self.now }
        ensures { IfOk result (λ s. s ≡ record { vertices = length self.now; members = lift self.now side.now.members }) }
    {
        let n = self.n();
        let mut lifted = Side::empty(alloc, n)?;
        for v in 0..n {
            if side.has(self.label(v + 1)) {
                lifted.insert(v + 1);
            }
        }
        Ok(lifted)
    }
}
