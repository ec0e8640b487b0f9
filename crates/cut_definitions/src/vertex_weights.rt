//! The masses of the vertices, by which the balance of a cut is measured.

ghost use Rattle.std.specs.Prelude.{◌≡◌, ◌↔◌, ◌+◌, ◌++◌, ◌≤◌, [], length, replicate, IsTrue};
ghost use Rattle.cut_definitions.specs.Balance.{AreMasses, mass_of};

use std::marker::Model;

/// A mass of 0 or more for each of the vertices 1 to n, with n at most 4,194,304. Contracts see
/// the list of the masses in the order of the vertices. Trailing masses of 1 need no memory.
#[derive(Drop)]
pub struct VertexWeights {
    masses: Vec<u64>,
    // how many vertices after these have a mass of 1
    ones: u32,
}

impl Model for VertexWeights {
    ghost use Rattle.std.specs.Prelude.{ℕ, List, ◌++◌, replicate};
    ghost use Rattle.cut_definitions.specs.Balance.{AreMasses};

    ghost Value = { List ℕ };

    ghost view = { λ w. w.masses.items ++ replicate w.ones 1 };

    ghost invariant = { λ w. AreMasses (w.masses.items ++ replicate w.ones 1) };
}

impl VertexWeights {
    /// The masses in a list, one for each vertex. The list is taken over; no memory is taken.
    pub fn from_list(list: Vec<u64>) -> VertexWeights
        requires { length list.items ≤ 4194304 }
        ensures { result ≡ list.items }
    {
        VertexWeights::with_ones(list, 0)
    }

    /// The masses in a list, followed by `ones` masses of 1. The list is taken over; no memory is
    /// taken.
    pub fn with_ones(list: Vec<u64>, ones: u32) -> VertexWeights
        requires { length list.items + ones ≤ 4194304 }
        ensures { result ≡ list.items ++ replicate ones 1 }
    {
        VertexWeights { masses: list, ones }
    }

    /// The number n of vertices.
    pub fn len(&self) -> u32
        ensures value { result ≡ length self.now }
        ensures masses { AreMasses self.now }
    {
        self.masses.len() as u32 + self.ones
    }

    /// Whether there is no vertex.
    pub fn is_empty(&self) -> bool
        ensures { IsTrue result ↔ (self.now ≡ []) }
    {
        self.len() == 0
    }

    /// The mass of vertex v, from 1 to n.
    pub fn of(&self, v: u32) -> u64
        requires from_one { 1 ≤ v }
        requires to_n { v ≤ length self.now }
        ensures { result ≡ mass_of self.now v }
    {
        let place = v as usize - 1;
        if place < self.masses.len() {
            return self.masses[place];
        }
        1
    }
}
