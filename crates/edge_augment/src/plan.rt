//! Augmentations as they are returned.

ghost use Rattle.std.specs.Prelude.{◌≡◌, ◌<◌, Some, length, slice_get};

use rooted_cactus::VertexList;
use std::marker::Model;

/// New edges of weight 1 that raise the value of a graph, and the sets that show that fewer do
/// not.
///
/// Contracts see the edges as pairs and the sets as lists.
#[derive(Drop)]
pub struct Plan {
    edges: Vec<(u32, u32)>,
    sets: Vec<VertexList>,
}

impl Model for Plan {
    ghost use Rattle.edge_augment.specs.Augmentations.{Augmentation};

    ghost Value = { Augmentation };

    ghost view = { λ p. record { edges = p.edges.items; sets = p.sets.items } };
}

impl Plan {
    /// The plan of some edges and sets, which are taken over.
    pub(crate) fn new(edges: Vec<(u32, u32)>, sets: Vec<VertexList>) -> Plan
        ensures { result ≡ record { edges = edges.items; sets = sets.items } }
    {
        Plan { edges, sets }
    }

    /// The new edges as a borrowed slice, ascending: each once, with its lesser vertex first.
    pub fn edges(&self) -> &[(u32, u32)]
        ensures { result.now ≡ self.now.edges }
    {
        &self.edges
    }

    /// The number of the sets.
    pub fn sets(&self) -> usize
        ensures { result ≡ length self.now.sets }
    {
        self.sets.len()
    }

    /// The vertices of a set, ascending, as a borrowed slice. Sets are counted from 0, in the
    /// order of lists.
    pub fn set(&self, i: usize) -> &[u32]
        requires { i < length self.now.sets }
        ensures { slice_get self.now.sets i ≡ Some result.now }
    {
        self.sets[i].as_slice()
    }
}
