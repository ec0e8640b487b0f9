//! The insertions of a command.

ghost use Rattle.std.specs.Prelude.{◌≡◌, ◌∷◌, ◌++◌, [], OnOk};

use cut_definitions::NoMemory;
use std::alloc::Global;
use std::marker::Model;

/// Insertions of edges, in their order: two vertices and a weight each. Contracts see the list.
#[derive(Debug, Drop)]
pub struct Insertions {
    items: Vec<(u64, u64, u64)>,
}

impl Model for Insertions {
    ghost use Rattle.program_words.specs.Insertions.{Insertion};
    ghost use Rattle.std.specs.Prelude.{List};

    ghost Value = { List Insertion };

    ghost view = { λ i. i.items.items };
}

impl Insertions {
    ghost use Rattle.std.specs.Prelude.{◌≡◌, ◌<◌, ◌∷◌, ◌++◌, [], Some, OnOk, length, slice_get};

    /// No insertions. It takes no memory.
    pub fn new(alloc: Global) -> Insertions
        ensures { result ≡ [] }
    {
        Insertions {
            items: Vec::new(alloc),
        }
    }

    /// Appends an insertion: two vertices and a weight. It fails only if it runs out of memory.
    pub fn push(&mut self, insertion: (u64, u64, u64)) -> Result<(), NoMemory>
        ensures { OnOk result (self.new ≡ self.old ++ insertion ∷ []) }
    {
        self.items.push(insertion)?;
        Ok(())
    }

    /// The number of insertions.
    pub fn len(&self) -> usize
        ensures { result ≡ length self.now }
    {
        self.items.len()
    }

    /// The insertion at a place, counted from 0: two vertices and a weight.
    pub fn at(&self, i: usize) -> (u64, u64, u64)
        requires { i < length self.now }
        ensures { slice_get self.now i ≡ Some result }
    {
        self.items[i]
    }
}
