ghost use Rattle.std.specs.Prelude.{◌≡◌, ◌≤◌, ◌<◌, ◌+◌, ◌++◌, length, replicate, vec_capacity};

use cut_definitions::{NoMemory, VertexWeights};
use std::alloc::Global;
use std::marker::Model;

/// Appends `ones` masses of 1.
fn write_ones(masses: &mut Vec<u64>, ones: usize)
    requires { length masses.old.items + ones ≤ vec_capacity masses.old }
    ensures items { masses.new.items ≡ masses.old.items ++ replicate ones 1 }
    ensures capacity { vec_capacity masses.new ≡ vec_capacity masses.old }
{
    for _i in 0..ones {
        masses.push_reserved(1);
    }
}

/// The masses of the vertices. Those after the last one that is not 1 take no memory.
#[derive(Drop)]
pub struct MassList {
    masses: Vec<u64>,
    // how many masses of 1 come after these
    ones: usize,
}

impl Model for MassList {
    ghost use Rattle.metis_reader.specs.Numbers.{LineList};
    ghost use Rattle.std.specs.Prelude.{◌++◌, replicate, vec_capacity};

    ghost Value = { LineList };

    ghost view = { λ w. record { items = w.masses.items ++ replicate w.ones 1; room = vec_capacity w.masses } };
}

impl MassList {
    ghost use Rattle.std.specs.Prelude.{◌≡◌, ◌≤◌, ◌<◌, ◌++◌, ◌∷◌, [], IfOk, length};

    pub fn none(alloc: Global) -> MassList
        ensures { result.items ≡ [] }
    {
        MassList {
            masses: Vec::new(alloc),
            ones: 0,
        }
    }

    /// Room for `count` masses.
    pub fn with_capacity(alloc: Global, count: usize) -> Result<MassList, NoMemory>
        ensures items { IfOk result (λ m. m.items ≡ []) }
        ensures room { IfOk result (λ m. m.room ≡ count) }
    {
        Ok(MassList {
            masses: Vec::with_capacity(alloc, count)?,
            ones: 0,
        })
    }

    /// Appends the mass of the next vertex.
    #[inline(always)]
    pub fn push_reserved(&mut self, mass: u64)
        requires { length self.old.items < self.old.room }
        ensures items { self.new.items ≡ self.old.items ++ mass ∷ [] }
        ensures room { self.new.room ≡ self.old.room }
    {
        if mass == 1 {
            self.ones += 1;
            return;
        }
        write_ones(&mut self.masses, self.ones);
        self.ones = 0;
        self.masses.push_reserved(mass);
    }

    /// The masses, without a copy.
    pub fn into_weights(self) -> VertexWeights
        requires { length self.items ≤ 4194304 }
        ensures { result ≡ self.items }
    {
        let MassList { masses, ones } = self;
        VertexWeights::with_ones(masses, ones as u32)
    }
}
