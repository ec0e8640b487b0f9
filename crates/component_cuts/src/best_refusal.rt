//! Why there is no best cut.

ghost use Rattle.component_cuts.specs.declared.best_refusal.BestRefusal.TheVariants.{NoMemory};
ghost use Rattle.std.specs.Prelude.{◌≡◌};

use std::alloc::AllocError;

/// Why a best cut was not computed.
#[derive(Clone, Copy, Debug, PartialEq, Eq)]
pub enum BestRefusal {
    /// The number of components times one more than the sum of all weights is above 2^32.
    TooLarge {
        /// The number of components.
        components: u32,
        /// The sum of all weights.
        total: u128,
    },
    /// The call ran out of memory.
    NoMemory,
}

impl From<AllocError> for BestRefusal {
    ghost from_gives = { λ _ e. e ≡ NoMemory };

    fn from(_error: AllocError) -> BestRefusal {
        BestRefusal::NoMemory
    }
}
