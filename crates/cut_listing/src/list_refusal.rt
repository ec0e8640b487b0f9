//! Why there is no listing.

ghost use Rattle.cut_listing.specs.declared.list_refusal.ListRefusal.TheVariants.{NoMemory};
ghost use Rattle.std.specs.Prelude.{◌≡◌};

use std::alloc::AllocError;

/// Why there is no listing.
#[derive(Clone, Copy, Debug, PartialEq, Eq)]
pub enum ListRefusal {
    /// The number of the different sides times n is above 2^30.
    TooLarge {
        /// The number of different sides that are selected.
        cuts: u64,
        /// The number of vertices.
        n: u32,
    },
    /// The call ran out of memory.
    NoMemory,
}

impl From<AllocError> for ListRefusal {
    ghost from_gives = { λ _ e. e ≡ NoMemory };

    fn from(_error: AllocError) -> ListRefusal {
        ListRefusal::NoMemory
    }
}
