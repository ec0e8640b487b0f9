//! Why there may be no answer, and the number that tells it.

ghost use Rattle.std.specs.Prelude.{◌≡◌};
ghost use Rattle.mincut_c.specs.Statuses.{number_of};

use cut_definitions::NoMemory;
use edge_arrays::ArrayFault;

/// Why a call has no answer.
#[derive(Clone, Copy, Debug, PartialEq, Eq, Drop)]
pub(crate) enum Fault {
    /// The arrays give no graph, or memory is wanting.
    Arrays(ArrayFault),
    /// There are no two vertices, so there is no cut.
    NoCut,
    /// The graph is not connected.
    Disconnected,
    /// An output array is too short.
    NoRoom,
    /// There are masses, and not as many as vertices.
    MassCount,
    /// The masses add up to 2^64 or more.
    MassSum,
    /// One of two vertices that are to be separated is n or more.
    NoVertex,
    /// The number of the sides of a list times n is above 2^30.
    TooManySides,
}

impl From<ArrayFault> for Fault {
    ghost use Rattle.std.specs.Prelude.{◌≡◌};
    ghost use Rattle.mincut_c.specs.declared.status.Fault.TheVariants.{Arrays};

    ghost from_gives = { λ fault given. given ≡ Arrays fault };

    fn from(fault: ArrayFault) -> Fault {
        Fault::Arrays(fault)
    }
}

impl From<NoMemory> for Fault {
    ghost use Rattle.std.specs.Prelude.{◌≡◌};
    ghost use Rattle.edge_arrays.specs.declared.arrays.ArrayFault.TheVariants.{OutOfMemory};
    ghost use Rattle.mincut_c.specs.declared.status.Fault.TheVariants.{Arrays};

    ghost from_gives = { λ _ given. given ≡ Arrays OutOfMemory };

    fn from(_e: NoMemory) -> Fault {
        Fault::Arrays(ArrayFault::OutOfMemory)
    }
}

/// The status that tells that a call has its answer.
pub(crate) const OK: u32 = 0;

/// The status that tells that memory was wanting.
pub(crate) const OUT_OF_MEMORY: u32 = 2;

/// The status that tells that an output array is too short.
pub(crate) const NO_ROOM: u32 = 9;

/// The status that tells that a list would have too many sides.
pub(crate) const TOO_MANY_SIDES: u32 = 11;

/// The status that tells of a fault, of 1 to 11.
pub(crate) fn status_of(fault: Fault) -> u32
    ensures { result ≡ number_of fault }
{
    match fault {
        Fault::NoCut => 1,
        Fault::Arrays(ArrayFault::OutOfMemory) => OUT_OF_MEMORY,
        Fault::Arrays(ArrayFault::BadLength) | Fault::MassCount => 3,
        Fault::Arrays(ArrayFault::TooManyVertices) => 4,
        Fault::Arrays(ArrayFault::TooManyEdges) => 5,
        Fault::Arrays(ArrayFault::BadVertex) | Fault::NoVertex => 6,
        Fault::Arrays(ArrayFault::WeightSum) => 7,
        Fault::Disconnected => 8,
        Fault::NoRoom => NO_ROOM,
        Fault::MassSum => 10,
        Fault::TooManySides => TOO_MANY_SIDES,
    }
}
