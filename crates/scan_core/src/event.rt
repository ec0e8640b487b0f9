//! The events of the machine.

use vertex_set::Side;

/// A step of the machine, by the seat with this number. Edges are counted from 0, vertices and
/// seats from 1.
#[derive(Drop)]
pub enum Event {
    /// The seat sees the bound.
    Load { seat: u32 },
    /// The bound becomes the lesser of itself and the weight of the side, and the seat sees it.
    Lower { seat: u32, side: Side },
    /// Nothing changes; the seat checks whether the edge is marked.
    IsMarked { seat: u32, edge: u32 },
    /// The edge becomes marked, and a member of the seat's set.
    Mark { seat: u32, edge: u32 },
    /// The seat sees the bound, and a new seat has seen the same.
    Split { seat: u32 },
    /// The seat takes over what the other knows, and sees the bound; the other ends.
    Join { seat: u32, other: u32 },
    /// The vertex becomes taken and known to the seat. The seat has won it if it was not taken
    /// before.
    Take { seat: u32, vertex: u32 },
}
