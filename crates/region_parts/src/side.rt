//! The two sides from which the parts of a region are listed.

ghost use Rattle.std.specs.Prelude.{◌≡◌};
ghost use Rattle.region_parts.specs.Sided.{direction_of, other_side};

use arc_search::Direction;

/// From which side the parts of a region around `t` are listed.
#[derive(Clone, Copy, Debug, PartialEq, Eq)]
pub enum Side {
    /// From the part of `t`, against the arcs.
    Inner,
    /// From the part with all that is outside the region, along the arcs.
    Outer,
}

impl Side {
    /// Which way the searches of this side go.
    pub fn direction(self) -> Direction
        ensures { result ≡ direction_of self }
    {
        match self {
            Side::Inner => Direction::Against,
            Side::Outer => Direction::Along,
        }
    }

    /// The other side.
    pub fn other(self) -> Side
        ensures { result ≡ other_side self }
    {
        match self {
            Side::Inner => Side::Outer,
            Side::Outer => Side::Inner,
        }
    }
}
