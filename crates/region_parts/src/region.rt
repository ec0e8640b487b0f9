//! The region that is split.

ghost use Rattle.std.specs.Prelude.{◌≡◌, ◌==◌, ◌&&◌, ◌<◌, not, nat_lt, length, slice_index};
ghost use Rattle.region_parts.specs.Sided.{direction_of};

use crate::region_arcs::RegionArcs;
use crate::side::Side;
use region_flow::RegionFlow;
use weighted_graph::Graph;

/// How many arcs one search of a race looks at, at most, before the other goes on.
pub const STEP: usize = 24;

/// The region of a vertex `t` that an edge joins to the outside, in a flow.
#[derive(Clone, Copy)]
pub struct Region<'a> {
    pub graph: &'a Graph,
    pub flow: &'a RegionFlow,
    pub t: u32,
}

impl<'a> Region<'a> {
    /// The label of the region.
    pub fn label(self) -> u32
        requires { self.t < length self.flow.now.labels }
        ensures { result ≡ slice_index self.entry.flow.now.labels self.entry.t }
    {
        self.flow.label(self.t)
    }

    /// The labels of all vertices.
    pub fn labels(self) -> &'a [u32]
        ensures { result.now ≡ self.entry.flow.now.labels }
    {
        self.flow.labels()
    }

    /// Whether a vertex other than `t` is fed.
    pub fn is_fed(self, v: u32) -> bool
        requires { v < length self.flow.now.feed }
        ensures { result ≡ (not (v == self.entry.t) && nat_lt 0 (slice_index self.entry.flow.now.feed v)) }
    {
        v != self.t && self.flow.feed(v) > 0
    }

    /// The arcs of the searches of a side.
    pub fn arcs(self, side: Side) -> RegionArcs<'a>
        ensures graph { result.graph.now ≡ self.entry.graph.now }
        ensures flow { result.flow.now ≡ self.entry.flow.now }
        ensures direction { result.direction ≡ direction_of side }
    {
        RegionArcs {
            graph: self.graph,
            flow: self.flow,
            direction: side.direction(),
        }
    }
}
