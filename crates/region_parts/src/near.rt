//! What halts a search from beside the list of a side.

ghost use Rattle.std.specs.Prelude.{◌≡◌, ◌<◌, ◌||◌, length};
ghost use Rattle.weighted_graph.specs.Searches.{is_seen};
ghost use Rattle.region_parts.specs.Sided.{stops, stops_halt};

use crate::side::Side;
use arc_search::Halts;
use region_flow::RegionFlow;

/// What halts a search of a side: what always does, what is known to lead to the hub or to come
/// from it, and what the search of the hub has found.
#[derive(Clone, Copy)]
pub struct NearHalts<'a> {
    pub side: Side,
    pub flow: &'a RegionFlow,
    pub t: u32,
    pub good: &'a [bool],
    pub met: &'a [bool],
}

/// Whether a vertex always halts a search of a side:
/// a fed one, but for `t`, where it goes against the arcs, else `t`.
fn always_halts(side: Side, flow: &RegionFlow, t: u32, v: u32) -> bool
    requires { v < length flow.now.feed }
    ensures { result ≡ stops side flow.now t v }
{
    match side {
        Side::Inner => v != t && flow.feed(v) > 0,
        Side::Outer => v == t,
    }
}

impl Halts for NearHalts<'_> {
    ghost halts = { λ h v. stops h.side h.flow.now h.t v || (is_seen h.good.now v || is_seen h.met.now v) };

    ghost must = { λ h v. stops h.side h.flow.now h.t v };

    ghost must_halt = { λ h v is. stops_halt (stops h.side h.flow.now h.t v) (is_seen h.good.now v || is_seen h.met.now v) is };

    ghost can_ask = { λ h v. (v < length h.flow.now.feed) × (v < length h.good.now) × (v < length h.met.now) };

    fn halts(&self, v: u32) -> bool {
        always_halts(self.side, self.flow, self.t, v)
            || self.good[v as usize]
            || self.met[v as usize]
    }
}
