//! How far the ends of edges are from each other.

ghost use Rattle.std.specs.Prelude.{◌↔◌, ◌-◌, ◌/◌, ◌<◌, IsTrue, length, nat_lt, not};
ghost use Rattle.std.specs.List.{count_by};
ghost use Rattle.cut_definitions.specs.declared.edge_list.Edge.{Edge};

use cut_definitions::Edge;

/// Whether the ends of more than half of the edges differ by `distance` or more, as numbers of
/// vertices. O(m).
pub fn most_lead_far(edges: &[Edge], distance: u32) -> bool
    ensures { IsTrue result ↔ (length edges.now / 2 < count_by (λ (e : Edge). not (nat_lt (e.v - e.u) distance)) edges.now) }
{
    let mut far = 0usize;
    for edge in edges {
        if edge.v.saturating_sub(edge.u) >= distance {
            far += 1;
        }
    }
    far > edges.len() / 2
}
