//! Open vertices that share a neighbour outside their region.

ghost use Rattle.std.specs.Prelude.{◌≡◌, ◌+◌, ◌≤◌, IfSome, length, slice_index};
ghost use Rattle.cut_definitions.specs.Regions.{IsOpenAt};
ghost use Rattle.region_sweep.specs.Across.{IsJoinedIn};

use weighted_graph::Graph;

/// How long the rows may be that are looked at.
const LONG_ROW: usize = 32;

/// The first vertex of a region in the row of `p`, but for `t`.
fn first_of_region(graph: &Graph, labels: &[u32], p: u32, region: u32, t: u32) -> Option<u32>
    requires to_n { p ≤ graph.now.vertices }
    requires labels { length labels.now ≡ graph.now.vertices + 1 }
    ensures { IfSome result (IsJoinedIn graph.now labels.now p region) }
{
    let row = graph.row(p);
    if row.len() > LONG_ROW {
        return None;
    }
    for arc in row {
        if arc.to != t && labels[arc.to as usize] == region {
            return Some(arc.to);
        }
    }
    None
}

/// An open vertex of the region of `t`, other than `t`, that an edge joins to a vertex outside
/// which one joins to `t` too. Rows of more than 32 arcs are passed over, so it takes some
/// thousand steps at most. No answer rests on which it is.
pub fn open_across(graph: &Graph, labels: &[u32], t: u32) -> Option<u32>
    requires to_n { t ≤ graph.now.vertices }
    requires labels { length labels.now ≡ graph.now.vertices + 1 }
    requires outside { 1 ≤ slice_index labels.now t }
    ensures { IfSome result (IsOpenAt graph.now labels.now) }
{
    let region = labels[t as usize];
    let row = graph.row(t);
    if row.len() > LONG_ROW {
        return None;
    }
    for arc in row {
        if labels[arc.to as usize] == region {
            continue;
        }
        if let Some(v) = first_of_region(graph, labels, arc.to, region, t) {
            return Some(v);
        }
    }
    None
}
