//! The edges of arrays that can cross a cut.

ghost use Rattle.std.specs.Prelude.{ℕ, ◌≡◌, ◌≢◌, ◌+◌, ◌<◌, ◌≤◌, ◌^◌, IfOk, IfErr, length};
ghost use Rattle.std.specs.List.{All, sum_by};
ghost use Rattle.cut_definitions.specs.Graph.{IsEdgeWithin};
ghost use Rattle.cut_definitions.specs.Weight.{VertexSet, parts, weight};
ghost use Rattle.cut_definitions.specs.declared.edge_list.Edge.{Edge};
ghost use Rattle.edge_arrays.specs.Given.{HasEnds, given, total_weight};
ghost use Rattle.weighted_graph.specs.Merging.{term};
ghost use Rattle.edge_arrays.specs.Faults.{ExplainsEntry};

use crate::ArrayFault;
use crate::sums::sum_with;
use cut_definitions::Edge;
use std::alloc::Global;

/// The edge between two vertices that are counted from 0, the lesser first.
fn edge_between(u: u32, v: u32, w: u64) -> Edge
    requires u { u < 4194304 }
    requires v { v < 4194304 }
    requires apart { u ≢ v }
    ensures lesser { result.u < result.v }
    ensures from_one { 1 ≤ result.u }
    ensures to_n { (n : ℕ) → u < n → v < n → result.v ≤ n }
    ensures weight { result.w ≡ w }
    ensures parts { (s : VertexSet) → parts s result.u result.v ≡ parts s (u + 1) (v + 1) }
{
    if u < v {
        Edge {
            u: u + 1,
            v: v + 1,
            w,
        }
    } else {
        Edge {
            u: v + 1,
            v: u + 1,
            w,
        }
    }
}

/// The edges of the arrays without loops and those of weight 0, each with its lesser end first.
/// The places are tested in turn, and the first one with a fault decides the refusal.
pub(crate) fn collect(
    alloc: Global,
    n: u32,
    us: &[u32],
    vs: &[u32],
    ws: &[u64],
) -> Result<Vec<Edge>, ArrayFault>
    requires as_many_ends { length vs.now ≡ length us.now }
    requires as_many_weights { length ws.now ≡ length us.now }
    requires few_vertices { n ≤ 4194304 }
    requires few_edges { length us.now ≤ 16777216 }
    ensures within { IfOk result (λ es. All (IsEdgeWithin n) es.items) }
    ensures few { IfOk result (λ es. length es.items ≤ 16777216) }
    ensures total { IfOk result (λ es. sum_by (λ (e : Edge). e.w) es.items ≤ 2 ^ 61) }
    ensures weights { IfOk result (λ es. (s : VertexSet) → sum_by (term (parts s)) es.items ≡ weight (given n us.now vs.now ws.now) s) }
    ensures ends { IfOk result (λ es. (i : ℕ) → i < length us.now → HasEnds n us.now vs.now i) }
    ensures sum { IfOk result (λ es. total_weight us.now vs.now ws.now ≤ 2 ^ 61) }
    ensures fault { IfErr result (λ fault. ExplainsEntry fault n us.now vs.now ws.now) }
{
    let mut edges = Vec::new(alloc);
    let mut total = 0u64;
    'places: for i in 0..us.len() {
        let (u, v, w) = (us[i], vs[i], ws[i]);
        total = sum_with(total, n, u, v, w)?;
        if u != v && w > 0 {
            let edge = edge_between(u, v, w);
            edges.push(edge)?;
        }
    }
    Ok(edges)
}
