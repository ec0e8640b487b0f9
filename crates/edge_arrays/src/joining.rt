//! The components of the graph that arrays give, as classes that its edges join.

ghost use Rattle.std.specs.Prelude.{ℕ, ◌≡◌, ◌↔◌, ◌+◌, ◌<◌, ◌≤◌, ◌^◌, OnOk, IfErr, length};
ghost use Rattle.cut_definitions.specs.Weight.{VertexSet, weight};
ghost use Rattle.edge_arrays.specs.Given.{HasEnds, given, total_weight};
ghost use Rattle.edge_arrays.specs.Faults.{ExplainsEntry};
ghost use Rattle.vertex_classes.specs.Classes.{no_vertex, Respects};

use crate::ArrayFault;
use crate::sums::sum_with;
use vertex_classes::Classes;

/// Joins the ends of each edge of the arrays that can cross a cut, starting from classes in which
/// each vertex is alone. The places are tested in turn, as when edges are collected.
pub(crate) fn join_ends(
    n: u32,
    us: &[u32],
    vs: &[u32],
    ws: &[u64],
    classes: &mut Classes,
) -> Result<(), ArrayFault>
    requires as_many_ends { length vs.now ≡ length us.now }
    requires as_many_weights { length ws.now ≡ length us.now }
    requires few_vertices { n ≤ 4194304 }
    requires long { length classes.old ≡ n + 1 }
    requires alone { (s : VertexSet) → Respects classes.old s }
    ensures long { OnOk result (length classes.new ≡ n + 1) }
    ensures joined { OnOk result ((s : VertexSet) → Respects classes.new s ↔ (weight (given n us.now vs.now ws.now) s ≡ 0)) }
    ensures ends { OnOk result ((i : ℕ) → i < length us.now → HasEnds n us.now vs.now i) }
    ensures sum { OnOk result (total_weight us.now vs.now ws.now ≤ 2 ^ 61) }
    ensures fault { IfErr result (λ fault. ExplainsEntry fault n us.now vs.now ws.now) }
{
    let mut total = 0u64;
    'places: for i in 0..us.len() {
        let (u, v, w) = (us[i], vs[i], ws[i]);
        total = sum_with(total, n, u, v, w)?;
        if u != v && w > 0 {
            classes.join(u + 1, v + 1);
        }
    }
    Ok(())
}
