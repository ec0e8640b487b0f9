//! The components of a graph.

ghost use Rattle.std.specs.Prelude.{ℕ, List, ◌≡◌, ◌≢◌, ◌⊎◌, ◌<◌, ◌≤◌, IfOk, IfErr, length};
ghost use Rattle.cut_definitions.specs.Contraction.{classes};
ghost use Rattle.edge_arrays.specs.Faults.{Explains};
ghost use Rattle.edge_arrays.specs.Given.{IsGiven, given};
ghost use Rattle.mincut_c.specs.Components.{TellsComponents};
ghost use Rattle.mincut_c.specs.Rows.{BeginsFromZero, IsLeftFrom};
ghost use Rattle.mincut_c.specs.Statuses.{TellsArrayFault};

use crate::rows::put_from_zero;
use crate::status::{Fault, NO_ROOM, OK, status_of};
use edge_arrays::{ArrayFault, classes_of_arrays};
use std::alloc::Global;
use weighted_graph::Labels;

/// The components of the graph of the arrays, as labels of its vertices,
/// in the order of their least vertices.
fn components_of_arrays(
    alloc: Global,
    n: u32,
    us: &[u32],
    vs: &[u32],
    ws: &[u64],
) -> Result<Labels, ArrayFault>
    ensures long { IfOk result (λ labels. length labels ≡ n) }
    ensures told { IfOk result (λ labels. (out : List ℕ) → BeginsFromZero labels out → TellsComponents (given n us.now vs.now ws.now) (classes labels) out) }
    ensures given { IfOk result (λ labels. IsGiven n us.now vs.now ws.now) }
    ensures fault { IfErr result (λ fault. Explains fault n us.now vs.now ws.now) }
{
    let classes = classes_of_arrays(alloc, n, us, vs, ws)?;
    let labels = Labels::of_classes(alloc, &classes)?;
    Ok(labels)
}

/// The components of the graph with `n` vertices, counted from 0, whose edges the arrays give:
/// two vertices are in one where a way of edges leads from one to the other, of which none is a
/// loop or weighs 0. They are numbered from 0 in the order of their least vertices.
/// `component_of` gets a number for each vertex, and what stands behind these is left. A graph
/// without a vertex has none.
///
/// The status is 0 where there is an answer. It is 9 where `component_of` has fewer than n
/// entries, and else one of 2 to 7, as that of `mincut_raw_value`. With another status than 0 the
/// outputs are left as they were. Time O(m log n), and 8 bytes for each vertex; no edge is copied.
#[unsafe(no_mangle)]
pub extern "C" fn mincut_raw_components(
    alloc: Global,
    n: u32,
    us: &[u32],
    vs: &[u32],
    ws: &[u64],
    count: &mut u32,
    component_of: &mut [u32],
) -> u32
    ensures given { (result ≡ 0) ⊎ (result ≡ 9) → IsGiven n us.now vs.now ws.now }
    ensures ok { result ≡ 0 → TellsComponents (given n us.now vs.now ws.now) count.new component_of.new }
    ensures behind { result ≡ 0 → IsLeftFrom n component_of.old component_of.new }
    ensures short { result ≡ 9 → length component_of.old < n }
    ensures left { result ≢ 0 → (count.new ≡ count.old) × (component_of.new ≡ component_of.old) }
    ensures fault { result ≢ 0 → result ≢ 9 → TellsArrayFault result n us.now vs.now ws.now }
    ensures known { (result ≤ 7) ⊎ (result ≡ 9) }
{
    match components_of_arrays(alloc, n, us, vs, ws) {
        Ok(labels) => {
            if component_of.len() < n as usize {
                return NO_ROOM;
            }
            *count = labels.classes();
            put_from_zero(labels.as_slice(), component_of);
            OK
        }
        Err(fault) => status_of(Fault::Arrays(fault)),
    }
}
