//! From arrays to the list of edges.

ghost use Rattle.std.specs.Prelude.{◌≡◌, ◌↔◌, ◌+◌, ◌≤◌, IfOk, IfErr, OnOk, length};
ghost use Rattle.cut_definitions.specs.Weight.{VertexSet, weight};
ghost use Rattle.edge_arrays.specs.Given.{IsGiven, WeighsAs, given};
ghost use Rattle.edge_arrays.specs.Faults.{AreWithinLimits, Explains};
ghost use Rattle.vertex_classes.specs.Classes.{no_vertex, Respects};

use crate::collecting::collect;
use crate::joining::join_ends;
use cut_definitions::{EdgeList, MOST_EDGES, MOST_VERTICES, NoMemory};
use std::alloc::{AllocFailed, Global};
use vertex_classes::Classes;
use weighted_graph::{merged_list, sort_by_ends};

/// Why arrays give no graph.
///
/// The lengths are tested first, then the number of vertices and the number of edges. Then each
/// place is tested in turn, first its two ends and then the sum so far.
#[derive(Clone, Copy, Debug, PartialEq, Eq, Drop)]
pub enum ArrayFault {
    /// The call ran out of memory.
    OutOfMemory,
    /// The arrays differ in length.
    BadLength,
    /// There are more than 4,194,304 vertices.
    TooManyVertices,
    /// There are more than 16,777,216 edges.
    TooManyEdges,
    /// An end of an edge is n or more.
    BadVertex,
    /// The edges that are no loops weigh more than 2^61 in total.
    WeightSum,
}

impl From<NoMemory> for ArrayFault {
    ghost use Rattle.std.specs.Prelude.{◌≡◌};
    ghost use Rattle.edge_arrays.specs.declared.arrays.ArrayFault.TheVariants.{OutOfMemory};

    ghost from_gives = { λ _ fault. fault ≡ OutOfMemory };

    fn from(_e: NoMemory) -> ArrayFault {
        ArrayFault::OutOfMemory
    }
}

impl<T: Drop> From<AllocFailed<T>> for ArrayFault {
    ghost use Rattle.std.specs.Prelude.{◌≡◌};
    ghost use Rattle.edge_arrays.specs.declared.arrays.ArrayFault.TheVariants.{OutOfMemory};

    ghost from_gives = { λ _ fault. fault ≡ OutOfMemory };

    fn from(_e: AllocFailed<T>) -> ArrayFault {
        ArrayFault::OutOfMemory
    }
}

/// Tests the lengths of the arrays, the number of vertices, and the number of edges, in this
/// order.
fn check_limits(n: u32, us: &[u32], vs: &[u32], ws: &[u64]) -> Result<(), ArrayFault>
    ensures within { OnOk result (AreWithinLimits n us.now vs.now ws.now) }
    ensures fault { IfErr result (λ fault. Explains fault n us.now vs.now ws.now) }
{
    if vs.len() != us.len() || ws.len() != us.len() {
        return Err(ArrayFault::BadLength);
    }
    if n > MOST_VERTICES {
        return Err(ArrayFault::TooManyVertices);
    }
    if us.len() > MOST_EDGES as usize {
        return Err(ArrayFault::TooManyEdges);
    }
    Ok(())
}

/// The graph of `n` vertices whose edges the arrays give: at each place two vertices of 0 to n -
/// 1, and a weight. The result counts vertices from 1.
///
/// Loops and edges of weight 0 are left out, and edges with the same ends are merged. Each set of
/// vertices weighs what it weighs by the arrays. It fails with the first fault, or if it runs out
/// of memory. The edges are sorted once, in O(m log m), in two lists of 16 bytes for each edge.
pub fn list_of_arrays(
    alloc: Global,
    n: u32,
    us: &[u32],
    vs: &[u32],
    ws: &[u64],
) -> Result<EdgeList, ArrayFault>
    ensures graph { IfOk result (λ list. WeighsAs list (given n us.now vs.now ws.now)) }
    ensures given { IfOk result (λ list. IsGiven n us.now vs.now ws.now) }
    ensures fault { IfErr result (λ fault. Explains fault n us.now vs.now ws.now) }
{
    check_limits(n, us, vs, ws)?;
    let mut edges = collect(alloc, n, us, vs, ws)?;
    sort_by_ends(&mut edges);
    Ok(merged_list(n, edges))
}

/// The components of the graph of three arrays, as classes of its vertices, counted from 1. The
/// ends of each edge are joined by union-find (Galler and Fischer, 1964), in O(m log(n) + n) steps
/// and 4 bytes for each vertex. No edge is copied or sorted.
///
/// The sets with all or none of each class are exactly those of weight 0. It fails with the first
/// fault, or if it runs out of memory.
pub fn classes_of_arrays(
    alloc: Global,
    n: u32,
    us: &[u32],
    vs: &[u32],
    ws: &[u64],
) -> Result<Classes, ArrayFault>
    ensures long { IfOk result (λ c. length c ≡ n + 1) }
    ensures joined { IfOk result (λ c. (s : VertexSet) → Respects c s ↔ (weight (given n us.now vs.now ws.now) s ≡ 0)) }
    ensures apart { IfOk result (λ c. Respects c no_vertex) }
    ensures given { IfOk result (λ c. IsGiven n us.now vs.now ws.now) }
    ensures fault { IfErr result (λ fault. Explains fault n us.now vs.now ws.now) }
{
    check_limits(n, us, vs, ws)?;
    let mut classes = Classes::new(alloc, n)?;
    join_ends(n, us, vs, ws, &mut classes)?;
    Ok(classes)
}
