//! Edges sorted by their ends, with those that have the same ends merged.

ghost use Rattle.std.specs.Prelude.{◌≡◌, ℕ, Bool, ◌↔◌, ◌≤◌, ◌^◌, All, IsTrue, length, take};
ghost use Rattle.std.specs.List.{sum_by};
ghost use Rattle.std.specs.List.Sorted.{IsPermutation};
ghost use Rattle.cut_definitions.specs.declared.edge_list.Edge.{Edge};
ghost use Rattle.cut_definitions.specs.Graph.{IsEdgeWithin, IsEdgeList};
ghost use Rattle.weighted_graph.specs.Merging.{term, AreMergeable, AscendByEnds, IsSortedByEnds};

use cut_definitions::{Edge, EdgeList};

/// Sorts edges by their ends, in O(m log m). It takes no memory.
pub fn sort_by_ends(edges: &mut [Edge])
    ensures permutation { IsPermutation edges.old edges.new }
    ensures sorted { IsSortedByEnds edges.new }
{
    edges.sort_unstable_by_key(|edge| (edge.u, edge.v));
}

/// Whether two edges have the same ends.
fn have_same_ends(d: Edge, e: Edge) -> bool
    ensures { IsTrue result ↔ ((d.u ≡ e.u) × (d.v ≡ e.v)) }
{
    d.u == e.u && d.v == e.v
}

/// Merges sorted edges with the same ends, and returns the number of merged edges, which come
/// first.
fn merge(edges: &mut [Edge]) -> usize
    requires ascending { AscendByEnds edges.old }
    requires few { length edges.old ≤ 16777216 }
    requires total { sum_by (λ (e : Edge). e.w) edges.old ≤ 2 ^ 61 }
    ensures long { length edges.new ≡ length edges.old }
    ensures count { result ≤ length edges.old }
    ensures edge_list { (n : ℕ) → n ≤ 4194304 → All (IsEdgeWithin n) edges.old → IsEdgeList (record { vertices = n; edges = take result edges.new }) }
    ensures weights { (n : ℕ) → All (IsEdgeWithin n) edges.old → (f : ℕ → ℕ → Bool) → sum_by (term f) (take result edges.new) ≡ sum_by (term f) edges.old }
{
    if edges.is_empty() {
        return 0;
    }
    let mut current = edges[0];
    let mut kept = 0usize;
    for k in 1..edges.len() {
        let next = edges[k];
        if have_same_ends(current, next) {
            current.w += next.w;
        } else {
            edges[kept] = current;
            kept += 1;
            current = next;
        }
    }
    edges[kept] = current;
    kept + 1
}

/// The graph of sorted edges on the vertices 1 to n. Edges with the same ends become one, with the
/// sum of their weights. The list is taken over and shortened, in O(m), and its spare room is
/// freed.
pub fn merged_list(n: u32, sorted: Vec<Edge>) -> EdgeList
    requires { AreMergeable n sorted.items }
    ensures vertices { result.vertices ≡ n }
    ensures edge_list { IsEdgeList result }
    ensures weights { (f : ℕ → ℕ → Bool) → sum_by (term f) result.edges ≡ sum_by (term f) sorted.items }
{
    let mut edges = sorted;
    let count = merge(&mut edges);
    edges.truncate(count);
    edges.shrink_to_fit();
    EdgeList::from_edges(n, edges)
}
