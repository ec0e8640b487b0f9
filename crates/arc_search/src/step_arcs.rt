//! What a search goes along.

ghost use Rattle.std.specs.Prelude.{◌≡◌, ℕ, ◌<◌, ◌≤◌, Bool, List, length};
ghost use Rattle.weighted_graph.specs.declared.graph.Arc.{Arc};
ghost use Rattle.weighted_graph.specs.Rows.{arc_at};
ghost use Rattle.arc_search.specs.Paths.{arcs_in_rows, HasArcs};

use weighted_graph::Arc;

/// The steps between the vertices 1 to n, as the open arcs of rows that are lent: there is a step
/// from one vertex to another just where an open arc of its row leads there.
pub trait StepArcs {
    /// The number of vertices.
    ghost vertices: { Self → ℕ };

    /// The row of each vertex.
    ghost rows: { Self → ℕ → List Arc };

    /// Whether the arc at a place of the row of a vertex is open.
    ghost open_at: { Self → ℕ → ℕ → Bool };

    /// Whether there is a step from one vertex to another.
    ghost goes: { Self → ℕ → ℕ → Bool };

    /// What has to hold where a search begins.
    ghost can_search: { Self → Type 0 };

    /// The row of a vertex of 1 to n, lent without a copy. It takes O(1).
    fn row(&self, v: u32) -> &[Arc]
        requires can { can_search self.now }
        requires from_one { 1 ≤ v }
        requires to_n { v ≤ vertices self.now }
        ensures { result.now ≡ rows self.now v };

    /// Whether an arc, which is at a place of the row of a vertex of 1 to n, is open.
    /// It takes O(1).
    fn is_open(&self, v: u32, place: usize, arc: Arc) -> bool
        requires can { can_search self.now }
        requires from_one { 1 ≤ v }
        requires to_n { v ≤ vertices self.now }
        requires in_row { place < length (rows self.now v) }
        requires there { arc ≡ arc_at (rows self.now v) place }
        ensures { result ≡ open_at self.now v place };

    /// The open arcs are the steps, and both stay within the vertices.
    ghost has_arcs: { (x : Self) → can_search x → HasArcs (vertices x) (arcs_in_rows (rows x) (open_at x)) (goes x) };
}
