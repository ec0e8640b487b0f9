//! How far the arcs of a vertex on the path lead back into the path,
//! and where they first lead to a new vertex.

ghost use Rattle.std.specs.Prelude.{◌≡◌, ◌==◌, ◌&&◌, ◌<◌, ◌≤◌, length};
ghost use Rattle.weighted_graph.specs.Rows.{arc_at};
ghost use Rattle.arc_search.specs.Marks.{mark_of};
ghost use Rattle.arc_search.specs.Paths.{arcs_in_rows, IsAscending, IsLook, IsJoin};

use crate::step_arcs::StepArcs;
use weighted_graph::Arc;

/// A place in a row, and how many sets the path has when the arcs before it have been looked at.
#[derive(Clone, Copy)]
pub struct Seen {
    pub place: usize,
    pub depth: usize,
}

/// Whether the arc at a place of a row is open and leads to a vertex that has no part.
fn leads_on<A: StepArcs>(arcs: &A, v: u32, place: usize, arc: Arc, part_of: &[u32]) -> bool
    requires can { A.can_search arcs.now }
    requires from_one { 1 ≤ v }
    requires to_n { v ≤ A.vertices arcs.now }
    requires in_row { place < length (A.rows arcs.now v) }
    requires there { arc ≡ arc_at (A.rows arcs.now v) place }
    requires end_from_one { 1 ≤ arc.to }
    requires end_to_n { arc.to ≤ length part_of.now }
    ensures { result ≡ (A.open_at arcs.now v place && mark_of part_of.now arc.to == 0) }
{
    arcs.is_open(v, place, arc) && part_of[arc.to as usize - 1] == 0
}

/// How many sets are left where all from the one of a vertex on are joined; the mark of that
/// vertex is one more than its place on the stack.
fn join(borders: &[u32], depth: usize, mark: u32) -> usize
    requires within { depth ≤ length borders.now }
    requires ascending { IsAscending borders.now depth }
    ensures { IsJoin borders.now depth mark result }
{
    let mut depth = depth;
    while depth > 0 && borders[depth - 1] >= mark {
        depth -= 1;
    }
    depth
}

/// Looks at the open arcs of a vertex in the top set of the path, from a place of its row on, up
/// to one that leads to a vertex without a mark. Where one leads to a vertex on the stack, the
/// sets from that of this vertex on are joined.
pub fn look<A: StepArcs>(
    arcs: &A,
    v: u32,
    from: Seen,
    part_of: &[u32],
    marks: &[u32],
    borders: &[u32],
) -> Seen
    requires can { A.can_search arcs.now }
    requires from_one { 1 ≤ v }
    requires to_n { v ≤ A.vertices arcs.now }
    requires parts { length part_of.now ≡ A.vertices arcs.now }
    requires marks { length marks.now ≡ A.vertices arcs.now }
    requires within { from.depth ≤ length borders.now }
    requires ascending { IsAscending borders.now from.depth }
    ensures { IsLook (arcs_in_rows (A.rows arcs.now) (A.open_at arcs.now)) v from.place part_of.now marks.now borders.now from.depth result.place result.depth }
{
    let row = arcs.row(v);
    let mut depth = from.depth;
    let mut place = from.place;
    while place < row.len() {
        let arc = row[place];
        if leads_on(arcs, v, place, arc, part_of) {
            let mark = marks[arc.to as usize - 1];
            if mark == 0 {
                return Seen { place, depth };
            }
            depth = join(borders, depth, mark);
        }
        place += 1;
    }
    Seen { place, depth }
}
