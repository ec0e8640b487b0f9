//! The path-based search from one vertex, which gives parts to all that it
//! reaches and that had none.

ghost use Rattle.std.specs.Prelude.{◌≡◌, ◌≢◌, ◌≤◌, length};
ghost use Rattle.arc_search.specs.Marks.{mark_of};
ghost use Rattle.arc_search.specs.Split.{IsToSplit, IsSplitOff};

use crate::look::{Seen, look};
use crate::path::{begin_set, number, put};
use crate::path_memory::PathMemory;
use crate::step_arcs::StepArcs;

/// Gives parts to `start` and to all that open arcs reach from it through vertices without a mark,
/// marks them, and answers the number of the last part.
///
/// `start` is a vertex of 1 to n without a mark, and `parts` the number of the last part so
/// far; 0 stands for no part and for no mark. A set is closed where no open arc leaves it.
/// The vertices that have a part are to be closed, and so are they with those without a
/// mark. Each new part with all before it is closed then, and a closed set that has a vertex
/// of a new part has all of it.
///
/// It keeps a path of sets, each of which reaches the next and each vertex of which reaches the
/// others: an arc to a set of the path joins the sets from that one on, and a set that no arc
/// leaves any more is the next part. It takes time for the vertices that it marks and their rows,
/// looks at no others, and takes no memory. The new parts are the strongly connected components of
/// the vertices that it marks, found by the path-based algorithm of Gabow (2000).
pub fn walk<A: StepArcs>(
    arcs: &A,
    start: u32,
    parts: u32,
    part_of: &mut [u32],
    marks: &mut [u32],
    memory: &mut PathMemory,
) -> u32
    requires can { A.can_search arcs.now }
    requires start_one { 1 ≤ start }
    requires start_n { start ≤ A.vertices arcs.now }
    requires start_unmarked { mark_of marks.old start ≡ 0 }
    requires part_of { length part_of.old ≡ A.vertices arcs.now }
    requires marks { length marks.old ≡ A.vertices arcs.now }
    requires memory { A.vertices arcs.now ≤ memory.old }
    requires split { IsToSplit (A.vertices arcs.now) (A.goes arcs.now) parts part_of.old marks.old }
    ensures split_off { IsSplitOff (A.vertices arcs.now) (A.goes arcs.now) parts result part_of.old marks.old part_of.new marks.new }
    ensures start_marked { mark_of marks.new start ≢ 0 }
    ensures memory { memory.new ≡ memory.old }
{
    let stack = memory.stack.as_mut_slice();
    let back = memory.back.as_mut_slice();
    let next = memory.next.as_mut_slice();
    let borders = memory.borders.as_mut_slice();
    put(start, 0, marks, stack);
    begin_set(0, 0, 0, back, next, borders);
    let mut parts = parts;
    let mut height = 1;
    let mut depth = 1;
    let mut current = 0;
    while height > 0 {
        let v = stack[current];
        let from = Seen {
            place: next[current],
            depth,
        };
        let seen = look(arcs, v, from, part_of, marks, borders);
        next[current] = seen.place;
        depth = seen.depth;
        let row = arcs.row(v);
        if seen.place < row.len() {
            let w = row[seen.place].to;
            put(w, height, marks, stack);
            begin_set(height, depth, current, back, next, borders);
            current = height;
            height += 1;
            depth += 1;
        } else if borders[depth - 1] as usize == current {
            parts += 1;
            number(parts, stack, current, height, part_of);
            height = current;
            depth -= 1;
            current = back[current] as usize;
        } else {
            current = back[current] as usize;
        }
    }
    parts
}
