//! The division of all vertices without a mark into parts.

ghost use Rattle.std.specs.Prelude.{◌≡◌, ◌≤◌, length, IsSome};
ghost use Rattle.residual_chain.specs.Residuals.{leads};
ghost use Rattle.residual_chain.specs.Search.{steps, IsShown};
ghost use Rattle.arc_search.specs.Split.{IsToSplit};
ghost use Rattle.residual_chain.specs.Split.{IsSplit};

use crate::open_arcs::OpenArcs;
use arc_search::{PathMemory, walk};

/// Divides the vertices without a mark into parts, and returns the number of the last part.
///
/// A set is closed if no open arc leaves it. The vertices that have a part are closed, and so are
/// they together with those without a mark. Each new part with all before it is closed. A closed
/// set that has a vertex of a new part has all of the part. It takes O(n + m), by path-based
/// search (Gabow, 2000).
pub fn split(
    arcs: OpenArcs<'_>,
    parts: u32,
    part_of: &mut [u32],
    marks: &mut [u32],
    memory: &mut PathMemory,
) -> u32
    requires vertices { arcs.flow.now.vertices ≡ arcs.graph.now.vertices }
    requires best { IsSome arcs.flow.now.best }
    requires shown { IsShown arcs.graph.now arcs.flow.now }
    requires part_of { length part_of.old ≡ arcs.graph.now.vertices }
    requires marks { length marks.old ≡ arcs.graph.now.vertices }
    requires memory { arcs.graph.now.vertices ≤ memory.old }
    requires split { IsToSplit arcs.graph.now.vertices (steps arcs.direction (leads arcs.graph.now arcs.flow.now)) parts part_of.old marks.old }
    ensures { IsSplit arcs.entry.graph.now.vertices (steps arcs.entry.direction (leads arcs.entry.graph.now arcs.entry.flow.now)) parts result part_of.old marks.old part_of.new }
{
    let mut parts = parts;
    for before in 0..arcs.graph.n() {
        if marks[before as usize] == 0 {
            parts = walk(&arcs, before + 1, parts, part_of, marks, memory);
        }
    }
    parts
}
