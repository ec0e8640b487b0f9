//! The way of a search.

ghost use Rattle.std.specs.Prelude.{◌≡◌, ◌-◌, ◌<◌, ◌≤◌, ℕ, true, length, slice_index, IfOk};
ghost use Rattle.weighted_graph.specs.Searches.{is_seen};
ghost use Rattle.arc_search.specs.Way.{AreEarlier, IsMarked, IsMarkedWay};

use cut_definitions::NoMemory;

/// Marks a vertex, and puts it at the end of `touched` if it was not marked before.
fn mark(v: u32, marks: &mut [bool], touched: &mut Vec<u32>) -> Result<(), NoMemory>
    requires { v < length marks.old }
    ensures touches { IsMarked v marks.old touched.old.items marks.new touched.new.items }
    ensures marked { IfOk result (λ _. is_seen marks.new v ≡ true) }
{
    if !marks[v as usize] {
        touched.push(v)?;
        marks[v as usize] = true;
    }
    Ok(())
}

/// Marks the vertices from the last place that was found up to the start, and puts each that was
/// not marked before at the end of `touched`.
///
/// Want of memory is its only refusal; what is marked by then is in `touched` too.
/// It takes time for the way alone.
pub fn mark_way(
    order: &[u32],
    parents: &[u32],
    count: usize,
    marks: &mut [bool],
    touched: &mut Vec<u32>,
) -> Result<(), NoMemory>
    requires some { 1 ≤ count }
    requires order { count ≤ length order.now }
    requires parents { count ≤ length parents.now }
    requires within { (j : ℕ) → j < count → slice_index order.now j < length marks.old }
    requires earlier { AreEarlier parents.now count }
    ensures way { IsMarkedWay order.now parents.now (count - 1) marks.old touched.old.items marks.new touched.new.items }
    ensures start { IfOk result (λ _. is_seen marks.new (slice_index order.now 0) ≡ true) }
{
    let mut place = count - 1;
    while place > 0 {
        mark(order[place], marks, touched)?;
        place = parents[place] as usize;
    }
    mark(order[0], marks, touched)
}
