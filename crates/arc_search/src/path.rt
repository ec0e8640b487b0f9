//! What enters the path of the pass, and what leaves it as a part.

ghost use Rattle.std.specs.Prelude.{◌≡◌, ℕ, ◌+◌, ◌-◌, ◌^◌, ◌<◌, ◌≤◌, length, slice_index, slice_set};
ghost use Rattle.arc_search.specs.Paths.{HasGiven};

/// Puts a vertex on the stack, and marks it.
pub fn put(v: u32, height: usize, marks: &mut [u32], stack: &mut [u32])
    requires from_one { 1 ≤ v }
    requires to_n { v ≤ length marks.old }
    requires stack { height < length stack.old }
    requires fits { height + 1 < 2 ^ 32 }
    ensures marks { marks.new ≡ slice_set marks.old (v - 1) (height + 1) }
    ensures stack { stack.new ≡ slice_set stack.old height v }
{
    marks[v as usize - 1] = height as u32 + 1;
    stack[height] = v;
}

/// Begins a set with the vertex at a place of the stack alone,
/// which was reached from the vertex at `current`.
pub fn begin_set(
    place: usize,
    depth: usize,
    current: usize,
    back: &mut [u32],
    next: &mut [usize],
    borders: &mut [u32],
)
    requires back { place < length back.old }
    requires next { place < length next.old }
    requires borders { depth < length borders.old }
    requires current { current ≤ place }
    requires fits { place < 2 ^ 32 }
    ensures back { back.new ≡ slice_set back.old place current }
    ensures next { next.new ≡ slice_set next.old place 0 }
    ensures borders { borders.new ≡ slice_set borders.old depth place }
{
    back[place] = current as u32;
    next[place] = 0;
    borders[depth] = place as u32;
}

/// Gives a part to the vertices at places of the stack.
pub fn number(part: u32, stack: &[u32], from: usize, to: usize, part_of: &mut [u32])
    requires ordered { from ≤ to }
    requires within { to ≤ length stack.now }
    requires from_one { (k : ℕ) → from ≤ k → k < to → 1 ≤ slice_index stack.now k }
    requires to_n { (k : ℕ) → from ≤ k → k < to → slice_index stack.now k ≤ length part_of.old }
    ensures { HasGiven part stack.now from to part_of.old part_of.new }
{
    for place in from..to {
        part_of[stack[place] as usize - 1] = part;
    }
}
