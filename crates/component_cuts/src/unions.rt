//! The unions of components, in a list that doubles with each further component.

ghost use Rattle.std.specs.Prelude.{◌≡◌, ℕ, ◌↔◌, ◌+◌, ◌<◌, List, All, IfOk, length, slice_index};
ghost use Rattle.std.specs.List.{Contains};
ghost use Rattle.vertex_set.specs.Side.{VertexList, listed, members_of};
ghost use Rattle.component_cuts.specs.Doubling.{chosen_vertices, doubled};
ghost use Rattle.cut_definitions.specs.Members.{AreDifferent, IsAscending};

use cut_definitions::NoMemory;
use std::alloc::Global;
use vertex_set::Side;

/// Appends the union of each side with one more set over the same n, and then that set.
pub(crate) fn double(alloc: Global, sides: &mut Vec<Side>, part: Side) -> Result<(), NoMemory>
    requires { All (λ (s : VertexList). s.vertices ≡ part.vertices) sides.old.items }
    ensures { IfOk result (λ _. sides.new.items ≡ doubled part sides.old.items) }
{
    let n = part.n();
    for i in 0..sides.len() {
        let mut union = Side::empty(alloc, n)?;
        union.join_in(&part);
        union.join_in(&sides[i]);
        sides.push(union)?;
    }
    sides.push(part)?;
    Ok(())
}

/// Sorts different sides over one n. It takes no memory.
pub(crate) fn sort_sides(sides: &mut Vec<Side>, n: u32)
    requires over_n { All (λ (s : VertexList). s.vertices ≡ n) sides.old.items }
    requires different { AreDifferent (members_of sides.old.items) }
    ensures over_n { All (λ (s : VertexList). s.vertices ≡ n) sides.new.items }
    ensures ascending { IsAscending (members_of sides.new.items) }
    ensures same { (s : List ℕ) → Contains (members_of sides.new.items) s ↔ Contains (members_of sides.old.items) s }
{
    sides.sort_unstable_by(|side, other| side.compare(other));
}

/// All vertices whose number is chosen.
pub(crate) fn chosen_side(
    alloc: Global,
    n: u32,
    part_of: &[u32],
    chosen: &[bool],
) -> Result<Side, NoMemory>
    requires long { length part_of.now ≡ n + 1 }
    requires within { (v : ℕ) → slice_index part_of.now v < length chosen.now }
    ensures { IfOk result (λ s. s ≡ listed n (chosen_vertices part_of.now chosen.now)) }
{
    let mut side = Side::empty(alloc, n)?;
    for v in 0..n {
        if chosen[part_of[v as usize + 1] as usize] {
            side.insert(v + 1);
        }
    }
    Ok(side)
}
