//! The side of the first vertex.

ghost use Rattle.std.specs.Prelude.{◌≡◌, ℕ, ◌==◌, ◌+◌, ◌≤◌, if◌then◌else◌, length};
ghost use Rattle.cut_definitions.specs.Cuts.{has, IsAscendingWithin};
ghost use Rattle.region_flow.specs.Marks.{order_mark};
ghost use Rattle.max_flow.specs.Tree.{seen};

use vertex_set::Side;

/// Inserts a vertex, or removes it.
fn set(side: &mut Side, v: u32, is_in: bool)
    requires from_one { 1 ≤ v }
    requires to_n { v ≤ side.old.vertices }
    ensures vertices { side.new.vertices ≡ side.old.vertices }
    ensures ascending { IsAscendingWithin 1 side.new.vertices side.new.members }
    ensures members { (u : ℕ) → 1 ≤ u → u ≤ side.old.vertices →
        has side.new.members u ≡ (if v == u then is_in else has side.old.members u) }
{
    if is_in {
        side.insert(v);
    } else {
        side.remove(v);
    }
}

/// Makes a set that of the vertices that are marked. One step for each vertex of 1 to n.
pub fn assign(side: &mut Side, marks: &[u32])
    requires length { length marks.now ≡ side.old.vertices + 1 }
    requires none { order_mark marks.now 0 ≡ 0 }
    ensures vertices { side.new.vertices ≡ side.old.vertices }
    ensures members { (v : ℕ) → has side.new.members v ≡ seen marks.now v }
{
    for v in 0..side.n() {
        set(side, v + 1, marks[v as usize + 1] > 0);
    }
}
