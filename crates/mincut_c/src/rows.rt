//! What is put into arrays of a caller: sides of cuts as bytes, a row for each side and in it a
//! byte for each vertex, and numbers that are counted from 0 there.

ghost use Rattle.std.specs.Prelude.{ℕ, ◌≡◌, ◌+◌, ◌*◌, ◌<◌, ◌≤◌, length, slice_index};
ghost use Rattle.std.specs.List.{All};
ghost use Rattle.vertex_set.specs.Side.{members_of};
ghost use Rattle.mincut_c.specs.Rows.{BeginsFromZero, IsLeftBefore, IsLeftFrom, TellsRows, byte_of};

use vertex_set::Side;

/// Tells a side by a byte for each vertex, from a place on.
pub(crate) fn put_row(side: &Side, start: usize, inside: &mut [u8])
    requires { start + side.now.vertices ≤ length inside.old }
    ensures told { (v : ℕ) → v < side.now.vertices → slice_index inside.new (start + v) ≡ byte_of side.now.members v }
    ensures before { IsLeftBefore start inside.old inside.new }
    ensures behind { IsLeftFrom (start + side.now.vertices) inside.old inside.new }
{
    let n = side.n();
    'vertices: for v in 0..n {
        inside[start + v as usize] = if side.has(v + 1) { 1 } else { 0 };
    }
}

/// Tells sides over n by a row of n bytes for each, in their order.
pub(crate) fn put_rows(sides: &[Side], n: u32, inside: &mut [u8])
    requires over_n { All (λ s. s.vertices ≡ n) sides.now }
    requires room { length sides.now * n ≤ length inside.old }
    ensures told { TellsRows n (members_of sides.now) inside.new }
    ensures behind { IsLeftFrom (length sides.now * n) inside.old inside.new }
{
    let mut start = 0usize;
    'sides: for k in 0..sides.len() {
        put_row(&sides[k], start, inside);
        start += n as usize;
    }
}

/// Copies numbers, of vertices or components, to the front of an array, counted from 0 there.
pub(crate) fn put_from_zero(numbers: &[u32], out: &mut [u32])
    requires { length numbers.now ≤ length out.old }
    ensures begins { BeginsFromZero numbers.now out.new }
    ensures behind { IsLeftFrom (length numbers.now) out.old out.new }
{
    'numbers: for k in 0..numbers.len() {
        out[k] = numbers[k].saturating_sub(1);
    }
}
