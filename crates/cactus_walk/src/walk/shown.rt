//! A side that has the vertices at the places of a range of a list, and its change to another
//! range.

ghost use Rattle.std.specs.Prelude.{◌≡◌, ◌≤◌, length};
ghost use Rattle.std.specs.List.{All};
ghost use Rattle.cut_definitions.specs.Weight.{VertexSet, either, minus};
ghost use Rattle.cut_definitions.specs.Cuts.{has};
ghost use Rattle.vertex_set.specs.Side.{listed};
ghost use Rattle.rooted_cactus.specs.CutRanges.{elements_at};
ghost use Rattle.rooted_cactus.specs.Places.{AreOnce};
ghost use Rattle.cut_definitions.specs.Graph.{IsVertex};

use vertex_set::Side;

/// The places of a list, counted from 0, from one place on that are before another.
#[derive(Clone, Copy)]
pub struct Span {
    /// The first place.
    pub from: usize,
    /// The place after the last one.
    pub to: usize,
}

/// Removes the vertices at the places of a range from the side.
fn take_range(side: &mut Side, order: &[u32], from: usize, to: usize)
    requires vertices { All (IsVertex side.old.vertices) order.now }
    requires to { to ≤ length order.now }
    ensures n { side.new.vertices ≡ side.old.vertices }
    ensures set { (s : VertexSet) → side.old ≡ listed side.old.vertices s → side.new ≡ listed side.old.vertices (minus s (has (elements_at order.now record { from = from; to = to }))) }
{
    let mut place = from;
    'places: while place < to {
        side.remove(order[place]);
        place += 1;
    }
}

/// Puts the vertices at the places from `from` to before `to` into the side; what was there stays.
///
/// It takes one step for each of them, and no memory.
pub fn put_range(side: &mut Side, order: &[u32], from: usize, to: usize)
    requires vertices { All (IsVertex side.old.vertices) order.now }
    requires to { to ≤ length order.now }
    ensures n { side.new.vertices ≡ side.old.vertices }
    ensures set { (s : VertexSet) → side.old ≡ listed side.old.vertices s → side.new ≡ listed side.old.vertices (either s (has (elements_at order.now record { from = from; to = to }))) }
{
    let mut place = from;
    'places: while place < to {
        side.insert(order[place]);
        place += 1;
    }
}

/// Changes a side from the vertices of one range to those of another. It takes one step for each
/// vertex that is in just one of them, and no memory.
pub fn change_side(side: &mut Side, order: &[u32], old: Span, new: Span)
    requires once { AreOnce side.old.vertices order.now }
    requires vertices { All (IsVertex side.old.vertices) order.now }
    requires old { old.to ≤ length order.now }
    requires new { new.to ≤ length order.now }
    requires shown { side.old ≡ listed side.old.vertices (has (elements_at order.now record { from = old.from; to = old.to })) }
    ensures { side.new ≡ listed side.old.vertices (has (elements_at order.now record { from = new.from; to = new.to })) }
{
    take_range(side, order, old.from, old.to.min(new.from));
    take_range(side, order, old.from.max(new.to), old.to);
    put_range(side, order, new.from, new.to.min(old.from));
    put_range(side, order, new.from.max(old.to), new.to);
}
