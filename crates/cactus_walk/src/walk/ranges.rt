//! The cuts of a cactus as ranges between the borders of its blocks, each weighed in one step.

ghost use Rattle.std.specs.Prelude.{◌≡◌, ◌+◌, ◌≤◌, ◌<◌, ◌^◌, ℕ, length, slice_index};
ghost use Rattle.std.specs.List.{All};
ghost use Rattle.cut_definitions.specs.Graph.{IsVertex};
ghost use Rattle.cactus_walk.specs.Walking.{AreBorders, AreBorders-prop, AreChained, AreChained-prop};

use super::masses::masses_before;
use super::shown::{Span, put_range};
use cut_definitions::{NoMemory, VertexWeights};
use rooted_cactus::Border;
use std::alloc::Global;
use vertex_set::Side;

/// The cuts of a cactus whose vertices have masses, as ranges of one list.
///
/// The side of each cut has the vertices from one border of a block to a later one of the same
/// block. Its mass is that of all vertices before the later border, less that of all before the
/// earlier one, so it takes one step. As the end moves on, the mass does not fall.
#[derive(Drop)]
pub struct CutRanges {
    /// The vertices, in the order in which the tree is entered.
    pub order: Vec<u32>,
    /// The borders of all blocks, in the order of the tree, as places of `order`, counted from 0.
    pub borders: Vec<Border>,
    /// For each place of `order`, and finally for its end, the mass of the vertices before it.
    pub sums: Vec<u128>,
    ghost few: { length order.items ≤ 4194304 },
    ghost vertices: { All (IsVertex (length order.items)) order.items },
    ghost within: { AreBorders (length order.items) borders.items } by { AreBorders-prop (length order.items) borders.items },
    ghost chained: { AreChained borders.items } by { AreChained-prop borders.items },
    ghost long: { length sums.items ≡ length order.items + 1 },
    ghost rising: { (i j : ℕ) → i ≤ j → j ≤ length order.items → slice_index sums.items i ≤ slice_index sums.items j },
    ghost small: { slice_index sums.items (length order.items) < 2 ^ 86 },
}

impl CutRanges {
    ghost use Rattle.std.specs.Prelude.{IfOk};
    ghost use Rattle.rooted_cactus.specs.Borders.{range_between};
    ghost use Rattle.rooted_cactus.specs.Places.{side_at};
    ghost use Rattle.cactus_walk.specs.Weighing.{AreSumsOf, IsRangeOf, IsShort, last_of, mass_at, mass_between, range_balance, range_of, span_mass, total_mass};

    /// The ranges between borders of a list of vertices, which are weighed by their masses.
    ///
    /// It takes one step and 16 bytes for each vertex, and fails only if it runs out of memory.
    pub fn of(
        alloc: Global,
        order: Vec<u32>,
        borders: Vec<Border>,
        weights: &VertexWeights,
    ) -> Result<CutRanges, NoMemory>
        requires counted { length order.items ≡ length weights.now }
        requires vertices { All (IsVertex (length order.items)) order.items }
        requires within { AreBorders (length order.items) borders.items }
        requires chained { AreChained borders.items }
        ensures order { IfOk result (λ r. r.order.items ≡ order.items) }
        ensures borders { IfOk result (λ r. r.borders.items ≡ borders.items) }
        ensures sums { IfOk result (AreSumsOf weights.now) }
    {
        // known by this call: each mass is below 2^64, and how many vertices there can be
        let _known = weights.len();
        let sums = masses_before(alloc, &order, weights)?;
        Ok(CutRanges {
            order,
            borders,
            sums,
        })
    }

    /// The range from one border to another.
    pub fn between(&self, start: usize, end: usize) -> Span
        requires start { start < length self.now.borders.items }
        requires end { end < length self.now.borders.items }
        ensures is { range_of result ≡ range_between self.now.borders.items start end }
        ensures fits { start ≤ end → end ≤ last_of self.now start → IsRangeOf (length self.now.order.items) (range_of result) }
    {
        Span {
            from: self.borders[start].place,
            to: self.borders[end].place,
        }
    }

    /// The last border of the block of a border.
    pub fn last_of(&self, start: usize) -> usize
        requires { start < length self.now.borders.items }
        ensures is { result ≡ last_of self.now start }
        ensures there { result < length self.now.borders.items }
    {
        start + self.borders[start].following
    }

    /// The mass of all vertices.
    pub fn total(&self) -> u128
        ensures { result ≡ total_mass self.now }
    {
        self.sums[self.order.len()]
    }

    /// The mass of the vertices at the places of a range.
    pub fn mass(&self, span: Span) -> u128
        requires { IsRangeOf (length self.now.order.items) (range_of span) }
        ensures is { result ≡ span_mass self.now (range_of span) }
        ensures small { result ≤ total_mass self.now }
    {
        self.sums[span.to] - self.sums[span.from]
    }

    /// The lesser of the mass of a range and that of all other places.
    pub fn balance(&self, span: Span) -> u128
        requires { IsRangeOf (length self.now.order.items) (range_of span) }
        ensures { result ≡ range_balance self.now (range_of span) }
    {
        let mass = self.mass(span);
        mass.min(self.total() - mass)
    }

    /// The mass of the vertices before a border.
    fn mass_before(&self, border: usize) -> u128
        requires { border < length self.now.borders.items }
        ensures { result ≡ mass_at self.now border }
    {
        self.sums[self.borders[border].place]
    }

    /// The first border, from `from` on, up to which the range from `start` has at least this
    /// mass. If there is none, it returns the border after the block.
    ///
    /// It takes one step for each border that is passed. From the next border on a range has no
    /// more mass, so the end does not go back.
    pub fn first_end(&self, mass: u128, start: usize, from: usize) -> usize
        requires start { start < length self.now.borders.items }
        requires short { IsShort self.now mass start from }
        ensures behind { start < result }
        ensures short { IsShort self.now mass start result }
        ensures reached { result ≤ last_of self.now start → mass ≤ mass_between self.now start result }
    {
        let last = self.last_of(start);
        let before = self.mass_before(start);
        let mut end = from.max(start + 1);
        'ends: while end <= last && self.mass_before(end) - before < mass {
            end += 1;
        }
        end
    }

    /// The side at a range. It takes one step for each of its vertices and n/8 bytes, and fails
    /// only if it runs out of memory.
    pub fn side(&self, alloc: Global, span: Span) -> Result<Side, NoMemory>
        requires { span.to ≤ length self.now.order.items }
        ensures n { IfOk result (λ s. s.vertices ≡ length self.now.order.items) }
        ensures side { IfOk result (λ s. s.members ≡ side_at (length self.now.order.items) self.now.order.items (range_of span)) }
    {
        let mut side = Side::empty(alloc, self.order.len() as u32)?;
        put_range(&mut side, &self.order, span.from, span.to);
        Ok(side)
    }
}
