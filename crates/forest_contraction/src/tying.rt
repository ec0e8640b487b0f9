//! Classes that no light cut parts, by the list of edges alone.

ghost use Rattle.std.specs.Prelude.{◌≡◌, ◌+◌, ◌-◌, ◌*◌, ◌^◌, ◌<◌, ◌≤◌, ℕ, All, IfOk, IfSome, length};
ghost use Rattle.std.specs.List.{sum_by};
ghost use Rattle.cut_definitions.specs.declared.edge_list.Edge.{Edge};
ghost use Rattle.cut_definitions.specs.Contraction.{label, RespectsClasses};
ghost use Rattle.cut_definitions.specs.Graph.{Graph, IsEdgeWithin};
ghost use Rattle.cut_definitions.specs.Weight.{VertexSet, weight};
ghost use Rattle.vertex_classes.specs.Classes.{no_vertex, AreNumbersOf, Respects};
ghost use Rattle.forest_contraction.specs.Forests.{level, AreKindsTied, AreOver, JoinsHeavy};
ghost use Rattle.forest_contraction.specs.Left.{AreLabelsTied, AreTiesAbove};

use crate::forests::tie_edge;
use cut_definitions::{Edge, EdgeList, NoMemory};
use std::alloc::Global;
use vertex_classes::Classes;
use weighted_graph::Labels;

/// At most so many forests are made, and at most three for each edge at a vertex: a forest takes
/// 4 bytes for each vertex.
const MOST_LEVELS: u64 = 16;

/// The least and the greatest weight of an edge. They say what is worth trying, and how finely;
/// no answer rests on them.
#[derive(Clone, Copy)]
pub struct WeightRange {
    pub lightest: u64,
    pub heaviest: u64,
}

/// The range of the weights, or 2^64 - 1 and 0 if there are no edges.
pub(crate) fn weight_range(list: &EdgeList) -> WeightRange {
    let mut lightest = u64::MAX;
    let mut heaviest = 0;
    for edge in list.edges() {
        lightest = lightest.min(edge.w);
        heaviest = heaviest.max(edge.w);
    }
    WeightRange { lightest, heaviest }
}

/// How many levels there are, and what weight each stands for.
#[derive(Clone, Copy)]
struct Measure {
    levels: usize,
    step: u64,
}

/// The levels for a bound: with what an edge weighs at least they reach it, where there may be so
/// many; and none where no edge weighs a step. As far as there may be so many they fill a weight
/// of their own. The answer rests on none of this; with a step above what an edge weighs some
/// edges are not seen to reach the bound.
fn measure_for(list: &EdgeList, range: WeightRange, bound: u64, filled: u64) -> Measure
    requires { filled ≤ 2 ^ 62 }
    ensures positive { 1 ≤ result.step }
    ensures few { result.levels ≤ 16 }
    ensures fits { result.levels * result.step ≤ 2 ^ 62 }
{
    let n = u64::from(list.n().max(1));
    let below = bound.saturating_sub(1);
    let most = (3 * list.len() as u64 / n).clamp(1, MOST_LEVELS);
    let step = below.div_ceil(most).max(range.lightest).max(1);
    if range.heaviest < step {
        return Measure { levels: 0, step };
    }
    let levels = (filled / step).min(MOST_LEVELS) as usize;
    Measure { levels, step }
}

/// Levels in which each vertex is alone.
fn bare_levels(alloc: Global, n: u32, count: usize) -> Result<Vec<Classes>, NoMemory>
    requires { n ≤ 4194304 }
    ensures count { IfOk result (λ levels. length levels.items ≡ count) }
    ensures over { IfOk result (λ levels. AreOver (n + 1) levels.items) }
    ensures alone { IfOk result (λ levels. (l : ℕ) → l < count → (s : VertexSet) → Respects (level levels.items l) s) }
{
    let mut levels: Vec<Classes> = Vec::with_capacity(alloc, count)?;
    'levels: for _level in 0..count {
        let classes = Classes::new(alloc, n)?;
        levels.push(classes)?;
    }
    Ok(levels)
}

/// Puts all edges into the levels, and makes one what is tied: in the first kind of classes for a
/// bound, and in each further one for one more.
fn tie_edges(levels: &mut [Classes], tied: &mut [Classes], edges: &[Edge], bound: u64, step: u64)
    requires positive { 1 ≤ step }
    requires total { sum_by (λ (e : Edge). e.w) edges.now ≤ 2 ^ 61 }
    requires few { length levels.old * step ≤ 2 ^ 62 }
    requires some { 1 ≤ length tied.old }
    requires within { All (IsEdgeWithin (length (level tied.old 0) - 1)) edges.now }
    requires over { AreOver (length (level tied.old 0)) levels.old }
    requires kinds_over { AreOver (length (level tied.old 0)) tied.old }
    requires bare { (l : ℕ) → l < length levels.old → (s : VertexSet) → Respects (level levels.old l) s }
    requires alone { (k : ℕ) → k < length tied.old → (s : VertexSet) → Respects (level tied.old k) s }
    ensures kinds { length tied.new ≡ length tied.old }
    ensures over { AreOver (length (level tied.old 0)) tied.new }
    ensures tied { AreKindsTied edges.now bound tied.new }
    ensures heavy { (k : ℕ) → k + 1 ≡ length tied.old → JoinsHeavy edges.now (bound + k) (level tied.new k) }
    ensures apart { (k : ℕ) → k < length tied.old → Respects (level tied.new k) no_vertex }
{
    for edge in edges {
        tie_edge(levels, tied, *edge, bound, step);
    }
}

/// Classes that no cut parts which weighs less than a bound, and that bound.
#[derive(Drop)]
pub struct Ties {
    pub bound: u64,
    pub labels: Labels,
}

/// Classes of the vertices that are tied for a bound, and perhaps such for one more.
#[derive(Drop)]
pub(crate) struct TiedClasses {
    pub(crate) at: Labels,
    pub(crate) above: Option<Ties>,
}

/// The labels of each kind of classes.
fn labels_of_kinds(alloc: Global, tied: &[Classes], bound: u64) -> Result<TiedClasses, NoMemory>
    requires fits { bound ≤ 2 ^ 62 }
    requires some { 1 ≤ length tied.now }
    requires over { (k : ℕ) → k < length tied.now → 1 ≤ length (level tied.now k) }
    requires apart { (k : ℕ) → k < length tied.now → Respects (level tied.now k) no_vertex }
    ensures at { IfOk result (λ found. AreNumbersOf (level tied.now 0) found.at) }
    ensures above { (g : Graph) → AreOver (g.vertices + 1) tied.now → AreKindsTied g.edges bound tied.now → IfOk result (λ found. IfSome found.above (AreTiesAbove g bound)) }
{
    let at = Labels::of_classes(alloc, &tied[0])?;
    if tied.len() < 2 {
        return Ok(TiedClasses { at, above: None });
    }
    let labels = Labels::of_classes(alloc, &tied[1])?;
    let above = Ties {
        bound: bound + 1,
        labels,
    };
    Ok(TiedClasses {
        at,
        above: Some(above),
    })
}

/// Classes of the vertices that no cut parts which weighs less than a bound, and if there are to
/// be two kinds, such for one more, by one pass over the edges. The ends of each edge that weighs
/// the bound or more are in one class if there is one kind. Which vertices are made one is as free
/// as for `tied_classes`.
pub(crate) fn forests(
    alloc: Global,
    list: &EdgeList,
    range: WeightRange,
    bound: u64,
    kinds: usize,
) -> Result<TiedClasses, NoMemory>
    requires fits { bound ≤ 2 ^ 62 }
    requires kinds { (1 ≤ kinds) × (kinds ≤ 2) }
    ensures at { IfOk result (λ found. AreLabelsTied list.now bound found.at) }
    ensures above { IfOk result (λ found. IfSome found.above (AreTiesAbove list.now bound)) }
    ensures heavy { kinds ≡ 1 → IfOk result (λ found. All (λ (e : Edge). bound ≤ e.w → label found.at e.u ≡ label found.at e.v) list.now.edges) }
{
    let n = list.n();
    let measure = measure_for(list, range, bound, (bound + kinds as u64).saturating_sub(2));
    let mut levels = bare_levels(alloc, n, measure.levels)?;
    let mut tied = bare_levels(alloc, n, kinds)?;
    tie_edges(&mut levels, &mut tied, list.edges(), bound, measure.step);
    let found = labels_of_kinds(alloc, &tied, bound)?;
    Ok(found)
}

/// Classes of the vertices that no cut parts which weighs less than a bound of at most 2^62. The
/// ends of each edge that weighs the bound or more are in one.
///
/// Which vertices are made one is free beyond that: the ends of each edge that the forests of the
/// edges before it, in the order of the list, and its own weight show to be joined as heavily as
/// the bound. It takes O(m log(n) + n) steps, and memory for at most 16 numbers of 4 bytes for
/// each vertex, and 8 bytes more. It fails only if it runs out of memory.
pub fn tied_classes(alloc: Global, list: &EdgeList, bound: u64) -> Result<Labels, NoMemory>
    requires { bound ≤ 2 ^ 62 }
    ensures long { IfOk result (λ labels. length labels ≡ list.now.vertices) }
    ensures tied { IfOk result (λ labels. (s : VertexSet) → weight list.now s < bound → RespectsClasses list.now.vertices labels s) }
    ensures heavy { IfOk result (λ labels. All (λ (e : Edge). bound ≤ e.w → label labels e.u ≡ label labels e.v) list.now.edges) }
{
    let found = forests(alloc, list, weight_range(list), bound, 1)?;
    Ok(found.at)
}
