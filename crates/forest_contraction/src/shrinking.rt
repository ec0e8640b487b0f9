//! Contraction of a list of edges, as long as it makes the list shorter.

ghost use Rattle.std.specs.Prelude.{◌≡◌, ◌↔◌, ◌*◌, ◌^◌, ◌<◌, ◌≤◌, ℕ, IfOk, IfSome, IsTrue, MatchOption, if◌then◌else◌, length, min, nat_lt};
ghost use Rattle.cut_definitions.specs.Cuts.{value};
ghost use Rattle.cut_definitions.specs.Degrees.{IsLeastDegree};
ghost use Rattle.cut_definitions.specs.Graph.{Graph};
ghost use Rattle.weighted_graph.specs.ContractionLaws.{PartsNoClass};
ghost use Rattle.forest_contraction.specs.Left.{AreTies, IsContracted, IsLesser, IsLowered, Tells};

use crate::leaning::leaning_classes;
use crate::tying::{TiedClasses, Ties, WeightRange, forests, weight_range};
use cut_definitions::{EdgeList, NoMemory};
use least_cut::least_degree;
use std::alloc::Global;
use weighted_graph::{Labels, relabel_list};

/// A graph of at most so many edges is small: forests leave it as it is, and rounds, whose
/// certificates look at each edge, are for such graphs alone.
pub const FEW_EDGES: usize = 1024;

/// Below this bound no lighter cut is looked for: flows find one as soon.
const LOW_BOUND: u64 = 6;

/// Whether there are at most nine tenths of so many.
pub fn is_tenth_less(few: u32, many: u32) -> bool
    ensures { IsTrue result ↔ (few * 10 ≤ many * 9) }
{
    u64::from(few) * 10 <= u64::from(many) * 9
}

/// Whether forests of less than the bound together can hold all edges, a forest being one
/// edge for each vertex but one, and all weigh the same: then mostly next to nothing is
/// tied. No answer rests on it.
fn are_held(list: &EdgeList, range: WeightRange, bound: u64) -> bool {
    if range.lightest < range.heaviest {
        return false;
    }
    let forests = bound.saturating_sub(1) / range.heaviest.max(1);
    let most = forests.saturating_mul(u64::from(list.n()).saturating_sub(1));
    list.len() as u64 <= most
}

/// Whether a graph whose edges weigh the same has few more of them than vertices, and two or more
/// at each: it is made of long chains. A forest leaves out fewer edges than would take away a
/// tenth of the vertices, and few edges are in triangles. No answer rests on it.
fn is_thin(list: &EdgeList, range: WeightRange, bound: u64) -> bool {
    let n = list.n() as usize;
    list.len() <= n + n / 16 && range.lightest == range.heaviest && range.heaviest <= bound / 2
}

/// Whether no edge weighs more than a quarter of the bound. Where all degrees are the bound or
/// more, no vertices lean on one another then: an edge would have to be more than half of a
/// degree, alone or with one to a common neighbour. No answer rests on it.
fn are_light(range: WeightRange, bound: u64) -> bool {
    range.heaviest <= bound / 4
}

/// The list with each class made one, where these are a tenth fewer than the vertices.
fn between_classes(
    alloc: Global,
    list: &EdgeList,
    labels: &Labels,
) -> Result<Option<EdgeList>, NoMemory>
    requires enough { 2 ≤ list.now.vertices }
    requires long { length labels.now ≡ list.now.vertices }
    ensures less { IfOk result (λ found. IfSome found (λ small. small.vertices < list.now.vertices)) }
    ensures left { (bound : ℕ) → (value list.now < bound → PartsNoClass list.now labels.now) →
        IfOk result (λ found. IfSome found (IsLesser (min bound (value list.now)) bound)) }
    ensures above { IfOk result (λ found. IfSome found (λ small. 2 ≤ small.vertices → value list.now ≤ value small)) }
{
    if !is_tenth_less(labels.classes(), list.n()) {
        return Ok(None);
    }
    let small = relabel_list(alloc, list, labels)?;
    Ok(Some(small))
}

/// The list with the classes made one that forests show for a bound, if these are a tenth fewer
/// than the vertices, and if there are to be two kinds of classes, those for one more.
fn shrunk(
    alloc: Global,
    list: &EdgeList,
    range: WeightRange,
    bound: u64,
    kinds: usize,
) -> Result<Option<(EdgeList, Option<Ties>)>, NoMemory>
    requires enough { 2 ≤ list.now.vertices }
    requires fits { bound ≤ 2 ^ 61 }
    requires kinds { (1 ≤ kinds) × (kinds ≤ 2) }
    ensures less { IfOk result (λ found. IfSome found (λ made. made.0.vertices < list.now.vertices)) }
    ensures left { IfOk result (λ found. IfSome found (λ made. IsLesser (min bound (value list.now)) bound made.0)) }
    ensures above { IfOk result (λ found. IfSome found (λ made. 2 ≤ made.0.vertices → value list.now ≤ value made.0)) }
    ensures ties { value list.now ≤ bound → IfOk result (λ found. IfSome found (λ made. IfSome made.1 (AreTies list.now))) }
{
    if is_thin(list, range, bound) || are_held(list, range, bound) {
        return Ok(None);
    }
    let TiedClasses { at, above } = forests(alloc, list, range, bound, kinds)?;
    let Some(small) = between_classes(alloc, list, &at)? else {
        return Ok(None);
    };
    Ok(Some((small, above)))
}

/// The list with the classes of vertices that lean on one another made one, where these are a
/// tenth fewer than the vertices.
fn leaned(alloc: Global, list: &EdgeList, bound: u64) -> Result<Option<EdgeList>, NoMemory>
    requires { 2 ≤ list.now.vertices }
    ensures { IfOk result (λ found. IfSome found (IsLesser (min bound (value list.now)) bound)) }
{
    let labels = leaning_classes(alloc, list, bound)?;
    between_classes(alloc, list, &labels)
}

/// The lesser of a bound and the least degree, which is the weight of a cut where there
/// are two or more vertices.
fn lowered(alloc: Global, list: &EdgeList, bound: u64) -> Result<u64, NoMemory>
    ensures { IfOk result (IsLowered list.now bound) }
{
    if list.n() < 2 {
        return Ok(bound);
    }
    let least = least_degree(alloc, list)?;
    Ok(least.min(bound))
}

/// A bound and a list of edges that tell together what another list told.
#[derive(Drop)]
struct Left {
    bound: u64,
    list: EdgeList,
}

/// Contraction at a bound, which falls with the degrees.
fn contract_at(alloc: Global, list: EdgeList, bound: u64) -> Result<Left, NoMemory>
    requires { bound ≤ 2 ^ 61 }
    ensures left { (whole : ℕ) → IsLesser whole bound list → IfOk result (λ c. IsLesser whole c.bound c.list) }
    ensures at_most { IfOk result (λ c. c.bound ≤ bound) }
{
    let mut low = bound;
    let mut small = list;
    'passes: while small.n() >= 2 && small.len() > FEW_EDGES && low > 0 {
        let Some((smaller, _)) = shrunk(alloc, &small, weight_range(&small), low, 1)? else {
            break;
        };
        low = lowered(alloc, &smaller, low)?;
        small = smaller;
    }
    Ok(Left {
        bound: low,
        list: small,
    })
}

/// What contraction leaves of a graph: a bound, and the edges between the classes, or none where
/// it left the list as it is.
#[derive(Drop)]
pub struct Contracted {
    pub bound: u64,
    pub list: Option<EdgeList>,
}

/// A bound that is lighter, if contraction for half of it comes upon a cut that is, and else the
/// bound. The vertices of a cluster are joined more heavily than that, so the clusters are made
/// one before what parts them, and their degrees are the weights of cuts. Where the cut weighs at
/// most the half, what is left is good for it too.
fn lighter(
    alloc: Global,
    list: &EdgeList,
    range: WeightRange,
    bound: u64,
) -> Result<Contracted, NoMemory>
    requires enough { 2 ≤ list.now.vertices }
    requires fits { bound ≤ 2 ^ 61 }
    ensures { IfOk result (IsContracted list.now bound) }
{
    let half = bound.div_ceil(2);
    let Some((mut small, _)) = shrunk(alloc, list, range, half, 1)? else {
        return Ok(Contracted { bound, list: None });
    };
    let mut low = lowered(alloc, &small, bound)?;
    'trials: while low >= bound && small.n() >= 2 {
        let Some((smaller, _)) = shrunk(alloc, &small, weight_range(&small), half, 1)? else {
            return Ok(Contracted { bound, list: None });
        };
        low = lowered(alloc, &smaller, bound)?;
        small = smaller;
    }
    if low > half {
        return Ok(Contracted {
            bound: low,
            list: None,
        });
    }
    Ok(Contracted {
        bound: low,
        list: Some(small),
    })
}

/// What a pass of contraction leaves.
fn after_pass(alloc: Global, found: Option<EdgeList>, bound: u64) -> Result<Contracted, NoMemory>
    ensures { (g : Graph) → 2 ≤ g.vertices → IfSome found (IsLesser (min bound (value g)) bound) → IfOk result (IsContracted g bound) }
{
    let Some(small) = found else {
        return Ok(Contracted { bound, list: None });
    };
    let low = lowered(alloc, &small, bound)?;
    Ok(Contracted {
        bound: low,
        list: Some(small),
    })
}

/// One pass of contraction by forests.
fn pass(
    alloc: Global,
    list: &EdgeList,
    range: WeightRange,
    bound: u64,
) -> Result<Contracted, NoMemory>
    requires enough { 2 ≤ list.now.vertices }
    requires fits { bound ≤ 2 ^ 61 }
    ensures { IfOk result (IsContracted list.now bound) }
{
    let Some((small, _)) = shrunk(alloc, list, range, bound, 1)? else {
        return Ok(Contracted { bound, list: None });
    };
    after_pass(alloc, Some(small), bound)
}

/// The pass by forests at a lower bound, if there is one, where that at the bound came to nothing.
fn pass_below(
    alloc: Global,
    list: &EdgeList,
    range: WeightRange,
    bound: u64,
) -> Result<Contracted, NoMemory>
    requires enough { 2 ≤ list.now.vertices }
    requires fits { bound ≤ 2 ^ 61 }
    ensures { IfOk result (IsContracted list.now bound) }
{
    if bound < LOW_BOUND {
        return Ok(Contracted { bound, list: None });
    }
    let found = lighter(alloc, list, range, bound)?;
    if found.list.is_some() || found.bound >= bound {
        return Ok(found);
    }
    let again = pass(alloc, list, range, found.bound)?;
    Ok(again)
}

/// What is tried where a pass by forests at the bound came to nothing: one at a lower bound, and
/// vertices that lean on one another.
fn other_pass(
    alloc: Global,
    list: &EdgeList,
    range: WeightRange,
    bound: u64,
) -> Result<Contracted, NoMemory>
    requires enough { 2 ≤ list.now.vertices }
    requires fits { bound ≤ 2 ^ 61 }
    ensures { IfOk result (IsContracted list.now bound) }
{
    let made = pass_below(alloc, list, range, bound)?;
    if made.list.is_some() || are_light(range, bound) || is_thin(list, range, bound) {
        return Ok(made);
    }
    let found = leaned(alloc, list, made.bound)?;
    after_pass(alloc, found, made.bound)
}

/// Further passes, at bounds that fall, as long as the list gets shorter.
fn contract_further(alloc: Global, list: EdgeList, bound: u64) -> Result<Left, NoMemory>
    requires { bound ≤ 2 ^ 61 }
    ensures { (whole : ℕ) → IsLesser whole bound list → IfOk result (λ left. IsLesser whole left.bound left.list) }
{
    let mut left = contract_at(alloc, list, bound)?;
    let mut shrinks = true;
    'bounds: while shrinks
        && left.list.n() >= 2
        && left.list.len() > FEW_EDGES
        && left.bound >= LOW_BOUND
    {
        let before = left.list.n();
        let Contracted {
            bound,
            list: smaller,
        } = lighter(alloc, &left.list, weight_range(&left.list), left.bound)?;
        if bound >= left.bound {
            break;
        }
        let Left { list, .. } = left;
        left = contract_at(alloc, smaller.unwrap_or(list), bound)?;
        shrinks = left.list.n() < before;
    }
    Ok(left)
}

/// What further passes leave of what the first one left.
fn contract_rest(alloc: Global, first: Contracted) -> Result<Contracted, NoMemory>
    requires { first.bound ≤ 2 ^ 61 }
    ensures { (g : Graph) (bound : ℕ) → 2 ≤ g.vertices → value g ≤ bound → IsContracted g bound first → IfOk result (Tells g) }
{
    let Contracted { bound, list: found } = first;
    let Some(small) = found else {
        return Ok(Contracted { bound, list: None });
    };
    let Left { bound, list: left } = contract_further(alloc, small, bound)?;
    Ok(Contracted {
        bound,
        list: Some(left),
    })
}

/// What `contract_list` answers, by the least degree, which is given.
pub fn contract_from_degree(
    alloc: Global,
    list: &EdgeList,
    least: u64,
) -> Result<Contracted, NoMemory>
    requires enough { 2 ≤ list.now.vertices }
    requires least { IsLeastDegree list.now least }
    ensures { IfOk result (λ c. MatchOption c.list (value list.now ≤ c.bound)
        (λ small. value list.now ≡ (if nat_lt small.vertices 2 then c.bound else min c.bound (value small)))) }
{
    contract_measured(alloc, list, weight_range(list), least)
}

/// The same, if the range of the weights is known too.
pub fn contract_measured(
    alloc: Global,
    list: &EdgeList,
    range: WeightRange,
    least: u64,
) -> Result<Contracted, NoMemory>
    requires enough { 2 ≤ list.now.vertices }
    requires least { IsLeastDegree list.now least }
    ensures { IfOk result (λ c. MatchOption c.list (value list.now ≤ c.bound)
        (λ small. value list.now ≡ (if nat_lt small.vertices 2 then c.bound else min c.bound (value small)))) }
{
    // known by this call: it is an edge list
    let _n = list.n();
    if list.len() <= FEW_EDGES || least == 0 {
        return Ok(Contracted {
            bound: least,
            list: None,
        });
    }
    let Contracted { bound, list: found } = pass(alloc, list, range, least)?;
    let Some(small) = found else {
        let other = other_pass(alloc, list, range, bound)?;
        return contract_rest(alloc, other);
    };
    let made = Contracted {
        bound,
        list: Some(small),
    };
    contract_rest(alloc, made)
}

/// A bound, and perhaps a smaller graph, from which the value of a graph of two or more vertices
/// can be told: it is the lesser of the bound and the value of the smaller graph, or the bound
/// where that has one vertex. Where there is no smaller graph the value is at most the bound.
/// How small it is is free.
///
/// The bound begins at the least degree. Classes that no cut parts which weighs less are
/// contracted, again and again while that takes away a tenth of the vertices, and where it no
/// longer does, contraction for half the bound is tried for a cut that is lighter. Where forests
/// show no such classes, local tests of the edges are tried for vertices that no minimum cut
/// parts. A list of at most 1,024 edges is left as it is. A pass takes O(m log n) steps; each is
/// over at most nine tenths of the vertices of the one before, or for a lower bound. It takes
/// memory for the classes and the edges between them, and is refused only where memory is wanting.
pub fn contract_list(alloc: Global, list: &EdgeList) -> Result<Contracted, NoMemory>
    requires { 2 ≤ list.now.vertices }
    ensures { IfOk result (λ c. MatchOption c.list (value list.now ≤ c.bound)
        (λ small. value list.now ≡ (if nat_lt small.vertices 2 then c.bound else min c.bound (value small)))) }
{
    let least = least_degree(alloc, list)?;
    contract_from_degree(alloc, list, least)
}

/// What contraction leaves of a graph, and classes that no minimum cut parts,
/// if the first pass came upon such.
#[derive(Drop)]
pub struct WithTies {
    pub contracted: Contracted,
    pub ties: Option<Ties>,
}

/// What `contract_list` answers, and with it classes that no minimum cut parts, where a pass
/// by forests at the least degree shortens the list: no cut parts one of these that weighs
/// less than one more than the least degree. Which vertices are made one, and whether there
/// are such classes, is free.
///
/// One pass of forests makes both kinds of classes, in about the time of one. It takes 8 bytes
/// more for each vertex than `contract_list`, and is refused only where memory is wanting.
pub fn contract_with_ties(alloc: Global, list: &EdgeList) -> Result<WithTies, NoMemory>
    requires { 2 ≤ list.now.vertices }
    ensures left { IfOk result (λ c. MatchOption c.contracted.list (value list.now ≤ c.contracted.bound)
        (λ small. value list.now ≡ (if nat_lt small.vertices 2 then c.contracted.bound else min c.contracted.bound (value small)))) }
    ensures ties { IfOk result (λ c. IfSome c.ties (AreTies list.now)) }
{
    // known by this call: it is an edge list
    let _n = list.n();
    let least = least_degree(alloc, list)?;
    if list.len() <= FEW_EDGES || least == 0 {
        return Ok(WithTies {
            contracted: Contracted {
                bound: least,
                list: None,
            },
            ties: None,
        });
    }
    let range = weight_range(list);
    let Some((small, ties)) = shrunk(alloc, list, range, least, 2)? else {
        let other = other_pass(alloc, list, range, least)?;
        let contracted = contract_rest(alloc, other)?;
        return Ok(WithTies {
            contracted,
            ties: None,
        });
    };
    let made = after_pass(alloc, Some(small), least)?;
    let contracted = contract_rest(alloc, made)?;
    Ok(WithTies { contracted, ties })
}
