//! Classes of the vertices of a list of edges that no minimum cut parts.

ghost use Rattle.std.specs.Prelude.{◌≡◌, ◌+◌, ◌≤◌, IfOk, IfSome};
ghost use Rattle.cut_definitions.specs.Cuts.{value as least_value};
ghost use Rattle.cut_definitions.specs.Graph.{Graph as EdgeGraph};
ghost use Rattle.forest_contraction.specs.Left.{AreLabelsTied, AreTies};
ghost use Rattle.min_value.specs.Kernels.{IsKept};

use cut_definitions::{EdgeList, NoMemory};
use forest_contraction::{Ties, is_tenth_less, tied_classes};
use std::alloc::Global;
use weighted_graph::{Labels, relabel_list};

/// The edges between the classes that labels make, and the value.
#[derive(Drop)]
pub(crate) struct ListClasses {
    pub(crate) value: u64,
    pub(crate) list: EdgeList,
    pub(crate) labels: Labels,
}

/// Whether the edges weigh at most the value for each vertex but one,
/// so that as many forests can hold them all.
fn is_light(list: &EdgeList, value: u64) -> bool {
    let mut total = 0u64;
    for edge in list.edges() {
        total = total.saturating_add(edge.w);
    }
    total <= value.saturating_mul(u64::from(list.n().saturating_sub(1)))
}

/// The edges between classes that no cut parts which weighs at most the value; none where the
/// classes are not a tenth fewer than the vertices.
fn between(
    alloc: Global,
    list: &EdgeList,
    value: u64,
    labels: Labels,
) -> Result<Option<ListClasses>, NoMemory>
    requires enough { 2 ≤ list.now.vertices }
    requires value { value ≡ least_value list.now }
    requires tied { AreLabelsTied list.now (value + 1) labels }
    ensures { IfOk result (λ found. IfSome found (λ c. IsKept list.now c.value c.list c.labels)) }
{
    if !is_tenth_less(labels.classes(), list.n()) {
        return Ok(None);
    }
    let between = relabel_list(alloc, list, &labels)?;
    Ok(Some(ListClasses {
        value,
        list: between,
        labels,
    }))
}

/// Classes that forests show for the value, and the edges between them; none where the edges are
/// light, or the classes not a tenth fewer than the vertices.
fn by_forests(alloc: Global, list: &EdgeList, value: u64) -> Result<Option<ListClasses>, NoMemory>
    requires enough { 2 ≤ list.now.vertices }
    requires value { value ≡ least_value list.now }
    ensures { IfOk result (λ found. IfSome found (λ c. IsKept list.now c.value c.list c.labels)) }
{
    // known by this call: it is an edge list
    let _n = list.n();
    if is_light(list, value) {
        return Ok(None);
    }
    let labels = tied_classes(alloc, list, value + 1)?;
    between(alloc, list, value, labels)
}

/// Classes of these classes, where forests show such of the edges between them.
fn shrunk_further(alloc: Global, classes: ListClasses) -> Result<ListClasses, NoMemory>
    requires { (g : EdgeGraph) × IsKept g classes.value classes.list classes.labels }
    ensures { (g : EdgeGraph) → IsKept g classes.value classes.list classes.labels → IfOk result (λ c. IsKept g c.value c.list c.labels) }
{
    let Some(next) = by_forests(alloc, &classes.list, classes.value)? else {
        return Ok(classes);
    };
    let labels = classes.labels.compose(alloc, &next.labels)?;
    Ok(ListClasses {
        value: classes.value,
        list: next.list,
        labels,
    })
}

/// Classes that no minimum cut parts, by those that were found with the value, or where there are
/// none by forests. Those that were found for more than one more than the value are made larger
/// by forests for the value.
pub(crate) fn classes_of(
    alloc: Global,
    list: &EdgeList,
    value: u64,
    ties: Option<Ties>,
) -> Result<Option<ListClasses>, NoMemory>
    requires enough { 2 ≤ list.now.vertices }
    requires value { value ≡ least_value list.now }
    requires ties { IfSome ties (AreTies list.now) }
    ensures { IfOk result (λ found. IfSome found (λ c. IsKept list.now c.value c.list c.labels)) }
{
    let Some(Ties { bound, labels }) = ties else {
        return by_forests(alloc, list, value);
    };
    let is_higher = bound - value > 1;
    let Some(classes) = between(alloc, list, value, labels)? else {
        return if is_higher {
            by_forests(alloc, list, value)
        } else {
            Ok(None)
        };
    };
    if !is_higher {
        return Ok(Some(classes));
    }
    let further = shrunk_further(alloc, classes)?;
    Ok(Some(further))
}
