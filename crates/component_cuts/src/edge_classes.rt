//! The components of a list of edges, as classes that its edges join, and their number.

ghost use Rattle.std.specs.Prelude.{◌≡◌, ◌↔◌, ◌+◌, IfOk, length};
ghost use Rattle.cut_definitions.specs.Components.{HasComponents};
ghost use Rattle.cut_definitions.specs.Weight.{VertexSet, weight};
ghost use Rattle.vertex_classes.specs.Classes.{no_vertex, Respects};

use cut_definitions::{EdgeList, NoMemory};
use std::alloc::Global;
use vertex_classes::Classes;

/// Joins the ends of each edge, starting from classes in which each vertex is alone.
fn join_ends(list: &EdgeList, classes: &mut Classes)
    requires long { length classes.old ≡ list.now.vertices + 1 }
    requires alone { (s : VertexSet) → Respects classes.old s }
    ensures long { length classes.new ≡ length classes.old }
    ensures joined { (s : VertexSet) → Respects classes.new s ↔ (weight list.now s ≡ 0) }
{
    // known by this call: it is an edge list
    let _n = list.n();
    for edge in list.edges() {
        classes.join(edge.u, edge.v);
    }
}

/// The components as classes of the vertices. The ends of each edge are joined by union-find
/// (Galler and Fischer, 1964), in O(m log(n) + n) steps. The sets with all or none of each class
/// are exactly those of weight 0.
pub(crate) fn component_classes(alloc: Global, list: &EdgeList) -> Result<Classes, NoMemory>
    ensures long { IfOk result (λ c. length c ≡ list.now.vertices + 1) }
    ensures joined { IfOk result (λ c. (s : VertexSet) → Respects c s ↔ (weight list.now s ≡ 0)) }
    ensures apart { IfOk result (λ c. Respects c no_vertex) }
{
    let mut classes = Classes::new(alloc, list.n())?;
    join_ends(list, &mut classes);
    Ok(classes)
}

/// The number of components of a list of edges; 0 exactly if there is no vertex. It takes O(m
/// log(n) + n) steps and 4 bytes a vertex, makes no rows, and fails only if it runs out of memory.
pub fn count_components(alloc: Global, list: &EdgeList) -> Result<u32, NoMemory>
    ensures counted { IfOk result (λ count. HasComponents list.now count) }
    ensures none { IfOk result (λ count. (count ≡ 0) ↔ (list.now.vertices ≡ 0)) }
{
    let classes = component_classes(alloc, list)?;
    Ok(classes.count())
}
