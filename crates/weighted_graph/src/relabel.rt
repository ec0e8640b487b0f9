//! Contraction of a list of edges: mapped to classes, sorted by their ends, and merged.

ghost use Rattle.std.specs.Prelude.{◌≡◌, All, IfOk, length};
ghost use Rattle.std.specs.List.{flat_map};
ghost use Rattle.cut_definitions.specs.Contraction.{relabel};
ghost use Rattle.cut_definitions.specs.Graph.{IsEdgeWithin};
ghost use Rattle.weighted_graph.specs.Merging.{between_classes};

use crate::labels::Labels;
use crate::merging::{merged_list, sort_by_ends};
use cut_definitions::{Edge, EdgeList, NoMemory};
use std::alloc::Global;

/// The edges between the classes of their ends, without those inside a class.
fn class_edges(alloc: Global, edges: &[Edge], labels: &Labels) -> Result<Vec<Edge>, NoMemory>
    requires within { All (IsEdgeWithin (length labels.now)) edges.now }
    ensures { IfOk result (λ es. es.items ≡ flat_map (between_classes labels.now) edges.now) }
{
    let mut between = Vec::new(alloc);
    for edge in edges {
        let a = labels.label(edge.u);
        let b = labels.label(edge.v);
        if a != b {
            between.push(Edge {
                u: a.min(b),
                v: a.max(b),
                w: edge.w,
            })?;
        }
    }
    Ok(between)
}

/// The edges of the graph on the classes of labels, of which there is one for each vertex. The
/// weight between two classes is the sum over the edges between their vertices; edges inside a
/// class are dropped.
///
/// The edges between classes are copied and sorted once, in O(m log m). It fails only if it runs
/// out of memory.
pub fn relabel_list(alloc: Global, list: &EdgeList, labels: &Labels) -> Result<EdgeList, NoMemory>
    requires { length labels.now ≡ list.now.vertices }
    ensures { IfOk result (λ l. l ≡ relabel list.now labels.now) }
{
    let classes = labels.classes();
    let mut between = class_edges(alloc, list.edges(), labels)?;
    sort_by_ends(&mut between);
    Ok(merged_list(classes, between))
}
