//! Contraction of a list of edges in several threads: rayon's calls map it to classes and sort it,
//! and then it is merged.

ghost use Rattle.std.specs.Prelude.{◌≡◌, All, IfOk, length};
ghost use Rattle.std.specs.List.{flat_map};
ghost use Rattle.std.specs.List.Sorted.{IsPermutation};
ghost use Rattle.std.specs.Option.{option_to_list};
ghost use Rattle.cut_definitions.specs.Contraction.{relabel};
ghost use Rattle.cut_definitions.specs.Graph.{IsEdgeWithin};
ghost use Rattle.weighted_graph.specs.Merging.{between_classes, IsSortedByEnds};

use cut_definitions::{Edge, EdgeList, NoMemory};
use rayon::prelude::*;
use std::alloc::Global;
use std::thread::Threads;
use weighted_graph::{Labels, merged_list};

/// The edge between the classes of an edge's ends, if these are two classes.
fn class_edge(edge: &Edge, labels: &Labels) -> Option<Edge>
    requires { IsEdgeWithin (length labels.now) edge.now }
    ensures { option_to_list result ≡ between_classes labels.now edge.now }
{
    let a = labels.label(edge.u);
    let b = labels.label(edge.v);
    if a == b {
        return None;
    }
    Some(Edge {
        u: a.min(b),
        v: a.max(b),
        w: edge.w,
    })
}

/// The edges between the classes of their ends, in the order of the list, without those inside a
/// class.
fn class_edges<R: Threads + Sync>(
    rt: &R,
    alloc: Global,
    edges: &[Edge],
    labels: &Labels,
) -> Result<Vec<Edge>, NoMemory>
    requires within { All (IsEdgeWithin (length labels.now)) edges.now }
    ensures { IfOk result (λ es. es.items ≡ flat_map (between_classes labels.now) edges.now) }
{
    let between = edges
        .par_iter()
        .filter_map(
            |edge: &Edge| -> Option<Edge>
                requires { IsEdgeWithin (length labels.now) edge.now }
                ensures { option_to_list result ≡ between_classes labels.entry.now edge.now }
            { class_edge(edge, labels) },
        )
        .collect::<Vec<Edge>>(rt, alloc)?;
    Ok(between)
}

/// Sorts edges by their ends.
fn sort_by_ends<R: Threads + Sync>(rt: &R, edges: &mut [Edge])
    ensures permutation { IsPermutation edges.old edges.new }
    ensures sorted { IsSortedByEnds edges.new }
{
    par_sort_unstable_by_key(rt, edges, |edge: &Edge| (edge.u, edge.v));
}

/// The edges of the graph on the classes of labels, as from `relabel_list`, by as many threads as
/// there are processors.
pub(crate) fn relabel_in_threads<R: Threads + Sync>(
    rt: &R,
    alloc: Global,
    list: &EdgeList,
    labels: &Labels,
) -> Result<EdgeList, NoMemory>
    requires { length labels.now ≡ list.now.vertices }
    ensures { IfOk result (λ l. l ≡ relabel list.now labels.now) }
{
    let classes = labels.classes();
    let mut between = class_edges(rt, alloc, list.edges(), labels)?;
    sort_by_ends(rt, &mut between);
    Ok(merged_list(classes, between))
}
