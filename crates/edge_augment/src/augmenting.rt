//! The fewest unit edges that raise the value, from a cactus of all minimum cuts.

ghost use Rattle.std.specs.Prelude.{◌≡◌, ◌≤◌, true, IfOk, length, slice_index};
ghost use Rattle.std.specs.List.{All};
ghost use Rattle.std.specs.List.Sorted.{IsNonDecreasingBy, IsPermutation, IsSorted};
ghost use Rattle.cut_definitions.specs.Cuts.{least};
ghost use Rattle.rooted_cactus.specs.Normal.{is_normal};
ghost use Rattle.rooted_cactus.specs.Trees.{blocks};
ghost use Rattle.edge_augment.specs.Augmentations.{IsAugmentation, IsLeast, pair_cmp};
ghost use Rattle.edge_augment.specs.NewEdges.{new_edges, upward};

use crate::ends::{first_vertex, list_ends};
use crate::plan::Plan;
use cut_definitions::NoMemory;
use rooted_cactus::{Cactus, VertexList};
use std::alloc::Global;

/// The edge between two vertices, with the lesser one first.
fn edge_between(u: u32, v: u32) -> (u32, u32)
    ensures { result ≡ upward (u, v) }
{
    (u.min(v), u.max(v))
}

/// The edges between opposite sets. Each set of the first half, rounded up, is joined with the set
/// half of their number further on.
fn opposite_edges(alloc: Global, sets: &[VertexList]) -> Result<Vec<(u32, u32)>, NoMemory>
    requires { All (λ set. least set ≡ slice_index set 0) sets.now }
    ensures { IfOk result (λ v. v.items ≡ new_edges sets.now) }
{
    let half = sets.len() / 2;
    let mut edges = Vec::new(alloc);
    'pairs: for i in 0..sets.len() - half {
        let u = first_vertex(&sets[i]);
        let v = first_vertex(&sets[i + half]);
        edges.push(edge_between(u, v))?;
    }
    Ok(edges)
}

/// Sorts edges. It takes no memory.
fn sort_edges(edges: &mut Vec<(u32, u32)>)
    ensures same { IsPermutation edges.old.items edges.new.items }
    ensures sorted { IsSorted pair_cmp edges.new.items }
{
    edges.sort_unstable();
}

/// Sorts sets by their first vertices. It takes no memory.
fn sort_sets(sets: &mut Vec<VertexList>)
    ensures same { IsPermutation sets.old.items sets.new.items }
    ensures sorted { IsNonDecreasingBy (λ set. slice_index set 0) sets.new.items }
{
    sets.sort_unstable_by_key(|set| first_vertex(set));
}

/// The fewest edges of weight 1 that raise the value of a graph, if the cactus has the sides of
/// all its minimum cuts.
///
/// The cactus is normal and has a block. The sets of the plan are the inclusion-minimal sets that
/// are a side of the cactus or the complement of one. They are the sets of vertices of the nodes
/// that lie in exactly one block. They share no vertex, and edges raise the value only if each of
/// these sets has exactly one end of some edge. So half as many edges as sets are needed, rounded
/// up. The L end nodes are in the order in which the tree is entered. The one at each place i is
/// joined with that at place i + h, with h half of L, rounded down.
///
/// It reads the nodes, blocks and vertices of the tree once, in loops, and sorts the edges and the
/// sets, of which there are at most n: O(n log n). It takes memory in proportion to n, and fails
/// only if it runs out of memory. The bound is due to Eswaran and Tarjan (1976) for bridges, and
/// to Naor, Gusfield and Martel (1997) for any value.
pub fn augment(alloc: Global, cactus: &Cactus) -> Result<Plan, NoMemory>
    requires normal { is_normal cactus.now.root ≡ true }
    requires cuts { 1 ≤ length (blocks cactus.now.root) }
    ensures exact { IfOk result (λ p. IsAugmentation cactus.now p) }
    ensures fewest { IfOk result (λ p. IsLeast cactus.now p) }
{
    let mut sets = list_ends(alloc, cactus.root())?;
    let mut edges = opposite_edges(alloc, &sets)?;
    sort_edges(&mut edges);
    sort_sets(&mut sets);
    Ok(Plan::new(edges, sets))
}
