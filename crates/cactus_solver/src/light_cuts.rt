//! Several cuts that weigh less than a bound, at about the price of one.

ghost use Rattle.std.specs.Prelude.{◌≡◌, ◌≤◌, IfOk, map};
ghost use Rattle.std.specs.List.{All};
ghost use Rattle.cut_definitions.specs.Contraction.{classes};
ghost use Rattle.least_cut.specs.CutsBelow.{AreCutsBelow};
ghost use Rattle.least_cut.specs.declared.lightest.LightestCut.{LightestCut as Cut};
ghost use Rattle.cactus_solver.specs.LightCuts.{lifted_by};

use cut_definitions::{EdgeList, MOST_WEIGHT, NoMemory};
use forest_contraction::{FEW_EDGES, is_tenth_less, tied_classes};
use least_cut::{LightestCut, cuts_below as cuts_by_sweep};
use std::alloc::Global;
use weighted_graph::{Graph, Labels, relabel_list};

/// Cuts of classes as cuts of the vertices: each side has all vertices of its classes.
fn lift_cuts(
    alloc: Global,
    labels: &Labels,
    cuts: &[LightestCut],
) -> Result<Vec<LightestCut>, NoMemory>
    requires { All (λ (c : Cut). c.side.vertices ≡ classes labels.now) cuts.now }
    ensures { IfOk result (λ lifted. lifted.items ≡ map (lifted_by labels.now) cuts.now) }
{
    let mut lifted = Vec::new(alloc);
    for cut in cuts {
        let side = labels.lift(alloc, &cut.side)?;
        lifted.push(LightestCut {
            weight: cut.weight,
            side,
        })?;
    }
    Ok(lifted)
}

/// Cuts of a list of edges that weigh less than a bound, by a sweep over its graph.
fn sweep(
    alloc: Global,
    list: EdgeList,
    bound: u64,
    room: usize,
) -> Result<Vec<LightestCut>, NoMemory>
    requires { 2 ≤ list.vertices }
    ensures { IfOk result (λ cuts. AreCutsBelow list bound room cuts.items) }
{
    let graph = Graph::from_list(alloc, list)?;
    cuts_by_sweep(alloc, &graph, bound, room)
}

/// Cuts of a graph of two or more vertices that weigh less than a bound, at most `room` of them
/// and no two the same. If there is one, the first is a minimum cut; which others there are is
/// free. The list of edges is taken over.
///
/// One pass of forests (Nagamochi and Ibaraki, 1992) shows classes that no cut below the bound
/// separates. If these are a tenth fewer than the vertices, the graph on them is swept in place of
/// the graph itself, and the cuts found are lifted. A list of at most 1,024 edges is swept at once.
/// The pass takes O(m log n) steps and the sweep a flow for each class. Memory is O(n + m), and n/8
/// bytes for each cut. It fails only if it runs out of memory.
pub fn cuts_below(
    alloc: Global,
    list: EdgeList,
    bound: u64,
    room: usize,
) -> Result<Vec<LightestCut>, NoMemory>
    requires { 2 ≤ list.vertices }
    ensures { IfOk result (λ cuts. AreCutsBelow list bound room cuts.items) }
{
    if list.len() <= FEW_EDGES {
        return sweep(alloc, list, bound, room);
    }
    // known by this call: it is an edge list, so no cut weighs more than 2^61
    let n = list.n();
    let labels = tied_classes(alloc, &list, bound.min(MOST_WEIGHT + 1))?;
    if !is_tenth_less(labels.classes(), n) {
        return sweep(alloc, list, bound, room);
    }
    if labels.classes() < 2 {
        return Ok(Vec::new(alloc));
    }
    let between = relabel_list(alloc, &list, &labels)?;
    let cuts = sweep(alloc, between, bound, room)?;
    lift_cuts(alloc, &labels, &cuts)
}
