//! The contraction of sets that have grown.

ghost use Rattle.std.specs.Prelude.{◌≡◌, ◌+◌, ◌≤◌, ◌++◌, ◌^◌, ◌<◌, ℕ, IfOk};
ghost use Rattle.cut_definitions.specs.Cuts.{value as least_value};
ghost use Rattle.cut_definitions.specs.Safe.{IsFair};
ghost use Rattle.cut_definitions.specs.Scan.{single};
ghost use Rattle.cut_definitions.specs.Weight.{weight};
ghost use Rattle.certified_growth.specs.GrownSets.{AreSets, IsGrownSmaller, IsLeastKept, all_leaves};

use crate::growing::add_all;
use crate::grown_set::{GrownSet, labels_of_sets};
use cut_definitions::NoMemory;
use std::alloc::Global;
use weighted_graph::{Graph, Labels};

/// A graph whose vertices are classes of those of another, their labels,
/// and the vertices that were noted.
#[derive(Drop)]
pub struct Grown {
    pub graph: Graph,
    pub labels: Labels,
    pub leaves: Vec<u32>,
}

/// The noted vertices of all sets.
fn leaves_of_sets(alloc: Global, sets: &[GrownSet]) -> Result<Vec<u32>, NoMemory>
    ensures { IfOk result (λ l. l.items ≡ all_leaves sets.now) }
{
    let mut all = Vec::new(alloc);
    for set in sets {
        add_all(&mut all, set.leaves.as_slice())?;
    }
    Ok(all)
}

/// Contracts each set to one vertex.
pub fn contract_sets(
    alloc: Global,
    graph: &Graph,
    owners: &[u32],
    sets: &[GrownSet],
    value: u64,
) -> Result<Grown, NoMemory>
    requires enough { 2 ≤ graph.now.vertices }
    requires value { value ≡ least_value graph.now }
    requires fits { value + 1 < 2 ^ 64 }
    requires sets { AreSets graph.now (value + 1) owners.now sets.now }
    ensures { IfOk result (IsGrownSmaller graph.now) }
{
    // known by this call: the graph is an edge list
    let _n = graph.n();
    let labels = labels_of_sets(alloc, graph, owners, sets, value + 1)?;
    let leaves = leaves_of_sets(alloc, sets)?;
    let graph = graph.relabel(alloc, &labels)?;
    Ok(Grown {
        graph,
        labels,
        leaves,
    })
}

/// Contracts each set to one vertex, where the sets around their vertices weigh at least a bound,
/// which no vertex alone is below.
///
/// The value is then the lesser of the bound and the value of the graph on the classes, or the
/// bound where that has one vertex.
pub fn contract_at_bound(
    alloc: Global,
    graph: &Graph,
    owners: &[u32],
    sets: &[GrownSet],
    bound: u64,
) -> Result<(Graph, Labels), NoMemory>
    requires enough { 2 ≤ graph.now.vertices }
    requires fair { IsFair graph.now bound }
    requires degrees { (v : ℕ) → 1 ≤ v → v ≤ graph.now.vertices → bound ≤ weight graph.now (single v) }
    requires sets { AreSets graph.now bound owners.now sets.now }
    ensures { IfOk result (λ k. IsLeastKept graph.now bound k.0 k.1) }
{
    // known by this call: the graph is an edge list
    let _n = graph.n();
    let labels = labels_of_sets(alloc, graph, owners, sets, bound)?;
    let small = graph.relabel(alloc, &labels)?;
    Ok((small, labels))
}
