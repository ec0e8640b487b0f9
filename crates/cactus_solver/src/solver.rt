//! The value of a graph and the cactus of its minimum cuts.

ghost use Rattle.std.specs.Prelude.{◌≡◌, ◌≤◌, IfOk, true};
ghost use Rattle.cut_definitions.specs.Components.{IsConnected};
ghost use Rattle.cut_definitions.specs.Cuts.{value, value as least_value, mincuts};
ghost use Rattle.rooted_cactus.specs.Normal.{is_normal};
ghost use Rattle.rooted_cactus.specs.Rooted.{sides_of};
ghost use Rattle.node_tree.specs.Finished.{IsFinished};
ghost use Rattle.cut_definitions.specs.Members.{SameMembers};

use crate::reduced::lifted;
use crate::sweep_team::SweepTeam;
use cut_definitions::NoMemory;
use min_value::{reduce, value as least_weight};
use node_tree::{HomedTree, tree_of_branches};
use outside::Gate;
use region_sweep::cactus_by_tree;
use rooted_cactus::Solved;
use std::thread::Threads;
use weighted_graph::Graph;
use worker_team::Crew;

/// The tree of the minimum cuts of a graph whose value is given: read off the graph where it is a
/// tree whose edges all have the value, and else by a sweep.
pub fn tree_of_cuts<T: SweepTeam>(
    team: &T,
    graph: &Graph,
    value: u64,
) -> Result<HomedTree, NoMemory>
    requires ready { T.ready team.now }
    requires connected { IsConnected graph.now }
    requires enough { 2 ≤ graph.now.vertices }
    requires value { value ≡ least_value graph.now }
    ensures { IfOk result (IsFinished graph.now) }
{
    match tree_of_branches(team.alloc(), graph, value)? {
        Some(tree) => Ok(tree),
        None => team.sweep(graph, value),
    }
}

/// The tree of the minimum cuts of a graph whose value is given:
/// by a smaller graph, where edges can be contracted.
fn tree_at_value<R: Threads + Sync, G: Gate>(
    crew: &Crew<R, G>,
    graph: &Graph,
    value: u64,
) -> Result<HomedTree, NoMemory>
    requires connected { IsConnected graph.now }
    requires enough { 2 ≤ graph.now.vertices }
    requires value { value ≡ least_value graph.now }
    ensures { IfOk result (IsFinished graph.now) }
{
    match reduce(crew, graph, value)? {
        Some(kernel) => {
            // known by these calls: they are edge lists
            let _n = graph.n();
            let _small = kernel.graph.n();
            let tree = tree_of_cuts(&crew.threads, &kernel.graph, value)?;
            lifted(
                crew.threads.alloc,
                graph.list(),
                &kernel.graph,
                &kernel.labels,
                tree,
            )
        }
        None => tree_of_cuts(&crew.threads, graph, value),
    }
}

/// The cactus of the minimum cuts of a connected graph of two or more vertices whose value is
/// given, in its normal form.
///
/// Scans or rounds contract edges that lie in no minimum cut, where there are some. What is left
/// is mostly a tree whose edges all have the value where that is 1; else the sweep over regions
/// makes the tree of its minimum cuts. Each vertex of the graph is put into the node of its class,
/// and the cactus is made of that, once all else is given back, and made normal where a node has
/// no vertex. Memory is in proportion to n + m. The workers share the large regions, where the
/// sweep lists two or more of them at once. It is refused only where memory is wanting.
pub fn solve_at<R: Threads + Sync, G: Gate>(
    crew: &Crew<R, G>,
    graph: &Graph,
    value: u64,
) -> Result<Solved, NoMemory>
    requires connected { IsConnected graph.now }
    requires enough { 2 ≤ graph.now.vertices }
    requires value { value ≡ least_value graph.now }
    ensures value { IfOk result (λ s. s.value ≡ least_value graph.now) }
    ensures n { IfOk result (λ s. s.cactus.vertices ≡ graph.now.vertices) }
    ensures sides { IfOk result (λ s. SameMembers (sides_of s.cactus) (mincuts graph.now)) }
    ensures normal { IfOk result (λ s. is_normal s.cactus.root ≡ true) }
{
    let tree = tree_at_value(crew, graph, value)?;
    let solved = cactus_by_tree(crew.threads.alloc, graph.list(), value, tree)?;
    Ok(solved)
}

/// The value of a connected graph of two or more vertices,
/// and the cactus of its minimum cuts, in its normal form.
///
/// The value comes from rounds of contraction and a sweep of flows, the cactus is `solve_at` of
/// it. Memory is in proportion to n + m. It is refused only where that is wanting.
pub fn solve<R: Threads + Sync, G: Gate>(
    crew: &Crew<R, G>,
    graph: &Graph,
) -> Result<Solved, NoMemory>
    requires connected { IsConnected graph.now }
    requires enough { 2 ≤ graph.now.vertices }
    ensures value { IfOk result (λ s. s.value ≡ value graph.now) }
    ensures n { IfOk result (λ s. s.cactus.vertices ≡ graph.now.vertices) }
    ensures sides { IfOk result (λ s. SameMembers (sides_of s.cactus) (mincuts graph.now)) }
    ensures normal { IfOk result (λ s. is_normal s.cactus.root ≡ true) }
{
    let value = least_weight(crew, graph)?;
    let solved = solve_at(crew, graph, value)?;
    Ok(solved)
}
