//! The graph of a list, renumbered if that brings neighbours nearer.

ghost use Rattle.std.specs.Prelude.{◌≡◌, IfOk};
ghost use Rattle.vertex_order.specs.Numbering.{IsNearGraph, graph_of};

use crate::order::nearer_order;
use cut_definitions::{EdgeList, NoMemory};
use weighted_graph::{Graph, Labels, relabel_list};
use worker_team::Team;

/// The graph of a list of edges, either with the numbers of the list, or renumbered by labels and
/// beside the list.
#[derive(Drop)]
pub enum NearGraph {
    AsListed(Graph),
    Renumbered {
        list: EdgeList,
        graph: Graph,
        labels: Labels,
    },
}

impl NearGraph {
    /// The graph alone; the rest is dropped.
    pub fn into_graph(self) -> Graph
        ensures { result ≡ graph_of self }
    {
        match self {
            NearGraph::AsListed(graph) => graph,
            NearGraph::Renumbered { graph, .. } => graph,
        }
    }
}

/// The graph of a list of edges, which is taken over. It is renumbered if the ends of most edges
/// have numbers far from each other, and a breadth-first search from vertex 1 brings them nearer
/// (Cuthill and McKee, 1969). The contract leaves free whether it is renumbered, and how. The rows
/// are those of `Team::graph`.
///
/// The search takes O(n + m) steps, the renumbering O(m log m), and memory is in proportion to n +
/// m. It fails only if it runs out of memory; the list is dropped then.
pub fn near_graph<T: Team>(team: &T, list: EdgeList) -> Result<NearGraph, NoMemory>
    requires { T.ready team.now }
    ensures { IfOk result (IsNearGraph list) }
{
    let graph = team.graph(list)?;
    let Some(labels) = nearer_order(team.alloc(), &graph)? else {
        return Ok(NearGraph::AsListed(graph));
    };
    let list = graph.into_list();
    let renumbered = relabel_list(team.alloc(), &list, &labels)?;
    Ok(NearGraph::Renumbered {
        list,
        graph: team.graph(renumbered)?,
        labels,
    })
}
