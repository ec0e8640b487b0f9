//! A graph that is solved in place of another, since it has all minimum cuts of that.

ghost use Rattle.std.specs.Prelude.{◌≡◌, ◌≤◌, IfOk, IfSome};
ghost use Rattle.cut_definitions.specs.Cuts.{value as least_value};
ghost use Rattle.least_cut.specs.Lightest.{IsLightestCut};
ghost use Rattle.min_value.specs.Kernels.{IsKept};
ghost use Rattle.node_tree.specs.Finished.{IsFinished};
ghost use Rattle.cactus_solver.specs.Reducing.{CanStandFor, IsReduced, graph_in, list_in};

use cut_definitions::{EdgeList, NoMemory};
use least_cut::LightestCut;
use min_value::Kernel;
use node_tree::HomedTree;
use std::alloc::Global;
use vertex_order::{NearGraph, near_graph};
use weighted_graph::{Graph, Labels};
use worker_team::Team;

/// The graph of a list of edges, or beside the list a graph with the same value whose minimum
/// cuts, lifted by the labels, are those of the list: a smaller one, or one that is numbered anew.
/// Only the graph that is solved has rows.
#[derive(Drop)]
pub(crate) enum Reduced {
    Whole(Graph),
    Kernel {
        list: EdgeList,
        graph: Graph,
        labels: Labels,
    },
}

impl Reduced {
    /// The graph of a list, whose vertices are numbered anew where that brings neighbours nearer.
    pub(crate) fn with_rows<T: Team>(team: &T, list: EdgeList) -> Result<Reduced, NoMemory>
        requires ready { T.ready team.now }
        requires enough { 2 ≤ list.vertices }
        ensures list { IfOk result (λ r. list_in r ≡ list) }
        ensures reduced { IfOk result IsReduced }
    {
        // known by this call: it is an edge list
        let _n = list.n();
        match near_graph(team, list)? {
            NearGraph::AsListed(graph) => Ok(Reduced::Whole(graph)),
            NearGraph::Renumbered {
                list,
                graph,
                labels,
            } => Ok(Reduced::Kernel {
                list,
                graph,
                labels,
            }),
        }
    }

    /// The graph that is to be solved.
    pub(crate) fn graph(&self) -> &Graph
        requires { IsReduced self.now }
        ensures graph { result.now ≡ graph_in self.now }
        ensures stands { CanStandFor (list_in self.now) (graph_in self.now) }
    {
        match self {
            Reduced::Whole(graph) => graph,
            Reduced::Kernel { list, graph, .. } => {
                // known by these calls: they are edge lists
                let _n = list.n();
                let _small = graph.n();
                graph
            }
        }
    }

    /// What stands for the graph on classes of the vertices of a list stands for that list,
    /// by the labels of the classes.
    pub(crate) fn lead_from(
        self,
        alloc: Global,
        list: EdgeList,
        labels: Labels,
    ) -> Result<Reduced, NoMemory>
        requires reduced { IsReduced self }
        requires kept { IsKept list (least_value (list_in self)) (list_in self) labels }
        ensures list { IfOk result (λ r. list_in r ≡ list) }
        ensures reduced { IfOk result IsReduced }
    {
        match self {
            Reduced::Whole(graph) => Ok(Reduced::Kernel {
                list,
                graph,
                labels,
            }),
            Reduced::Kernel {
                graph,
                labels: next,
                ..
            } => Ok(Reduced::Kernel {
                list,
                graph,
                labels: labels.compose(alloc, &next)?,
            }),
        }
    }

    /// Goes on to a smaller graph, if there is one. The rows of the former are given back.
    pub(crate) fn lead_on(self, alloc: Global, next: Option<Kernel>) -> Result<Reduced, NoMemory>
        requires reduced { IsReduced self }
        requires kept { IfSome next (λ k. IsKept (graph_in self) k.value k.graph k.labels) }
        ensures list { IfOk result (λ r. list_in r ≡ list_in self) }
        ensures reduced { IfOk result IsReduced }
    {
        let Some(next) = next else {
            return Ok(self);
        };
        match self {
            Reduced::Whole(graph) => Ok(Reduced::Kernel {
                list: graph.into_list(),
                graph: next.graph,
                labels: next.labels,
            }),
            Reduced::Kernel { list, labels, .. } => Ok(Reduced::Kernel {
                list,
                graph: next.graph,
                labels: labels.compose(alloc, &next.labels)?,
            }),
        }
    }

    /// A minimum cut of the list, by one of the graph.
    pub(crate) fn lift_cut(&self, alloc: Global, cut: LightestCut) -> Result<LightestCut, NoMemory>
        requires reduced { IsReduced self.now }
        requires cut { IsLightestCut (graph_in self.now) cut }
        ensures { IfOk result (IsLightestCut (list_in self.now)) }
    {
        match self {
            Reduced::Whole(_) => Ok(cut),
            Reduced::Kernel { labels, .. } => Ok(LightestCut {
                weight: cut.weight,
                side: labels.lift(alloc, &cut.side)?,
            }),
        }
    }

    /// The list and the tree of its minimum cuts, by the tree of those of the graph.
    /// The rows are given back.
    pub(crate) fn lift(
        self,
        alloc: Global,
        tree: HomedTree,
    ) -> Result<(EdgeList, HomedTree), NoMemory>
        requires reduced { IsReduced self }
        requires tree { IsFinished (graph_in self) tree }
        ensures list { IfOk result (λ r. r.0 ≡ list_in self) }
        ensures tree { IfOk result (λ r. IsFinished (list_in self) r.1) }
    {
        match self {
            Reduced::Whole(graph) => Ok((graph.into_list(), tree)),
            Reduced::Kernel {
                list,
                graph,
                labels,
            } => {
                let tree = lifted(alloc, &list, &graph, &labels, tree)?;
                Ok((list, tree))
            }
        }
    }
}

/// The tree of the minimum cuts of a graph, by that of a smaller graph whose minimum cuts, lifted
/// by the labels, are the same.
pub(crate) fn lifted(
    alloc: Global,
    list: &EdgeList,
    graph: &Graph,
    labels: &Labels,
    tree: HomedTree,
) -> Result<HomedTree, NoMemory>
    requires kept { IsKept list.now (least_value graph.now) graph.now labels.now }
    requires tree { IsFinished graph.now tree }
    ensures { IfOk result (IsFinished list.now) }
{
    // known by these calls: they are edge lists
    let _n = list.n();
    let _small = graph.n();
    tree.spread(alloc, labels.as_slice())
}
