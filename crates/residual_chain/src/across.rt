//! The chain of the minimum cuts across an edge.

ghost use Rattle.std.specs.Prelude.{◌≡◌, Some, IfOk};
ghost use Rattle.cut_definitions.specs.Chain.{IsJoined};
ghost use Rattle.cut_definitions.specs.Cuts.{value};
ghost use Rattle.max_flow.specs.Flow.{StandsFor};
ghost use Rattle.residual_chain.specs.Chain.{IsChainAcross};

use crate::chain_of_cuts::Chain;
use crate::parts::{find_parts, source_part};
use crate::runs::runs_of;
use cut_definitions::NoMemory;
use max_flow::Flow;
use std::alloc::Global;
use weighted_graph::Graph;

/// The chain of the minimum cuts that separate `s` from `t`, with its runs.
///
/// An edge joins the two vertices, and the last run of the flow went from `s` to `t` and returned
/// `Best` with the value of the graph. With k parts, the first i of them, for i from 1 to k - 1,
/// are then exactly the minimum cuts that separate `s` from `t`. Each is a set with `s`. The runs
/// are exactly the longest intervals of parts, between the first and the last of all, that are a
/// minimum cut. An interval can be one part.
///
/// It takes O(n + m) in all. The first part is the source side. The last is what one search
/// against the residual arcs finds from `t`. Path-based searches along them divide the rest into
/// strongly connected components (Gabow, 2000), in the order of the chain (Picard and Queyranne,
/// 1980). The runs take one pass over the edges.
///
/// It takes memory for six numbers a vertex, of which it frees five before it finds the runs, and
/// for two numbers a part and the runs. It fails only if it runs out of memory. The chain across
/// an edge is that of Karzanov and Timofeev (1986), and of Nagamochi, Nakao and Ibaraki (2000).
pub fn chain(alloc: Global, graph: &Graph, flow: &Flow, s: u32, t: u32) -> Result<Chain, NoMemory>
    requires joined { IsJoined graph.now s t }
    requires stands { StandsFor flow.now graph.now }
    requires last { flow.now.best ≡ Some (record { s = s; t = t; amount = value graph.now }) }
    ensures { IfOk result (λ c. IsChainAcross graph.now s t c) }
{
    let n = graph.n();
    let mut part_of = source_part(alloc, flow.source_side())?;
    let parts = find_parts(alloc, graph, flow, t, &mut part_of)?;
    let runs = runs_of(alloc, graph, &part_of, parts)?;
    Ok(Chain {
        n,
        s,
        t,
        parts,
        part_of,
        runs,
    })
}
