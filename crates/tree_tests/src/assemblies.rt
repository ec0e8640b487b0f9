//! The cactus made of a chain and the cactuses of its parts.

ghost use Rattle.std.specs.Prelude.{◌≡◌, ◌≢◌, ◌<◌, ◌≤◌, ◌^◌, ◌∷◌, ◌++◌, [], IfOk, OnOk, length};
ghost use Rattle.std.specs.List.{filter, range_with_len};
ghost use Rattle.cut_definitions.specs.Chain.{IsJoined};
ghost use Rattle.cut_definitions.specs.Cuts.{value};
ghost use Rattle.cactus_merge.specs.Assembled.{ArePartsOf, IsPartOf, is_own};

use crate::chains::{chain_by_flow, graph_of};
use crate::sides::{all_sides, are_same};
use cactus_merge::{PartCactus, assemble};
use cactus_tree::{Cactus, VertexList};
use cut_definitions::{Edge, NoMemory};
use residual_chain::Chain;
use std::alloc::Global;
use std::test::Fail;
use weighted_graph::Graph;

/// Whether a vertex is in a part, and is not an end of the chain.
fn is_own(chain: &Chain, number: u32, v: u32) -> bool
    requires from_one { 1 ≤ v }
    requires to_n { v ≤ length chain.now.numbers }
    ensures { result ≡ is_own chain.now number v }
{
    chain.part_of(v) == number && v != chain.s() && v != chain.t()
}

/// Appends the vertex, if it is in the part and is not an end of the chain.
fn add_own(list: &mut VertexList, chain: &Chain, number: u32, v: u32) -> Result<(), NoMemory>
    requires from_one { 1 ≤ v }
    requires to_n { v ≤ length chain.now.numbers }
    ensures { OnOk result (list.new ≡ list.old ++ filter (is_own chain.now number) (v ∷ [])) }
{
    if !is_own(chain, number, v) {
        return Ok(());
    }
    list.push(v)?;
    Ok(())
}

/// The vertices of a part, without the ends of the chain.
fn own_list(alloc: Global, chain: &Chain, number: u32) -> Result<VertexList, NoMemory>
    ensures { IfOk result (λ l. l ≡ filter (is_own chain.now number) (range_with_len 1 (length chain.now.numbers))) }
{
    let mut list = VertexList::new(alloc);
    'vertices: for v in 0..chain.n() {
        add_own(&mut list, chain, number, v + 1)?;
    }
    Ok(list)
}

/// A part of the chain, with the cactus of one node.
fn part(alloc: Global, chain: &Chain, number: u32) -> Result<PartCactus, Fail>
    ensures { IfOk result (λ p. IsPartOf chain.now number p) }
{
    let own = own_list(alloc, chain, number)?;
    let count = own.len();
    if count >= 1000 {
        return Err(Fail::from("too many vertices"));
    }
    let cactus = Cactus::single(alloc, count as u32 + 1)?;
    Ok(PartCactus { cactus, own })
}

/// All parts of a chain from vertex 1, each with the cactus of one node.
fn single_parts(alloc: Global, chain: &Chain) -> Result<Vec<PartCactus>, Fail>
    requires { chain.now.s ≡ 1 }
    ensures { IfOk result (λ p. ArePartsOf chain.now p.items) }
{
    let mut parts = Vec::new(alloc);
    'each_part: for i in 0..chain.parts() {
        let next = part(alloc, chain, i + 1)?;
        parts.push(next)?;
    }
    Ok(parts)
}

/// The cactus of the chain from vertex 1 to t of a graph of this value, from a cactus of one node
/// for each part.
fn assembled(alloc: Global, graph: &Graph, t: u32, least: u64) -> Result<Cactus, Fail>
    requires joined { IsJoined graph.now 1 t }
    requires apart { 1 ≢ t }
    requires value { value graph.now ≡ least }
    requires small { least < 2 ^ 63 }
{
    let chain = chain_by_flow(alloc, graph, 1, t, least)?;
    let parts = single_parts(alloc, &chain)?;
    Ok(assemble(alloc, &chain, parts)?)
}

/// Whether the cactus has this number of vertices and exactly these sides.
fn is_of(alloc: Global, cactus: &Cactus, n: u32, sides: &[&[u32]]) -> Result<bool, NoMemory> {
    let found = all_sides(alloc, cactus)?;
    Ok(cactus.n() == n && are_same(&found, sides))
}

#[test]
fn two_parts_are_joined_by_a_bridge(rt: HostRuntime) -> Result<(), Fail> {
    let edges = [
        Edge { u: 1, v: 2, w: 5 },
        Edge { u: 1, v: 3, w: 1 },
        Edge { u: 2, v: 3, w: 4 },
    ];
    let graph = graph_of(rt.alloc(), 3, &edges)?;
    let cactus = assembled(rt.alloc(), &graph, 3, 5)?;
    assert!(rt; cactus.nodes() == 2 && is_of(rt.alloc(), &cactus, 3, &[&[3]])?);
    Ok(())
}

#[test]
fn a_ring_is_one_cycle(rt: HostRuntime) -> Result<(), Fail> {
    let edges = [
        Edge { u: 1, v: 2, w: 1 },
        Edge { u: 1, v: 4, w: 1 },
        Edge { u: 2, v: 3, w: 1 },
        Edge { u: 3, v: 4, w: 1 },
    ];
    let sides: [&[u32]; 6] = [&[2], &[3], &[4], &[2, 3], &[3, 4], &[2, 3, 4]];
    let graph = graph_of(rt.alloc(), 4, &edges)?;
    let cactus = assembled(rt.alloc(), &graph, 2, 2)?;
    assert!(rt; cactus.is_normal() && is_of(rt.alloc(), &cactus, 4, &sides)?);
    Ok(())
}
