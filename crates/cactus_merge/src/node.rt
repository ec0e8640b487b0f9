//! The node of a part: the root of its cactus, with the vertices of the graph.

ghost use Rattle.std.specs.Prelude.{List, ◌≡◌, ℕ, ◌≤◌, ◌<◌, ◌∷◌, ◌++◌, length, map, take, drop, IfOk, ◌==◌, nat_lt, if◌then◌else◌};
ghost use Rattle.rooted_cactus.specs.Trees.{vertices};
ghost use Rattle.rooted_cactus.specs.Rooted.{IsCactus};
ghost use Rattle.rooted_cactus.specs.Widths.{widths};
ghost use Rattle.rooted_cactus.specs.Entered.{entered, renamed};
ghost use Rattle.rooted_cactus.specs.Sides.{part_by};
ghost use Rattle.cut_definitions.specs.Weight.{VertexSet};
ghost use Rattle.residual_chain.specs.Chain.{IsChainShape};
ghost use Rattle.cactus_merge.specs.Assembled.{inserted, names_by, IsPartOf, IsNodeOf};

use crate::part::PartCactus;
use cut_definitions::NoMemory;
use residual_chain::Chain;
use rooted_cactus::{Node, VertexList, rename_node};
use std::alloc::Global;

/// The names of the vertices of a part's cactus: 1 stays, and j + 1 becomes the j-th of the list.
fn names_of(alloc: Global, own: &VertexList) -> Result<Vec<u32>, NoMemory>
    ensures { IfOk result (λ v. v.items ≡ names_by own.now) }
{
    let mut names = Vec::new(alloc);
    names.push(0)?;
    names.push(1)?;
    names.extend_from_slice(own.as_slice())?;
    Ok(names)
}

/// A copy of a list of vertices.
fn copied(alloc: Global, list: &VertexList) -> Result<VertexList, NoMemory>
    ensures { IfOk result (λ l. l ≡ list.now) }
{
    let mut out = Vec::new(alloc);
    out.extend_from_slice(list.as_slice())?;
    Ok(VertexList::from_vec(out))
}

/// The list without its first vertex.
fn without_first(alloc: Global, list: &VertexList) -> Result<VertexList, NoMemory>
    requires { 0 < length list.now }
    ensures { IfOk result (λ l. l ≡ drop 1 list.now) }
{
    let mut out = Vec::new(alloc);
    out.extend_from_slice(&list.as_slice()[1..])?;
    Ok(VertexList::from_vec(out))
}

/// The number of the first vertices of a list that are smaller than a vertex.
fn smaller(list: &[u32], vertex: u32) -> usize
    ensures within { result ≤ length list.now }
    ensures place { inserted vertex list.now ≡ take result list.now ++ vertex ∷ drop result list.now }
{
    let mut place = 0;
    'smaller: while place < list.len() && list[place] < vertex {
        place += 1;
    }
    place
}

/// The ascending list with one more vertex, inserted by size.
fn with_vertex(alloc: Global, list: &VertexList, vertex: u32) -> Result<VertexList, NoMemory>
    ensures { IfOk result (λ l. l ≡ inserted vertex list.now) }
{
    let place = smaller(list.as_slice(), vertex);
    let mut out = Vec::new(alloc);
    out.extend_from_slice(&list.as_slice()[..place])?;
    out.push(vertex)?;
    out.extend_from_slice(&list.as_slice()[place..])?;
    Ok(VertexList::from_vec(out))
}

/// The root of the cactus of a part, with its vertices renamed to those that they represent;
/// vertex 1 stays.
fn renamed_root(alloc: Global, part: PartCactus) -> Result<Node, NoMemory>
    ensures names { IfOk result (λ x. entered x ≡ map (renamed (names_by part.own)) (entered part.cactus.root)) }
    ensures sides { IfOk result (λ x. (sets : List ℕ → VertexSet) → part_by sets x ≡ part_by (λ l. sets (renamed (names_by part.own) l)) part.cactus.root) }
    ensures cactus { IfOk result (λ x. IsCactus part.cactus.vertices part.cactus.root) }
    ensures widths { IfOk result (λ x. widths x ≡ widths part.cactus.root) }
{
    let PartCactus { cactus, own } = part;
    let names = names_of(alloc, &own)?;
    let node = rename_node(alloc, cactus.into_root(), names.as_slice())?;
    Ok(node)
}

/// The vertices at the top of the node of a part. They are those of the renamed root, with vertex
/// 1 only in the first part, and with the chain's other end in the last.
fn top_vertices(
    alloc: Global,
    chain: &Chain,
    renamed: &VertexList,
    number: u32,
) -> Result<VertexList, NoMemory>
    requires some { 0 < length renamed.now }
    requires number { number ≤ chain.now.parts }
    ensures { IfOk result (λ l. l ≡ (if number == 1 then renamed.now else if nat_lt number chain.now.parts then drop 1 renamed.now else inserted chain.now.t (drop 1 renamed.now))) }
{
    if number == 1 {
        return copied(alloc, renamed);
    }
    let rest = without_first(alloc, renamed)?;
    if number < chain.parts() {
        return Ok(rest);
    }
    with_vertex(alloc, &rest, chain.t())
}

/// The node of a part of a chain, made of the root of its cactus: it has the vertices of the part,
/// with the chain's ends. It fails only if it runs out of memory.
pub fn part_node(
    alloc: Global,
    chain: &Chain,
    part: PartCactus,
    number: u32,
) -> Result<Node, NoMemory>
    requires shape { IsChainShape chain.now }
    requires source { chain.now.s ≡ 1 }
    requires from_one { 1 ≤ number }
    requires to_parts { number ≤ chain.now.parts }
    requires part { IsPartOf chain.now number part }
    ensures { IfOk result (λ x. IsNodeOf chain.now number part x) }
{
    let node = renamed_root(alloc, part)?;
    let vertices = top_vertices(alloc, chain, &node.vertices, number)?;
    Ok(Node {
        vertices,
        blocks: node.blocks,
    })
}
