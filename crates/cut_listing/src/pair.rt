//! The sides of a cactus that separate two vertices, by masses. If only these two have mass 1,
//! they are the sides with balance at least 1.

ghost use Rattle.std.specs.Prelude.{◌≡◌, ◌≤◌, ◌^◌, true, IfErr, IfOk};
ghost use Rattle.rooted_cactus.specs.Normal.{is_normal};
ghost use Rattle.cut_listing.specs.Listings.{IsList, IsRefusal};
ghost use Rattle.cut_listing.specs.Pairs.{ArePairMasses, vertex_or_one};

use crate::ask::Ask;
use crate::list_refusal::ListRefusal;
use crate::weighed::list_balanced;
use cut_definitions::{NoMemory, VertexWeights};
use rooted_cactus::Cactus;
use std::alloc::Global;
use vertex_set::Side;

/// A vertex of 1 to n, or vertex 1 for a number that is no vertex: neither is in a side.
fn vertex_or_one(n: u32, v: u32) -> u32
    ensures { result ≡ vertex_or_one n v }
{
    if 1 <= v && v <= n { v } else { 1 }
}

/// Mass 1 for each of two vertices of 1 to n, and 0 for all others.
fn pair_weights(alloc: Global, n: u32, first: u32, second: u32) -> Result<VertexWeights, NoMemory>
    requires few { n ≤ 4194304 }
    requires first_from_one { 1 ≤ first }
    requires first_to_n { first ≤ n }
    requires second_from_one { 1 ≤ second }
    requires second_to_n { second ≤ n }
    ensures { IfOk result (ArePairMasses n first second) }
{
    let mut masses = vec![in alloc; 0u64; n as usize]?;
    masses[first as usize - 1] = 1;
    masses[second as usize - 1] = 1;
    Ok(VertexWeights::from_list(masses))
}

/// The masses by which exactly the sides of a cactus that separate two numbers have a balance of
/// at least 1.
fn parting_weights(
    alloc: Global,
    cactus: &Cactus,
    first: u32,
    second: u32,
) -> Result<VertexWeights, NoMemory>
    requires few { cactus.now.vertices ≤ 4194304 }
    ensures { IfOk result (ArePairMasses cactus.now.vertices (vertex_or_one cactus.now.vertices first) (vertex_or_one cactus.now.vertices second)) }
{
    let n = cactus.n();
    pair_weights(alloc, n, vertex_or_one(n, first), vertex_or_one(n, second))
}

/// The different sides of the cuts of a cactus that have exactly one of two vertices, in the order
/// of lists. A number that is no vertex is in no side.
///
/// It is `list_balanced` with mass 1 for the two vertices and 0 for all others, at the same cost
/// and with the same refusals. The masses take 8 bytes for each vertex.
pub fn list_parting(
    alloc: Global,
    cactus: &Cactus,
    first: u32,
    second: u32,
) -> Result<Vec<Side>, ListRefusal>
    requires normal { is_normal cactus.now.root ≡ true }
    requires few { cactus.now.vertices ≤ 4194304 }
    ensures list { IfOk result (λ v. IsList (2 ^ 30) cactus.now.vertices (Ask.Parting first second) cactus.now v.items) }
    ensures refusal { IfErr result (IsRefusal (2 ^ 30) cactus.now.vertices (Ask.Parting first second) cactus.now) }
{
    // known by this call: vertex 1 is in no side
    let _root = cactus.root();
    let weights = parting_weights(alloc, cactus, first, second)?;
    list_balanced(alloc, cactus, 1, &weights)
}
