//! What an insertion does to a cactus.

ghost use Rattle.std.specs.Prelude.{◌≡◌, ◌≢◌, ◌≤◌, nat_lt, true, length, IfOk};
ghost use Rattle.rooted_cactus.specs.Different.{HasNoEmptySide, HaveSameSides};
ghost use Rattle.rooted_cactus.specs.Normal.{is_normal};
ghost use Rattle.rooted_cactus.specs.Trees.{blocks};
ghost use Rattle.cactus_growth.specs.After.{IsAfter};

use crate::growing::grow_node;
use cut_definitions::NoMemory;
use rooted_cactus::{Cactus, Node};
use std::alloc::Global;

/// A cactus after an insertion.
#[derive(Drop)]
pub enum Grown {
    /// The cactus of the cuts that are kept.
    Kept(Cactus),
    /// No cut is kept.
    Gone,
}

/// Whether a node has a block below it.
fn has_block(node: &Node) -> bool
    ensures { result ≡ nat_lt 0 (length (blocks node.now)) }
{
    node.blocks.len() > 0
}

/// What is left of a cactus after an edge is inserted between two vertices `u` and `v`. The sides
/// that separate them go, and all others stay.
///
/// It returns `Gone` exactly if every side separates them. Otherwise the kept cactus is over the
/// same vertices, and its sides are exactly those that do not separate them. It is normal if the
/// given one is. The two vertices are different and of 1 to n, and the cactus has a block. The
/// nodes on the way between the two become one. The bridges on the way go, and each cycle on it is
/// split into two closed walks at that node (Dinitz and Westbrook, 1998).
///
/// It looks for the two vertices, and tests whether the cactus is normal before and after. Each of
/// these takes a step for each node, block and vertex. It moves the blocks and nodes beside the
/// ways to the two. Only if something can be spared in what is left, the whole tree is put
/// together anew. All is done by loops, so that a deep tree does not overflow the call stack. It
/// takes memory in proportion to the nodes, and fails only if it runs out of memory; the cactus is
/// dropped then.
pub fn grow(alloc: Global, cactus: Cactus, u: u32, v: u32) -> Result<Grown, NoMemory>
    requires some { 1 ≤ length (blocks cactus.root) }
    requires u_from_one { 1 ≤ u }
    requires u_to_n { u ≤ cactus.vertices }
    requires v_from_one { 1 ≤ v }
    requires v_to_n { v ≤ cactus.vertices }
    requires different { u ≢ v }
    ensures { IfOk result (λ r. IsAfter u v cactus r) }
{
    let was_normal = cactus.is_normal_within(alloc)?;
    let n = cactus.n();
    let root = grow_node(alloc, cactus.into_root(), u, v)?;
    if !has_block(&root) {
        return Ok(Grown::Gone);
    }
    let kept = Cactus::from_root(n, root);
    if was_normal {
        let kept = trimmed(alloc, kept)?;
        return Ok(Grown::Kept(kept));
    }
    Ok(Grown::Kept(kept))
}

/// The cactus, without what can be spared.
fn trimmed(alloc: Global, cactus: Cactus) -> Result<Cactus, NoMemory>
    requires { HasNoEmptySide cactus }
    ensures n { IfOk result (λ c. c.vertices ≡ cactus.vertices) }
    ensures normal { IfOk result (λ c. is_normal c.root ≡ true) }
    ensures sides { IfOk result (λ c. HaveSameSides c cactus) }
{
    let is_normal = cactus.is_normal_within(alloc)?;
    if is_normal {
        return Ok(cactus);
    }
    let cactus = cactus.normal(alloc)?;
    Ok(cactus)
}
