//! Canonical cactuses: of all cactuses that show the same cuts, one.
//!
//! A cactus is canonical if it is normal, every cycle has four or more nodes, and the blocks of
//! each node ascend by the least vertex below them. Also, in every cycle the least vertex at or
//! under the first child is less than that at or under the last. Contracts see this by
//! `is_canonical`, which reads the tree by one fold, `arranged`: the vertices at or under each
//! node, and whether all there is in order. The function `is_canonical` is the test, and
//! `canonical` makes the canonical cactus with the sides of another one.
//!
//! Two canonical cactuses over the same vertices that have the same sides are one tree
//! (`laws::one_tree`), and have one flat cactus (`laws::one_flat`). So what is printed of a
//! canonical cactus is a function of the sides alone. The proof goes by induction from the root.
//! The sides that lie in no other side determine the blocks of a node. Two of them that overlap
//! distinguish a cycle from a bridge, and the sides that contain the first child of a cycle
//! determine the order of the others.
//!
//! The representation of Dinitz, Karzanov and Lomonosov (1976) leaves a few freedoms. A cycle of
//! three nodes shows the same cuts as an empty node with three bridges. An empty node of few
//! blocks can be spared. The order of blocks and children is free.
//!
//! `canonical` returns a canonical cactus as it is. Any other tree is taken apart into entries,
//! but for leaves below bridges (`rooted_cactus::entries_of`). Then it is put together from the
//! last entry to the first (`rooted_cactus::put_together`) by a maker of its own (`maker`). Each
//! node and block is finished with its least vertex (`parts`), and blocks and cycles are put in
//! order as they are made (`rows`). It takes O(n log n) for n vertices, in loops. `is_canonical`
//! takes one step for each node and vertex, and calls itself once for each level (`order`).
//! `is_canonical_within` does the same by loops (`standing`).
//!
//! In the same way `first_best` returns one side: the first of the sides of best balance, which is
//! a function of the sides and the masses alone. It does not go over the cuts of best balance, of
//! which there can be about n^2 if many vertices have mass 0. Of all cuts that begin in one run of
//! borders with no mass between them, it makes only the first. For that it takes the least
//! vertices of a few ranges from trees of minima (`minima`). So it takes O(n log n) for n
//! vertices.
#![tactic(auto)]

ghost use Rattle.std.specs.Prelude.{◌≡◌, IfOk};
ghost use Rattle.canonical_cactus.specs.Canonical.{is_canonical};

mod first_side;
pub mod laws;
mod maker;
mod making;
mod minima;
mod order;
mod parts;
mod rows;
mod standing;

use cut_definitions::NoMemory;
pub use first_side::first_best;
pub use making::canonical;
use order::node_standing;
use rooted_cactus::Cactus;
use standing::stands_in_order;
use std::alloc::Global;

/// Whether a cactus is normal, every cycle has four or more nodes, and the blocks of each node
/// ascend by the least vertex below them. Also, in every cycle the least vertex at or under the
/// first child has to be less than that at or under the last.
///
/// It takes one step for each node and each vertex and no memory. It calls itself once for each
/// level of the tree, so a very deep tree can overflow the call stack.
pub fn is_canonical(cactus: &Cactus) -> bool
    ensures { result ≡ is_canonical cactus.now.root }
{
    cactus.is_normal() && node_standing(cactus.root()).in_order
}

/// Whether a cactus is canonical, as from `is_canonical`, by loops, so that a deep tree does not
/// overflow the call stack.
///
/// It takes one step for each node and each vertex. It takes memory for the nodes that have blocks
/// below them, at most 32 bytes each, and fails only if it runs out of memory.
pub fn is_canonical_within(alloc: Global, cactus: &Cactus) -> Result<bool, NoMemory>
    ensures { IfOk result (λ all. all ≡ is_canonical cactus.now.root) }
{
    if !cactus.is_normal_within(alloc)? {
        return Ok(false);
    }
    let in_order = stands_in_order(alloc, cactus.root(), cactus.n() as usize)?;
    Ok(in_order)
}
