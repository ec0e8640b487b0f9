//! The canonical cactus with the sides of another.

ghost use Rattle.std.specs.Prelude.{◌≡◌, IfOk, true};
ghost use Rattle.rooted_cactus.specs.Different.{HasNoEmptySide, HaveSameSides};
ghost use Rattle.canonical_cactus.specs.Canonical.{is_canonical};

use crate::is_canonical_within;
use crate::maker::CanonicalMaker;
use cut_definitions::NoMemory;
use rooted_cactus::{Cactus, entries_of, put_together};
use std::alloc::Global;

/// The canonical cactus with the same set of sides.
///
/// No side of the cactus may be empty. A cycle of three nodes is replaced by a bridge down to an
/// empty node with two more bridges. A bridge to an empty node with one other block is replaced by
/// that block. In a cycle, an empty node that has a bridge alone is replaced by the node below
/// that bridge. Then the blocks of each node are put in the order of the least vertices below
/// them. A cycle is reversed if its last node has a smaller least vertex than its first.
///
/// A cactus that is canonical is returned as it is. Otherwise the tree is taken apart and its
/// nodes are moved. It takes O(n log n), in loops, so that a deep tree does not overflow the call
/// stack. It takes memory in proportion to the nodes, and fails only if it runs out of memory; the
/// cactus is dropped then.
pub fn canonical(alloc: Global, cactus: Cactus) -> Result<Cactus, NoMemory>
    requires { HasNoEmptySide cactus }
    ensures n { IfOk result (λ c. c.vertices ≡ cactus.vertices) }
    ensures canonical { IfOk result (λ c. is_canonical c.root ≡ true) }
    ensures sides { IfOk result (λ c. HaveSameSides c cactus) }
{
    if is_canonical_within(alloc, &cactus)? {
        return Ok(cactus);
    }
    let n = cactus.n();
    let entries = entries_of(alloc, cactus.into_root(), n as usize)?;
    let placed = put_together::<CanonicalMaker>(alloc, entries)?;
    Ok(Cactus::from_root(n, placed.node))
}
