//! The parts of a chain with their cactuses, and the cactus of the whole.

ghost use Rattle.std.specs.Prelude.{◌≡◌, length, IfOk};
ghost use Rattle.rooted_cactus.specs.Rooted.{sides_of};
ghost use Rattle.cut_definitions.specs.Members.{SameMembers};
ghost use Rattle.cactus_merge.specs.Assembled.{ArePartsOf, AreNodesOf, assembled_sides};
ghost use Rattle.residual_chain.specs.Chain.{IsChainShape};
ghost use Rattle.rooted_cactus.specs.Trees.{nodes_in};

use crate::assembly::join;
use crate::node::part_node;
use cut_definitions::NoMemory;
use residual_chain::Chain;
use rooted_cactus::{Cactus, Children, VertexList};
use std::alloc::Global;

/// The cactus of a part of a chain. Vertex 1 represents all vertices that are not in the list, and
/// vertex j + 1 represents the j-th vertex of the list.
#[derive(Drop)]
pub struct PartCactus {
    pub cactus: Cactus,
    pub own: VertexList,
}

/// The nodes of the parts of a chain, in order.
fn part_nodes(alloc: Global, chain: &Chain, parts: Vec<PartCactus>) -> Result<Children, NoMemory>
    requires shape { IsChainShape chain.now }
    requires parts { ArePartsOf chain.now parts.items }
    ensures { IfOk result (λ x. AreNodesOf chain.now parts.items (nodes_in x)) }
{
    let mut nodes = Children::new(alloc);
    let count = chain.parts();
    let mut left = count;
    'each: for part in parts {
        left -= 1;
        let node = part_node(alloc, chain, part, count - left)?;
        nodes.push(node)?;
    }
    Ok(nodes)
}

/// The cactus of a chain from the cactuses of its parts, which are taken over.
///
/// The chain starts at vertex 1, and there is one entry for each part, in order. Its list has,
/// ascending, the vertices of the part other than the chain's ends, and its cactus is over one
/// more vertex. The sides of the result are those of the cuts of the chain, and the unions of the
/// intervals of parts inside a run. The others are the sides of the cactuses of the parts, lifted
/// to the vertices that their members represent.
///
/// It takes memory in proportion to the nodes and vertices of the parts, and for each bridge,
/// cycle and empty node that joins them. It fails only if it runs out of memory, and then drops
/// the parts. It takes one step for each vertex, node and run, in loops, so that a deep cactus
/// does not overflow the stack.
pub fn assemble(alloc: Global, chain: &Chain, parts: Vec<PartCactus>) -> Result<Cactus, NoMemory>
    requires { ArePartsOf chain.now parts.items }
    ensures n { IfOk result (λ c. c.vertices ≡ length chain.now.numbers) }
    ensures sides { IfOk result (λ c. SameMembers (sides_of c) (assembled_sides chain.now parts.items)) }
{
    let n = chain.n();
    let nodes = part_nodes(alloc, chain, parts)?;
    let root = join(alloc, nodes, chain.runs())?;
    Ok(Cactus::from_root(n, root))
}
