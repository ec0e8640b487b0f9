//! A finished tree, and the node that each vertex is in.

ghost use Rattle.std.specs.Prelude.{◌≡◌, ◌∷◌, ◌+◌, ◌<◌, [], false, IfOk, length, map, replicate, slice_index};
ghost use Rattle.std.specs.List.{All};

use crate::tree::FlatTree;
use cut_definitions::NoMemory;
use std::alloc::Global;

/// A tree, and at the number of each vertex its node. The entry at 0 stands for no vertex.
#[derive(Drop)]
pub struct HomedTree {
    pub tree: FlatTree,
    pub homes: Vec<usize>,
}

impl HomedTree {
    /// The tree of the root alone, for vertices 1 to n.
    pub fn of_root(alloc: Global, n: u32) -> Result<HomedTree, NoMemory>
        ensures tree { IfOk result (λ t. t.tree ≡ record { uppers = 0 ∷ []; follows = false ∷ [] }) }
        ensures homes { IfOk result (λ t. t.homes.items ≡ replicate (n + 1) 0) }
    {
        let tree = FlatTree::new(alloc)?;
        let homes = vec![in alloc; 0usize; n as usize + 1]?;
        Ok(HomedTree { tree, homes })
    }

    /// The tree with the vertices of each class in place of the class: the list has the class of
    /// each vertex from 1 on. It takes eight bytes for each vertex.
    pub fn spread(self, alloc: Global, classes: &[u32]) -> Result<HomedTree, NoMemory>
        requires { All (λ class. class < length self.homes.items) classes.now }
        ensures tree { IfOk result (λ t. t.tree ≡ self.tree) }
        ensures homes { IfOk result (λ t. t.homes.items ≡ 0 ∷ map (slice_index self.homes.items) classes.now) }
    {
        let HomedTree { tree, homes } = self;
        let homes = homes_of_classes(alloc, &homes, classes)?;
        Ok(HomedTree { tree, homes })
    }
}

/// The node of each vertex, where those of the classes are known.
fn homes_of_classes(alloc: Global, homes: &[usize], classes: &[u32]) -> Result<Vec<usize>, NoMemory>
    requires { All (λ class. class < length homes.now) classes.now }
    ensures { IfOk result (λ all. all.items ≡ 0 ∷ map (slice_index homes.now) classes.now) }
{
    let mut all = Vec::with_capacity(alloc, classes.len() + 1)?;
    all.push(0)?;
    for class in classes {
        all.push(homes[*class as usize])?;
    }
    Ok(all)
}
