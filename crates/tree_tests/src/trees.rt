//! The cactuses of the tests. Each is described by a sketch, which is a constant, and made by one
//! function.

ghost use Rattle.std.specs.Prelude.{◌≡◌, ◌<◌, ◌≤◌, ◌^◌, ◌++◌, ◌∷◌, [], ℕ, true, IfOk, OnOk, length, slice_index};
ghost use Rattle.std.specs.List.{All, flat_map};
ghost use Rattle.rooted_cactus.specs.Different.{HasNoEmptySide};
ghost use Rattle.rooted_cactus.specs.Entered.{entered, entered_block};
ghost use Rattle.rooted_cactus.specs.Trees.{nodes_in};
ghost use Rattle.rooted_cactus.specs.Widths.{block_widths, widths};
ghost use Rattle.tree_tests.specs.Sketches.{AreWide, lists_of, own_of};

use cactus_tree::{Block, Blocks, Cactus, Children, Node, VertexList, Walk};
use cut_definitions::NoMemory;
use std::alloc::Global;
use std::test::Fail;
use vertex_set::Side;

/// A cactus, whose nodes are numbered from 0 in the order of entering.
pub struct Sketch {
    /// The node of each vertex, from vertex 1 on.
    pub homes: &'static [usize],
    /// For each node the blocks that end with it, the lowest first: each by the number of its
    /// nodes below its upper one, which is 1 for a bridge and 2 or more for a cycle.
    pub ends: &'static [&'static [usize]],
}

/// The cactus of 1 and 2 alone.
pub const ONE_NODE: Sketch = Sketch {
    homes: &[0, 0],
    ends: &[&[]],
};

/// The cactus of 1, with a bridge down to 2.
pub const ONE_BRIDGE: Sketch = Sketch {
    homes: &[0, 1],
    ends: &[&[], &[1]],
};

/// The cactus of 1, with a cycle through 2, 3 and 4.
pub const ONE_RING: Sketch = Sketch {
    homes: &[0, 1, 2, 3],
    ends: &[&[], &[], &[], &[3]],
};

/// The cactus of 1, with a cycle through 4, 3 and 2.
pub const TURNED_RING: Sketch = Sketch {
    homes: &[0, 3, 2, 1],
    ends: &[&[], &[], &[], &[3]],
};

/// The cactus of 1, with a cycle through 2 and 3.
pub const SMALL_RING: Sketch = Sketch {
    homes: &[0, 1, 2],
    ends: &[&[], &[], &[2]],
};

/// The cactus of 1, with a cycle through 3 and 2.
pub const TURNED_TRIANGLE: Sketch = Sketch {
    homes: &[0, 2, 1],
    ends: &[&[], &[], &[2]],
};

/// The cactus of 1, with a cycle through 2 to 7.
pub const LONG_RING: Sketch = Sketch {
    homes: &[0, 1, 2, 3, 4, 5, 6],
    ends: &[&[], &[], &[], &[], &[], &[], &[6]],
};

/// The tree of 1, with a cycle through 3 and 4 and then a bridge down to 2.
pub const RING_AND_BRIDGE: Sketch = Sketch {
    homes: &[0, 3, 1, 2],
    ends: &[&[], &[], &[2], &[1]],
};

/// The cactus of 1, with a bridge down to 2 and 3, and there a cycle through 4 and 5.
pub const RING_BELOW: Sketch = Sketch {
    homes: &[0, 1, 1, 2, 3],
    ends: &[&[], &[], &[], &[2, 1]],
};

/// The cactus of 1, with a bridge down to 2, one from there to 3, and one from there to 4.
pub const ONE_PATH: Sketch = Sketch {
    homes: &[0, 1, 2, 3],
    ends: &[&[], &[], &[], &[1, 1, 1]],
};

/// The cactus of 1 and 2, with a bridge down to 3.
pub const TWO_AND_ONE: Sketch = Sketch {
    homes: &[0, 0, 1],
    ends: &[&[], &[1]],
};

/// The cactus of 1, with a bridge down to an empty node, and from there bridges down to 2 and to
/// 3.
pub const STAR: Sketch = Sketch {
    homes: &[0, 2, 3],
    ends: &[&[], &[], &[1], &[1, 1]],
};

/// The cactus of 1, with a bridge down to an empty node, and from there bridges down to 3 and then
/// to 2.
pub const TURNED_STAR: Sketch = Sketch {
    homes: &[0, 3, 2],
    ends: &[&[], &[], &[1], &[1, 1]],
};

/// The cactus of 1 with three blocks. The first is a bridge down to 5, which has a bridge down to
/// 6. The second is a cycle through 2, which has a bridge down to 3, and 4. The third is a bridge
/// down to 7.
pub const NESTED: Sketch = Sketch {
    homes: &[0, 3, 4, 5, 1, 2, 6],
    ends: &[&[], &[], &[1, 1], &[], &[1], &[2], &[1]],
};

/// The cactus of 1, with a cycle through an empty node, which has a cycle through 2 and 3, and
/// through 4.
pub const TWO_RINGS: Sketch = Sketch {
    homes: &[0, 2, 3, 4],
    ends: &[&[], &[], &[], &[2], &[2]],
};

/// The cactus of 1, with a cycle through 2, 3 and an empty node, and below that a cycle through 4,
/// 5 and 6.
pub const RINGS_AT_AN_EMPTY_NODE: Sketch = Sketch {
    homes: &[0, 1, 2, 4, 5, 6],
    ends: &[&[], &[], &[], &[], &[], &[], &[3, 3]],
};

/// The cactus of 1 with two blocks. The first is a bridge down to an empty node, which has a cycle
/// through 2 and 3. The second is a cycle through an empty node, which has a bridge down to 4, and
/// 5. Both empty nodes can be spared.
pub const TWO_SPARE: Sketch = Sketch {
    homes: &[0, 2, 3, 5, 6],
    ends: &[&[], &[], &[], &[2, 1], &[], &[1], &[2]],
};

/// The vertices of a node.
fn own_list(alloc: Global, homes: &[usize], node: usize) -> Result<VertexList, NoMemory>
    requires { length homes.now < 2 ^ 32 }
    ensures { IfOk result (λ l. l ≡ own_of homes.now node) }
{
    let mut own = VertexList::new(alloc);
    'homes: for i in 0..homes.len() {
        if homes[i] == node {
            own.push(i as u32 + 1)?;
        }
    }
    Ok(own)
}

/// Appends a node with its vertices.
fn push_node(
    alloc: Global,
    trees: &mut Children,
    homes: &[usize],
    node: usize,
) -> Result<(), NoMemory>
    requires { length homes.now < 2 ^ 32 }
    ensures entered { OnOk result (flat_map entered (nodes_in trees.new) ≡ flat_map entered (nodes_in trees.old) ++ own_of homes.now node ∷ []) }
    ensures wide { OnOk result (AreWide (nodes_in trees.old) → AreWide (nodes_in trees.new)) }
{
    let vertices = own_list(alloc, homes, node)?;
    let blocks = Blocks::new(alloc);
    trees.push(Node { vertices, blocks })?;
    Ok(())
}

/// A bridge down to the only node, or a cycle through several.
fn block_of(alloc: Global, nodes: Children) -> Result<Block, NoMemory>
    requires { 0 < length (nodes_in nodes) }
    ensures entered { IfOk result (λ b. entered_block b ≡ flat_map entered (nodes_in nodes)) }
    ensures wide { IfOk result (λ b. AreWide (nodes_in nodes) → All (λ k. 2 ≤ k) (block_widths b)) }
{
    let mut nodes = nodes;
    if nodes.len() >= 2 {
        return Ok(Block::Cycle(nodes));
    }
    let only = nodes.pop().unwrap();
    let child = Box::new(alloc, only)?;
    Ok(Block::Bridge(child))
}

/// Hangs the last trees below the one before them, as a block.
fn close_block(alloc: Global, trees: &mut Children, count: usize) -> Result<(), Fail>
    ensures entered { OnOk result (flat_map entered (nodes_in trees.new) ≡ flat_map entered (nodes_in trees.old)) }
    ensures wide { OnOk result (AreWide (nodes_in trees.old) → AreWide (nodes_in trees.new)) }
{
    if count == 0 || count >= trees.len() {
        return Err(Fail::from("no such block"));
    }
    let nodes = trees.split_off(trees.len() - count)?;
    let block = block_of(alloc, nodes)?;
    let mut upper = trees.pop().unwrap();
    upper.blocks.push(block)?;
    trees.push(upper)?;
    Ok(())
}

/// Hangs the last trees below others, block by block.
fn close_blocks(alloc: Global, trees: &mut Children, counts: &[usize]) -> Result<(), Fail>
    ensures entered { OnOk result (flat_map entered (nodes_in trees.new) ≡ flat_map entered (nodes_in trees.old)) }
    ensures wide { OnOk result (AreWide (nodes_in trees.old) → AreWide (nodes_in trees.new)) }
{
    'each: for i in 0..counts.len() {
        close_block(alloc, trees, counts[i])?;
    }
    Ok(())
}

/// The trees that are made of all nodes of a sketch.
fn trees_of(alloc: Global, sketch: &Sketch) -> Result<Children, Fail>
    requires { length sketch.now.homes.now < 2 ^ 32 }
    ensures entered { IfOk result (λ t. flat_map entered (nodes_in t) ≡ lists_of sketch.now.homes.now (length sketch.now.ends.now)) }
    ensures wide { IfOk result (λ t. AreWide (nodes_in t)) }
{
    let mut trees = Children::new(alloc);
    'nodes: for i in 0..sketch.ends.len() {
        push_node(alloc, &mut trees, sketch.homes, i)?;
        close_blocks(alloc, &mut trees, sketch.ends[i])?;
    }
    Ok(trees)
}

/// Whether each number is below a count.
fn are_below(numbers: &[usize], count: usize) -> bool
    ensures { result ≡ true → (i : ℕ) → i < length numbers.now → slice_index numbers.now i < count }
{
    'each: for i in 0..numbers.len() {
        if numbers[i] >= count {
            return false;
        }
    }
    true
}

/// Whether no side of the cactus is empty.
fn has_no_empty_side(alloc: Global, cactus: &Cactus) -> Result<bool, NoMemory>
    ensures { IfOk result (λ b. b ≡ true → HasNoEmptySide cactus.now) }
{
    let mut room = Side::empty(alloc, cactus.n())?;
    let mut walk = Walk::new(alloc, cactus)?;
    'sides: while walk.next(&mut room) {
        if room.len() == 0 {
            return Ok(false);
        }
    }
    Ok(true)
}

/// The root of the only tree that is made of all nodes of a sketch.
fn root_of(alloc: Global, sketch: &Sketch) -> Result<Node, Fail>
    requires { length sketch.now.homes.now < 2 ^ 32 }
    ensures entered { IfOk result (λ x. entered x ≡ lists_of sketch.now.homes.now (length sketch.now.ends.now)) }
    ensures wide { IfOk result (λ x. All (λ k. 2 ≤ k) (widths x)) }
{
    let mut trees = trees_of(alloc, sketch)?;
    if trees.len() != 1 {
        return Err(Fail::from("not one tree"));
    }
    let root = trees.pop().unwrap();
    Ok(root)
}

/// The cactus of a sketch. None of its sides is empty.
pub fn cactus_of(alloc: Global, sketch: &Sketch) -> Result<Cactus, Fail>
    ensures few { IfOk result (λ c. c.vertices ≤ 4194304) }
    ensures sides { IfOk result (λ c. HasNoEmptySide c) }
{
    let homes = sketch.homes;
    if homes.is_empty() || homes.len() > 4194304 || homes[0] != 0 {
        return Err(Fail::from("not the homes of vertices"));
    }
    if !are_below(homes, sketch.ends.len()) {
        return Err(Fail::from("no such node"));
    }
    let cactus = Cactus::from_root(homes.len() as u32, root_of(alloc, sketch)?);
    if !has_no_empty_side(alloc, &cactus)? {
        return Err(Fail::from("an empty side"));
    }
    Ok(cactus)
}
