//! Other names for the vertices of a tree.

ghost use Rattle.std.specs.Prelude.{List, ◌≡◌, ℕ, [], map, IfOk};
ghost use Rattle.cut_definitions.specs.Weight.{VertexSet};
ghost use Rattle.rooted_cactus.specs.Sides.{part_by};
ghost use Rattle.rooted_cactus.specs.Entered.{entered, renamed};
ghost use Rattle.rooted_cactus.specs.Entries.{Shows};
ghost use Rattle.rooted_cactus.specs.Widths.{widths};

use super::Node;
use super::entries::{ShedNode, shed_blocks};
use super::plain::PlainMaker;
use super::put::put_together;
use cut_definitions::NoMemory;
use std::alloc::Global;

/// The entries of a tree, with other names for its vertices.
fn renamed_entries(alloc: Global, root: Node, names: &[u32]) -> Result<Vec<ShedNode>, NoMemory>
    ensures { IfOk result (λ e. Shows (renamed names.now) root e.items []) }
{
    let mut entries = Vec::new(alloc);
    let mut stack = Vec::new(alloc);
    stack.push(root)?;
    'walk: while let Some(node) = stack.pop() {
        let Node { vertices, blocks } = node;
        let mut vertices = vertices;
        vertices.rename(names);
        let joints = shed_blocks(alloc, &mut stack, blocks, false)?;
        entries.push(ShedNode { vertices, joints })?;
    }
    Ok(entries)
}

/// The tree in which each vertex is replaced by the entry of a table at that place, counted from
/// 0. A number past the end of the table stays.
///
/// The tree is taken over and its nodes are moved. It takes one step for each vertex and node, in
/// loops, so that a deep tree does not overflow the call stack. It takes memory in proportion to
/// the nodes, and fails only if it runs out of memory; the tree is dropped then.
pub fn rename_node(alloc: Global, node: Node, names: &[u32]) -> Result<Node, NoMemory>
    ensures names { IfOk result (λ x. entered x ≡ map (renamed names.now) (entered node)) }
    ensures sides { IfOk result (λ x. (sets : List ℕ → VertexSet) → part_by sets x ≡ part_by (λ l. sets (renamed names.now l)) node) }
    ensures widths { IfOk result (λ x. widths x ≡ widths node) }
{
    let entries = renamed_entries(alloc, node, names)?;
    let tree = put_together::<PlainMaker>(alloc, entries)?;
    Ok(tree)
}
