//! Trees whose vertices stand for classes of other vertices.

ghost use Rattle.std.specs.Prelude.{List, ◌≡◌, ◌≢◌, ℕ, [], ◌∷◌, ◌++◌, ◌≤◌, ◌<◌, ◌+◌, ◌^◌, length, map, OnOk, IfOk};
ghost use Rattle.std.specs.List.{All, flat_map};
ghost use Rattle.cut_definitions.specs.Weight.{VertexSet};
ghost use Rattle.cut_definitions.specs.Contraction.{lift};
ghost use Rattle.rooted_cactus.specs.Entered.{entered};
ghost use Rattle.rooted_cactus.specs.Entries.{Shows};
ghost use Rattle.rooted_cactus.specs.Sides.{part_by};
ghost use Rattle.rooted_cactus.specs.Spread.{group_at, AreGathered};
ghost use Rattle.rooted_cactus.specs.Widths.{widths};

use super::Node;
use super::entries::{ShedNode, shed_blocks};
use super::plain::PlainMaker;
use super::put::put_together;
use crate::vertex_list::VertexList;
use cut_definitions::NoMemory;
use std::alloc::Global;

/// Puts a vertex at the end of its class.
fn put(groups: &mut [Vec<u32>], class: usize, vertex: u32) -> Result<(), NoMemory>
    requires { class < length groups.old }
    ensures grown { OnOk result (group_at groups.new class ≡ group_at groups.old class ++ vertex ∷ []) }
    ensures others { OnOk result ((c : ℕ) → c ≢ class → group_at groups.new c ≡ group_at groups.old c) }
    ensures same_len { length groups.new ≡ length groups.old }
{
    groups[class].push(vertex)?;
    Ok(())
}

/// Empty lists, one for each class from 0 to `last`.
fn no_groups(alloc: Global, last: u32) -> Result<Vec<Vec<u32>>, NoMemory>
    ensures len { IfOk result (λ g. length g.items ≡ last + 1) }
    ensures empty { IfOk result (λ g. (c : ℕ) → group_at g.items c ≡ []) }
{
    let mut groups: Vec<Vec<u32>> = Vec::new(alloc);
    groups.push(Vec::new(alloc))?;
    'groups: for _class in 0..last {
        groups.push(Vec::new(alloc))?;
    }
    Ok(groups)
}

/// The vertices of each class from 0 to `last`, ascending. It takes one step for each vertex and
/// class, and fails only if it runs out of memory.
pub fn vertices_by_class(
    alloc: Global,
    classes: &[u32],
    last: u32,
) -> Result<Vec<Vec<u32>>, NoMemory>
    requires few { length classes.now < 2 ^ 32 }
    requires in_range { All (λ c. c ≤ last) classes.now }
    ensures { IfOk result (λ g. AreGathered classes.now g.items) }
{
    let mut groups = no_groups(alloc, last)?;
    let lists = groups.as_mut_slice();
    'vertices: for i in 0..classes.len() {
        put(lists, classes[i] as usize, i as u32 + 1)?;
    }
    Ok(groups)
}

/// Appends the vertices of a class.
fn add_class(out: &mut Vec<u32>, groups: &[Vec<u32>], class: u32) -> Result<(), NoMemory>
    ensures { OnOk result (out.new.items ≡ out.old.items ++ group_at groups.now class) }
{
    match groups.get(class as usize) {
        Some(group) => {
            out.extend_from_slice(group.as_slice())?;
            Ok(())
        }
        None => Ok(()),
    }
}

/// The vertices of several classes, one class after another.
fn add_classes(alloc: Global, groups: &[Vec<u32>], classes: &[u32]) -> Result<Vec<u32>, NoMemory>
    ensures { IfOk result (λ v. v.items ≡ flat_map (group_at groups.now) classes.now) }
{
    let mut out = Vec::new(alloc);
    'classes: for i in 0..classes.len() {
        add_class(&mut out, groups, classes[i])?;
    }
    Ok(out)
}

/// The vertices of several classes, ascending. A class that is listed twice counts once.
fn spread_list(
    alloc: Global,
    list: &VertexList,
    groups: &[Vec<u32>],
) -> Result<VertexList, NoMemory>
    ensures { IfOk result (λ l. (classes : List ℕ) → AreGathered classes groups.now → l ≡ lift classes list.now) }
{
    let mut vertices = add_classes(alloc, groups, list.as_slice())?;
    vertices.sort_unstable();
    vertices.dedup();
    Ok(VertexList::from_vec(vertices))
}

/// The entries of a tree, in which each class is replaced by its vertices.
fn spread_entries(alloc: Global, root: Node, groups: &[Vec<u32>]) -> Result<Vec<ShedNode>, NoMemory>
    ensures { IfOk result (λ e. (classes : List ℕ) → AreGathered classes groups.now → Shows (lift classes) root e.items []) }
{
    let mut entries = Vec::new(alloc);
    let mut stack = Vec::new(alloc);
    stack.push(root)?;
    'walk: while let Some(node) = stack.pop() {
        let Node { vertices, blocks } = node;
        let vertices = spread_list(alloc, &vertices, groups)?;
        let joints = shed_blocks(alloc, &mut stack, blocks, false)?;
        entries.push(ShedNode { vertices, joints })?;
    }
    Ok(entries)
}

/// The tree in which each class of 1 to `last` is replaced by its vertices, ascending. It costs as
/// much as `Cactus::spread`, and fails only if it runs out of memory.
pub fn spread_node(alloc: Global, node: Node, classes: &[u32], last: u32) -> Result<Node, NoMemory>
    requires few { length classes.now < 2 ^ 32 }
    requires in_range { All (λ c. c ≤ last) classes.now }
    ensures lists { IfOk result (λ x. entered x ≡ map (lift classes.now) (entered node)) }
    ensures sides { IfOk result (λ x. (sets : List ℕ → VertexSet) → part_by sets x ≡ part_by (λ l. sets (lift classes.now l)) node) }
    ensures widths { IfOk result (λ x. widths x ≡ widths node) }
{
    let groups = vertices_by_class(alloc, classes, last)?;
    let entries = spread_entries(alloc, node, &groups)?;
    let tree = put_together::<PlainMaker>(alloc, entries)?;
    Ok(tree)
}
