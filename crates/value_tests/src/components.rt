//! Components and the unions of them that are minimum cuts.

ghost use Rattle.std.specs.Prelude.{◌≡◌, ◌≤◌, length};

use crate::graphs::graph_of;
use component_cuts::Components;
use cut_definitions::{EdgeList, NoMemory, VertexWeights};
use std::alloc::Global;
use vertex_set::Side;

/// Whether these are the members.
fn has_members(side: &Side, members: &[u32]) -> bool {
    let mut from = 0;
    for v in members {
        if *v > 9 || side.next_from(from) != Some(*v) {
            return false;
        }
        from = *v + 1;
    }
    side.next_from(from).is_none()
}

/// Whether the minimum cuts are these.
fn has_sides(alloc: Global, parts: &Components, members: &[&[u32]]) -> Result<bool, NoMemory>
    requires { parts.now.vertices ≤ 9 }
{
    if parts.len() < 2 || parts.len() > 9 {
        return Ok(false);
    }
    let sides = parts.sides(alloc)?;
    Ok(
        sides.len() == members.len()
            && sides
                .iter()
                .zip(members)
                .all(|(side, list)| has_members(side, list)),
    )
}

/// Whether the best cut has these members.
fn has_best(alloc: Global, parts: &Components, weights: &VertexWeights, members: &[u32]) -> bool
    requires { length weights.now ≡ parts.now.vertices }
{
    if parts.len() < 2 {
        return false;
    }
    match parts.best(alloc, weights) {
        Ok(side) => has_members(&side, members),
        Err(_) => false,
    }
}

/// Whether the components are 1, 2 and 3, 4, and the best cut by four equal masses is the second.
fn are_two_pairs(alloc: Global, parts: &Components) -> Result<bool, NoMemory>
    requires { parts.now.vertices ≡ 4 }
{
    let weights = VertexWeights::from_list(vec![in alloc; 1u64; 4]?);
    let halves = has_best(alloc, parts, &weights, &[3, 4]);
    Ok(halves && parts.len() == 2 && parts.part(2) == 1 && parts.part(4) == 2)
}

/// Whether the graph of two pairs has these components, and one minimum cut.
fn fall_into_pairs(alloc: Global) -> bool {
    let Some(graph) = graph_of(alloc, "4 2\n2\n1\n4\n3\n") else {
        return false;
    };
    if graph.n() != 4 {
        return false;
    }
    match Components::of(alloc, &graph) {
        Ok(parts) => {
            are_two_pairs(alloc, &parts) == Ok(true)
                && has_sides(alloc, &parts, &[&[3, 4]]) == Ok(true)
        }
        Err(_) => false,
    }
}

#[test]
fn two_pairs(rt: HostRuntime) {
    assert!(rt; fall_into_pairs(rt.alloc()));
}

#[test]
fn three_vertices_without_edges(rt: HostRuntime) -> Result<(), NoMemory> {
    let parts = Components::of_list(rt.alloc(), &EdgeList::new(rt.alloc(), 3))?;
    let sides: [&[u32]; 3] = [&[2], &[2, 3], &[3]];
    assert!(rt; has_sides(rt.alloc(), &parts, &sides) == Ok(true));
    Ok(())
}
