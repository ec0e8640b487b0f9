//! Cactuses, their sides, and trees that are built and taken apart.

use crate::trees::{ONE_BRIDGE, ONE_RING, RING_AND_BRIDGE, cactus_of};
use cactus_tree::{
    Block, Cactus, Children, CutPlaces, Node, VertexList, Walk, cut_places, next_start, put_range,
    rename_node, vertices_in_order,
};
use cut_definitions::NoMemory;
use std::alloc::Global;
use std::test::Fail;
use vertex_set::Side;

/// Whether the side has these vertices and no other.
pub(crate) fn has_exactly(side: &Side, vertices: &[u32]) -> bool {
    for v in vertices {
        if side.next_from(*v) != Some(*v) {
            return false;
        }
    }
    side.len() as usize == vertices.len()
}

/// Whether the side is one of the lists.
pub(crate) fn is_among(side: &Side, lists: &[&[u32]]) -> bool {
    bit_among(side, lists) != 0
}

/// The bit at the place of the side among the lists, of which there are at most 64, or 0 if it is
/// none of them.
fn bit_among(side: &Side, lists: &[&[u32]]) -> u64 {
    let mut bit = 1;
    for vertices in lists {
        if has_exactly(side, vertices) {
            return bit;
        }
        bit <<= 1;
    }
    0
}

/// Whether a walk over the cactus returns exactly these sides, as lists of their vertices, each
/// once, and then says that there are no more, whenever it is asked.
pub(crate) fn has_sides(
    alloc: Global,
    cactus: &Cactus,
    lists: &[&[u32]],
) -> Result<bool, NoMemory> {
    let mut room = Side::empty(alloc, cactus.n())?;
    let mut walk = Walk::new(alloc, cactus)?;
    let mut seen = 0;
    'sides: while walk.next(&mut room) {
        let bit = bit_among(&room, lists);
        if bit == 0 || seen & bit != 0 {
            return Ok(false);
        }
        seen |= bit;
    }
    let is_over = !walk.next(&mut room);
    Ok(is_over && seen.count_ones() as usize == lists.len())
}

fn is_single(cactus: &Cactus) -> bool {
    let root = cactus.root();
    cactus.n() == 2
        && cactus.nodes() == 1
        && cactus.is_normal()
        && root.vertices.as_slice() == [1, 2].as_slice()
        && root.blocks.len() == 0
}

#[test]
fn one_node_has_all_vertices(rt: HostRuntime) -> Result<(), Fail> {
    let cactus = Cactus::single(rt.alloc(), 2)?;
    let single = is_single(&cactus);
    let same = Cactus::from_root(2, cactus.into_root());
    assert!(rt; single && is_single(&same));
    Ok(())
}

/// Whether a walk over the cactus of one node leaves the side that is passed to it as it is.
fn leaves_room(alloc: Global) -> Result<bool, NoMemory> {
    let cactus = Cactus::single(alloc, 2)?;
    let mut room = Side::empty(alloc, 2)?;
    room.insert(2);
    let mut walk = Walk::new(alloc, &cactus)?;
    Ok(!walk.next(&mut room) && has_exactly(&room, &[2]))
}

#[test]
fn a_walk_without_sides_leaves_the_room(rt: HostRuntime) -> Result<(), Fail> {
    let holds = leaves_room(rt.alloc())?;
    assert!(rt; holds);
    Ok(())
}

const RING: [&[u32]; 6] = [&[2], &[2, 3], &[2, 3, 4], &[3], &[3, 4], &[4]];

#[test]
fn a_walk_gives_each_side_of_a_ring_once(rt: HostRuntime) -> Result<(), Fail> {
    let cactus = cactus_of(rt.alloc(), &ONE_RING)?;
    let holds = has_sides(rt.alloc(), &cactus, &RING)?;
    assert!(rt; holds);
    Ok(())
}

/// Whether the root has the upper vertices, and a bridge down to a node with the lower ones.
fn is_bridge_between(root: &Node, upper: &[u32], lower: &[u32]) -> bool {
    if root.blocks.len() == 0 {
        return false;
    }
    match root.blocks.at(0) {
        Block::Bridge(child) => {
            root.vertices.as_slice() == upper && child.vertices.as_slice() == lower
        }
        Block::Cycle(_) => false,
    }
}

/// The cactus of 1, with a bridge down to 2, in which these two classes are replaced by the
/// vertices of the classes 1, 1 and 2.
fn spread_out(alloc: Global) -> Result<Cactus, Fail> {
    let narrow = cactus_of(alloc, &ONE_BRIDGE)?;
    if narrow.n() != 2 {
        return Err(Fail::from("not two vertices"));
    }
    let cactus = narrow.spread(alloc, 3, &[1, 1, 2])?;
    Ok(cactus)
}

/// Whether it is the cactus of 1 and 2 with a bridge down to 3.
fn is_spread(cactus: &Cactus) -> bool {
    cactus.n() == 3 && cactus.nodes() == 2 && is_bridge_between(cactus.root(), &[1, 2], &[3])
}

#[test]
fn classes_are_spread(rt: HostRuntime) -> Result<(), Fail> {
    let cactus = spread_out(rt.alloc())?;
    let shown = has_sides(rt.alloc(), &cactus, &[&[3]])?;
    assert!(rt; shown && is_spread(&cactus));
    Ok(())
}

/// The cuts of the ring are ranges. Its nodes begin at the places 1, 2 and 3, and the last one
/// ends at 4.
fn are_ring_places(places: &CutPlaces) -> bool {
    places.order.as_slice() == [1, 2, 3, 4].as_slice()
        && places.borders.len() == 4
        && next_start(&places.borders, 0) == 0
        && (places.borders[0].place, places.borders[0].following) == (1, 3)
        && (places.borders[2].place, places.borders[2].following) == (3, 1)
}

#[test]
fn the_cuts_of_a_cycle_are_ranges_between_its_borders(rt: HostRuntime) -> Result<(), Fail> {
    let cactus = cactus_of(rt.alloc(), &ONE_RING)?;
    let places = cut_places(rt.alloc(), &cactus)?;
    assert!(rt; are_ring_places(&places));
    Ok(())
}

#[test]
fn a_range_is_put_beside_what_is_there(rt: HostRuntime) -> Result<(), Fail> {
    let mut side = Side::empty(rt.alloc(), 4)?;
    side.insert(4);
    put_range(&mut side, &[1, 2, 3, 4], 1, 3);
    assert!(rt; has_exactly(&side, &[2, 3, 4]));
    Ok(())
}

fn is_in_order(alloc: Global, root: &Node, vertices: &[u32]) -> Result<bool, NoMemory> {
    let order = vertices_in_order(alloc, root)?;
    Ok(order.as_slice() == vertices)
}

/// Whether the vertices of the tree are in one order, and under other names in the other.
fn is_renamed(alloc: Global) -> Result<bool, Fail> {
    let root = cactus_of(alloc, &RING_AND_BRIDGE)?.into_root();
    let before = is_in_order(alloc, &root, &[1, 3, 4, 2])?;
    let root = rename_node(alloc, root, &[0, 5, 6, 7, 8])?;
    let after = is_in_order(alloc, &root, &[5, 7, 8, 6])?;
    Ok(before && after)
}

#[test]
fn the_vertices_of_a_tree_are_renamed(rt: HostRuntime) -> Result<(), Fail> {
    let holds = is_renamed(rt.alloc())?;
    assert!(rt; holds);
    Ok(())
}

/// Whether a list has one node, which has only this vertex.
fn has_one(list: &Children, v: u32) -> bool {
    list.len() == 1 && list.at(0).vertices.as_slice() == [v].as_slice()
}

/// Whether a ring of two nodes is taken apart into one with 3 and one with 4, and is put together
/// in the other order.
fn comes_apart(ring: Children) -> Result<bool, NoMemory> {
    let mut ring = ring;
    if ring.len() != 2 {
        return Ok(false);
    }
    let mut rest = ring.split_off(1)?;
    let apart = has_one(&ring, 3) && has_one(&rest, 4);
    rest.append(ring)?;
    let last = rest.split_off(rest.len().min(1))?;
    Ok(apart && has_one(&rest, 4) && has_one(&last, 3))
}

/// Whether a bridge is the last block, and the only one before it is a ring that can be taken
/// apart.
fn is_taken_apart(root: &mut Node) -> Result<bool, NoMemory> {
    let bridge = matches!(root.blocks.pop(), Some(Block::Bridge(_)));
    let Some(Block::Cycle(ring)) = root.blocks.pop() else {
        return Ok(false);
    };
    let apart = comes_apart(ring)?;
    Ok(bridge && apart && root.blocks.len() == 0)
}

#[test]
fn a_tree_is_taken_apart(rt: HostRuntime) -> Result<(), Fail> {
    let mut root = cactus_of(rt.alloc(), &RING_AND_BRIDGE)?.into_root();
    let holds = is_taken_apart(&mut root)?;
    assert!(rt; holds);
    Ok(())
}

#[test]
fn a_list_of_vertices_grows_and_shrinks(rt: HostRuntime) -> Result<(), Fail> {
    let mut list = VertexList::new(rt.alloc());
    list.push(9)?;
    let held = list.len() == 1 && list.as_slice() == [9].as_slice();
    assert!(rt; held && list.pop() == Some(9) && list.pop().is_none());
    Ok(())
}
