//! Sets of vertices.

use std::cmp::Ordering;
use std::test::Fail;
use vertex_set::Side;

/// Whether these are the members, 1, 3 and 5, of a set of 5 vertices.
fn has_odd(side: &Side) -> bool {
    side.n() == 5
        && side.len() == 3
        && side.has(3)
        && !side.has(4)
        && side.next_from(0) == Some(1)
        && side.next_from(2) == Some(3)
        && side.next_from(4) == Some(5)
        && side.next_from(6).is_none()
}

#[test]
fn odd_vertices_of_five(rt: HostRuntime) -> Result<(), Fail> {
    let mut side = Side::empty(rt.alloc(), 5)?;
    let is_empty = side.is_empty();
    side.insert(4);
    side.insert(2);
    side.flip();
    let holds = has_odd(&side);
    side.remove(3);
    assert!(rt; is_empty && holds && side.len() == 2);
    Ok(())
}

/// Whether the first of two sets is before the other, and equal to itself.
fn is_before(side: &Side, other: &Side) -> bool {
    side.compare(other) == Ordering::Less
        && other.compare(side) == Ordering::Greater
        && side.compare(side) == Ordering::Equal
}

#[test]
fn sets_of_several_words(rt: HostRuntime) -> Result<(), Fail> {
    let mut side = Side::empty(rt.alloc(), 200)?;
    let mut other = Side::empty(rt.alloc(), 200)?;
    side.insert(3);
    other.insert(3);
    other.insert(190);
    let ascend = is_before(&side, &other);
    side.join_in(&other);
    let has_last = side.next_from(4) == Some(190);
    other.flip();
    let rest = other.len();
    side.take_out(&other);
    assert!(rt; ascend && has_last && rest == 198 && side.len() == 2);
    Ok(())
}
