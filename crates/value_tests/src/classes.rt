//! Classes of vertices that pairs join.

use cut_definitions::NoMemory;
use std::alloc::Global;
use vertex_classes::Classes;
use weighted_graph::Labels;

/// Whether 1 and 3 are joined, and 4 and 5, and no others, and the labels are in the order of the
/// vertices.
fn are_as_joined(alloc: Global) -> Result<bool, NoMemory> {
    let mut classes = Classes::new(alloc, 5)?;
    classes.join(4, 5);
    classes.join(1, 3);
    let joined = classes.are_joined(3, 1);
    let apart = classes.are_joined(3, 4);
    let labels = Labels::of_classes(alloc, &classes)?;
    Ok(joined && !apart && labels.as_slice() == [1, 2, 1, 3, 3].as_slice())
}

#[test]
fn pairs_are_joined(rt: HostRuntime) {
    assert!(rt; are_as_joined(rt.alloc()) == Ok(true));
}
