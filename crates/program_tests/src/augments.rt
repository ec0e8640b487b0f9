//! The fewest edges that raise the value.

use crate::graphs::{ONE_EDGE, ONE_VERTEX, PATH, TRIANGLE, TWO_CYCLES};
use crate::runs::answers;
use std::test::Fail;

const AUGMENTATIONS: &[(&[u8], &str)] = &[
    (
        TRIANGLE,
        "value 2\nedges 2\nedge 1 2\nedge 2 3\nsets 3\nset 1\nset 2\nset 3\n",
    ),
    (PATH, "value 5\nedges 1\nedge 1 3\nsets 2\nset 1\nset 3\n"),
    (
        ONE_EDGE,
        "value 7\nedges 1\nedge 1 2\nsets 2\nset 1\nset 2\n",
    ),
    (
        TWO_CYCLES,
        "value 4\nedges 3\nedge 1 4\nedge 2 5\nedge 3 6\nsets 6\nset 1\nset 2\nset 3\nset 4\nset 5\nset 6\n",
    ),
    (ONE_VERTEX, "no cut\n"),
];

#[test]
fn edges_and_sets_are_printed(rt: HostRuntime) -> Result<(), Fail> {
    for (text, out) in AUGMENTATIONS {
        assert!(rt; answers(&rt, rt.alloc(), &["augment"], text, out)?, "{out}");
    }
    Ok(())
}
