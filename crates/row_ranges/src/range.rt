//! A range of vertices, whose rows follow one another.

ghost use Rattle.std.specs.Prelude.{◌+◌, ◌<◌, ◌≤◌, length};

use cut_definitions::Edge;

/// A run of vertices from `first` on, with all edges of the graph. `starts` says where the row of
/// each vertex of the run begins among all rows, and where the last one ends. `workers` is the
/// number of workers for the run.
#[derive(Clone, Copy)]
pub struct Range<'a> {
    pub edges: &'a [Edge],
    pub starts: &'a [usize],
    pub first: usize,
    pub workers: u32,
}

/// The place at which a range is split, with about as many arcs before it as after it.
pub(crate) fn middle(starts: &[usize]) -> usize
    requires { 3 ≤ length starts.now }
    ensures { (0 < result) × (result + 1 < length starts.now) }
{
    let last = starts.len() - 1;
    let half = starts[0] / 2 + starts[last] / 2;
    let place = starts.partition_point(|start| *start < half);
    place.max(1).min(last - 1)
}
