//! A region that is parted.

use region_fronts::Parts;
use weighted_graph::Graph;

/// A region of a graph by its label, and its parts.
#[derive(Clone, Copy)]
pub struct PartedRegion<'a> {
    pub graph: &'a Graph,
    pub region: u32,
    pub parts: &'a Parts,
}
