//! The components of a graph that has several, and the limit of a list of their unions.

ghost use Rattle.std.specs.Prelude.{◌≤◌, ◌↔◌, IfOk, IsTrue, length};
ghost use Rattle.cut_definitions.specs.Components.{HasComponents};
ghost use Rattle.job_replies.specs.Apart.{AreUnionsFew, IsApartGraph};

use component_cuts::{Components, laws};
use cut_definitions::{EdgeList, NoMemory};
use std::alloc::Global;

// the greatest number of sides times vertices in a list, 2^30
const LARGEST: u128 = 1_073_741_824;

/// Whether a list of all minimum cuts is within its limit.
pub fn are_unions_few(parts: &Components, n: u32) -> bool
    requires some { 1 ≤ length parts.now.parts }
    requires enough { 2 ≤ n }
    ensures { IsTrue result ↔ AreUnionsFew (length parts.now.parts) n }
{
    let most = LARGEST / n as u128;
    match parts.count() {
        Some(unions) => unions <= most,
        None => false,
    }
}

/// The components of a graph by its list of edges, if there are `count` of them.
pub fn components_of(alloc: Global, graph: &EdgeList, count: u32) -> Result<Components, NoMemory>
    requires enough { 2 ≤ graph.now.vertices }
    requires components { HasComponents graph.now count }
    requires several { 2 ≤ count }
    ensures { IfOk result (IsApartGraph graph.now) }
{
    laws::components();
    laws::one_number();
    // known by this call: that the edges are an edge list
    let _n = graph.n();
    Components::of_list(alloc, graph)
}
