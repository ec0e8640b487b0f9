//! The edges of the graph, ring by ring in ascending order.

ghost use Rattle.std.specs.Prelude.{◌≡◌, ◌≤◌, ◌<◌, ◌++◌, IfOk, OnOk};
ghost use Rattle.graph_maker.specs.Made.{made_graph, at_first, behind_first, double};

use cut_definitions::{Edge, EdgeList, NoMemory};
use std::alloc::Global;

/// An edge of weight 2.
fn double(u: u32, v: u32) -> Edge
    ensures { result ≡ double u v }
{
    Edge { u, v, w: 2 }
}

/// Appends the edges from the first vertex of a ring, in ring 0 with the link to the last ring.
fn push_first(edges: &mut Vec<Edge>, rings: u32, ring: u32) -> Result<(), NoMemory>
    requires rings { rings ≤ 25000 }
    requires ring { ring < rings }
    ensures { OnOk result (edges.new.items ≡ edges.old.items ++ at_first rings ring) }
{
    let a = 4 * ring;
    edges.push(double(a + 1, a + 2))?;
    edges.push(double(a + 1, a + 4))?;
    if ring == 0 {
        edges.push(double(1, 4 * rings - 1))?;
    }
    Ok(())
}

/// Appends the other edges of a ring, with its link to the next one if there is one.
fn push_others(edges: &mut Vec<Edge>, rings: u32, ring: u32) -> Result<(), NoMemory>
    requires rings { rings ≤ 25000 }
    requires ring { ring < rings }
    ensures { OnOk result (edges.new.items ≡ edges.old.items ++ behind_first rings ring) }
{
    let a = 4 * ring;
    edges.push(double(a + 2, a + 3))?;
    edges.push(double(a + 3, a + 4))?;
    if ring + 1 < rings {
        edges.push(double(a + 3, a + 5))?;
    }
    Ok(())
}

/// The graph for a number from 12 to 100,000. It has as many vertices as the number rounded down
/// to a multiple of 4, and 5 edges for each 4 vertices.
///
/// It takes 16 bytes and O(1) steps for each edge, and fails only if it runs out of memory.
pub fn make(alloc: Global, number: u32) -> Result<EdgeList, NoMemory>
    requires from { 12 ≤ number }
    requires to { number ≤ 100000 }
    ensures { IfOk result (λ l. l ≡ made_graph number) }
{
    let rings = number / 4;
    let mut edges = Vec::with_capacity(alloc, 5 * rings as usize)?;
    'rings: for ring in 0..rings {
        push_first(&mut edges, rings, ring)?;
        push_others(&mut edges, rings, ring)?;
    }
    Ok(EdgeList::from_edges(4 * rings, edges))
}
