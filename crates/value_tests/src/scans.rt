//! Capped scans.

ghost use Rattle.std.specs.Prelude.{◌≡◌};
ghost use Rattle.capped_scan.specs.Scan.{StandsFor};

use crate::graphs::uneven_triangle;
use cut_definitions::{EdgeList, NoMemory};
use scan_forest::{Scan, Scanned};
use weighted_graph::Graph;

fn scanned(vertex: u32, prefix_weight: u64, all: bool) -> Scanned {
    Scanned {
        vertex,
        prefix_weight,
        all,
    }
}

/// Whether this is what the scan returns next.
fn is_next(graph: &Graph, scan: &mut Scan, wanted: Option<Scanned>) -> bool
    requires { StandsFor scan.old graph.now }
    ensures { StandsFor scan.new graph.now }
{
    scan.next(graph) == wanted
}

/// Whether these are the links of vertices 2 and 3.
fn has_links(graph: &Graph, scan: &Scan, second: u64, third: u64) -> bool
    requires stands { StandsFor scan.now graph.now }
    requires three { graph.now.vertices ≡ 3 }
{
    let links = (scan.link(graph, 2), scan.link(graph, 3));
    links == (second, third)
}

/// Whether the scan that starts at vertex 1 with cap 6 goes through all three
/// vertices, with the links between.
fn goes_from_first(graph: &Graph, scan: &mut Scan) -> bool
    requires stands { StandsFor scan.old graph.now }
    requires three { graph.now.vertices ≡ 3 }
{
    let first = is_next(graph, scan, Some(scanned(1, 6, false)));
    let linked = has_links(graph, scan, 5, 1) && scan.peek(graph) == Some(2);
    let second = is_next(graph, scan, Some(scanned(2, 5, false)));
    let relinked = has_links(graph, scan, 0, 5);
    let third = is_next(graph, scan, Some(scanned(3, 0, true)));
    first && linked && second && relinked && third && is_next(graph, scan, None)
}

#[test]
fn a_capped_scan_of_a_triangle(rt: HostRuntime) -> Result<(), NoMemory> {
    let graph = uneven_triangle(rt.alloc())?;
    let mut scan = Scan::new(rt.alloc(), &graph)?;
    scan.start(1, 6);
    assert!(rt; goes_from_first(&graph, &mut scan));
    Ok(())
}

/// Whether the scan that starts at vertex 1 with cap 3 goes on to 3 and then to its end.
fn goes_past_second(graph: &Graph, scan: &mut Scan) -> bool
    requires stands { StandsFor scan.old graph.now }
    requires three { graph.now.vertices ≡ 3 }
{
    let first = is_next(graph, scan, Some(scanned(1, 6, false)));
    let linked = has_links(graph, scan, 0, 1);
    let third = is_next(graph, scan, Some(scanned(3, 9, false)));
    first && linked && third && is_next(graph, scan, None)
}

/// Vertex 2 is dropped, so 3 comes after 1, and the two are not everything.
#[test]
fn a_dropped_vertex_is_passed_over(rt: HostRuntime) -> Result<(), NoMemory> {
    let graph = uneven_triangle(rt.alloc())?;
    let mut scan = Scan::new(rt.alloc(), &graph)?;
    scan.start(1, 3);
    scan.drop_vertex(2);
    assert!(rt; goes_past_second(&graph, &mut scan));
    Ok(())
}

/// Whether the scan that starts at vertex 3 with cap 1 goes on to 1 and then to 2.
fn goes_from_third(graph: &Graph, scan: &mut Scan) -> bool
    requires { StandsFor scan.old graph.now }
{
    let third = is_next(graph, scan, Some(scanned(3, 5, false)));
    let first = is_next(graph, scan, Some(scanned(1, 9, false)));
    third && first && is_next(graph, scan, Some(scanned(2, 0, true)))
}

/// Vertex 2 weighs more toward 3 than vertex 1 does, but both reach the cap.
#[test]
fn the_least_of_a_tie_comes_first(rt: HostRuntime) -> Result<(), NoMemory> {
    let graph = uneven_triangle(rt.alloc())?;
    let mut scan = Scan::new(rt.alloc(), &graph)?;
    scan.start(3, 1);
    assert!(rt; goes_from_third(&graph, &mut scan));
    Ok(())
}

#[test]
fn a_scan_of_no_vertices(rt: HostRuntime) -> Result<(), NoMemory> {
    let graph = Graph::build(rt.alloc(), &EdgeList::new(rt.alloc(), 0))?;
    let mut scan = Scan::new(rt.alloc(), &graph)?;
    assert!(rt; scan.next(&graph).is_none());
    Ok(())
}
