//! Flows of a source that grows.

ghost use Rattle.std.specs.Prelude.{◌≡◌, ◌≤◌, length, slice_index};
ghost use Rattle.region_flow.specs.Regions.{IsRegionFlow};

use crate::graphs::uneven_triangle;
use cut_definitions::NoMemory;
use max_flow::Outcome;
use region_flow::RegionFlow;
use weighted_graph::Graph;

/// Whether flows into vertex 3 of the triangle, from the source with only vertex 1, reach 5 and no
/// more.
fn reaches_five(graph: &Graph, flow: &mut RegionFlow) -> bool
    requires flow { IsRegionFlow graph.now flow.old }
    requires vertices { graph.now.vertices ≡ 3 }
    requires edges { length graph.now.edges ≡ 3 }
    requires outside { 1 ≤ slice_index flow.old.labels 3 }
{
    let stopped = flow.flow(graph, 3, 5) == Outcome::AtLeast;
    let best = flow.flow(graph, 3, 9) == Outcome::Best(5);
    let alone = flow.found() == [3].as_slice() && flow.toward(2) == 0;
    stopped && best && alone && flow.flow_within(graph, 3, 9, 0).is_none()
}

#[test]
fn a_source_that_grows(rt: HostRuntime) -> Result<(), NoMemory> {
    let graph = uneven_triangle(rt.alloc())?;
    let mut flow = RegionFlow::new(rt.alloc(), &graph)?;
    flow.enter(&graph, 1);
    let fed = flow.label(1) == 0 && flow.feed(2) == 5;
    assert!(rt; fed && reaches_five(&graph, &mut flow));
    Ok(())
}

#[test]
fn two_regions(rt: HostRuntime) -> Result<(), NoMemory> {
    let graph = uneven_triangle(rt.alloc())?;
    let mut flow = RegionFlow::new(rt.alloc(), &graph)?;
    flow.cut_off(&graph, &[2, 3], 1, 2);
    let parted = flow.label(3) == 2 && flow.feed(1) == 6;
    let within = flow.flow_within(&graph, 2, 9, 1000);
    assert!(rt; parted && within == Some(Outcome::Best(6)));
    Ok(())
}
