//! Kernels, and graphs that are only reduced.

ghost use Rattle.std.specs.Prelude.{◌≤◌};

use crate::certificates::none_is_certified;
use crate::graphs::{graph_of, uneven_triangle};
use cut_definitions::NoMemory;
use min_value::{Kernel, kernel, reduce, value};
use outside::OpenGate;
use std::alloc::Global;
use std::thread::Threads;
use weighted_graph::Graph;
use worker_team::Crew;

// Two blocks and two edges between them. In each block each of four vertices is joined to each of
// four others. All edges weigh 1, so the value is 2.
const TWO_BLOCKS: &str =
    "16 34\n5 6 7 8 9\n5 6 7 8 10\n5 6 7 8\n5 6 7 8\n1 2 3 4\n1 2 3 4\n1 2 3 4\n1 2 3 4\n\
    1 13 14 15 16\n2 13 14 15 16\n13 14 15 16\n13 14 15 16\n9 10 11 12\n9 10 11 12\n9 10 11 12\n9 10 11 12\n";

// The classes of the kernel of the triangle, and those of the two blocks.
const TRIANGLE_CLASSES: [u32; 3] = [1, 1, 2];

const BLOCK_CLASSES: [u32; 16] = [1, 1, 1, 1, 1, 1, 1, 1, 2, 2, 2, 2, 2, 2, 2, 2];

/// Whether the edges of a graph weigh at most the value for each vertex but one.
fn is_light(graph: &Graph, value: u64) -> bool {
    let mut total = 0u64;
    for edge in graph.edge_list() {
        total = total.saturating_add(edge.w);
    }
    total <= value.saturating_mul(u64::from(graph.n().saturating_sub(1)))
}

/// Whether the kernel has the value, two vertices and these classes, and is light.
fn is_kernel(kernel: &Kernel, value: u64, classes: &[u32]) -> bool {
    kernel.value == value
        && kernel.graph.n() == 2
        && kernel.labels.as_slice() == classes
        && is_light(&kernel.graph, value)
}

/// Whether threads find the kernel with the value and these classes.
fn has_kernel<R: Threads + Sync>(
    crew: &Crew<R, OpenGate>,
    graph: &Graph,
    value: u64,
    classes: &[u32],
) -> bool
    requires { 2 ≤ graph.now.vertices }
{
    match kernel(crew, graph) {
        Ok(found) => is_kernel(&found, value, classes),
        Err(_) => false,
    }
}

/// Whether threads reduce the graph to the kernel of the triangle.
fn is_reduced<R: Threads + Sync>(crew: &Crew<R, OpenGate>, graph: &Graph) -> bool
    requires { 2 ≤ graph.now.vertices }
{
    let Ok(weight) = value(crew, graph) else {
        return false;
    };
    match reduce(crew, graph, weight) {
        Ok(Some(kernel)) => is_kernel(&kernel, 5, &TRIANGLE_CLASSES),
        _ => false,
    }
}

#[test]
fn the_kernel_of_a_triangle(rt: HostRuntime) -> Result<(), NoMemory> {
    let graph = uneven_triangle(rt.alloc())?;
    let one = Crew::new(&rt, rt.alloc(), 1, &OpenGate);
    let four = Crew::new(&rt, rt.alloc(), 4, &OpenGate);
    let by_one = has_kernel(&one, &graph, 5, &TRIANGLE_CLASSES);
    let by_four = has_kernel(&four, &graph, 5, &TRIANGLE_CLASSES);
    assert!(rt; by_one && by_four && is_reduced(&four, &graph));
    Ok(())
}

/// Whether no edge of the graph itself is certified at 2 with slack 1, the graph is not light, and
/// its kernels are those of two blocks.
fn has_kernels_of_two_blocks<R: Threads + Sync>(rt: &R, alloc: Global) -> bool {
    let Some(graph) = graph_of(alloc, TWO_BLOCKS) else {
        return false;
    };
    if graph.n() < 2 || is_light(&graph, 2) || !none_is_certified(&graph, 2, 1) {
        return false;
    }
    let one = Crew::new(rt, alloc, 1, &OpenGate);
    let four = Crew::new(rt, alloc, 4, &OpenGate);
    has_kernel(&one, &graph, 2, &BLOCK_CLASSES) && has_kernel(&four, &graph, 2, &BLOCK_CLASSES)
}

#[test]
fn two_blocks_leave_a_light_kernel(rt: HostRuntime) {
    assert!(rt; has_kernels_of_two_blocks(&rt, rt.alloc()));
}
