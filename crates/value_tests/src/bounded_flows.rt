//! Bounded flows between two vertices.

ghost use Rattle.std.specs.Prelude.{◌≡◌, ◌≢◌, ◌<◌, ◌≤◌, ◌^◌};
ghost use Rattle.max_flow.specs.Flow.{StandsFor};

use crate::graphs::{graph_of, uneven_triangle};
use cut_definitions::NoMemory;
use max_flow::{Flow, Outcome};
use std::alloc::Global;
use vertex_set::Side;
use weighted_graph::Graph;

const GREATEST_TOTAL: u64 = 2_305_843_009_213_693_952;

/// A run: its two ends, its amount and its source side.
type Run = (u32, u32, u64, u32);

/// The members of a set, as digits.
fn digits(side: &Side) -> u32
    requires { side.now.vertices ≤ 9 }
{
    let mut digits = 0u32;
    for v in 0..side.n() {
        if side.has(v + 1) {
            digits = digits.wrapping_mul(10).wrapping_add(v + 1);
        }
    }
    digits
}

/// Whether a run whose stop is greater than the amount finds it with this source side, and one
/// with the amount as its stop is stopped.
fn agrees(flow: &mut Flow, graph: &Graph, s: u32, t: u32, amount: u64, source: u32) -> bool
    requires stands { StandsFor flow.old graph.now }
    requires few { graph.now.vertices ≤ 9 }
    requires s_from_one { 1 ≤ s }
    requires s_to_n { s ≤ graph.now.vertices }
    requires t_from_one { 1 ≤ t }
    requires t_to_n { t ≤ graph.now.vertices }
    requires apart { s ≢ t }
    requires amount { amount < 2 ^ 63 }
    ensures stands { StandsFor flow.new graph.now }
{
    match flow.run(graph, s, t, amount + 1) {
        Outcome::AtLeast => return false,
        Outcome::Best(found) => {
            if found != amount || digits(flow.source_side()) != source {
                return false;
            }
        }
    }
    amount == 0 || flow.run(graph, s, t, amount) == Outcome::AtLeast
}

/// Whether each run agrees after those before it.
fn agree_in_turn(flow: &mut Flow, graph: &Graph, runs: &[Run]) -> bool
    requires stands { StandsFor flow.old graph.now }
    requires few { graph.now.vertices ≤ 9 }
{
    for &(s, t, amount, source) in runs {
        let n = graph.n();
        if s == 0 || s > n || t == 0 || t > n || s == t || amount > GREATEST_TOTAL {
            return false;
        }
        if !agrees(flow, graph, s, t, amount, source) {
            return false;
        }
    }
    true
}

/// Whether the runs agree in turn on one flow on the graph of a file.
fn all_agree(alloc: Global, text: &str, runs: &[Run]) -> bool {
    let Some(graph) = graph_of(alloc, text) else {
        return false;
    };
    if graph.n() > 9 {
        return false;
    }
    match Flow::new(alloc, &graph) {
        Ok(mut flow) => agree_in_turn(&mut flow, &graph, runs),
        Err(_) => false,
    }
}

/// Whether the best flow of the triangle from 1 to 3 leaves these residuals at its ends.
fn leaves_residuals(flow: &mut Flow, graph: &Graph) -> bool
    requires stands { StandsFor flow.old graph.now }
    requires three { graph.now.vertices ≡ 3 }
{
    let best = flow.run(graph, 1, 3, 6) == Outcome::Best(5);
    best && flow.residual_row(1) == [1, 0].as_slice() && flow.residual_row(3) == [2, 8].as_slice()
}

#[test]
fn residuals_of_a_triangle(rt: HostRuntime) -> Result<(), NoMemory> {
    let graph = uneven_triangle(rt.alloc())?;
    let mut flow = Flow::new(rt.alloc(), &graph)?;
    assert!(rt; leaves_residuals(&mut flow, &graph));
    Ok(())
}

// Files and runs. The first is a triangle. The second is two triangles joined by one edge, and a
// vertex with no edge. The third is a ring whose weights add up to the greatest total, and a
// vertex with no edge.
const RUNS: [(&str, &[Run]); 3] = [
    (
        "3 3 1\n2 5 3 1\n1 5 3 4\n1 1 2 4\n",
        &[(1, 3, 5, 12), (1, 2, 6, 1)],
    ),
    (
        "7 7 1\n2 3 3 3\n1 3 3 3\n1 3 2 3 4 2\n3 2 5 7 6 7\n4 7 6 7\n4 7 5 7\n\n",
        &[
            (6, 1, 2, 456),
            (1, 6, 2, 123),
            (1, 7, 0, 123456),
            (7, 1, 0, 7),
            (5, 6, 14, 5),
            (2, 1, 6, 2),
        ],
    ),
    (
        "5 4 1\n2 1152921504606846976 4 1\n1 1152921504606846976 3 1152921504606846974\n\
        2 1152921504606846974 4 1\n1 1 3 1\n\n",
        &[
            (1, 3, 1152921504606846975, 12),
            (2, 4, 2, 123),
            (4, 2, 2, 4),
            (3, 5, 0, 1234),
        ],
    ),
];

#[test]
fn one_flow_for_several_runs(rt: HostRuntime) {
    for (text, runs) in &RUNS {
        assert!(rt; all_agree(rt.alloc(), text, runs));
    }
}
