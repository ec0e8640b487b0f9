//! The residuals of the arcs of each row, one row after another.

ghost use Rattle.std.specs.Prelude.{◌≡◌, ℕ, ◌+◌, ◌≤◌, length, map, slice_index, IfOk};
ghost use Rattle.weighted_graph.specs.Rows.{row_of};
ghost use Rattle.region_flow.specs.Residual.{IsResidual};
ghost use Rattle.region_flow.specs.Closed.{residual_on};
ghost use Rattle.max_flow.specs.Rows.{AreStarts, row_within};

use cut_definitions::NoMemory;
use region_flow::residual::residual_on;
use std::alloc::Global;
use weighted_graph::Graph;

/// Where the row of each vertex from 0 to n begins, and where the last ends. It takes O(n) steps
/// and 8 bytes a vertex, and fails only if it runs out of memory.
pub fn starts_of(alloc: Global, graph: &Graph) -> Result<Vec<usize>, NoMemory>
    ensures { IfOk result (λ starts. AreStarts graph.now starts.items) }
{
    let mut starts = Vec::new(alloc);
    let mut total = 0;
    starts.push(total)?;
    for v in 0..graph.n() + 1 {
        total += graph.row(v).len();
        starts.push(total)?;
    }
    Ok(starts)
}

/// Writes the residual of each arc of one row.
fn fill_row(graph: &Graph, v: u32, toward: &[u64], residuals: &mut [u64])
    requires residual { IsResidual graph.now toward.now }
    requires v_to_n { v ≤ graph.now.vertices }
    requires each { length residuals.old ≡ length (row_of graph.now v) }
    ensures { residuals.new ≡ map (residual_on v toward.now) (row_of graph.now v) }
{
    let row = graph.row(v);
    for (k, arc) in row.iter().enumerate() {
        residuals[k] = residual_on(arc, v, toward);
    }
}

/// Writes the residual of each arc of all rows, in O(n + m).
pub fn fill(graph: &Graph, toward: &[u64], starts: &[usize], residuals: &mut [u64])
    requires residual { IsResidual graph.now toward.now }
    requires starts { AreStarts graph.now starts.now }
    requires ends { (v : ℕ) → v ≤ graph.now.vertices → slice_index starts.now (v + 1) ≤ length residuals.old }
    ensures { (v : ℕ) → v ≤ graph.now.vertices →
        row_within residuals.new starts.now v ≡ map (residual_on v toward.now) (row_of graph.now v) }
{
    for v in 0..graph.n() + 1 {
        let start = starts[v as usize];
        let end = starts[v as usize + 1];
        fill_row(graph, v, toward, &mut residuals[start..end]);
    }
}
