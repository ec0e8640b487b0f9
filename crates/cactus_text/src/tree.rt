//! Whether bridges and cycles join all nodes, with no more edges than that takes.

ghost use Rattle.std.specs.Prelude.{◌≡◌, ◌<◌, ◌+◌, ◌-◌, ◌==◌, ℕ, List, IfOk, length};
ghost use Rattle.std.specs.List.{All, fold, sum_by};
ghost use Rattle.cactus_text.specs.Reading.{is_joined, is_tree, relabelled};
ghost use Rattle.cactus_text.specs.Reader.{JoinsNodes};
ghost use Rattle.cactus_text.specs.Labels.{IsLabelled};

use crate::sets::Joined;
use cut_definitions::NoMemory;
use flat_cactus::FlatCactus;
use std::alloc::Global;

/// Whether there is one node more than a tree of them has edges: the bridges, and the edges of
/// each cycle but one.
fn has_edges_of_tree(flat: &FlatCactus) -> bool
    requires { JoinsNodes flat.now }
    ensures { result ≡ (length flat.now.nodes == 1 + length flat.now.bridges + sum_by (λ c. length c - 1) flat.now.cycles) }
{
    let mut edges = flat.bridges().len();
    'cycles: for i in 0..flat.cycles() {
        edges = edges.saturating_add(flat.cycle(i).len() - 1);
    }
    flat.nodes() > edges && flat.nodes() - edges == 1
}

/// Joins the ends of each bridge.
fn join_bridges(joined: &mut Joined, bridges: &[(u64, u64)])
    requires { All (λ (b : ℕ × ℕ). (b.0 < length joined.old.above.items) × (b.1 < length joined.old.above.items)) bridges.now }
    ensures count { length joined.new.above.items ≡ length joined.old.above.items }
    ensures labels { (labels : List ℕ) → IsLabelled joined.old.above.items labels → IsLabelled joined.new.above.items (fold relabelled labels bridges.now) }
{
    'bridges: for k in 0..bridges.len() {
        let (i, j) = bridges[k];
        joined.join(i as usize, j as usize);
    }
}

/// Whether bridges and cycles join all nodes.
fn is_joined(alloc: Global, flat: &FlatCactus) -> Result<bool, NoMemory>
    requires { JoinsNodes flat.now }
    ensures { IfOk result (λ b. b ≡ is_joined flat.now) }
{
    let mut joined = Joined::new(alloc, flat.nodes())?;
    join_bridges(&mut joined, flat.bridges());
    'cycles: for i in 0..flat.cycles() {
        joined.join_along(flat.cycle(i));
    }
    Ok(joined.is_one())
}

/// Whether bridges and cycles join all nodes, with no more edges than that takes. It takes time in
/// proportion to the nodes and edges, times at most the logarithm of the nodes. It fails only if
/// it runs out of memory.
pub fn is_tree(alloc: Global, flat: &FlatCactus) -> Result<bool, NoMemory>
    requires { JoinsNodes flat.now }
    ensures { IfOk result (λ b. b ≡ is_tree flat.now) }
{
    if !has_edges_of_tree(flat) {
        return Ok(false);
    }
    is_joined(alloc, flat)
}
