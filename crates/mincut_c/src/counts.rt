//! The number of the minimum cuts.

ghost use Rattle.std.specs.Prelude.{◌≡◌, ◌≢◌, ◌≤◌, IfOk, IfErr};
ghost use Rattle.cactus_solver.specs.SolvedLists.{IsTreeSolved};
ghost use Rattle.cut_definitions.specs.Cuts.{mincuts};
ghost use Rattle.edge_arrays.specs.Given.{given};
ghost use Rattle.rooted_cactus.specs.Different.{HasDifferent};
ghost use Rattle.mincut_c.specs.Statuses.{HasCuts, IsReason, TellsFault, number_of};

use crate::solving::tree_of_arrays;
use crate::status::{Fault, OK, status_of};
use cactus_solver::SolvedTree;
use cut_definitions::{EdgeList, NoMemory};
use edge_arrays::laws::same_mincuts;
use region_sweep::cactus_by_tree;
use std::alloc::Global;
use tree_flattening::count_of_tree;

/// The number of the minimum cuts of a connected graph, by their cactus.
fn count_by_cactus(alloc: Global, list: &EdgeList, found: SolvedTree) -> Result<u64, NoMemory>
    requires enough { 2 ≤ list.now.vertices }
    requires solved { IsTreeSolved list.now found }
    ensures { IfOk result (λ count. HasDifferent count (mincuts list.now)) }
{
    // known by this call: the graph has at most 4,194,304 vertices
    let _n = list.n();
    let SolvedTree { value, tree } = found;
    let solved = cactus_by_tree(alloc, list, value, tree)?;
    let cactus = solved.cactus;
    let count = cactus.count_within(alloc)?;
    Ok(count)
}

/// The number of the minimum cuts of a connected graph, whose tree is given.
/// No cactus is made where that has just the nodes of one.
fn count_by_tree(alloc: Global, list: &EdgeList, found: SolvedTree) -> Result<u64, NoMemory>
    requires enough { 2 ≤ list.now.vertices }
    requires solved { IsTreeSolved list.now found }
    ensures { IfOk result (λ count. HasDifferent count (mincuts list.now)) }
{
    match count_of_tree(alloc, list, &found.tree)? {
        Some(count) => Ok(count),
        None => count_by_cactus(alloc, list, found),
    }
}

/// The number of the minimum cuts of the graph of the arrays.
fn count_of_arrays(alloc: Global, n: u32, us: &[u32], vs: &[u32], ws: &[u64]) -> Result<u64, Fault>
    ensures given { IfOk result (λ count. HasCuts n us.now vs.now ws.now) }
    ensures count { IfOk result (λ count. HasDifferent count (mincuts (given n us.now vs.now ws.now))) }
    ensures reason { IfErr result (λ fault. IsReason fault n us.now vs.now ws.now) }
    ensures known { IfErr result (λ fault. number_of fault ≤ 8) }
{
    same_mincuts();
    let (list, found) = tree_of_arrays(alloc, n, us, vs, ws)?;
    let count = count_by_tree(alloc, &list, found)?;
    Ok(count)
}

/// The number of all minimum cuts of the connected graph with `n` vertices, counted from 0, whose
/// edges the arrays give. None of them is listed for it.
///
/// The status is 0 where there is an answer. It is 8 where the graph is not connected, and
/// else as that of `mincut_raw_value`; the count is then left as it was. Time and memory
/// are those of the cactus.
#[unsafe(no_mangle)]
pub extern "C" fn mincut_raw_count(
    alloc: Global,
    n: u32,
    us: &[u32],
    vs: &[u32],
    ws: &[u64],
    count: &mut u64,
) -> u32
    ensures given { result ≡ 0 → HasCuts n us.now vs.now ws.now }
    ensures ok { result ≡ 0 → HasDifferent count.new (mincuts (given n us.now vs.now ws.now)) }
    ensures left { result ≢ 0 → count.new ≡ count.old }
    ensures fault { result ≢ 0 → TellsFault result n us.now vs.now ws.now }
    ensures known { result ≤ 8 }
{
    match count_of_arrays(alloc, n, us, vs, ws) {
        Ok(number) => {
            *count = number;
            OK
        }
        Err(fault) => status_of(fault),
    }
}
