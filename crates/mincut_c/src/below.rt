//! The value where it is below a bound.

ghost use Rattle.std.specs.Prelude.{◌≡◌, ◌≢◌, ◌≤◌, min};
ghost use Rattle.cut_definitions.specs.Cuts.{value};
ghost use Rattle.edge_arrays.specs.Given.{given};
ghost use Rattle.mincut_c.specs.Statuses.{HasCuts, TellsFault};

use crate::status::{OK, status_of};
use crate::values::lesser_of_arrays;
use std::alloc::Global;

/// The lesser of a bound and the least weight of a cut of the graph with `n` vertices, counted
/// from 0, whose edges the arrays give. Flows end at the bound, so a bound far below the value saves
/// some of them; else it costs what the value costs.
///
/// The statuses are those of `mincut_raw_value`.
#[unsafe(no_mangle)]
pub extern "C" fn mincut_raw_value_below(
    alloc: Global,
    n: u32,
    us: &[u32],
    vs: &[u32],
    ws: &[u64],
    bound: u64,
    least: &mut u64,
) -> u32
    ensures given { result ≡ 0 → HasCuts n us.now vs.now ws.now }
    ensures ok { result ≡ 0 → least.new ≡ min bound (value (given n us.now vs.now ws.now)) }
    ensures left { result ≢ 0 → least.new ≡ least.old }
    ensures fault { result ≢ 0 → TellsFault result n us.now vs.now ws.now }
    ensures known { result ≤ 7 }
{
    match lesser_of_arrays(alloc, n, us, vs, ws, bound) {
        Ok(weight) => {
            *least = weight;
            OK
        }
        Err(fault) => status_of(fault),
    }
}
