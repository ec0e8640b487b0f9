//! The canonical cactus of all minimum cuts, in arrays.

ghost use Rattle.std.specs.Prelude.{◌≡◌, ◌≢◌, ◌≤◌, length};
ghost use Rattle.edge_arrays.specs.Given.{given};
ghost use Rattle.mincut_c.specs.Filled.{CountsCactus, HasRoomBy, HoldsCactus, IsShort};
ghost use Rattle.mincut_c.specs.Statuses.{HasCuts, TellsFault};

use crate::filling::{Bridge, CactusSizes, is_short, put_flat, sizes_of};
use crate::solving::flat_of_arrays;
use crate::status::{NO_ROOM, OK, status_of};
use std::alloc::Global;

/// The canonical cactus of all minimum cuts of the connected graph with `n` vertices, counted from
/// 0, whose edges the arrays give. The sizes tell the value, and how many entries of each array
/// the cactus takes.
///
/// The status is 0 where there is an answer. It is 9 where an array is shorter than its size
/// tells, which is told all the same: never where the arrays have 2n, n, 2n, n and 3n
/// entries; 8 where the graph is not connected; and else as that of `mincut_raw_value`. With
/// another status than 0 the arrays are left as they were, and with another than 0 and 9 the
/// sizes too. Time O(m log m), that of one sweep of flows for the value, and that of one
/// over regions for the cactus.
#[unsafe(no_mangle)]
pub extern "C" fn mincut_raw_cactus(
    alloc: Global,
    n: u32,
    us: &[u32],
    vs: &[u32],
    ws: &[u64],
    sizes: &mut CactusSizes,
    node_starts: &mut [usize],
    vertices: &mut [u32],
    bridges: &mut [Bridge],
    cycle_starts: &mut [usize],
    members: &mut [u64],
) -> u32
    ensures given { result ≡ 0 → HasCuts n us.now vs.now ws.now }
    ensures ok { result ≡ 0 → HoldsCactus (given n us.now vs.now ws.now) sizes.new node_starts.new vertices.new bridges.new cycle_starts.new members.new }
    ensures counts { result ≡ 0 → CountsCactus (given n us.now vs.now ws.now) sizes.new }
    ensures needed { result ≡ 9 → CountsCactus (given n us.now vs.now ws.now) sizes.new }
    ensures short { result ≡ 9 → IsShort sizes.new (length node_starts.old) (length vertices.old) (length bridges.old) (length cycle_starts.old) (length members.old) }
    ensures room { HasRoomBy n (length node_starts.old) (length vertices.old) (length bridges.old) (length cycle_starts.old) (length members.old) → result ≢ 9 }
    ensures sizes_left { result ≢ 0 → result ≢ 9 → sizes.new ≡ sizes.old }
    ensures left { result ≢ 0 → (node_starts.new ≡ node_starts.old) × (vertices.new ≡ vertices.old) × (bridges.new ≡ bridges.old) × (cycle_starts.new ≡ cycle_starts.old) × (members.new ≡ members.old) }
    ensures fault { result ≢ 0 → TellsFault result n us.now vs.now ws.now }
    ensures known { result ≤ 9 }
{
    match flat_of_arrays(alloc, n, us, vs, ws) {
        Ok(found) => {
            let (least, flat) = found;
            *sizes = sizes_of(&flat, least);
            if is_short(
                sizes,
                node_starts.len(),
                vertices.len(),
                bridges.len(),
                cycle_starts.len(),
                members.len(),
            ) {
                return NO_ROOM;
            }
            put_flat(&flat, node_starts, vertices, bridges, cycle_starts, members);
            OK
        }
        Err(fault) => status_of(fault),
    }
}
