//! A flat cactus, put into the arrays of a caller.

ghost use Rattle.std.specs.Prelude.{◌≡◌, ◌≤◌, IsTrue, IsFalse, length};
ghost use Rattle.flat_cactus.specs.Flat.{items_in};
ghost use Rattle.mincut_c.specs.Filled.{Begins, BeginsWithBridges, Counts, HasRoom, HoldsCycles, HoldsNodes, IsShort};

use crate::rows::put_from_zero;
use flat_cactus::FlatCactus;

/// A bridge between two nodes, of which the first is nearer to node 0.
#[repr(C)]
#[derive(Clone, Copy)]
pub struct Bridge {
    pub upper: u64,
    pub lower: u64,
}

/// How many entries of each array a cactus takes, and the value.
#[repr(C)]
#[derive(Clone, Copy)]
pub struct CactusSizes {
    pub value: u64,
    pub nodes: usize,
    pub vertices: usize,
    pub bridges: usize,
    pub cycles: usize,
    pub members: usize,
}

/// Copies places to the front of an array.
fn put_places(places: &[usize], out: &mut [usize])
    requires { length places.now ≤ length out.old }
    ensures { Begins places.now out.new }
{
    'places: for k in 0..places.len() {
        out[k] = places[k];
    }
}

/// Copies numbers of nodes to the front of an array.
fn put_members(members: &[u64], out: &mut [u64])
    requires { length members.now ≤ length out.old }
    ensures { Begins members.now out.new }
{
    'members: for k in 0..members.len() {
        out[k] = members[k];
    }
}

/// Copies bridges to the front of an array.
fn put_bridges(bridges: &[(u64, u64)], out: &mut [Bridge])
    requires { length bridges.now ≤ length out.old }
    ensures { BeginsWithBridges bridges.now out.new }
{
    'bridges: for k in 0..bridges.len() {
        let (upper, lower) = bridges[k];
        out[k] = Bridge { upper, lower };
    }
}

/// Whether some array is too short for what the sizes tell.
pub(crate) fn is_short(
    sizes: &CactusSizes,
    node_starts: usize,
    vertices: usize,
    bridges: usize,
    cycle_starts: usize,
    members: usize,
) -> bool
    ensures yes { IsTrue result → IsShort sizes.now node_starts vertices bridges cycle_starts members }
    ensures no { IsFalse result → HasRoom sizes.now node_starts vertices bridges cycle_starts members }
{
    node_starts < sizes.nodes
        || vertices < sizes.vertices
        || bridges < sizes.bridges
        || cycle_starts < sizes.cycles
        || members < sizes.members
}

/// The value, and how many entries of each array a cactus takes.
pub(crate) fn sizes_of(flat: &FlatCactus, least: u64) -> CactusSizes
    ensures value { result.value ≡ least }
    ensures counts { Counts flat.now result }
{
    let nodes = flat.node_lists();
    let (node_places, node_vertices) = nodes;
    let cycles = flat.cycle_lists();
    let (cycle_places, cycle_members) = cycles;
    CactusSizes {
        value: least,
        nodes: node_places.len(),
        vertices: node_vertices.len(),
        bridges: flat.bridges().len(),
        cycles: cycle_places.len(),
        members: cycle_members.len(),
    }
}

/// Puts a cactus into arrays that have the room.
pub(crate) fn put_flat(
    flat: &FlatCactus,
    node_starts: &mut [usize],
    vertices: &mut [u32],
    bridges: &mut [Bridge],
    cycle_starts: &mut [usize],
    members: &mut [u64],
)
    requires for_nodes { length flat.now.nodes ≤ length node_starts.old }
    requires for_vertices { items_in flat.now.nodes ≤ length vertices.old }
    requires for_bridges { length flat.now.bridges ≤ length bridges.old }
    requires for_cycles { length flat.now.cycles ≤ length cycle_starts.old }
    requires for_members { items_in flat.now.cycles ≤ length members.old }
    ensures nodes { HoldsNodes flat.now.nodes (items_in flat.now.nodes) node_starts.new vertices.new }
    ensures bridges { BeginsWithBridges flat.now.bridges bridges.new }
    ensures cycles { HoldsCycles flat.now.cycles (items_in flat.now.cycles) cycle_starts.new members.new }
{
    let nodes = flat.node_lists();
    let (node_places, node_vertices) = nodes;
    let cycles = flat.cycle_lists();
    let (cycle_places, cycle_members) = cycles;
    put_places(node_places, node_starts);
    put_from_zero(node_vertices, vertices);
    put_bridges(flat.bridges(), bridges);
    put_places(cycle_places, cycle_starts);
    put_members(cycle_members, members);
}
