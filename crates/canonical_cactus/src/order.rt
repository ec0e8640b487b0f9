//! Whether the blocks and the cycles of a tree are in order.

ghost use Rattle.std.specs.Prelude.{◌≡◌, ◌&&◌, ◌||◌, ◌==◌, ◌<◌, nat_le, nat_lt, length, map};
ghost use Rattle.std.specs.List.{list_all};
ghost use Rattle.rooted_cactus.specs.Trees.{blocks_in, nodes_in};
ghost use Rattle.canonical_cactus.specs.Canonical.{all_vertices, arranged, arranged_block, ascend, leasts, rises};
ghost use Rattle.canonical_cactus.specs.Standing.{least_in, lesser_of, or_zero};

use rooted_cactus::{Block, Blocks, Children, Node, VertexList};

/// What is known of a part of a tree: its least vertex, if it has any, and whether all in it is in
/// order.
#[derive(Clone, Copy)]
pub struct Standing {
    pub least: Option<u32>,
    pub in_order: bool,
}

/// The smaller of two vertices, or the only one, if there is one.
pub fn lesser(first: Option<u32>, second: Option<u32>) -> Option<u32>
    ensures { result ≡ lesser_of first second }
{
    match first {
        None => second,
        Some(a) => match second {
            None => Some(a),
            Some(b) => Some(a.min(b)),
        },
    }
}

/// The vertex, or 0 if there is none.
pub fn vertex_or_zero(vertex: Option<u32>) -> u32
    ensures { result ≡ or_zero vertex }
{
    match vertex {
        None => 0,
        Some(v) => v,
    }
}

/// The least vertex of a list, if it has any.
pub fn least_vertex(list: &VertexList) -> Option<u32>
    ensures { result ≡ least_in list.now }
{
    let mut least = None;
    'vertices: for i in 0..list.len() {
        least = lesser(least, Some(list.at(i)));
    }
    least
}

/// Whether the vertex at a place is greater than the one before it, if there is one.
pub fn comes_after(place: usize, before: u32, vertex: u32) -> bool
    ensures { result ≡ ((place == 0) || nat_lt before vertex) }
{
    place == 0 || before < vertex
}

/// The first vertex of a row that is gone through: the vertex itself at place 0, and at later
/// places the first one so far.
pub fn first_of(place: usize, first: u32, vertex: u32) -> u32
    ensures zero { place ≡ 0 → result ≡ vertex }
    ensures later { 0 < place → result ≡ first }
{
    if place == 0 { vertex } else { first }
}

/// What is known of a node and all that hangs from it. It takes one step for each node and vertex
/// and no memory, and calls itself once for each level of the tree.
#[cycle(order)]
pub fn node_standing(node: &Node) -> Standing
    ensures least { result.least ≡ least_in (arranged node.now).vertices }
    ensures in_order { result.in_order ≡ (arranged node.now).in_order }
{
    let own = least_vertex(&node.vertices);
    let below = blocks_standing(&node.blocks);
    Standing {
        least: lesser(own, below.least),
        in_order: below.in_order,
    }
}

/// What is known of the blocks of a node, which have to ascend by their least vertices.
#[cycle(order)]
fn blocks_standing(blocks: &Blocks) -> Standing
    ensures least { result.least ≡ least_in (all_vertices (map arranged_block (blocks_in blocks.now))) }
    ensures in_order { result.in_order ≡ (ascend (leasts (map arranged_block (blocks_in blocks.now))) && list_all (λ a. a.in_order) (map arranged_block (blocks_in blocks.now))) }
{
    let mut least = None;
    let mut last = 0;
    let mut ascends = true;
    let mut each = true;
    'each_block: for i in 0..blocks.len() {
        let block = block_standing(blocks.at(i));
        let vertex = vertex_or_zero(block.least);
        ascends &= comes_after(i, last, vertex);
        each &= block.in_order;
        last = vertex;
        least = lesser(least, block.least);
    }
    Standing {
        least,
        in_order: ascends & each,
    }
}

#[cycle(order)]
fn block_standing(block: &Block) -> Standing
    ensures least { result.least ≡ least_in (arranged_block block.now).vertices }
    ensures in_order { result.in_order ≡ (arranged_block block.now).in_order }
{
    match block {
        Block::Bridge(node) => node_standing(node),
        Block::Cycle(nodes) => cycle_standing(nodes),
    }
}

/// What is known of the nodes of a cycle. There have to be three or more of them, the first with a
/// smaller vertex than the last.
#[cycle(order)]
fn cycle_standing(nodes: &Children) -> Standing
    ensures least { result.least ≡ least_in (all_vertices (map arranged (nodes_in nodes.now))) }
    ensures in_order { result.in_order ≡ (nat_le 3 (length (map arranged (nodes_in nodes.now))) && (rises (leasts (map arranged (nodes_in nodes.now))) && list_all (λ a. a.in_order) (map arranged (nodes_in nodes.now)))) }
{
    let mut least = None;
    let mut first = 0;
    let mut last = 0;
    let mut each = true;
    'each_node: for i in 0..nodes.len() {
        let node = node_standing(nodes.at(i));
        last = vertex_or_zero(node.least);
        first = first_of(i, first, last);
        each &= node.in_order;
        least = lesser(least, node.least);
    }
    Standing {
        least,
        in_order: nodes.len() >= 3 && (first < last && each),
    }
}
