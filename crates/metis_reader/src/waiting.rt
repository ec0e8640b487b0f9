//! Entries whose smaller neighbour is far away, which wait for their mates until the last row is
//! read.

ghost use Rattle.std.specs.Prelude.{◌≡◌, ◌≢◌, ◌≤◌, ◌<◌, ◌+◌, ◌*◌, ◌/◌, ◌%◌, ◌-◌, ◌^◌, true, ◌++◌, ◌∷◌, [], ℕ, false, IfOk, IsTrue, length, get_or, replicate, vec_capacity};
ghost use Rattle.std.specs.List.{All};
ghost use Rattle.std.specs.List.Sorted.{IsPermutation};
ghost use Rattle.cut_definitions.specs.declared.edge_list.Edge.{Edge};
ghost use Rattle.metis_reader.specs.Meeting.{met_from};
ghost use Rattle.metis_reader.specs.Regions.{entry_at, waiting_from};

use crate::mates::advance;
use cut_definitions::{Edge, NoMemory};
use std::alloc::Global;

/// The number of vertices in a block, and of places in a part of its region.
const BLOCK: usize = 1024;

const ROWS: u32 = 1024;

/// The greatest number of vertices.
const MOST: u32 = 4_194_304;

/// The distance from which on an entry waits. It is more than a block, so the block of the smaller
/// neighbour has ended by then.
const FAR: u32 = 16_384;

/// The number of entries of a block that lead far, with one more at this distance.
#[inline(always)]
pub(crate) fn far_after(far: usize, distance: u32) -> usize
    ensures far { 16384 ≤ distance → result ≡ (far + 1) % 2 ^ 64 }
    ensures near { distance < 16384 → result ≡ far }
{
    if distance >= FAR {
        return far.wrapping_add(1);
    }
    far
}

/// Appends 1,024 empty places.
fn add_places(packed: &mut Vec<u32>)
    requires { length packed.old.items + 1024 ≤ vec_capacity packed.old }
    ensures items { packed.new.items ≡ packed.old.items ++ replicate 1024 0 }
    ensures capacity { vec_capacity packed.new ≡ vec_capacity packed.old }
{
    for _i in 0..1024usize {
        packed.push_reserved(0);
    }
}

/// Appends weights of 1 for as many places, if weights are kept.
fn add_weights(weights: &mut Vec<u64>, are_kept: bool)
    requires { are_kept ≡ true → length weights.old.items + 1024 ≤ vec_capacity weights.old }
    ensures same { (k : ℕ) → get_or weights.new.items k 1 ≡ get_or weights.old.items k 1 }
    ensures length { length weights.new.items ≤ length weights.old.items + 1024 }
    ensures capacity { vec_capacity weights.new ≡ vec_capacity weights.old }
{
    if !are_kept {
        return;
    }
    for _i in 0..1024usize {
        weights.push_reserved(1);
    }
}

/// Writes the weight of the entry at this place, if weights are kept. It returns whether the place
/// now has that weight; without weights it is always 1.
#[inline(always)]
fn write_weight(weights: &mut [u64], place: usize, w: u64) -> bool
    ensures written { IsTrue result → get_or weights.new place 1 ≡ w }
    ensures others { (k : ℕ) → k ≢ place → get_or weights.new k 1 ≡ get_or weights.old k 1 }
{
    if place < weights.len() {
        weights[place] = w;
        return true;
    }
    w == 1
}

/// Puts an entry at a place of the block of its smaller end, if the place is empty, and returns
/// whether it did.
#[inline(always)]
fn put_place(
    owners: &[u32],
    weights: &mut [u64],
    packed: &mut [u32],
    place: usize,
    block: usize,
    entry: Edge,
) -> bool
    requires inside { place < length packed.old }
    requires owned { length packed.old ≤ 1024 * length owners.now }
    requires block { block ≡ (entry.u - 1) / 1024 }
    requires from_one { 1 ≤ entry.u }
    requires rises { entry.u < entry.v }
    requires most { entry.v ≤ 4194304 }
    ensures taken { IsTrue result → IsPermutation (entry ∷ waiting_from 0 owners.now weights.old packed.old) (waiting_from 0 owners.now weights.new packed.new) }
    ensures left { result ≡ false → waiting_from 0 owners.now weights.new packed.new ≡ waiting_from 0 owners.now weights.old packed.old }
{
    if packed[place] != 0 {
        return false;
    }
    if owners[place / BLOCK] as usize != block {
        return false;
    }
    if !write_weight(weights, place, entry.w) {
        return false;
    }
    packed[place] = (entry.u - 1) % ROWS * MOST + (entry.v - 1);
    true
}

/// The entry that has this number at a place.
#[inline(always)]
fn entry_of(owners: &[u32], weights: &[u64], place: usize, packed: u32) -> Edge
    requires owned { place / 1024 < length owners.now }
    requires low { All (λ o. o < 2 ^ 20) owners.now }
    ensures { result ≡ entry_at owners.now weights.now place packed }
{
    let owner = owners[place / BLOCK];
    let u = owner * ROWS + packed / MOST + 1;
    let v = packed % MOST + 1;
    if place < weights.len() {
        let w = weights[place];
        return Edge { u, v, w };
    }
    Edge { u, v, w: 1 }
}

/// Looks for the entry at a place, if there is one, at the cursor of its row. If it is there, the
/// place is emptied. It returns whether the entry is there.
#[inline(always)]
fn meet_place(
    greater: &[Edge],
    owners: &[u32],
    weights: &[u64],
    packed: &mut [u32],
    cursors: &mut [u32],
    place: usize,
) -> bool
    requires few { length greater.now < 2 ^ 32 }
    requires inside { place < length packed.old }
    requires owned { length packed.old ≤ 1024 * length owners.now }
    requires low { All (λ o. o < 2 ^ 20) owners.now }
    ensures moved { IsPermutation (met_from 0 cursors.old greater.now ++ waiting_from 0 owners.now weights.now packed.old) (met_from 0 cursors.new greater.now ++ waiting_from 0 owners.now weights.now packed.new) }
    ensures met { IsTrue result → length (waiting_from 0 owners.now weights.now packed.old) ≡ 1 + length (waiting_from 0 owners.now weights.now packed.new) }
    ensures left { result ≡ false → packed.new ≡ packed.old }
{
    let number = packed[place];
    if number == 0 {
        return false;
    }
    let entry = entry_of(owners, weights, place, number);
    if !advance(greater, entry, cursors) {
        return false;
    }
    packed[place] = 0;
    true
}

/// Reads the rows of the block whose region begins with this part of the places, if one does. Then
/// its entries are met sooner, since what is at their cursors is near. The result means nothing;
/// it only keeps the compiler from leaving out the reads.
#[inline(never)]
fn read_ahead(greater: &[Edge], owners: &[u32], cursors: &[u32], part: usize) -> u32 {
    if part >= owners.len() {
        return 0;
    }
    let owner = owners[part] as usize;
    if part > 0 && owners[part - 1] as usize == owner {
        return 0;
    }
    let row = owner * BLOCK;
    if row >= cursors.len() {
        return 0;
    }
    let end = if row + BLOCK < cursors.len() {
        cursors[row + BLOCK] as usize
    } else {
        greater.len()
    };
    let mut read = 0u32;
    for line in cursors[row] as usize / 4..end / 4 {
        if line * 4 < greater.len() {
            read = read.wrapping_add(greater[line * 4].v);
        }
    }
    read
}

/// Looks for each entry that waits at the cursor of its row, and empties the places of those that
/// are there. It returns how many of the `held` entries are left, and what `read_ahead` returned.
fn meet_waiting(
    greater: &[Edge],
    owners: &[u32],
    weights: &[u64],
    packed: &mut [u32],
    cursors: &mut [u32],
    held: usize,
) -> (usize, u32)
    requires few { length greater.now < 2 ^ 32 }
    requires owned { length packed.old ≤ 1024 * length owners.now }
    requires low { All (λ o. o < 2 ^ 20) owners.now }
    requires held { held ≡ length (waiting_from 0 owners.now weights.now packed.old) }
    ensures moved { IsPermutation (met_from 0 cursors.old greater.now ++ waiting_from 0 owners.now weights.now packed.old) (met_from 0 cursors.new greater.now ++ waiting_from 0 owners.now weights.now packed.new) }
    ensures left { result.0 ≡ length (waiting_from 0 owners.now weights.now packed.new) }
{
    let mut left = held;
    let mut read = 0u32;
    for i in 0..packed.len() {
        if i.is_multiple_of(BLOCK) {
            read = read.wrapping_add(read_ahead(greater, owners, cursors, i / BLOCK));
        }
        if meet_place(greater, owners, weights, packed, cursors, i) {
            left -= 1;
        }
    }
    (left, read)
}

/// Appends the entries of these places.
fn put_back_waiting(owners: &[u32], weights: &[u64], packed: &[u32], lesser: &mut Vec<Edge>)
    requires owned { length packed.now ≤ 1024 * length owners.now }
    requires low { All (λ o. o < 2 ^ 20) owners.now }
    requires room { length lesser.old.items + length (waiting_from 0 owners.now weights.now packed.now) ≤ vec_capacity lesser.old }
    ensures items { lesser.new.items ≡ lesser.old.items ++ waiting_from 0 owners.now weights.now packed.now }
    ensures capacity { vec_capacity lesser.new ≡ vec_capacity lesser.old }
{
    for i in 0..packed.len() {
        let number = packed[i];
        if number != 0 {
            lesser.push_reserved(entry_of(owners, weights, i, number));
        }
    }
}

/// Entries to smaller neighbours far away, which wait for their mates in a region for each block
/// of vertices. So those of a block are met together at the end, while its rows are near. How far
/// is far and where an entry is put decides only the time: what does not fit is not taken.
#[derive(Drop)]
pub struct Waiting {
    // for each place 0, or the number of an entry: the place of its smaller end in the block, and
    // its greater end
    packed: Vec<u32>,
    // the weights of the entries, if edges have weights
    weights: Vec<u64>,
    // for each 1,024 places the block whose entries are there
    owners: Vec<u32>,
    // for each finished block, where its next entry goes
    fills: Vec<usize>,
    // how many entries wait
    held: usize,
    // the greatest number of parts of 1,024 places, and the number of blocks
    parts: usize,
    blocks: usize,
    has_weights: bool,
    // what the reading ahead returned
    read: u32,
    ghost place_room: { 1024 * parts ≤ vec_capacity packed },
    ghost weight_room: { has_weights ≡ true → 1024 * parts ≤ vec_capacity weights },
    ghost owner_room: { parts ≤ vec_capacity owners },
    ghost fill_room: { blocks ≤ vec_capacity fills },
    ghost owned: { length packed.items ≡ 1024 * length owners.items },
    ghost weighed: { length weights.items ≤ length packed.items },
    ghost low: { All (λ o. o < 2 ^ 20) owners.items },
    ghost few_blocks: { blocks ≤ 2 ^ 20 },
    ghost counted: { held ≡ length (waiting_from 0 owners.items weights.items packed.items) },
}

impl Waiting {
    ghost use Rattle.std.specs.Prelude.{◌≡◌, ◌≤◌, ◌<◌, ◌^◌, ◌∷◌, ◌++◌, [], false, IfOk, IsTrue, length};
    ghost use Rattle.std.specs.List.Sorted.{IsPermutation};
    ghost use Rattle.cut_definitions.specs.declared.edge_list.Edge.{Edge};
    ghost use Rattle.metis_reader.specs.Meeting.{met_from};
    ghost use Rattle.metis_reader.specs.Bodies.{waiting_of};

    /// No room for an entry, and no memory.
    pub fn none(alloc: Global) -> Waiting
        ensures { waiting_of result ≡ [] }
    {
        Waiting {
            packed: Vec::new(alloc),
            weights: Vec::new(alloc),
            owners: Vec::new(alloc),
            fills: Vec::new(alloc),
            held: 0,
            parts: 0,
            blocks: 0,
            has_weights: false,
            read: 0,
        }
    }

    /// Memory for the entries of a graph with these numbers of vertices and edges.
    pub fn new(
        alloc: Global,
        vertices: u32,
        edges: u32,
        has_weights: bool,
    ) -> Result<Waiting, NoMemory>
        requires few_vertices { vertices ≤ 4194304 }
        requires few_edges { edges ≤ 16777216 }
        ensures { IfOk result (λ w. waiting_of w ≡ []) }
    {
        let parts = edges as usize / 512 + vertices as usize / BLOCK + 1;
        let blocks = vertices as usize / BLOCK;
        let heavy = if has_weights { parts * BLOCK } else { 0 };
        Ok(Waiting {
            packed: Vec::with_capacity(alloc, parts * BLOCK)?,
            weights: Vec::with_capacity(alloc, heavy)?,
            owners: Vec::with_capacity(alloc, parts)?,
            fills: Vec::with_capacity(alloc, blocks)?,
            held: 0,
            parts,
            blocks,
            has_weights,
            read: 0,
        })
    }

    /// Whether none waits.
    pub fn is_empty(&self) -> bool
        ensures { IsTrue result → waiting_of self.now ≡ [] }
    {
        self.held == 0
    }

    /// Takes an entry, if its ends are far from each other and there is room for it, and returns
    /// whether it did.
    #[inline(always)]
    pub fn take(&mut self, u: u32, v: u32, w: u64) -> bool
        requires from_one { 1 ≤ u }
        requires rises { u < v }
        requires most { v ≤ 4194304 }
        ensures taken { IsTrue result → IsPermutation (record { u = u; v = v; w = w } ∷ waiting_of self.old) (waiting_of self.new) }
        ensures left { result ≡ false → waiting_of self.new ≡ waiting_of self.old }
    {
        if v - u < FAR {
            return false;
        }
        self.take_far(u, v, w)
    }

    /// Takes an entry, if there is room for it in the region of its smaller end's block, and
    /// returns whether it did.
    #[inline(never)]
    fn take_far(&mut self, u: u32, v: u32, w: u64) -> bool
        requires from_one { 1 ≤ u }
        requires rises { u < v }
        requires most { v ≤ 4194304 }
        ensures taken { IsTrue result → IsPermutation (record { u = u; v = v; w = w } ∷ waiting_of self.old) (waiting_of self.new) }
        ensures left { result ≡ false → waiting_of self.new ≡ waiting_of self.old }
    {
        let block = (u - 1) as usize / BLOCK;
        if block >= self.fills.len() {
            return false;
        }
        let place = self.fills[block];
        if place >= self.packed.len() {
            return false;
        }
        let weights = self.weights.as_mut_slice();
        let packed = self.packed.as_mut_slice();
        if !put_place(
            &self.owners,
            weights,
            packed,
            place,
            block,
            Edge { u, v, w },
        ) {
            return false;
        }
        self.fills[block] = place + 1;
        self.held += 1;
        true
    }

    /// Ends a row. `rows` is the number of rows that are ended then, and `far` the number of
    /// entries of their block that lead far. It returns how many entries of the block of the next
    /// row do.
    #[inline(always)]
    pub fn end_row(&mut self, rows: usize, far: usize) -> usize
        ensures { waiting_of self.new ≡ waiting_of self.old }
    {
        if !rows.is_multiple_of(BLOCK) {
            return far;
        }
        self.end_block(far);
        0
    }

    /// Makes a region for a block with `far` entries that lead far, as far as there is room.
    #[inline(never)]
    fn end_block(&mut self, far: usize)
        ensures { waiting_of self.new ≡ waiting_of self.old }
    {
        let block = self.fills.len();
        if block >= self.blocks {
            return;
        }
        self.fills.push_reserved(self.packed.len());
        for _i in 0..far.div_ceil(BLOCK) {
            self.add_part(block as u32);
        }
    }

    /// Adds 1,024 places to the region of this block, if there is room.
    fn add_part(&mut self, block: u32)
        requires { block < 2 ^ 20 }
        ensures same { waiting_of self.new ≡ waiting_of self.old }
    {
        if self.owners.len() >= self.parts {
            return;
        }
        add_places(&mut self.packed);
        add_weights(&mut self.weights, self.has_weights);
        self.owners.push_reserved(block);
    }

    /// Looks for all entries that wait, block by block.
    #[inline(never)]
    pub fn meet(&mut self, greater: &[Edge], cursors: &mut [u32])
        requires few { length greater.now < 2 ^ 32 }
        ensures { IsPermutation (met_from 0 cursors.old greater.now ++ waiting_of self.old) (met_from 0 cursors.new greater.now ++ waiting_of self.new) }
    {
        if self.held == 0 {
            return;
        }
        let packed = self.packed.as_mut_slice();
        let met = meet_waiting(
            greater,
            &self.owners,
            &self.weights,
            packed,
            cursors,
            self.held,
        );
        self.held = met.0;
        self.read = met.1;
    }

    /// Appends the entries that still wait.
    pub fn release(&self, lesser: &mut Vec<Edge>)
        requires { length lesser.old.items + length (waiting_of self.now) ≤ vec_capacity lesser.old }
        ensures items { lesser.new.items ≡ lesser.old.items ++ waiting_of self.now }
        ensures capacity { vec_capacity lesser.new ≡ vec_capacity lesser.old }
    {
        put_back_waiting(&self.owners, &self.weights, &self.packed, lesser);
    }
}
