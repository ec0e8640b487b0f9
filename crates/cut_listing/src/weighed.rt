//! The sides of a cactus whose balance by masses is at least a number, found by two ends that move
//! along the borders of its blocks.
//!
//! In the list of the vertices in the order of entering, each side is a range from one border of a
//! block to a later one. As the end moves on, the mass does not fall. So the selected ranges from
//! one border end at adjacent borders, which are a band. From the next border on a range has no
//! more mass, so neither end of the band goes back.

ghost use Rattle.std.specs.Prelude.{◌≡◌, ◌+◌, ◌-◌, ◌<◌, ◌≤◌, ◌^◌, ◌++◌, true, IfErr, IfOk, OnOk, length, map, max};
ghost use Rattle.std.specs.List.{All, filter};
ghost use Rattle.rooted_cactus.specs.Normal.{is_normal};
ghost use Rattle.rooted_cactus.specs.Places.{side_at};
ghost use Rattle.cactus_walk.specs.Repeats.{mark_at, passed_over, ranges_kept};
ghost use Rattle.cut_listing.specs.Bands.{AreEnds, AreShort, is_heavy, ranges_of};
ghost use Rattle.cut_listing.specs.Listings.{IsList, IsRefusal};
ghost use Rattle.vertex_set.specs.Side.{members_of};

use crate::ask::Ask;
use crate::limit::is_too_large;
use crate::list_refusal::ListRefusal;
use crate::sorting::sort_sides;
use cactus_walk::{CutRanges, kept_places};
use cut_definitions::{NoMemory, VertexWeights};
use rooted_cactus::Cactus;
use std::alloc::Global;
use vertex_set::Side;

/// The borders from one on that are before another.
#[derive(Clone, Copy)]
struct Band {
    from: usize,
    to: usize,
}

impl Band {
    /// The number of borders in the band.
    fn len(self) -> usize
        ensures { result ≡ self.to - self.from }
    {
        self.to.saturating_sub(self.from)
    }
}

/// The two ends of the band of a border, from those of the border before it.
fn move_ends(ranges: &CutRanges, least: u64, start: usize, ends: Band) -> Band
    requires start { start < length ranges.now.borders.items }
    requires short { AreShort ranges.now least start ends.from ends.to }
    ensures { AreEnds ranges.now least start result.from result.to }
{
    let least = least as u128;
    let most = ranges.total().saturating_sub(least);
    Band {
        from: ranges.first_end(least, start, ends.from),
        to: ranges.first_end(most + 1, start, ends.to),
    }
}

/// A band without the next border, if the cut to that one is left out.
fn kept_band(repeats: &[bool], start: usize, ends: Band) -> Band
    requires { start < length repeats.now }
    ensures from { result.from ≡ max ends.from (start + 1 + passed_over (mark_at repeats.now start)) }
    ensures to { result.to ≡ ends.to }
{
    let passed = if repeats[start] { 1 } else { 0 };
    Band {
        from: ends.from.max(start + 1 + passed),
        to: ends.to,
    }
}

/// The number of ranges that have the least balance or more.
fn count_bands(ranges: &CutRanges, repeats: &[bool], least: u64) -> u64
    requires repeats { length repeats.now ≡ length ranges.now.borders.items }
    requires few { length (ranges_kept ranges.now.borders.items repeats.now) < 2 ^ 62 }
    ensures { result ≡ length (filter (is_heavy ranges.now least) (ranges_kept ranges.now.borders.items repeats.now)) }
{
    let mut ends = Band { from: 0, to: 0 };
    let mut count: u64 = 0;
    'starts: for start in 0..ranges.borders.len() {
        ends = move_ends(ranges, least, start, ends);
        count += kept_band(repeats, start, ends).len() as u64;
    }
    count
}

/// Appends the sides at the ranges from a border to those of a band.
fn add_sides(
    alloc: Global,
    found: &mut Vec<Side>,
    ranges: &CutRanges,
    start: usize,
    band: Band,
) -> Result<(), NoMemory>
    requires start { start < length ranges.now.borders.items }
    requires band { band.to ≤ length ranges.now.borders.items }
    requires found { All (λ s. s.vertices ≡ length ranges.now.order.items) found.old.items }
    ensures found { OnOk result (All (λ s. s.vertices ≡ length ranges.now.order.items) found.new.items) }
    ensures added { OnOk result (members_of found.new.items ≡ members_of found.old.items ++ map (side_at (length ranges.now.order.items) ranges.now.order.items) (ranges_of ranges.now.borders.items start band.from band.to)) }
{
    'ends: for end in band.from..band.to {
        let side = ranges.side(alloc, ranges.between(start, end))?;
        found.push(side)?;
    }
    Ok(())
}

/// The sides at the ranges that have the least balance or more.
fn gather_bands(
    alloc: Global,
    ranges: &CutRanges,
    repeats: &[bool],
    least: u64,
) -> Result<Vec<Side>, NoMemory>
    requires repeats { length repeats.now ≡ length ranges.now.borders.items }
    ensures over_n { IfOk result (λ v. All (λ s. s.vertices ≡ length ranges.now.order.items) v.items) }
    ensures sides { IfOk result (λ v. members_of v.items ≡ map (side_at (length ranges.now.order.items) ranges.now.order.items) (filter (is_heavy ranges.now least) (ranges_kept ranges.now.borders.items repeats.now))) }
{
    let mut ends = Band { from: 0, to: 0 };
    let mut found = Vec::new(alloc);
    'starts: for start in 0..ranges.borders.len() {
        ends = move_ends(ranges, least, start, ends);
        let band = kept_band(repeats, start, ends);
        add_sides(alloc, &mut found, ranges, start, band)?;
    }
    Ok(found)
}

/// The different sides of the cuts of a cactus whose balance is at least a number, in the order of
/// lists, in which a prefix comes first.
///
/// The cactus is normal. The listing is refused as too large exactly if the number of these sides
/// times n is above 2^30, with the two factors. It is refused otherwise only if it runs out of
/// memory.
///
/// The number is found first, with one step for each node and vertex, so no side is gathered if it
/// is too large or 0. Then c sides take one step more for each node and vertex, and n/64 steps for
/// each side and one for each of its vertices. Sorting them takes O(c log c) comparisons of n/64
/// steps. It takes memory in proportion to the nodes and vertices, and n/8 bytes and a constant
/// for each of these sides.
pub fn list_balanced(
    alloc: Global,
    cactus: &Cactus,
    least: u64,
    weights: &VertexWeights,
) -> Result<Vec<Side>, ListRefusal>
    requires normal { is_normal cactus.now.root ≡ true }
    requires masses { length weights.now ≡ cactus.now.vertices }
    ensures list { IfOk result (λ v. IsList (2 ^ 30) cactus.now.vertices (Ask.Least least weights.entry) cactus.now v.items) }
    ensures refusal { IfErr result (IsRefusal (2 ^ 30) cactus.now.vertices (Ask.Least least weights.entry) cactus.now) }
{
    // known by this call: the cactus has all its vertices
    let _root = cactus.root();
    let n = cactus.n();
    let places = kept_places(alloc, cactus)?;
    let ranges = CutRanges::of(alloc, places.order, places.borders, weights)?;
    let cuts = count_bands(&ranges, &places.repeats, least);
    if is_too_large(cuts, n) {
        return Err(ListRefusal::TooLarge { cuts, n });
    }
    if cuts == 0 {
        return Ok(Vec::new(alloc));
    }
    let mut sides = gather_bands(alloc, &ranges, &places.repeats, least)?;
    sort_sides(&mut sides, n);
    Ok(sides)
}
