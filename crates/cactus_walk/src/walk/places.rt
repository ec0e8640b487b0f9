//! The cuts of a cactus as ranges of one list: the vertices in the order of entering, and the
//! borders of the blocks.

ghost use Rattle.std.specs.Prelude.{◌≡◌, ◌↔◌, ◌≤◌, List, ℕ, IfOk, length, map, true};
ghost use Rattle.std.specs.List.{All, Contains, concat};
ghost use Rattle.rooted_cactus.specs.Borders.{ranges_between};
ghost use Rattle.cut_definitions.specs.Members.{AreDifferent};
ghost use Rattle.rooted_cactus.specs.Entered.{entered};
ghost use Rattle.rooted_cactus.specs.Normal.{is_normal};
ghost use Rattle.rooted_cactus.specs.Outlines.{outlined, sizes};
ghost use Rattle.rooted_cactus.specs.Places.{AreOnce, places_from, side_at};
ghost use Rattle.cut_definitions.specs.Graph.{IsVertex};
ghost use Rattle.cactus_walk.specs.Repeats.{ranges_kept};
ghost use Rattle.rooted_cactus.specs.Rooted.{IsCactus, sides_of};
ghost use Rattle.cactus_walk.specs.Walking.{AreBorders, AreChained};

use super::borders::borders_of;
use super::repeats::repeats_of;
use cut_definitions::NoMemory;
use rooted_cactus::{Border, Cactus, InOrder, NodeOutline, in_order, outline_of, sizes_along};
use std::alloc::Global;

/// The vertices of a cactus in an order in which the side of each cut is one range, and the places
/// at which these ranges begin and end.
#[derive(Drop)]
pub struct CutPlaces {
    /// All vertices, in the order in which the tree is entered.
    pub order: Vec<u32>,
    /// The borders of all blocks, in the order of the tree, as places of `order`, counted from 0.
    pub borders: Vec<Border>,
}

/// The vertices of a cactus in the order of entering, the borders of the ranges that are sides,
/// and which of the cuts a walk leaves out.
#[derive(Drop)]
pub struct KeptPlaces {
    /// All vertices, in the order in which the tree is entered.
    pub order: Vec<u32>,
    /// The borders of all blocks, in the order of the tree, as places of `order`, counted from 0.
    pub borders: Vec<Border>,
    /// For each border, whether the cut from it to the next one is left out, since another cut has
    /// its side.
    pub repeats: Vec<bool>,
}

/// A tree laid out in the order of entering: its vertices, its nodes, and the sizes of its
/// subtrees.
#[derive(Drop)]
struct Laid {
    listing: InOrder,
    entries: Vec<NodeOutline>,
    sizes: Vec<usize>,
}

fn lay_out(alloc: Global, cactus: &Cactus) -> Result<Laid, NoMemory>
    ensures cactus { IfOk result (λ l. IsCactus cactus.now.vertices cactus.now.root) }
    ensures vertices { IfOk result (λ l. l.listing.vertices.items ≡ concat (entered cactus.now.root)) }
    ensures places { IfOk result (λ l. l.listing.places.items ≡ places_from 0 (entered cactus.now.root)) }
    ensures entries { IfOk result (λ l. l.entries.items ≡ outlined cactus.now.root) }
    ensures sizes { IfOk result (λ l. l.sizes.items ≡ sizes cactus.now.root) }
{
    let root = cactus.root();
    let expected = cactus.n() as usize;
    let listing = in_order(alloc, root, expected)?;
    let entries = outline_of(alloc, root, expected)?;
    let sizes = sizes_along(alloc, &entries)?;
    Ok(Laid {
        listing,
        entries,
        sizes,
    })
}

/// The places of all cuts of a cactus.
///
/// Each vertex of 1 to n is in the list once. The borders of a block follow one another, and their
/// places do not descend. The sides of the cactus, in the order of the tree, are those at the
/// ranges from each border to each later one of its block. So a side has as many vertices as its
/// range has places. A range can be empty, if nodes have no vertices.
///
/// It takes one step for each node and vertex, in loops, so that a deep tree does not overflow the
/// stack. It takes memory in proportion to the nodes and to n, and fails only if it runs out of
/// memory.
pub fn cut_places(alloc: Global, cactus: &Cactus) -> Result<CutPlaces, NoMemory>
    ensures order { IfOk result (λ p. p.order.items ≡ concat (entered cactus.now.root)) }
    ensures long { IfOk result (λ p. length p.order.items ≡ cactus.now.vertices) }
    ensures vertices { IfOk result (λ p. All (IsVertex cactus.now.vertices) p.order.items) }
    ensures once { IfOk result (λ p. AreOnce cactus.now.vertices p.order.items) }
    ensures borders { IfOk result (λ p. AreBorders (length p.order.items) p.borders.items) }
    ensures chained { IfOk result (λ p. AreChained p.borders.items) }
    ensures sides { IfOk result (λ p. map (side_at cactus.now.vertices p.order.items) (ranges_between p.borders.items) ≡ sides_of cactus.now) }
{
    let laid = lay_out(alloc, cactus)?;
    let borders = borders_of(alloc, &laid.entries, &laid.sizes, &laid.listing.places)?;
    Ok(CutPlaces {
        order: laid.listing.vertices,
        borders,
    })
}

/// The places of the cuts that a walk shows: each side of the cactus, and each once if it is
/// normal.
///
/// It takes the steps and the memory of `cut_places`, and one step and one byte more for each
/// border. It fails only if it runs out of memory.
pub fn kept_places(alloc: Global, cactus: &Cactus) -> Result<KeptPlaces, NoMemory>
    ensures order { IfOk result (λ p. p.order.items ≡ concat (entered cactus.now.root)) }
    ensures long { IfOk result (λ p. length p.order.items ≡ cactus.now.vertices) }
    ensures vertices { IfOk result (λ p. All (IsVertex cactus.now.vertices) p.order.items) }
    ensures once { IfOk result (λ p. AreOnce cactus.now.vertices p.order.items) }
    ensures borders { IfOk result (λ p. AreBorders (length p.order.items) p.borders.items) }
    ensures chained { IfOk result (λ p. AreChained p.borders.items) }
    ensures repeats { IfOk result (λ p. length p.repeats.items ≡ length p.borders.items) }
    ensures sides { IfOk result (λ p. (side : List ℕ) → Contains (map (side_at cactus.now.vertices p.order.items) (ranges_kept p.borders.items p.repeats.items)) side ↔ Contains (sides_of cactus.now) side) }
    ensures few { IfOk result (λ p. length (ranges_kept p.borders.items p.repeats.items) ≤ length (sides_of cactus.now)) }
    ensures different { is_normal cactus.now.root ≡ true → IfOk result (λ p. AreDifferent (map (side_at cactus.now.vertices p.order.items) (ranges_kept p.borders.items p.repeats.items))) }
{
    let laid = lay_out(alloc, cactus)?;
    let borders = borders_of(alloc, &laid.entries, &laid.sizes, &laid.listing.places)?;
    let repeats = repeats_of(alloc, &laid.entries, &laid.sizes, &laid.listing.places)?;
    Ok(KeptPlaces {
        order: laid.listing.vertices,
        borders,
        repeats,
    })
}
