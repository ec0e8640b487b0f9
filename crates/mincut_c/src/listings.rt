//! A list of minimum cuts, put into the bytes of a caller.

ghost use Rattle.std.specs.Prelude.{ℕ, List, ◌≡◌, ◌≢◌, ◌⊎◌, ◌*◌, ◌<◌, ◌≤◌, ◌^◌, IfOk, length};
ghost use Rattle.std.specs.List.{All};
ghost use Rattle.mincut_c.specs.Listed.{AreListed, HoldsRows, LackRoom};
ghost use Rattle.mincut_c.specs.Rows.{IsLeftFrom};

use crate::rows::put_rows;
use crate::status::{NO_ROOM, OK, OUT_OF_MEMORY, TOO_MANY_SIDES};
use cut_listing::ListRefusal;
use vertex_set::Side;

/// The value, and how many sides a list has.
#[repr(C)]
#[derive(Clone, Copy)]
pub struct Listing {
    pub value: u64,
    pub sides: u64,
}

/// Puts the sides of a list over n into bytes where there is room for all of them, and else none.
/// It tells how many they are, but where memory was wanting.
pub(crate) fn put_listing(
    listed: Result<Vec<Side>, ListRefusal>,
    n: u32,
    value: u64,
    listing: &mut Listing,
    inside: &mut [u8],
) -> u32
    requires over_n { IfOk listed (λ v. All (λ s. s.vertices ≡ n) v.items) }
    requires few { IfOk listed (λ v. length v.items * n ≤ 2 ^ 30) }
    ensures rows { (cuts : List (List ℕ)) → AreListed n cuts listed → result ≡ 0 → HoldsRows n cuts inside.new }
    ensures short { (cuts : List (List ℕ)) → AreListed n cuts listed → result ≡ 9 → LackRoom n cuts (length inside.old) }
    ensures large { (cuts : List (List ℕ)) → AreListed n cuts listed → result ≡ 11 → 2 ^ 30 < length cuts * n }
    ensures number { (cuts : List (List ℕ)) → AreListed n cuts listed → result ≢ 2 → listing.new.sides ≡ length cuts }
    ensures value { result ≢ 2 → listing.new.value ≡ value }
    ensures behind { result ≡ 0 → IsLeftFrom (listing.new.sides * n) inside.old inside.new }
    ensures listing_left { result ≡ 2 → listing.new ≡ listing.old }
    ensures left { result ≢ 0 → inside.new ≡ inside.old }
    ensures known { (result ≡ 0) ⊎ ((result ≡ 2) ⊎ ((result ≡ 9) ⊎ (result ≡ 11))) }
{
    match listed {
        Ok(sides) => {
            *listing = Listing {
                value,
                sides: sides.len() as u64,
            };
            if inside.len() < sides.len() * n as usize {
                return NO_ROOM;
            }
            put_rows(&sides, n, inside);
            OK
        }
        Err(ListRefusal::TooLarge { cuts, n: _ }) => {
            *listing = Listing { value, sides: cuts };
            TOO_MANY_SIDES
        }
        Err(ListRefusal::NoMemory) => OUT_OF_MEMORY,
    }
}
