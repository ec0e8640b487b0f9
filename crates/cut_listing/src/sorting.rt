//! Sorting sides.

ghost use Rattle.std.specs.Prelude.{◌≡◌};
ghost use Rattle.std.specs.List.{All};
ghost use Rattle.cut_definitions.specs.Members.{AreDifferent};
ghost use Rattle.cut_listing.specs.Listings.{different};
ghost use Rattle.vertex_set.specs.Side.{members_of};

use vertex_set::Side;

/// Sorts different sides over one n. It takes no memory.
pub(crate) fn sort_sides(sides: &mut Vec<Side>, n: u32)
    requires over_n { All (λ s. s.vertices ≡ n) sides.old.items }
    requires different { AreDifferent (members_of sides.old.items) }
    ensures over_n { All (λ s. s.vertices ≡ n) sides.new.items }
    ensures listing { members_of sides.new.items ≡ different (members_of sides.old.items) }
{
    sides.sort_unstable_by(|side, other| side.compare(other));
}
