//! The size limit of a listing.

ghost use Rattle.std.specs.Prelude.{◌*◌, ◌<◌, ◌≤◌, ◌^◌};
ghost use Rattle.std.specs.Bool.{MatchBool};

/// The greatest product of the number of sides in a listing and n.
const LARGEST: u64 = 1 << 30;

/// Whether a listing may not have this many sides over n.
pub(crate) fn is_too_large(cuts: u64, n: u32) -> bool
    requires { 1 ≤ n }
    ensures { MatchBool result (2 ^ 30 < cuts * n) (cuts * n ≤ 2 ^ 30) }
{
    cuts > LARGEST / n as u64
}
