//! How much more than the value a vertex is fed before it enters alone.

ghost use Rattle.std.specs.Prelude.{◌≡◌, ◌≤◌, ◌+◌, ◌*◌, ◌-◌, ◌^◌, min};
ghost use Rattle.region_sweep.specs.Surplus.{HasNext};

use region_flow::Outcome;

/// How much more than the value the next vertex is to be fed that enters alone: 1 at first.
///
/// It doubles once as many vertices got it as is wanted, so that few of them need to be fed from
/// far away. Where one cannot get it, all that leads to that vertex was searched in vain. So it is
/// 1 again then, and twice as many are wanted from there on.
#[derive(Clone, Copy)]
pub struct Surplus {
    amount: u64,
    // how many vertices got it since it changed, and how many have to before it doubles
    got: u32,
    wanted: u32,
}

impl Surplus {
    /// The surplus of the first vertex.
    pub fn new() -> Surplus
        ensures amount { result.amount ≡ 1 }
        ensures got { result.got ≡ 0 }
        ensures wanted { result.wanted ≡ 1 }
    {
        Surplus {
            amount: 1,
            got: 0,
            wanted: 1,
        }
    }

    /// What the next vertex is to be fed, for a value.
    pub fn above(self, value: u64) -> u64
        ensures more { value ≤ result }
        ensures sum { result ≡ min (value + self.amount) (2 ^ 64 - 1) }
    {
        value.saturating_add(self.amount)
    }

    /// The surplus of the next vertex, after a flow that was to bring it to one.
    pub fn after(self, outcome: Outcome) -> Surplus
        ensures { HasNext self outcome result }
    {
        match outcome {
            Outcome::Best(_) => self.least_again(),
            Outcome::AtLeast if self.got.saturating_add(1) >= self.wanted => self.doubled(),
            Outcome::AtLeast => Surplus {
                got: self.got.saturating_add(1),
                ..self
            },
        }
    }

    fn doubled(self) -> Surplus
        ensures amount { result.amount ≡ min (self.amount * 2) (2 ^ 64 - 1) }
        ensures got { result.got ≡ 0 }
        ensures wanted { result.wanted ≡ self.wanted }
    {
        Surplus {
            amount: self.amount.saturating_mul(2),
            got: 0,
            ..self
        }
    }

    fn least_again(self) -> Surplus
        ensures amount { result.amount ≡ 1 }
        ensures got { result.got ≡ 0 }
        ensures wanted { result.wanted ≡ min (self.wanted * 2) (2 ^ 32 - 1) }
    {
        Surplus {
            amount: 1,
            got: 0,
            wanted: self.wanted.saturating_mul(2),
        }
    }
}
