//! What halts a search.

ghost use Rattle.std.specs.Prelude.{◌≡◌, ℕ, Bool, true, false};

/// The vertices that halt a search as soon as it finds one.
///
/// Some halt it whenever it goes on; others may halt it only once more is known.
pub trait Halts {
    /// Whether a vertex halts a search.
    ghost halts: { Self → ℕ → Bool };

    /// Whether a vertex is one of those that always halt a search.
    ghost must: { Self → ℕ → Bool };

    /// What has to hold before a vertex is asked about.
    ghost can_ask: { Self → ℕ → Type 0 };

    /// Whether a vertex halts a search. It takes O(1).
    fn halts(&self, v: u32) -> bool
        requires can { can_ask self.now v }
        ensures { result ≡ halts self.now v };

    /// What always halts a search halts it.
    ghost must_halt: { (x : Self) (v : ℕ) → must x v ≡ true → halts x v ≡ true };
}

/// Nothing halts a search.
#[derive(Clone, Copy)]
pub struct NoHalts;

impl Halts for NoHalts {
    ghost halts = { λ h v. false };

    ghost must = { λ h v. false };

    ghost must_halt = { λ h v is. is };

    ghost can_ask = { λ h v. v ≡ v };

    fn halts(&self, _v: u32) -> bool {
        false
    }
}
