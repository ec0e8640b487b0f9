//! Threads that pass a gate.

ghost use Rattle.std.specs.Prelude.{◌≡◌};

use crate::threaded::Threaded;
use std::alloc::Global;

/// Threads of a runtime, and the gate that each passes before its first step of a round.
#[derive(Clone, Copy)]
pub struct Crew<'a, R, G> {
    pub threads: Threaded<'a, R>,
    pub gate: &'a G,
}

impl<'a, R, G> Crew<'a, R, G> {
    /// A crew of `workers` threads of a runtime, with the gate that each passes.
    pub fn new(rt: &'a R, alloc: Global, workers: u32, gate: &'a G) -> Crew<'a, R, G>
        ensures runtime { result.threads.rt.now ≡ rt.now }
        ensures workers { result.threads.workers ≡ workers }
        ensures gate { result.gate.now ≡ gate.now }
    {
        Crew {
            threads: Threaded { rt, alloc, workers },
            gate,
        }
    }
}
