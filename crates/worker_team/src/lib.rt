//! Who does the work of the solvers: the threads of a runtime, or the calling thread alone.
//!
//! The steps that several workers can share are calls of the trait `Team`. So a solver is written
//! once for both, and each call takes one argument in place of a runtime, an allocator and a
//! number of workers. Rounds, in which each worker passes a gate, take a `Crew`. They are for
//! small graphs and for threads alone.
#![tactic(auto)]

mod alone;
mod contracting;
mod crew;
mod team;
mod threaded;

pub use alone::Alone;
pub use contracting::{contract, contracted};
pub use crew::Crew;
pub use team::Team;
pub use threaded::Threaded;
