//! The machine of a board that workers share: a bound that falls, marked edges and taken vertices.
//!
//! It has no words and no threads. A seat represents a worker, and each step is made by a seat.
//! The specs say what a state is, which steps are allowed, what each step does, and which facts
//! every step keeps. `Core` is the machine as a value, which tests run.
#![tactic(auto)]

mod event;
pub mod laws;
mod played;

pub use event::Event;
pub use played::{Core, CoreSeat};
