//! The board that the workers of a round share: a bound that falls, marked edges and taken
//! vertices.
//!
//! Each call of `Board` is one step of the machine of `scan_core`, by the seat that is passed to
//! it. It is one atomic operation on a word of a table. Only `split` and `join` are two: a load of
//! the bound, and the operation on the seats. No call waits for another, and none takes memory
//! once the board is open. `Marks` are what a closed board leaves. Contracts see them as the
//! number of edges and the ascending list of the marked ones.
#![tactic(auto)]

mod board;
pub mod laws;
mod marks;
mod rule;
mod seat;
mod words;

pub use board::Board;
pub use marks::Marks;
pub use rule::{Opened, Ruled, View};
pub use seat::BoardSeat;
