//! Searches along steps between vertices, which are the open arcs of rows that are lent.
//!
//! `StepArcs` says what the steps are. `walk` divides what is reached from a vertex into parts
//! that no closed set parts, in one pass: the strongly connected components (Gabow, 2000). A set
//! is closed where no step leaves it. A `Search` finds what is reached in the order of its arcs,
//! can be halted by vertices (`Halts`) and taken up again, and `mark_way` marks the way to what
//! it found last. A `Listing` keeps the parts that walks give one after another, and the
//! vertices at their border.
#![tactic(auto)]

mod direction;
mod halts;
mod look;
mod path;
mod path_memory;
mod search;
mod side_listing;
mod step_arcs;
mod walking;
mod way;

pub use direction::Direction;
pub use halts::{Halts, NoHalts};
pub use path_memory::PathMemory;
pub use search::{Reached, Search};
pub use side_listing::{Listing, unmark};
pub use step_arcs::StepArcs;
pub use walking::walk;
pub use way::mark_way;
