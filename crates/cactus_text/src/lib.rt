//! Beside the program: the text of a cactus, a line for each node, bridge and cycle.
//!
//! `read` reads such a text, and refuses exactly what states no cactus, with the number of the
//! line. A law says that what was printed is read back (`laws`). `print` and `print_flat` write
//! it, by means of a `Page`.
#![tactic(auto)]

pub mod laws;
mod reading;
mod scan;
mod sets;
mod tree;

pub use answer_pages::{Page, PrintRefusal, print, print_flat};
pub use reading::{CactusFile, TextRefusal, read};
