//! The texts of answers that are too long to be held in memory: the cactus, listings of cuts,
//! augmentations and growths, written line by line through pages of memory.
//!
//! A text of each kind is a `Text`, and `print_text` writes any of them to a sink. So what is
//! promised of all texts is said once. All memory is taken before the first byte: one `Page` of 32
//! KiB that is written out whenever it is full. `print` also takes memory for the flat cactus. The
//! text of a cactus has a line for each node, bridge and cycle. It is defined over the flat
//! cactus, as lines that follow one another. Numbers are printed by the crate `itoa`. The texts
//! need the sides, the plan or the cactus that they write, and no solver.
//!
//! If the text of a cactus or of a listing is long, several workers make it in parallel (`Crew`).
//! Each makes a piece of the lines in a page of its own, and the pieces are written in their order
//! (`pieces`). All lines of one kind are known by their numbers (`Lines`), so a piece is made
//! without what comes before it.
#![tactic(auto)]

mod augment_pages;
mod growth_pages;
mod numbered_lines;
mod page;
mod pages;
mod pieces;
mod printing;
mod text;

pub use augment_pages::AugmentText;
pub use growth_pages::{GrowthText, Step};
pub use page::Page;
pub use pages::{BalancedText, ListingText};
pub use pieces::Crew;
pub use printing::{CactusText, print, print_flat};
pub use text::{PrintRefusal, Text, print_text};
