//! Listings of the sides of the cuts of a cactus: each different side once, in the order of lists.
//!
//! A `Lister` keeps a test of sides, with the fact that the test selects what is asked for. That
//! is all sides, those that separate two vertices, or those with a least balance of masses.
//! Contracts see a lister as n and what is asked. They see a listing by `IsListing`: it ascends,
//! so it has each side once, and its members are the selected sides of the cuts.
//!
//! All sides are counted from the tree of the cactus, which is normal, and gathered by a walk that
//! runs the test on each. Those of a least balance are bands of the borders of the blocks. Two
//! moving ends count and gather them, in steps for each node and vertex and for what is found.
//! Those that separate two vertices are the sides with balance at least 1 when only these two have
//! mass 1. So these two jobs need no test; `list_balanced` and `list_parting` are called without
//! one. The number is found first. If it times n is above 2^30, the listing is refused with it,
//! before any side is gathered.
//!
//! The module `laws` says that some sides have just one listing. It also says that this is the
//! list of the selected minimum cuts, if the sides of the cactus are the minimum cuts of a graph.
#![tactic(auto)]

mod ask;
pub mod laws;
mod limit;
mod list_refusal;
mod lister;
mod pair;
mod sorting;
mod weighed;

pub use ask::Ask;
pub use list_refusal::ListRefusal;
pub use lister::{Lister, SideTest};
pub use pair::list_parting;
pub use weighed::list_balanced;
