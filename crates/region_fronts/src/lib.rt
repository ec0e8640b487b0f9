//! Lists of the vertices of regions, and of the parts that regions are split into.
//!
//! Each vertex has a label. The vertices with the same label above 0 are a region; label 0 means
//! that the vertex is in none. `Fronts` keeps for each region the vertices that an edge joins to
//! another label. `Parts` keeps for each listed vertex the number of its part, and lends the
//! vertices of each part. `Order` says which vertex of a list is the next to enter the source.
#![tactic(auto)]

mod fronts;
mod order;
mod parts;

pub use fronts::{Fronts, open_beside};
pub use order::{Order, order_of_entering};
pub use parts::Parts;
