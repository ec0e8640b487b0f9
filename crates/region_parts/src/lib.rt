//! The minimum cuts around a vertex inside its region, as the parts of the region.
//!
//! A flow shows all sets that weigh the value and have the vertex inside its region: they are
//! nested, and part the region. `Splitter` lists these parts from both sides, all but one: it
//! races a search from the vertex against the arcs that can carry more with one along the arcs
//! from the vertices that the outside feeds, and what ends first is the next part from its side;
//! a hub of what is left is searched around in turn. Of `region_fronts`, `Parts` keeps the
//! numbers of the vertices that are listed, and `Fronts` the vertices of each region that an
//! edge joins to its outside.
//!
//! The parts are the chain across an edge of Karzanov and Timofeev (1986) and of Nagamochi, Nakao
//! and Ibaraki (2000), as closed sets of a flow (Picard and Queyranne, 1980).
#![tactic(auto)]

mod between;
mod hub;
mod near;
mod passed;
mod race;
mod region;
mod region_arcs;
mod settling;
mod side;
mod split;
mod splitter;

pub use splitter::Splitter;
