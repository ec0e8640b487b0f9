//! A flow from a source that grows, with the vertices outside in regions.
//!
//! Each vertex has a label: 0 where it has entered the source, else that of its region. A vertex
//! is fed: that is what it can get from all vertices outside its region, together with what it was
//! brought along arcs inside. So a set inside one region weighs just what its vertices are fed and
//! what can still be carried into it inside the region. A flow into a vertex brings it, along arcs
//! inside its region, what fed vertices have, up to a stop; what it has then bounds all sets
//! inside the region that have the vertex. Vertices that are cut off from a region lose their arcs
//! to the rest, and are fed what these could carry, on both sides.
//!
//! The source that grows is that of Hao and Orlin (1994); what a vertex is fed is its excess, kept
//! as in the preflows of Goldberg and Tarjan (1988).
//!
//! Contracts see a `RegionState`: for each vertex its label and its feed, for each edge
//! what is left, and what the last search found. `IsRegionFlow` says what it is worth, for
//! every set inside a region.
//!
//! What each edge can still carry stands in `residual`, for this flow and all others: one number
//! for each edge, which is what can still go from its lesser end to its greater. It is read for
//! the arcs of rows, and amounts are carried along edges. What sets of vertices let out and hold,
//! and what an amount that is sent along an arc changes of both, is stated here once; `outcome`
//! says what a run of a flow answers.
//!
//! Only `new` takes memory: 8 bytes for each edge and 44 for each vertex, of which 28 are not
//! touched before a search gets that far. A search touches only what it reaches.
#![tactic(auto)]

mod cutting;
pub mod laws;
pub mod outcome;
mod pulling;
pub mod regions;
pub mod residual;
mod searching;
mod task;
mod tree;

pub use outcome::{BestRun, Outcome};
pub use regions::RegionFlow;
