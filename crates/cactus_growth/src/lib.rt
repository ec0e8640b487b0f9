//! Growth of a graph by insertions of edges, and what an insertion does to its minimum cuts and to
//! a cactus of them.
//!
//! An insertion adds weight between two vertices, or makes an edge there (`with_edge`, which may
//! be called if `is_within_limits`). If some minimum cut does not separate the two, the value
//! stays, and the minimum cuts are exactly those that do not separate them. If every minimum cut
//! separates them, the value rises. Both are laws of the module `laws`.
//!
//! `grow` does the same to a cactus: the sides that separate the two vertices go, and all others
//! stay. So a caller knows the minimum cuts of the larger graph without solving it, until none is
//! left. The nodes on the way between the two become one. A bridge on the way goes, and a cycle on
//! it is split into two closed walks at that node; one of two edges is a bridge. A cactus that is
//! normal stays normal.
//!
//! `with_edge`, `is_within_limits` and `total_weight` take O(m), and `has_edge` takes O(log m).
//! `grow` looks for the nodes of the two vertices, so it takes a step for each node and vertex. It
//! moves only the nodes and blocks beside the ways to them. All is done by loops, so that a deep
//! cactus does not overflow the call stack.
//!
//! Sources: the cactus, Y. Dinitz, A. Karzanov and M. Lomonosov (1976); what becomes of it if an
//! edge is inserted, Y. Dinitz and J. Westbrook (1998).
#![tactic(auto)]

mod growing;
mod grown;
mod insertion;
pub mod laws;
mod pieces;
mod ways;

pub use grown::{Grown, grow};
pub use insertion::{has_edge, is_within_limits, total_weight, with_edge};
