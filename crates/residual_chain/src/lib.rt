//! Beside the program: the chain of the minimum cuts that separate the ends of an edge.
//!
//! As sets with one end and without the other, these cuts are nested, so they divide the vertices
//! into parts. The first part, the first two and so on are exactly the cuts. `chain` finds the
//! parts and the runs, which are the longest intervals of inner parts that are themselves minimum
//! cuts. Every other minimum cut is within a part or is an interval of parts in a run. Contracts
//! see a `Chain` as its two ends, the number of its parts, the number of each vertex's part, and
//! the runs.
//!
//! The cuts are the sets that no residual arc of a maximum flow leaves (Picard and Queyranne,
//! 1980). The chain across an edge is a step of the recursion over all minimum cuts (Karzanov and
//! Timofeev, 1986; Nagamochi, Nakao and Ibaraki, 2000). They are found here in O(n + m). One
//! search against the arcs finds the last part. Path-based searches for strongly connected
//! components, which look at each arc once (Gabow, 2000), find those between the first and the
//! last. One pass over the edges finds the runs.
//!
//! The path-based searches are those of `arc_search`, over the arcs of the flow.
#![tactic(auto)]

mod across;
mod chain_of_cuts;
mod open_arcs;
mod parts;
mod run;
mod runs;
mod search;
mod split;
mod weights;

pub use across::chain;
pub use chain_of_cuts::Chain;
pub use run::Run;
