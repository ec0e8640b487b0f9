//! The tree of the minimum cuts of a graph whose value is known,
//! by a sweep over the regions of a flow, and its cactus.
//!
//! Vertex 1 has entered the source, and all others are one region, in the root of a tree. A vertex
//! that an edge joins to the outside of its region is the next to enter. Before it does, the sets
//! around it inside its region that weigh the value are found, and part the region: each part gets
//! a node of its own in the tree, over a bridge or in a cycle, and a region of its own, and the
//! part that is not listed keeps the region. At the end all vertices have entered, and the sides
//! of the tree are the minimum cuts. The graph of a part is built only where several workers are
//! to share the work: of two or more large parts that are listed at once each is then made a graph
//! in which one vertex stands for all else, these are solved side by side, and their trees are
//! grafted on the tree. The source that grows is that of Hao and Orlin (1994).
//!
//! `cactus_by_tree` makes the cactus of the tree and brings it to its normal form; the solver
//! goes by it with any number of workers. `solve_alone` has the tree made by one worker, without
//! a runtime and a thread: read off the graph where that is a tree whose edges all have the
//! value, and else by the sweep.
#![tactic(auto)]

mod across;
mod alone;
mod at_amount;
mod finishing;
mod parted_region;
mod regroup;
mod shares;
mod sharing;
mod supply;
mod surplus;
mod sweep;
mod weights;

pub use alone::solve_alone;
pub use at_amount::tree_at_amount;
pub use finishing::cactus_by_tree;
pub use sweep::{tree_by_workers, tree_of};
