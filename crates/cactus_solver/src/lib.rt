//! All minimum cuts of a connected graph, as a cactus.
//!
//! `solve` finds the value, contracts what lies in no minimum cut, and has the tree of the minimum
//! cuts of what is left made: read off the graph where that is a tree whose edges all have the
//! value, and else by a sweep over the regions of a flow. Each vertex is put into the node of its
//! class, and the cactus is made of that and brought to its normal form. `solve_at` makes the
//! cactus for a value that is known, and `solve_list` takes a list of edges: it goes by the list
//! where forests make that shorter before a graph has rows, and tells of several components.
//! `tree_of_list` stops before its last step, and answers the tree in arrays, of which
//! `solve_list` makes the cactus. `minimum_cut` finds one minimum cut alone, and `cuts_below` several
//! cuts that weigh less than a bound.
#![tactic(auto)]

mod by_growth;
mod by_list;
mod light_cuts;
mod list_classes;
mod one_cut;
mod reduced;
mod solved_list;
mod solver;
mod sweep_team;

pub use by_growth::tree_by_growth;
pub use by_list::{solve_list, solve_long_list, tree_of_list, tree_of_long_list};
pub use certified_growth::Limits;
pub use light_cuts::cuts_below;
pub use one_cut::minimum_cut;
pub use rooted_cactus::Solved;
pub use solved_list::{Cuts, SolvedList, SolvedTree};
pub use solver::{solve, solve_at, tree_of_cuts};
pub use sweep_team::SweepTeam;
