//! The most balanced of the cuts that a cactus shows.
//!
//! Each vertex has a mass, an integer of 0 or more and below 2^64. The balance of a side is the
//! lesser of the mass of its vertices and that of all others; contracts see it as `balance`.
//!
//! In the order of entering the tree, each side is one range of the list of all vertices, between
//! two borders of a block. `CutRanges` weighs it in one step. Two ends move along each block, and
//! neither goes back. From each lower end the upper one moves on while the range has less than
//! half of the total mass. Only the range where it stops and the next shorter one can be best,
//! since no longer range has less mass. So the cuts are not visited one by one: a cycle of k nodes
//! has k(k - 1)/2 cuts, and `best` weighs at most 2k of its ranges. It takes time and memory in
//! proportion to the nodes of the cactus and n.
#![tactic(auto)]

mod side_balance;
mod weighed;

pub use cut_definitions::NoMemory;
pub use side_balance::balance_of;
pub use weighed::best;
