//! One round of marking edges that may be contracted, over a bound that falls.
//!
//! An edge is marked if one of the four local tests of Padberg and Rinaldi (1990) holds. It is
//! also marked if a capped scan shows by a link that every cut that separates its ends reaches the
//! bound and the slack. The scans are those of CAPFOREST, by maximum adjacency (Nagamochi, Ono and
//! Ibaraki, 1994). The sets of vertices that a scan has passed are cuts, so the bound falls to the
//! least weight of these. Workers share the bound and the marks by a board, and no worker waits
//! for another.
#![tactic(auto)]

mod certifying;
mod linking;
mod lowering;
mod one_round;
mod scanning;
mod shares;
mod threshold;
mod working;

pub use linking::mark_links;
pub use lowering::lowered;
pub use one_round::{round, scan_round};
pub use threshold::Threshold;
