//! Beside the program: scans of a graph that take in each turn the vertex with the greatest weight
//! to those before it. They show the last two vertices of a scan, and by phases the value of the
//! graph. The scans of the crate `capped_scan` show lower bounds of cuts, and return the weight of
//! each set that they scanned.
//!
//! The order of such a scan is a maximum adjacency order (Nagamochi and Ibaraki, 1992). The phases
//! are the algorithm of Stoer and Wagner (1997).
#![tactic(auto)]

mod by_phases;
pub mod laws;
mod matrix;
mod merge_pair;
mod pairs;
mod table_scan;

pub use by_phases::plain_value;
pub use capped_scan::{Scan, Scanned};
pub use pairs::last_pair;
pub use table_scan::LastPair;
