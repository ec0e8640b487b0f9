//! Why a run of the program `mincut` has no result: the line that it then writes to standard
//! error, and the status with which it ends.
//!
//! A line has room for the longest text, and takes no memory.
#![tactic(auto)]

mod status;
mod stop;

pub use status::Status;
pub use stop::{Line, Stop, line_for, status_for};
