//! The words of the program `mincut`: which command they ask for, and its notices for help and
//! version.
//!
//! `read_words` reads a command by means of `clap`, and `notice_of` finds the notice. This crate
//! knows nothing of graphs.
#![tactic(auto)]

mod command;
mod insertions;
mod line;
mod notice;
mod number;

pub use command::{Command, Job, WordsRefusal, read_words};
pub use insertions::Insertions;
pub use notice::{Notice, notice_of};
