//! All that the program `mincut` does, over any source and sinks: its words, its jobs, and what it
//! writes.
//!
//! `run` does all of it; the program itself passes its own words and streams. `read_words` and the
//! laws of the jobs are exported again.
#![tactic(auto)]

mod answer;
mod cactus;
mod growth;
mod program;
mod solving;
mod trial;

pub use job_replies::laws;
pub use program::run;
pub use program_words::{Command, Insertions, Job, WordsRefusal, read_words};
pub use stop_lines::Status;
