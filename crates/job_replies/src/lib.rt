//! What the program `mincut` replies for a graph: the text of each job, why it may have none, and
//! how it is written.
//!
//! The definitions and their laws are here, and all that a run does before and after the solver.
//! That is the intake, which reads a graph, the vertices that a job names, the limits of
//! insertions, and the way to what is written. That way begins with a solved graph, a graph in
//! several components, or the steps of a growth. A graph is solved above this crate, which needs
//! nothing of the solver but `rooted_cactus::Solved`. So all of this is proved beside the solver.
#![tactic(auto)]

mod apart;
mod asks;
mod components;
mod cuts;
mod ending;
mod facts;
mod growth;
mod intake;
pub mod laws;
mod limits;
mod lines;
mod ranges;
mod reply;
mod telling;

pub use apart::apart_reply;
pub use cuts::{cuts_reply, number_reply};
pub use ending::finish;
pub use facts::{facts_reply, made_for};
pub use growth::{Growing, apart_growth, grown_reply, step_for};
pub use intake::take_in;
pub use lines::{no_cut, value_text};
pub use ranges::first_outside;
pub use reply::Reply;
pub use telling::notice_reply;
