//! The value of a graph, by one sweep of a source that grows.
//!
//! One vertex after another enters the source. Before it does, a flow into it tells the least
//! weight of the sets outside the source that have it, up to the least weight of a cut that is
//! known. So once all have entered, that is the value. The order is free; busy vertices that are
//! joined to the source come first, and among the others the one that was joined last, since the
//! flow into it has the shortest way; of those that one vertex joined, first those with heavy
//! edges to it, since little is left for the flow to bring. No cut of a connected graph weighs
//! less than 1, and none less than 2 where all degrees are even; so the sweep ends where it knows
//! of a cut that light, and makes no flow at all where a vertex is one. Nor does it in a dense
//! graph with light edges, where no cut weighs less than a vertex alone (Chartrand, 1966);
//! `value_of_dense` answers for such a graph from the list of edges, without its rows.
//!
//! The sweep is that of Hao and Orlin (1994), without distances. It takes memory for one flow,
//! and for each vertex 5 bytes more. No good bound in n and m is known for its time; a limit
//! on its work can be given.
#![tactic(auto)]

pub mod dense;
mod front;
pub mod lightest;
mod several;
pub mod sweep;

pub use dense::{degree_is_value, degrees_of, least_degree, value_of_dense};
pub use lightest::{LightestCut, lightest_cut_below, lightest_vertex_cut};
pub use several::cuts_below;
pub use sweep::{Swept, least_weight, least_weight_below, least_weight_within};
