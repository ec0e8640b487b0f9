//! The value of a graph, by sweeps of flows, by scans, and by rounds that contract safe edges; and
//! its kernel. `value_of_list` takes a list of edges over, and makes it shorter before anything
//! has rows; `lesser_of_list` does so up to a bound.
//!
//! The contractions are those of Padberg and Rinaldi (1990) and of Nagamochi, Ono and Ibaraki
//! (1994), the sweep that of Hao and Orlin (1994). All memory is O(n + m).
#![tactic(auto)]

mod bare;
mod by_list;
mod closing;
mod kept_graph;
mod kernels;
mod narrowing;
mod rounds;
mod scanners;
mod scanning;
mod scans;
mod values;

pub use by_list::{
    ValueWithTies, lesser_of_list, value_by_contraction, value_of_list, value_of_measured,
    value_with_ties,
};
pub use closing::reduce_by_scans;
pub use forest_contraction::{FEW_EDGES, WeightRange};
pub use kept_graph::Kernel;
pub use kernels::{kernel, reduce};
pub use narrowing::{ValueWithKernel, value_with_kernel};
pub use rounds::value;
pub use values::value_by_sweeps;
