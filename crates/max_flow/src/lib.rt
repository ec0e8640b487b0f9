//! Beside the program: the least weight of a cut between two vertices, and all cuts of that
//! weight, by a maximum flow.
//!
//! A [`Flow`] is made once for a graph and then run between any two vertices, each time up to a
//! stop. A run augments the flow along paths of fewest arcs (Edmonds and Karp, 1972) until it
//! reaches the stop or no path is left. If no path is left, the flow is maximum, and its amount is
//! the least weight of a cut between the two vertices (Ford and Fulkerson, 1956). The cuts of that
//! weight are then exactly the sets with the first vertex and without the second that no residual
//! arc leaves.
//!
//! Contracts see a flow as a `FlowState`. It has the residual of each edge and of each arc of each
//! row, the side of the first vertex, and the last run if it returned `Best`. The record
//! `ShowsLeastCuts` says what such a run shows. It holds for every set of vertices, even with both
//! ends or neither. The residuals of the arcs that leave the set add up to its weight. From that
//! the flow is subtracted if the set has the first vertex, and added if it has the second.
//!
//! In a graph of n vertices and m edges a search takes at most O(n + m), and only for what it
//! reaches. A run makes at most O(n m) searches, whatever the weights. Only `new` takes memory: 8
//! bytes for each edge, 8 for each arc and about 36 for each vertex.
#![tactic(auto)]

pub mod flow;
mod push;
mod rows;
mod search;
mod side;

pub use flow::Flow;
pub use region_flow::{BestRun, Outcome};
