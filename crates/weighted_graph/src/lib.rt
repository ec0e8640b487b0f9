//! Weighted graphs with a row for each vertex, labels that give each vertex a class, and
//! contraction of the classes.
//!
//! Contracts see a `Graph` as its number of vertices and its ascending list of edges. They see
//! `Labels` as the list of the classes of the vertices 1 to n. A graph is built from its list in a
//! few passes, so that the row of a vertex is one slice. Components are the classes that edges
//! join. Contraction sorts the edges between classes once.
#![tactic(auto)]

mod components;
pub mod graph;
pub mod labels;
pub mod laws;
mod merging;
mod relabel;
mod row_blocks;
pub mod row_index;

pub use graph::{Arc, Graph};
pub use labels::Labels;
pub use merging::{merged_list, sort_by_ends};
pub use relabel::relabel_list;
pub use row_index::RowIndex;
