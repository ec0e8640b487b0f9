//! Contraction of a graph by its marked edges.
//!
//! The classes are the vertices that marked edges join, in one step or several. They are found by
//! union-find, edge by edge (Galler and Fischer, 1964). Then the edges are mapped to the classes
//! and sorted once. In a dense graph that becomes little smaller, they are added up along the rows
//! of each class instead. If there are several workers and many edges, several threads do that.
//! With m edges it takes O(m log m), and memory in proportion to n + m.
#![tactic(auto)]

mod classes;
mod contracting;
mod rows;
mod threads;

pub use classes::classes_of_marks;
pub use contracting::contract;
pub use rows::{contracted, contracted_alone, contracted_list};
