//! Classes of vertices, merged one pair at a time, with their numbers and their count.
//!
//! Contracts say which sets respect the classes, which means that they have all of each class or
//! none. After two vertices are joined, the sets that do so are those that did before and have
//! both or neither. Two vertices are in one class if each such set has both or neither. So no
//! paths are needed to say what several merges join.
//!
//! `Classes` is a union-find structure over the vertices (Galler and Fischer, 1964; Tarjan and van
//! Leeuwen, 1984).
#![tactic(auto)]

mod classes;
mod numbering;

pub use classes::Classes;
