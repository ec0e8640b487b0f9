//! Tests of the crates up to the value, through their public calls and on small graphs whose
//! results are known by hand. They cover sets of vertices, lists of edges, sources and sinks; the
//! reader of METIS files; graphs, flows and scans; the shared board and its machine; and the
//! value.
#![tactic(auto)]

#[cfg(test)]
mod accepted;
#[cfg(test)]
mod boards;
#[cfg(test)]
mod bounded_flows;
#[cfg(test)]
mod certificates;
#[cfg(test)]
mod classes;
#[cfg(test)]
mod components;
#[cfg(test)]
mod cores;
#[cfg(test)]
mod faults;
#[cfg(test)]
mod flows;
#[cfg(test)]
mod forests;
#[cfg(test)]
mod graph_calls;
#[cfg(test)]
mod graphs;
#[cfg(test)]
mod kernels;
#[cfg(test)]
mod lists;
#[cfg(test)]
mod long_words;
#[cfg(test)]
mod masses;
#[cfg(test)]
mod narrowing;
#[cfg(test)]
mod pieces;
#[cfg(test)]
mod rounds;
#[cfg(test)]
mod row_pieces;
#[cfg(test)]
mod scans;
#[cfg(test)]
mod sets;
#[cfg(test)]
mod shared_scans;
#[cfg(test)]
mod streams;
#[cfg(test)]
mod threads;
#[cfg(test)]
mod triangle;
#[cfg(test)]
mod values;
#[cfg(test)]
mod workers;
