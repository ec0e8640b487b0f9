//! The limits of what is accepted.

/// The most vertices of a graph.
pub const MOST_VERTICES: u32 = 4_194_304;

/// The most edges of a graph.
pub const MOST_EDGES: u32 = 16_777_216;

/// The greatest sum of the weights of all edges of a graph.
pub const MOST_WEIGHT: u64 = 1 << 61;

/// The most workers that share the work of a call.
pub const MOST_WORKERS: u32 = 64;
