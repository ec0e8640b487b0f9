//! What decides which edges are marked.

/// The bound at which edges are marked, and the slack: with slack 0 only the value is kept, with
/// slack 1 all minimum cuts are.
#[derive(Clone, Copy)]
pub struct Threshold {
    pub bound: u64,
    pub slack: u64,
}
