//! How much work may go into a set that grows.

/// Where the work on sets ends, and what is worth a set of its own.
/// No promise rests on any of these numbers.
#[derive(Clone, Copy)]
pub struct Limits {
    /// How many ranges there are at most: each has a flow of its own, in proportion to n + m.
    pub most_ranges: u32,

    /// How many vertices a range has at least; a graph has twice as many.
    pub least_range: u32,

    /// How many edges join ranges or lead far away at most, for each 1,000 vertices.
    pub most_across: u64,

    /// How many searches feed one vertex, each time it is tried. The first goes along rows of some
    /// 32 arcs, and each next one four times as far.
    pub searches: u32,

    /// From how many vertices a search looks at most that tells a leaf or a pair.
    pub most_vertices: usize,

    /// How often a vertex is tried.
    pub most_tries: u8,

    /// After so many tries the work on a set ends once fewer than a quarter
    /// of them let a vertex come.
    pub first_tries: u32,
}

/// How many vertices were tried for a set, each time counted. Nothing is promised of it.
#[derive(Clone, Copy)]
pub(crate) struct Effort {
    tried: u32,
}

impl Effort {
    /// No vertex was tried yet.
    pub(crate) fn new() -> Effort {
        Effort { tried: 0 }
    }

    /// One more vertex was tried.
    pub(crate) fn next(self) -> Effort {
        Effort {
            tried: self.tried.saturating_add(1),
        }
    }

    /// Whether the work is in vain, when so many vertices have come.
    pub(crate) fn is_vain(self, count: u32, limits: Limits) -> bool {
        self.tried >= limits.first_tries && count < self.tried / 4
    }
}
