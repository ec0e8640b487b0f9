//! Which way a search goes.

ghost use Rattle.std.specs.Prelude.{◌≡◌, ◌^◌, ◌≤◌};

use weighted_graph::Arc;

/// Whether a search goes along the arcs that can still carry something, or against them.
#[derive(Clone, Copy, Debug, PartialEq, Eq)]
pub enum Direction {
    Along,
    Against,
}

impl Direction {
    ghost use Rattle.arc_search.specs.Directions.{is_open};

    /// Whether a search takes an arc of the row of a vertex,
    /// where the arc can still carry `residual`.
    ///
    /// What the two arcs of an edge can carry adds up to twice its weight, so a search against the
    /// arcs needs no other row.
    pub fn is_open(self, arc: Arc, residual: u64) -> bool
        requires { arc.weight ≤ 2 ^ 61 }
        ensures { result ≡ is_open self arc residual }
    {
        match self {
            Direction::Along => residual > 0,
            Direction::Against => residual < 2 * arc.weight,
        }
    }
}
