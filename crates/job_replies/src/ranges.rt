//! The vertices that a job names, some of which may not be in the graph.

ghost use Rattle.std.specs.Prelude.{◌≡◌, IfSome, IsNone, true, false};
ghost use Rattle.job_replies.specs.Jobs.{AreInRange, IsFirstOutside, IsInRange, IsOutside, IsOutsidePair};
ghost use Rattle.cut_definitions.specs.Graph.{IsVertex};

use program_words::{Insertions, Job};

/// Whether a number is a vertex of 1 to n.
fn is_vertex(n: u32, v: u64) -> bool
    ensures yes { result ≡ true → IsVertex n v }
    ensures out { result ≡ false → ¬ IsVertex n v }
{
    1 <= v && v <= n as u64
}

/// The first of two vertices that is not of 1 to n.
fn check_pair(u: u64, v: u64, n: u32) -> Option<u64>
    ensures none { IsNone result → IsVertex n u × IsVertex n v }
    ensures some { IfSome result (IsOutsidePair n u v) }
{
    if !is_vertex(n, u) {
        return Some(u);
    }
    if is_vertex(n, v) { None } else { Some(v) }
}

/// The first vertex of insertions that is not of 1 to n.
fn check_insertions(insertions: &Insertions, n: u32) -> Option<u64>
    ensures none { IsNone result → AreInRange n insertions.now }
    ensures some { IfSome result (IsFirstOutside n insertions.now) }
{
    'insertions: for i in 0..insertions.len() {
        let (u, v, _) = insertions.at(i);
        match check_pair(u, v, n) {
            Some(vertex) => return Some(vertex),
            None => {}
        }
    }
    None
}

/// The first vertex that a job names that is not of 1 to n, if there is one. One step for each
/// vertex.
pub fn first_outside(job: &Job, n: u32) -> Option<u64>
    ensures none { IsNone result → IsInRange job.now n }
    ensures some { IfSome result (IsOutside job.now n) }
{
    match job {
        Job::Part(u, v) => check_pair(*u, *v, n),
        Job::Grow(insertions) => check_insertions(insertions, n),
        _ => None,
    }
}
