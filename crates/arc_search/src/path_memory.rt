//! What path-based searches write to while they run.

ghost use Rattle.std.specs.Prelude.{◌≡◌, IfOk};

use cut_definitions::NoMemory;
use std::alloc::Global;
use std::marker::Model;

/// Memory for path-based searches among the vertices 1 to n, one after another;
/// contracts see it as the number n.
#[derive(Drop)]
pub struct PathMemory {
    // the vertices of the path; the other lists go by their places
    pub(crate) stack: Vec<u32>,

    // the place from which each was reached
    pub(crate) back: Vec<u32>,

    // how many arcs of its row have been looked at
    pub(crate) next: Vec<usize>,

    // where the sets of the path begin
    pub(crate) borders: Vec<u32>,
}

impl Model for PathMemory {
    ghost use Rattle.std.specs.Prelude.{ℕ, length};
    ghost use Rattle.arc_search.specs.Paths.{HasRoom};

    ghost Value = { ℕ };

    ghost view = { λ m. length m.stack.items };

    ghost invariant = { λ m. HasRoom (length m.stack.items) m.back.items m.next.items m.borders.items };
}

impl PathMemory {
    /// Memory for searches among `n` vertices. It takes time and memory O(n);
    /// want of memory is the only refusal.
    pub fn new(alloc: Global, n: u32) -> Result<PathMemory, NoMemory>
        ensures { IfOk result (λ m. m ≡ n) }
    {
        let n = n as usize;
        Ok(PathMemory {
            stack: vec![in alloc; 0; n]?,
            back: vec![in alloc; 0; n]?,
            next: vec![in alloc; 0; n]?,
            borders: vec![in alloc; 0; n]?,
        })
    }
}
