//! Marks by the links of a scan.

ghost use Rattle.std.specs.Prelude.{◌≡◌, ◌+◌, ◌≤◌, ◌^◌, true, false, length};
ghost use Rattle.cut_definitions.specs.Cuts.{has};
ghost use Rattle.weighted_graph.specs.Marks.{MarksAreSafe};
ghost use Rattle.capped_scan.specs.Scan.{StandsFor};
ghost use Rattle.round_workers.specs.Round.{AreKept, IsLatest, LinksAreBelow, SomeIsMarked};

use capped_scan::Scan;
use mark_board::Marks;
use weighted_graph::Graph;

/// Marks the edges from the vertex scanned last to those whose link reaches the sum of the bound
/// and the slack. It returns whether there is one, and takes one step for each arc of the vertex.
pub fn mark_links(
    graph: &Graph,
    scan: &Scan,
    vertex: u32,
    bound: u64,
    slack: u64,
    marks: &mut Marks,
) -> bool
    requires stands { StandsFor scan.now graph.now }
    requires latest { IsLatest scan.now vertex }
    requires from_one { 1 ≤ vertex }
    requires to_n { vertex ≤ graph.now.vertices }
    requires bound { bound ≤ 2 ^ 62 }
    requires slack { slack ≤ 1 }
    requires marks { marks.old.edges ≡ length graph.now.edges }
    requires safe { MarksAreSafe graph.now (has marks.old.marked) bound slack }
    ensures edges { marks.new.edges ≡ marks.old.edges }
    ensures kept { AreKept marks.old marks.new }
    ensures safe { MarksAreSafe graph.now (has marks.new.marked) bound slack }
    ensures some { result ≡ true → SomeIsMarked marks.new }
    ensures below { result ≡ false → LinksAreBelow graph.now scan.now vertex (bound + slack) }
{
    let mut some = false;
    for arc in graph.row(vertex) {
        if scan.link(graph, arc.to) >= bound + slack {
            marks.set(arc.edge as usize);
            some = true;
        }
    }
    some
}
