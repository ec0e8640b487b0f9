//! Contraction by labels and by marks.

ghost use Rattle.std.specs.Prelude.{◌≡◌, IfOk, length};
ghost use Rattle.cut_definitions.specs.Contraction.{relabel};
ghost use Rattle.cut_definitions.specs.Cuts.{has};
ghost use Rattle.round_contract.specs.Classes.{AreClassesOfMarks};
ghost use Rattle.weighted_graph.specs.ContractionLaws.{IsLabelled};

use crate::team::Team;
use cut_definitions::NoMemory;
use mark_board::Marks;
use round_contract::classes_of_marks;
use weighted_graph::{Graph, Labels};

/// The graph, with rows, on the classes of labels, of which there is one for each vertex. It takes
/// O(m log m) steps, and fails only if it runs out of memory.
pub fn contracted<T: Team>(team: &T, graph: &Graph, labels: &Labels) -> Result<Graph, NoMemory>
    requires ready { T.ready team.now }
    requires labels { length labels.now ≡ graph.now.vertices }
    ensures { IfOk result (λ g. g ≡ relabel graph.now labels.now) }
{
    let list = team.contracted_list(graph, labels)?;
    team.graph(list)
}

/// The graph on the classes of vertices that marked edges join, and the class of each vertex, as
/// from `round_contract::contract`. It takes O(m log m) steps, and fails only if it runs out of
/// memory.
pub fn contract<T: Team>(
    team: &T,
    graph: &Graph,
    marks: &Marks,
) -> Result<(Graph, Labels), NoMemory>
    requires ready { T.ready team.now }
    requires marks { marks.now.edges ≡ length graph.now.edges }
    ensures labels { IfOk result (λ r. IsLabelled graph.now r.1) }
    ensures classes { IfOk result (λ r. AreClassesOfMarks graph.now (has marks.now.marked) r.1) }
    ensures graph { IfOk result (λ r. r.0 ≡ relabel graph.now r.1) }
{
    let labels = classes_of_marks(team.alloc(), graph, marks)?;
    let smaller = contracted(team, graph, &labels)?;
    Ok((smaller, labels))
}
