//! The text of an augmentation, line by line through one page.

ghost use Rattle.std.specs.Prelude.{◌++◌};
ghost use Rattle.std.specs.List.{flat_map};
ghost use Rattle.answer_pages.specs.Puts.{Puts};
ghost use Rattle.answer_pages.specs.Augmenting.{edge_line, set_line, augment_text};

use crate::page::Page;
use crate::printing::put_line;
use crate::text::Text;
use edge_augment::Plan;
use outside::{Sink, SinkFailed};

/// Puts the lines of the new edges.
fn put_edges<K: Sink>(page: &mut Page, sink: &mut K, edges: &[(u32, u32)]) -> Result<(), SinkFailed>
    ensures { Puts (page.old ++ flat_map edge_line edges.now) (K.taken sink.old) (K.taken sink.new) (K.faults sink.old) (K.faults sink.new) page.new result }
{
    'each_edge: for i in 0..edges.len() {
        let (lesser, greater) = edges[i];
        put_line(page, sink, b"edge", &[lesser, greater])?;
    }
    Ok(())
}

/// Puts the lines of the sets.
fn put_sets<K: Sink>(page: &mut Page, sink: &mut K, plan: &Plan) -> Result<(), SinkFailed>
    ensures { Puts (page.old ++ flat_map set_line plan.now.sets) (K.taken sink.old) (K.taken sink.new) (K.faults sink.old) (K.faults sink.new) page.new result }
{
    'each_set: for i in 0..plan.sets() {
        put_line(page, sink, b"set", plan.set(i))?;
    }
    Ok(())
}

/// The text of an augmentation: the value of the graph, and the plan. After the value come the
/// number of the new edges, the new edges, the number of the sets, and the sets, each edge and set
/// on a line.
#[derive(Clone, Copy, Drop)]
pub struct AugmentText<'a>(pub u64, pub &'a Plan);

impl Text for AugmentText<'_> {
    ghost bytes = { λ t. augment_text t.0 t.1.now };

    fn put<K: Sink>(self, page: &mut Page, sink: &mut K) -> Result<(), SinkFailed> {
        let AugmentText(value, plan) = self;
        let edges = plan.edges();
        put_line(page, sink, b"value", &[value as u128])?;
        put_line(page, sink, b"edges", &[edges.len() as u128])?;
        put_edges(page, sink, edges)?;
        put_line(page, sink, b"sets", &[plan.sets() as u128])?;
        put_sets(page, sink, plan)
    }
}
