//! Events of the machine.

ghost use Rattle.std.specs.Prelude.{◌≡◌, [], ◌∷◌, IfOk, length};
ghost use Rattle.scan_core.specs.Machine.{opening_machine};
ghost use Rattle.scan_core.specs.Shown.{Shows};

use crate::triangle::uneven_triangle;
use cut_definitions::NoMemory;
use scan_core::{Core, Event};
use std::alloc::Global;
use vertex_set::Side;
use weighted_graph::Graph;

/// The machine on the uneven triangle, opened with the weight 6 of vertex 1. Its value is 5, and
/// the cut around vertex 3 separates the ends of the edges 1 and 2.
fn open_triangle(alloc: Global, graph: &Graph) -> Result<Core, NoMemory>
    requires { graph.now ≡ record { vertices = 3; edges = record { u = 1; v = 2; w = 5 } ∷ record { u = 1; v = 3; w = 1 } ∷ record { u = 2; v = 3; w = 4 } ∷ [] } }
    ensures { IfOk result (λ core. Shows core (opening_machine graph.now 0 6)) }
{
    Core::open(alloc, graph, 6, 0, 5, [1, 2].as_slice())
}

/// An event of a table, with the members of its side.
#[derive(Clone, Copy)]
enum Turn {
    Load(u32),
    Lower(u32, &'static [u32]),
    Mark(u32, u32),
    Split(u32),
    Join(u32, u32),
    Take(u32, u32),
}

/// A step, whether it is allowed, the bound after it, and what its seat has then seen.
type Step = (Turn, bool, u64, Option<u64>);

// The first mark of edge 2 by seat 2 is refused. The seat saw 6, and the cut around vertex 3, of
// weight 5, separates the ends of the edge. There is no seat 7, and no vertex 4.
const STALE: [Step; 10] = [
    (Turn::Split(1), true, 6, Some(6)),
    (Turn::Load(2), true, 6, Some(6)),
    (Turn::Lower(1, &[3]), true, 5, Some(5)),
    (Turn::Mark(2, 0), true, 5, Some(6)),
    (Turn::Mark(2, 2), false, 5, Some(6)),
    (Turn::Load(2), true, 5, Some(5)),
    (Turn::Mark(2, 2), true, 5, Some(5)),
    (Turn::Load(7), false, 5, None),
    (Turn::Take(1, 4), false, 5, Some(5)),
    (Turn::Take(1, 3), true, 5, Some(5)),
];

// A mark of an edge whose ends the lowered cut separates is refused. So are a step of a seat that
// was joined into another, a seat joined to itself, and a vertex that does not exist.
const JOINED: [Step; 11] = [
    (Turn::Split(1), true, 6, Some(6)),
    (Turn::Split(1), true, 6, Some(6)),
    (Turn::Lower(3, &[1, 2]), true, 5, Some(5)),
    (Turn::Mark(1, 1), false, 5, Some(6)),
    (Turn::Mark(1, 0), true, 5, Some(6)),
    (Turn::Join(1, 3), true, 5, Some(5)),
    (Turn::Mark(3, 0), false, 5, None),
    (Turn::Mark(1, 1), true, 5, Some(5)),
    (Turn::Join(2, 2), false, 5, Some(6)),
    (Turn::Take(2, 4), false, 5, Some(6)),
    (Turn::Take(2, 2), true, 5, Some(6)),
];

/// The side of some of the three vertices.
fn side_of(alloc: Global, members: &[u32]) -> Result<Side, NoMemory> {
    let mut side = Side::empty(alloc, 3)?;
    for v in members {
        if 1 <= *v && *v <= side.n() {
            side.insert(*v);
        }
    }
    Ok(side)
}

fn event_of(alloc: Global, turn: Turn) -> Result<Event, NoMemory> {
    let event = match turn {
        Turn::Load(seat) => Event::Load { seat },
        Turn::Lower(seat, members) => {
            let side = side_of(alloc, members)?;
            Event::Lower { seat, side }
        }
        Turn::Mark(seat, edge) => Event::Mark { seat, edge },
        Turn::Split(seat) => Event::Split { seat },
        Turn::Join(seat, other) => Event::Join { seat, other },
        Turn::Take(seat, vertex) => Event::Take { seat, vertex },
    };
    Ok(event)
}

fn seat_of(turn: Turn) -> u32 {
    match turn {
        Turn::Load(seat) => seat,
        Turn::Lower(seat, _) => seat,
        Turn::Mark(seat, _) => seat,
        Turn::Split(seat) => seat,
        Turn::Join(seat, _) => seat,
        Turn::Take(seat, _) => seat,
    }
}

/// Whether the next step does what the table says.
fn is_step(alloc: Global, core: &mut Core, step: &Step) -> bool {
    let (turn, allowed, bound, seen) = *step;
    let Ok(event) = event_of(alloc, turn) else {
        return false;
    };
    let answer = core.step(&event);
    answer == Ok(allowed) && core.bound() == bound && core.seen(seat_of(turn)) == seen
}

/// Whether the steps of the machine do what the table says.
fn goes(alloc: Global, core: &mut Core, steps: &[Step]) -> bool {
    for step in steps {
        if !is_step(alloc, core, step) {
            return false;
        }
    }
    true
}

fn events_of(alloc: Global, steps: &[Step]) -> Result<Vec<Event>, NoMemory> {
    let mut events = Vec::new(alloc);
    for (turn, _, _, _) in steps {
        let event = event_of(alloc, *turn)?;
        events.push(event)?;
    }
    Ok(events)
}

/// Replays events on the machine as it was opened, and returns how many were allowed.
fn replayed(core: &mut Core, graph: &Graph, events: &[Event]) -> Result<u64, NoMemory>
    requires { Shows core.old (opening_machine graph.now 0 6) }
    ensures { IfOk result (λ _. core.new.graph ≡ graph.now) }
{
    let allowed = core.replay(events)?;
    Ok(allowed)
}

/// Steps from the opening, how many of their events are replayed, and the state after these. It
/// has the number of allowed events, the marked edges, whether vertex 2 is taken, and what seat 2
/// saw last.
struct Told {
    steps: &'static [Step],
    replayed: usize,
    allowed: u64,
    marked: [bool; 3],
    taken: bool,
    seen: u64,
}

/// Whether this is the state of the machine, and the bound is 5.
fn has_left(core: &Core, told: &Told) -> bool
    requires vertices { core.now.graph.vertices ≡ 3 }
    requires edges { length core.now.graph.edges ≡ 3 }
{
    let marked = [core.is_marked(0), core.is_marked(1), core.is_marked(2)];
    core.bound() == 5
        && core.seen(2) == Some(told.seen)
        && marked == told.marked
        && core.is_taken(2) == told.taken
}

/// Whether this is the state after the first events.
fn leaves(alloc: Global, graph: &Graph, told: &Told) -> Result<bool, NoMemory>
    requires { graph.now ≡ record { vertices = 3; edges = record { u = 1; v = 2; w = 5 } ∷ record { u = 1; v = 3; w = 1 } ∷ record { u = 2; v = 3; w = 4 } ∷ [] } }
{
    let mut core = open_triangle(alloc, graph)?;
    let Some(first) = told.steps.get(..told.replayed) else {
        return Ok(false);
    };
    let events = events_of(alloc, first)?;
    let allowed = replayed(&mut core, graph, events.as_slice())?;
    Ok(allowed == told.allowed && has_left(&core, told))
}

/// Whether the steps of the machine do what the table says, and this is the state after the first
/// events.
fn plays(alloc: Global, graph: &Graph, told: &Told) -> Result<bool, NoMemory>
    requires { graph.now ≡ record { vertices = 3; edges = record { u = 1; v = 2; w = 5 } ∷ record { u = 1; v = 3; w = 1 } ∷ record { u = 2; v = 3; w = 4 } ∷ [] } }
{
    let mut core = open_triangle(alloc, graph)?;
    let goes = goes(alloc, &mut core, told.steps);
    Ok(goes && leaves(alloc, graph, told)?)
}

const STALE_TOLD: Told = Told {
    steps: &STALE,
    replayed: 7,
    allowed: 6,
    marked: [true, false, true],
    taken: false,
    seen: 5,
};

const JOINED_TOLD: Told = Told {
    steps: &JOINED,
    replayed: 11,
    allowed: 7,
    marked: [true, true, false],
    taken: true,
    seen: 6,
};

#[test]
fn steps_are_refused_or_taken_and_events_replayed(rt: HostRuntime) -> Result<(), NoMemory> {
    let graph = uneven_triangle(rt.alloc())?;
    let stale = plays(rt.alloc(), &graph, &STALE_TOLD);
    let joined = plays(rt.alloc(), &graph, &JOINED_TOLD);
    assert!(rt; stale == Ok(true) && joined == Ok(true));
    Ok(())
}
