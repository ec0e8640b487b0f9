//! A graph whose large regions are solved in parallel.

use cactus_solver::solve;
use cut_definitions::{EdgeList, NoMemory};
use metis_reader::Reader;
use outside::OpenGate;
use std::alloc::Global;
use std::test::Fail;
use std::thread::Threads;
use weighted_graph::{Graph, laws};
use worker_team::Crew;

// Four rings of this many vertices; one vertex of each is in a fifth ring, of four vertices.
const LONG: u32 = 20_001;

/// Feeds a number of up to six digits and a blank.
fn feed_number(reader: &mut Reader, number: u32) {
    for power in [100_000, 10_000, 1_000, 100, 10, 1] {
        let digit = b'0' + (number / power % 10) as u8;
        let _ok = reader.feed(&[digit]).is_ok();
    }
    let _ok = reader.feed(b" ").is_ok();
}

/// Feeds the row of the vertex at a place of a ring.
fn feed_row(reader: &mut Reader, ring: u32, place: u32) {
    if ring > 3 || place >= LONG {
        return;
    }
    let first = ring * LONG + 1;
    feed_number(reader, first + (place + 1) % LONG);
    feed_number(reader, first + (place + LONG - 1) % LONG);
    if place == 0 {
        feed_number(reader, (ring + 1) % 4 * LONG + 1);
        feed_number(reader, (ring + 3) % 4 * LONG + 1);
    }
    let _ok = reader.feed(b"\n").is_ok();
}

/// The edges of the rings.
fn rings(alloc: Global) -> Option<EdgeList> {
    let mut reader = Reader::new(alloc);
    feed_number(&mut reader, 4 * LONG);
    feed_number(&mut reader, 4 * LONG + 4);
    let _ok = reader.feed(b"\n").is_ok();
    for ring in 0..4 {
        for place in 0..LONG {
            feed_row(&mut reader, ring, place);
        }
    }
    match reader.finish() {
        Ok(graph) => Some(graph.edges),
        Err(_) => None,
    }
}

/// Whether threads find the value 2 and a node for each vertex.
fn is_solved<R: Threads + Sync>(
    crew: &Crew<R, OpenGate>,
    list: &EdgeList,
) -> Result<bool, NoMemory> {
    if list.n() < 2 {
        return Ok(false);
    }
    laws::connected_is_one_component();
    let graph = Graph::build(crew.threads.alloc, list)?;
    if graph.components(crew.threads.alloc)? != 1 {
        return Ok(false);
    }
    let solved = solve(crew, &graph)?;
    Ok(solved.value == 2 && solved.cactus.nodes() == 80_004)
}

#[test]
fn large_regions_are_solved_side_by_side(rt: HostRuntime) -> Result<(), Fail> {
    let Some(list) = rings(rt.alloc()) else {
        return Err(Fail::from("no graph"));
    };
    assert!(rt; is_solved(&Crew::new(&rt, rt.alloc(), 1, &OpenGate), &list)?);
    assert!(rt; is_solved(&Crew::new(&rt, rt.alloc(), 4, &OpenGate), &list)?);
    Ok(())
}
