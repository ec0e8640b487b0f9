//! Texts so long that several workers make them in pieces.

use crate::runs::printed;
use std::alloc::Global;
use std::test::Fail;
use std::thread::Threads;

/// A ring whose edges have one weight, and one more vertex, which an edge of weight 2 joins to
/// vertex 1.
fn hung_ring(alloc: Global, n: u32, weight: u32) -> Result<String, Fail> {
    let all = n.saturating_add(1);
    let mut text = format!(in alloc; "{all} {all} 1\n2 {weight} {n} {weight} {all} 2\n")?;
    for v in 2..n {
        let before = v - 1;
        let after = v + 1;
        let line = format!(in alloc; "{before} {weight} {after} {weight}\n")?;
        text.push_str(&line)?;
    }
    let last = n.saturating_sub(1);
    let end = format!(in alloc; "{last} {weight} 1 {weight}\n1 2\n")?;
    text.push_str(&end)?;
    Ok(text)
}

/// Whether one worker and three print the same long text of such a graph.
fn is_one_text<R: Threads + Sync>(
    rt: &R,
    alloc: Global,
    job: &str,
    n: u32,
    weight: u32,
) -> Result<bool, Fail> {
    let text = hung_ring(alloc, n, weight)?;
    let alone = printed(rt, alloc, &[job, "--workers", "1"], text.as_bytes())?;
    let several = printed(rt, alloc, &[job, "--workers", "3"], text.as_bytes())?;
    Ok(alone.len() > 1_500_000 && alone == several)
}

/// All vertices of a ring in nodes of their own, and in one node; and a list of sides.
const LONG: &[(&str, u32, u32)] = &[
    ("cactus", 270_000, 1),
    ("cactus", 530_000, 2),
    ("cuts", 150, 1),
];

#[test]
fn workers_make_one_text(rt: HostRuntime) -> Result<(), Fail> {
    for (job, n, weight) in LONG {
        assert!(rt;
            is_one_text(&rt, rt.alloc(), job, *n, *weight)?,
            "{job} {weight}"
        );
    }
    Ok(())
}
