//! Listings of the sides of a cactus.

ghost use Rattle.std.specs.Prelude.{◌≡◌, ◌≤◌, IfOk, length};
ghost use Rattle.std.specs.List.{All};
ghost use Rattle.cut_listing.specs.Asks.{IsAskWithin};
ghost use Rattle.cut_listing.specs.declared.ask.Ask.TheVariants.{Parting};

use crate::cactuses::has_exactly;
use crate::trees::{ONE_NODE, ONE_RING, Sketch, TWO_RINGS, cactus_of};
use balanced_cut::balance_of;
use cactus_tree::Cactus;
use component_cuts::Components;
use cut_definitions::{Edge, EdgeList, NoMemory, VertexWeights};
use cut_listing::{Ask, Lister};
use std::alloc::Global;
use std::test::Fail;
use vertex_set::Side;

/// Whether the side at a place has these vertices and no other.
fn has_at(sides: &[Side], at: usize, vertices: &[u32]) -> bool {
    at < sides.len() && has_exactly(&sides[at], vertices)
}

/// The sides that a lister lets through.
fn list_by(alloc: Global, cactus: &Cactus, lister: &Lister) -> Result<Vec<Side>, Fail>
    requires n { cactus.now.vertices ≡ lister.now.n }
    requires few { cactus.now.vertices ≤ 4194304 }
{
    if !cactus.is_normal() {
        return Err(Fail::from("not normal"));
    }
    match lister.list(alloc, cactus) {
        Ok(sides) => Ok(sides),
        Err(_) => Err(Fail::from("no listing")),
    }
}

/// All sides.
fn listed_all(alloc: Global, cactus: &Cactus) -> Result<Vec<Side>, Fail>
    requires { cactus.now.vertices ≤ 4194304 }
{
    let keep = Box::new(alloc, |_: &Side| true)?;
    let lister = Lister::new(cactus.n(), Ask::All, keep);
    list_by(alloc, cactus, &lister)
}

/// The sides that separate two vertices, by a closure that tests it.
fn listed_parting(alloc: Global, cactus: &Cactus, u: u32, v: u32) -> Result<Vec<Side>, Fail>
    requires ask { IsAskWithin cactus.now.vertices (Parting u v) }
    requires few { cactus.now.vertices ≤ 4194304 }
{
    let keep = Box::new(
        alloc,
        move |side: &Side|
            requires { IsAskWithin side.now.vertices (Parting u v) }
        { side.has(u) != side.has(v) },
    )?;
    let lister = Lister::new(cactus.n(), Ask::Parting(u, v), keep);
    list_by(alloc, cactus, &lister)
}

/// The graph of the edges 1-2 and 3-4.
fn two_pairs(alloc: Global) -> Result<EdgeList, NoMemory>
    ensures { IfOk result (λ g. g.vertices ≡ 4) }
{
    let mut graph = EdgeList::new(alloc, 4);
    graph.push(Edge { u: 1, v: 2, w: 1 })?;
    graph.push(Edge { u: 3, v: 4, w: 1 })?;
    Ok(graph)
}

/// The minimum cuts of a graph in two, three or four components, and no cuts for any other graph.
fn unions_of(alloc: Global, graph: &EdgeList) -> Result<Vec<Side>, NoMemory>
    requires { graph.now.vertices ≤ 4 }
    ensures { IfOk result (λ v. All (λ s. s.vertices ≡ graph.now.vertices) v.items) }
{
    let parts = Components::of_list(alloc, graph)?;
    if parts.len() < 2 || parts.len() > 4 {
        return Ok(Vec::new(alloc));
    }
    parts.sides(alloc)
}

/// The minimum cuts of a graph in several components that separate two vertices, selected by a
/// closure.
fn selected_parting(alloc: Global, graph: &EdgeList, u: u32, v: u32) -> Result<Vec<Side>, NoMemory>
    requires few { graph.now.vertices ≤ 4 }
    requires ask { IsAskWithin graph.now.vertices (Parting u v) }
{
    let unions = unions_of(alloc, graph)?;
    let keep = Box::new(
        alloc,
        move |side: &Side|
            requires { IsAskWithin side.now.vertices (Parting u v) }
        { side.has(u) != side.has(v) },
    )?;
    let lister = Lister::new(graph.n(), Ask::Parting(u, v), keep);
    Ok(lister.select(unions))
}

/// The sides of a least balance, by a closure that has its own copy of the weights.
fn listed_least(
    alloc: Global,
    cactus: &Cactus,
    least: u64,
    weights: &VertexWeights,
    own: VertexWeights,
) -> Result<Vec<Side>, Fail>
    requires same { own ≡ weights.now }
    requires masses { length weights.now ≡ cactus.now.vertices }
    requires few { cactus.now.vertices ≤ 4194304 }
{
    let keep = Box::new(
        alloc,
        move |side: &Side|
            requires { length own ≡ side.now.vertices }
        { balance_of(side, &own) >= least as u128 },
    )?;
    let lister = Lister::new(cactus.n(), Ask::Least(least, weights), keep);
    list_by(alloc, cactus, &lister)
}

/// Whether the sides are these lists, in this order.
fn are_listed(sides: &[Side], lists: &[&[u32]]) -> bool {
    for i in 0..lists.len() {
        if !has_at(sides, i, lists[i]) {
            return false;
        }
    }
    sides.len() == lists.len()
}

/// Whether the sides of the cactus that separate 2 and 4 are these, in this order.
fn parts(alloc: Global, cactus: &Cactus, lists: &[&[u32]]) -> Result<bool, Fail> {
    if cactus.n() != 4 {
        return Ok(false);
    }
    let sides = listed_parting(alloc, cactus, 2, 4)?;
    Ok(are_listed(&sides, lists))
}

#[test]
fn sides_that_part_two_vertices(rt: HostRuntime) -> Result<(), Fail> {
    let cactus = cactus_of(rt.alloc(), &ONE_RING)?;
    let holds = parts(rt.alloc(), &cactus, &[&[2], &[2, 3], &[3, 4], &[4]])?;
    assert!(rt; holds);
    Ok(())
}

/// A cactus and all its sides, in order.
const LISTED: &[(Sketch, &[&[u32]])] = &[
    // one node has no side
    (ONE_NODE, &[]),
    (ONE_RING, &[&[2], &[2, 3], &[2, 3, 4], &[3], &[3, 4], &[4]]),
    // A repeated side comes once: both cycles have the side 2, 3.
    (TWO_RINGS, &[&[2], &[2, 3], &[2, 3, 4], &[3], &[4]]),
];

#[test]
fn all_sides_of_a_cactus_come_once(rt: HostRuntime) -> Result<(), Fail> {
    for (sketch, lists) in LISTED {
        let cactus = cactus_of(rt.alloc(), sketch)?;
        let sides = listed_all(rt.alloc(), &cactus)?;
        assert!(rt; are_listed(&sides, lists), "at {} sides", lists.len());
    }
    Ok(())
}

/// Whether these are the sides of the cactus with a balance of at least 2, in this order, if the
/// first vertex has most of the mass.
fn are_balanced(alloc: Global, cactus: &Cactus, lists: &[&[u32]]) -> Result<bool, Fail> {
    if cactus.n() != 4 {
        return Ok(false);
    }
    let weights = VertexWeights::from_list(vec![in alloc; 9, 1, 1, 1]?);
    let own = VertexWeights::from_list(vec![in alloc; 9, 1, 1, 1]?);
    let sides = listed_least(alloc, cactus, 2, &weights, own)?;
    Ok(are_listed(&sides, lists))
}

#[test]
fn sides_of_a_least_balance(rt: HostRuntime) -> Result<(), Fail> {
    let cactus = cactus_of(rt.alloc(), &ONE_RING)?;
    let holds = are_balanced(rt.alloc(), &cactus, &[&[2, 3], &[2, 3, 4], &[3, 4]])?;
    assert!(rt; holds);
    Ok(())
}

#[test]
fn unions_of_two_pairs_are_selected(rt: HostRuntime) -> Result<(), Fail> {
    let graph = two_pairs(rt.alloc())?;
    let within = selected_parting(rt.alloc(), &graph, 1, 2)?;
    let across = selected_parting(rt.alloc(), &graph, 2, 3)?;
    assert!(rt; within.is_empty() && are_listed(&across, &[&[3, 4]]));
    Ok(())
}

/// Of the sides 2; 2 and 3; and 3, the first two are selected.
#[test]
fn unions_of_three_vertices_are_selected(rt: HostRuntime) -> Result<(), Fail> {
    let graph = EdgeList::new(rt.alloc(), 3);
    let sides = selected_parting(rt.alloc(), &graph, 1, 2)?;
    assert!(rt; are_listed(&sides, &[&[2], &[2, 3]]));
    Ok(())
}
