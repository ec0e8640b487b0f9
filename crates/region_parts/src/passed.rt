//! The vertices around what is listed, and how far they are known to be listed themselves.
//!
//! What is listed stays so. So each hub may begin behind what the hubs before it passed, and all
//! of them together go once along what is listed.

ghost use Rattle.std.specs.Prelude.{◌≡◌, ◌+◌, ◌<◌, ◌≤◌, ◌^◌, None, Some, IfSome, IsTrue, IsFalse, length, slice_get};
ghost use Rattle.region_flow.specs.Regions.{IsRegionFlow};
ghost use Rattle.region_parts.specs.Passed.{ArePassed, IsLeft, IsListedIn, IsPassed, IsReadAt, list_around, place_in, side_around};
ghost use Rattle.region_parts.specs.Split.{half_of, AreAtFront, IsBetween};

use crate::region::Region;
use crate::side::Side;
use crate::splitter::Splitter;
use region_fronts::Fronts;

/// Vertices around what is listed, which stand in a list.
#[derive(Clone, Copy)]
pub enum Around {
    /// The vertices beside the list of a side.
    Border(Side),
    /// The open vertices of the region, which are beside what is outside it.
    Front,
}

impl Around {
    /// The side whose searches start from these vertices.
    pub fn side(self) -> Side
        ensures { result ≡ side_around self }
    {
        match self {
            Around::Border(side) => side,
            Around::Front => Side::Outer,
        }
    }
}

/// How many vertices at the start of the lists of those beside what is listed, from both sides,
/// and of the front are known to be listed by now.
#[derive(Clone, Copy, Debug, PartialEq, Eq)]
pub struct Passed {
    pub inner: usize,
    pub outer: usize,
    pub front: usize,
}

impl Passed {
    /// How many of some vertices around are passed.
    pub fn place(self, around: Around) -> usize
        ensures { result ≡ place_in self around }
    {
        match around {
            Around::Border(Side::Inner) => self.inner,
            Around::Border(Side::Outer) => self.outer,
            Around::Front => self.front,
        }
    }
}

impl Splitter {
    /// Whether a vertex is in the region and not listed.
    fn is_left(&self, region: Region<'_>, v: u32) -> bool
        requires v { v < length region.flow.now.labels }
        requires t { region.t < length region.flow.now.labels }
        requires inner { v < length self.now.inner.turns }
        requires outer { v < length self.now.outer.turns }
        ensures yes { IsTrue result → IsLeft region.entry.flow.now region.entry.t self.now v }
        ensures no { IsFalse result → IsListedIn region.entry.flow.now region.entry.t self.now v }
    {
        region.flow.label(v) == region.label() && !self.is_listed(v)
    }

    /// The vertex at a place beside the list of a side, counted from 0;
    /// none where there are no more.
    pub(crate) fn beside(&self, side: Side, place: usize) -> Option<u32>
        ensures at { result ≡ slice_get (half_of side self.now).border place }
        ensures next { IfSome result (λ v. place + 1 < 2 ^ 64) }
    {
        self.listing(side).border().get(place).copied()
    }

    /// The vertex at a place of those around, counted from 0; none where there are no more.
    /// Those before the place stay.
    pub(crate) fn vertex_at(
        &self,
        region: Region<'_>,
        fronts: &mut Fronts,
        around: Around,
        place: usize,
    ) -> Option<u32>
        requires flow { IsRegionFlow region.graph.now region.flow.now }
        requires between { IsBetween region.graph.now region.flow.now region.t self.now }
        requires front { AreAtFront region.graph.now region.flow.now region.t fronts.old }
        ensures front { AreAtFront region.entry.graph.now region.entry.flow.now region.entry.t fronts.new }
        ensures vertex { IfSome result (λ v. (1 ≤ v) × (v ≤ region.entry.graph.now.vertices)) }
        ensures at { IfSome result (λ v. slice_get (list_around around region.entry.flow.now region.entry.t fronts.new self.now) place ≡ Some v) }
        ensures next { IfSome result (λ v. place + 1 < 2 ^ 64) }
        ensures end { result ≡ None → length (list_around around region.entry.flow.now region.entry.t fronts.new self.now) ≤ place }
        ensures read { IsReadAt around region.entry.flow.now region.entry.t self.now place fronts.old fronts.new }
    {
        match around {
            Around::Border(side) => self.beside(side, place),
            Around::Front => fronts.read(region.labels(), region.label(), place),
        }
    }

    /// How far those around can be passed: the place of the first that is left,
    /// or the end where none is.
    fn pass_around(
        &self,
        region: Region<'_>,
        fronts: &mut Fronts,
        around: Around,
        passed: Passed,
    ) -> usize
        requires flow { IsRegionFlow region.graph.now region.flow.now }
        requires between { IsBetween region.graph.now region.flow.now region.t self.now }
        requires front { AreAtFront region.graph.now region.flow.now region.t fronts.old }
        requires passed { ArePassed region.flow.now region.t fronts.old self.now passed }
        ensures front { AreAtFront region.entry.graph.now region.entry.flow.now region.entry.t fronts.new }
        ensures passed { ArePassed region.entry.flow.now region.entry.t fronts.new self.now passed }
        ensures further { IsPassed region.entry.flow.now region.entry.t self.now (list_around around region.entry.flow.now region.entry.t fronts.new self.now) result }
        ensures left { IfSome (slice_get (list_around around region.entry.flow.now region.entry.t fronts.new self.now) result) (IsLeft region.entry.flow.now region.entry.t self.now) }
    {
        let mut place = passed.place(around);
        'places: while let Some(v) = self.vertex_at(region, fronts, around, place) {
            if self.is_left(region, v) {
                return place;
            }
            place += 1;
        }
        place
    }

    /// Moves on behind all that is listed by now. It takes time for what it passes. The front is
    /// not looked at before something is listed from the outside.
    pub(crate) fn pass(&self, region: Region<'_>, fronts: &mut Fronts, passed: Passed) -> Passed
        requires flow { IsRegionFlow region.graph.now region.flow.now }
        requires between { IsBetween region.graph.now region.flow.now region.t self.now }
        requires front { AreAtFront region.graph.now region.flow.now region.t fronts.old }
        requires passed { ArePassed region.flow.now region.t fronts.old self.now passed }
        ensures front { AreAtFront region.entry.graph.now region.entry.flow.now region.entry.t fronts.new }
        ensures passed { ArePassed region.entry.flow.now region.entry.t fronts.new self.now result }
        ensures left { IfSome (slice_get self.now.inner.border result.inner) (IsLeft region.entry.flow.now region.entry.t self.now) }
    {
        let inner = self.pass_around(region, fronts, Around::Border(Side::Inner), passed);
        if self.outer.count() == 0 {
            return Passed { inner, ..passed };
        }
        let outer = self.pass_around(region, fronts, Around::Border(Side::Outer), passed);
        let front = self.pass_around(region, fronts, Around::Front, passed);
        Passed {
            inner,
            outer,
            front,
        }
    }
}
