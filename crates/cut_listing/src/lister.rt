//! A test of sides, kept with the fact that it selects what is asked for.

ghost use Rattle.std.specs.Prelude.{◌≡◌, ◌≤◌, ◌^◌, ◌++◌, ◌&&◌, ◌==◌, [], ◌∷◌, true, IfOk, IfErr};
ghost use Rattle.std.specs.List.{All, filter};
ghost use Rattle.cut_definitions.specs.Cuts.{IsAscendingWithin};
ghost use Rattle.cut_definitions.specs.Members.{AreDifferent};
ghost use Rattle.rooted_cactus.specs.Normal.{is_normal};
ghost use Rattle.cut_listing.specs.Asks.{AnswersAsk, HasMasses, IsOver, TakesSides, has_masses-prop, lets};
ghost use Rattle.cut_listing.specs.Listings.{IsList, IsRefusal, asked_sides, different};
ghost use Rattle.vertex_set.specs.Side.{members_of};

use crate::ask::Ask;
use crate::limit::is_too_large;
use crate::list_refusal::ListRefusal;
use crate::pair::list_parting;
use crate::sorting::sort_sides;
use crate::weighed::list_balanced;
use cactus_walk::Walk;
use cut_definitions::NoMemory;
use rooted_cactus::Cactus;
use std::alloc::Global;
use vertex_set::Side;

/// A test of sides, as a boxed closure. A struct can keep a fact about such a test, but not yet
/// about a closure whose type is a parameter.
pub type SideTest = Box<dyn Fn(&Side) -> bool>;

/// A test of the sides over n, which returns true exactly if a side is asked for.
#[derive(Drop)]
pub struct Lister<'a> {
    n: u32,
    ask: Ask<'a>,
    keep: SideTest,
    ghost callable: { TakesSides (SideTest.pre keep) n },
    ghost answers: { AnswersAsk (SideTest.post keep) n ask },
    ghost masses: { HasMasses n ask } by { has_masses-prop n ask },
}

impl<'a> Lister<'a> {
    /// A lister that keeps a test of the sides over n. If a least balance is asked for, there must
    /// be n masses. It takes no memory.
    pub fn new(n: u32, ask: Ask<'a>, keep: SideTest) -> Lister<'a>
        requires callable { TakesSides (SideTest.pre keep) n }
        requires answers { AnswersAsk (SideTest.post keep) n ask }
        requires masses { HasMasses n ask }
        ensures n { result.n ≡ n }
        ensures ask { result.ask ≡ ask.entry }
    {
        Lister { n, ask, keep }
    }

    /// Whether a side over n is asked for.
    fn lets_through(&self, side: &Side) -> bool
        requires { IsOver self.now.n side.now }
        ensures { result ≡ lets self.now.ask side.now.members }
    {
        (self.keep)(side)
    }

    /// Whether a side is over n and asked for.
    fn selects(&self, side: &Side) -> bool
        ensures { result ≡ (side.now.vertices == self.now.n && lets self.now.ask side.now.members) }
    {
        side.n() == self.n && self.lets_through(side)
    }

    /// Keeps a side if it is asked for, and returns a room for the next one.
    fn keep(&self, alloc: Global, room: Side, found: &mut Vec<Side>) -> Result<Side, NoMemory>
        requires room { IsOver self.now.n room }
        requires found { All (λ s. s.vertices ≡ self.now.n) found.old.items }
        ensures room { IfOk result (λ next. next.vertices ≡ self.now.n) }
        ensures found { IfOk result (λ _. All (λ s. s.vertices ≡ self.now.n) found.new.items) }
        ensures kept { IfOk result (λ _. members_of found.new.items ≡ members_of found.old.items ++ filter (lets self.now.ask) (room.members ∷ [])) }
    {
        if !self.lets_through(&room) {
            return Ok(room);
        }
        found.push(room)?;
        Side::empty(alloc, self.n)
    }

    /// The sides of a walk that are asked for, in their order.
    fn asked_of(&self, alloc: Global, walk: &mut Walk) -> Result<Vec<Side>, NoMemory>
        requires walk { walk.old.vertices ≡ self.now.n }
        requires ascending { All (IsAscendingWithin 1 self.now.n) walk.old.to_come }
        ensures over_n { IfOk result (λ v. All (λ s. s.vertices ≡ self.now.n) v.items) }
        ensures asked { IfOk result (λ v. members_of v.items ≡ filter (lets self.now.ask) walk.old.to_come) }
    {
        let mut room = Side::empty(alloc, self.n)?;
        let mut found = Vec::new(alloc);
        'sides: while walk.next(&mut room) {
            room = self.keep(alloc, room, &mut found)?;
        }
        Ok(found)
    }

    /// The sides of a cactus that are asked for, in the order of the tree.
    fn walked_sides(&self, alloc: Global, cactus: &Cactus) -> Result<Vec<Side>, NoMemory>
        requires n { cactus.now.vertices ≡ self.now.n }
        requires normal { is_normal cactus.now.root ≡ true }
        ensures over_n { IfOk result (λ v. All (λ s. s.vertices ≡ self.now.n) v.items) }
        ensures differ { IfOk result (λ v. AreDifferent (members_of v.items)) }
        ensures same { IfOk result (λ v. different (members_of v.items) ≡ different (asked_sides self.now.ask cactus.now)) }
    {
        let mut walk = Walk::new(alloc, cactus)?;
        self.asked_of(alloc, &mut walk)
    }

    /// All different sides, in the order of lists, or their number if there are too many.
    fn list_all(&self, alloc: Global, cactus: &Cactus) -> Result<Vec<Side>, ListRefusal>
        requires all { self.now.ask ≡ Ask.All }
        requires n { cactus.now.vertices ≡ self.now.n }
        requires normal { is_normal cactus.now.root ≡ true }
        requires few { cactus.now.vertices ≤ 4194304 }
        ensures list { IfOk result (λ v. IsList (2 ^ 30) self.now.n self.now.ask cactus.now v.items) }
        ensures refusal { IfErr result (IsRefusal (2 ^ 30) self.now.n self.now.ask cactus.now) }
    {
        let n = cactus.n();
        let cuts = cactus.count_within(alloc)?;
        if is_too_large(cuts, n) {
            return Err(ListRefusal::TooLarge { cuts, n });
        }
        let mut sides = self.walked_sides(alloc, cactus)?;
        sort_sides(&mut sides, self.n);
        Ok(sides)
    }

    /// The different sides of the cuts of a cactus that are asked for, in the order of lists, in
    /// which a prefix comes first.
    ///
    /// The cactus is normal and has at most 4,194,304 vertices. The listing is refused as too
    /// large exactly if the number of these sides times n is above 2^30, with the two factors. It
    /// is refused otherwise only if it runs out of memory.
    ///
    /// The number is found first, from the tree, with one step for each node and vertex, so no
    /// side is gathered if it is too large. If all sides are asked for, a walk over the cactus
    /// gathers them, by the test. Otherwise they are listed as by `list_parting` and
    /// `list_balanced`, without the test. Then c sides take O(c log c) comparisons of n/64 steps.
    /// It takes memory in proportion to the nodes and vertices, and n/8 bytes and a constant for
    /// each of these sides.
    pub fn list(&self, alloc: Global, cactus: &Cactus) -> Result<Vec<Side>, ListRefusal>
        requires n { cactus.now.vertices ≡ self.now.n }
        requires normal { is_normal cactus.now.root ≡ true }
        requires few { cactus.now.vertices ≤ 4194304 }
        ensures list { IfOk result (λ v. IsList (2 ^ 30) self.now.n self.now.ask cactus.now v.items) }
        ensures refusal { IfErr result (IsRefusal (2 ^ 30) self.now.n self.now.ask cactus.now) }
    {
        match self.ask {
            Ask::All => self.list_all(alloc, cactus),
            Ask::Parting(first, second) => list_parting(alloc, cactus, first, second),
            Ask::Least(least, weights) => list_balanced(alloc, cactus, least, weights),
        }
    }

    /// The sides over n, among those passed, that are asked for, in their order.
    ///
    /// It takes one call of the test and one step for each side, and no memory.
    pub fn select(&self, mut sides: Vec<Side>) -> Vec<Side>
        requires { All (λ s. s.vertices ≡ self.now.n) sides.items }
        ensures over_n { All (λ s. s.vertices ≡ self.now.n) result.items }
        ensures selected { members_of result.items ≡ filter (lets self.now.ask) (members_of sides.items) }
    {
        sides.retain(
            |side: &Side| -> bool
                ensures { result ≡ (side.now.vertices == self.entry.now.n && lets self.entry.now.ask side.now.members) }
            { self.selects(side) },
        );
        sides
    }
}
