//! The components of a graph.

ghost use Rattle.std.specs.Prelude.{◌≡◌, ◌-◌, ◌*◌, ◌^◌, ◌<◌, ◌≤◌, All, length, true, IfOk, MatchOption, MatchResult};
ghost use Rattle.cut_definitions.specs.Cuts.{has};
ghost use Rattle.component_cuts.specs.Parts.{part_at, unions, AreComponents, IsDivision, IsNumberOfUnions, IsPart};
ghost use Rattle.vertex_set.specs.Side.{members_of, VertexList};
ghost use Rattle.component_cuts.specs.Sums.{IsSmall, IsBestRefusal};
ghost use Rattle.cut_definitions.specs.Balance.{mass, IsBest};

use crate::best_refusal::BestRefusal;
use crate::edge_classes::component_classes;
use crate::numbers::numbers_of;
use crate::sums::{best_sum, choose, fill_rows, mass_by_number, total_mass};
use crate::unions::{chosen_side, double, sort_sides};
use cut_definitions::{EdgeList, NoMemory, VertexWeights};
use std::alloc::Global;
use std::marker::Model;
use vertex_set::Side;
use weighted_graph::{Graph, Labels};

// the most components for which the number of unions is returned
const MOST_COUNTED: u32 = 127;

// the most bits of the table of sums
const MOST_ENTRIES: u128 = 4_294_967_296;

/// The components of a graph on the vertices 1 to n, numbered from 1 on in the order of their
/// least vertices. Contracts see n and the components as ascending lists of vertices.
#[derive(Drop)]
pub struct Components {
    n: u32,
    count: u32,
    part_of: Vec<u32>,
}

impl Model for Components {
    ghost use Rattle.component_cuts.specs.Parts.{Parts, divided, IsNumbering};

    ghost Value = { Parts };

    ghost view = { λ c. divided c.n c.count c.part_of.items };

    ghost invariant = { λ c. IsNumbering c.n c.count c.part_of.items };
}

impl Components {
    /// The components of a graph, from its list of edges, as `of_list`, at the same cost. It fails
    /// only if it runs out of memory.
    pub fn of(alloc: Global, graph: &Graph) -> Result<Components, NoMemory>
        ensures { IfOk result (AreComponents graph.now) }
    {
        Components::of_list(alloc, graph.list())
    }

    /// The components of a list of edges. The ends of each edge are joined by union-find (Galler
    /// and Fischer, 1964), in O(m log(n) + n) steps. It takes 12 bytes a vertex, of which 4 are
    /// kept, and fails only if it runs out of memory.
    pub fn of_list(alloc: Global, list: &EdgeList) -> Result<Components, NoMemory>
        ensures { IfOk result (AreComponents list.now) }
    {
        let n = list.n();
        let classes = component_classes(alloc, list)?;
        let labels = Labels::of_classes(alloc, &classes)?;
        let part_of = numbers_of(alloc, &labels)?;
        let count = labels.classes();
        Ok(Components { n, count, part_of })
    }

    /// The number c of components; 0 exactly if there is no vertex.
    pub fn len(&self) -> u32
        ensures value { result ≡ length self.now.parts }
        ensures division { IsDivision self.now }
    {
        self.count
    }

    /// The number, from 1 on, of the component of a vertex of 1 to n.
    pub fn part(&self, v: u32) -> u32
        requires from_one { 1 ≤ v }
        requires to_n { v ≤ self.now.vertices }
        ensures from_one { 1 ≤ result }
        ensures to_len { result ≤ length self.now.parts }
        ensures member { has (part_at self.now result) v ≡ true }
    {
        self.part_of[v as usize]
    }

    /// The number of minimum cuts, 2^(c-1) - 1 for c components. There must be at least one
    /// component. The result is none exactly if c is above 127.
    pub fn count(&self) -> Option<u128>
        requires { 1 ≤ length self.now.parts }
        ensures { MatchOption result (127 < length self.now.parts) (IsNumberOfUnions self.now) }
    {
        if self.count > MOST_COUNTED {
            return None;
        }
        Some((1u128 << (self.count - 1)) - 1)
    }

    /// All vertices of the component with this number.
    fn part_side(&self, alloc: Global, number: u32) -> Result<Side, NoMemory>
        requires { IsPart self.now number }
        ensures { IfOk result (λ s. s ≡ record { vertices = self.now.vertices; members = part_at self.now number }) }
    {
        let mut side = Side::empty(alloc, self.n)?;
        for v in 0..self.n {
            if self.part_of[v as usize + 1] == number {
                side.insert(v + 1);
            }
        }
        Ok(side)
    }

    /// All minimum cuts of a graph of c components, as the sides without vertex 1, in the order of
    /// lists, in which a prefix comes first. There must be at least two components, and (2^(c-1) -
    /// 1) * n at most 2^30.
    ///
    /// The list doubles with each component after the first, and is sorted at the end. With k
    /// sides that takes n/64 steps a side, and O(k log k) comparisons of at most n/64 steps each.
    /// It fails only if it runs out of memory.
    pub fn sides(&self, alloc: Global) -> Result<Vec<Side>, NoMemory>
        requires two { 2 ≤ length self.now.parts }
        requires few { (2 ^ (length self.now.parts - 1) - 1) * self.now.vertices ≤ 2 ^ 30 }
        ensures over_n { IfOk result (λ sides. All (λ (s : VertexList). s.vertices ≡ self.now.vertices) sides.items) }
        ensures unions { IfOk result (λ sides. members_of sides.items ≡ unions self.now) }
    {
        let mut sides = Vec::new(alloc);
        for done in 1..self.count {
            let part = self.part_side(alloc, done + 1)?;
            double(alloc, &mut sides, part)?;
        }
        sort_sides(&mut sides, self.n);
        Ok(sides)
    }

    /// A minimum cut of a graph of c components whose lesser side has the greatest sum of weights.
    /// No other minimum cut divides the weights more evenly. There must be at least two
    /// components, and n weights.
    ///
    /// It fills a table of the sums that the first components can make (Bellman, 1957), and walks
    /// back through it. With T the sum of all weights that is O(n + c * T) steps and c * T / 8
    /// bytes. It fails if c * (T + 1) is above 2^32, or if it runs out of memory.
    pub fn best(&self, alloc: Global, weights: &VertexWeights) -> Result<Side, BestRefusal>
        requires two { 2 ≤ length self.now.parts }
        requires weights { length weights.now ≡ self.now.vertices }
        ensures over_n { IfOk result (λ s. s.vertices ≡ self.now.vertices) }
        ensures best { IfOk result (λ s. IsBest weights.now (unions self.now) s.members) }
        ensures refusal { MatchResult result (λ _. IsSmall self.now weights.now) (IsBestRefusal self.now weights.now) }
    {
        let total = total_mass(weights);
        if self.count as u128 * (total + 1) > MOST_ENTRIES {
            return Err(BestRefusal::TooLarge {
                components: self.count,
                total,
            });
        }
        Ok(self.best_within(alloc, weights, total as u32)?)
    }

    /// The best cut, if the table is small enough.
    fn best_within(
        &self,
        alloc: Global,
        weights: &VertexWeights,
        total: u32,
    ) -> Result<Side, NoMemory>
        requires two { 2 ≤ length self.now.parts }
        requires weights { length weights.now ≡ self.now.vertices }
        requires total { total ≡ mass weights.now (λ v. true) }
        requires small { IsSmall self.now weights.now }
        ensures over_n { IfOk result (λ s. s.vertices ≡ self.now.vertices) }
        ensures best { IfOk result (λ s. IsBest weights.now (unions self.now) s.members) }
    {
        let sums = mass_by_number(alloc, &self.part_of, self.count, weights)?;
        let width = total + 1;
        let table = fill_rows(alloc, width, &sums)?;
        let sum = best_sum(&table, width, self.count - 1);
        if sum.min(total - sum) == 0 {
            return self.part_side(alloc, 2);
        }
        let chosen = choose(alloc, &table, width, &sums, sum)?;
        chosen_side(alloc, self.n, &self.part_of, &chosen)
    }
}
