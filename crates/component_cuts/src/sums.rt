//! The sums that components can make, each of which is in or out.
//!
//! Row r has the sums of the components 2 to r + 1. Row 0 has only the sum 0. The other rows
//! follow one another in a table of bits, each with a place for every number below the width.

ghost use Rattle.std.specs.Prelude.{◌≡◌, ◌≢◌, ℕ, ◌+◌, ◌-◌, ◌*◌, ◌<◌, ◌≤◌, ◌^◌, true, false, IfOk, length, slice_index, slice_index_or};
ghost use Rattle.cut_definitions.specs.Balance.{mass};
ghost use Rattle.component_cuts.specs.Sums.{has_sum, is_made, mass_of_number, sum_of_rows, AreRows, IsBestSum};

use cut_definitions::{NoMemory, VertexWeights};
use std::alloc::Global;
use vertex_set::Side;

/// The sum of all weights.
pub(crate) fn total_mass(weights: &VertexWeights) -> u128
    ensures value { result ≡ mass weights.now (λ v. true) }
    ensures small { result < 2 ^ 86 }
{
    let mut total: u128 = 0;
    for v in 0..weights.len() {
        total += weights.of(v + 1) as u128;
    }
    total
}

/// The sum of the weights of each number, where the vertices have numbers up to `count`.
pub(crate) fn mass_by_number(
    alloc: Global,
    part_of: &[u32],
    count: u32,
    weights: &VertexWeights,
) -> Result<Vec<u64>, NoMemory>
    requires long { length part_of.now ≡ length weights.now + 1 }
    requires within { (v : ℕ) → slice_index part_of.now v ≤ count }
    requires small { mass weights.now (λ v. true) < 2 ^ 32 }
    ensures long { IfOk result (λ sums. length sums.items ≡ count + 1) }
    ensures each { IfOk result (λ sums. (i : ℕ) → i ≤ count → slice_index sums.items i ≡ mass_of_number weights.now part_of.now i) }
{
    let mut sums = vec![in alloc; 0u64; count as usize + 1]?;
    for v in 0..weights.len() {
        let number = part_of[v as usize + 1] as usize;
        sums[number] += weights.of(v + 1);
    }
    Ok(sums)
}

/// Whether a row has a sum.
fn makes(table: &Side, width: u32, row: u32, sum: u32) -> bool
    requires sum { sum < width }
    requires row { row * width ≤ table.now.vertices }
    requires few { table.now.vertices < 2 ^ 32 }
    ensures { result ≡ has_sum table.now width row sum }
{
    if row == 0 {
        return sum == 0;
    }
    table.has((row - 1) * width + sum + 1)
}

/// Whether a row has a sum, or the sum less a weight.
fn makes_next(table: &Side, width: u32, row: u32, weight: u64, sum: u32) -> bool
    requires sum { sum < width }
    requires row { row * width ≤ table.now.vertices }
    requires few { table.now.vertices < 2 ^ 32 }
    ensures { result ≡ is_made table.now width row weight sum }
{
    if makes(table, width, row, sum) {
        return true;
    }
    if weight > sum as u64 {
        return false;
    }
    makes(table, width, row, sum - weight as u32)
}

/// Fills the next row, which is empty. It gets each sum of the row before it, with and without one
/// more weight.
fn add_row(table: &mut Side, width: u32, row: u32, weight: u64)
    requires row { (row + 1) * width ≤ table.old.vertices }
    requires few { table.old.vertices < 2 ^ 32 }
    requires empty { (sum : ℕ) → sum < width → has_sum table.old width (row + 1) sum ≡ false }
    ensures vertices { table.new.vertices ≡ table.old.vertices }
    ensures added { (sum : ℕ) → sum < width → has_sum table.new width (row + 1) sum ≡ is_made table.old width row weight sum }
    ensures others { (other sum : ℕ) → other ≢ row + 1 → other * width ≤ table.old.vertices → sum < width → has_sum table.new width other sum ≡ has_sum table.old width other sum }
{
    for sum in 0..width {
        if makes_next(table, width, row, weight, sum) {
            table.insert(row * width + sum + 1);
        }
    }
}

/// The table of the rows for weights of the numbers 0 to c; the weights of 0 and 1 do not count.
pub(crate) fn fill_rows(alloc: Global, width: u32, weights: &[u64]) -> Result<Side, NoMemory>
    requires some { 3 ≤ length weights.now }
    requires width { 1 ≤ width }
    requires count { length weights.now < 2 ^ 32 }
    requires few { (length weights.now - 1) * width ≤ 2 ^ 32 }
    ensures vertices { IfOk result (λ table. table.vertices ≡ (length weights.now - 2) * width) }
    ensures rows { IfOk result (AreRows weights.now width (length weights.now - 2)) }
{
    let rows = weights.len() as u32 - 2;
    let mut table = Side::empty(alloc, rows * width)?;
    for row in 0..rows {
        add_row(&mut table, width, row, weights[row as usize + 2]);
    }
    Ok(table)
}

/// A sum of a row that is as near as any to half of the greatest possible one, which is the width
/// less 1.
pub(crate) fn best_sum(table: &Side, width: u32, row: u32) -> u32
    requires width { 1 ≤ width }
    requires row { row * width ≤ table.now.vertices }
    requires few { table.now.vertices < 2 ^ 32 }
    requires none { has_sum table.now width row 0 ≡ true }
    ensures { IsBestSum table.now width row result }
{
    let mut best = 0;
    for sum in 0..width {
        if makes(table, width, row, sum) && sum.min(width - 1 - sum) > best.min(width - 1 - best) {
            best = sum;
        }
    }
    best
}

/// Marks for the numbers below `numbers`, with none chosen.
fn none_chosen(alloc: Global, numbers: usize) -> Result<Vec<bool>, NoMemory>
    ensures long { IfOk result (λ chosen. length chosen.items ≡ numbers) }
    ensures none { IfOk result (λ chosen. (i : ℕ) → slice_index_or chosen.items i false ≡ false) }
{
    vec![in alloc; false; numbers]
}

/// Numbers whose weights make a sum of the last row, found from the last one back. A number is
/// chosen if the row before it lacks the rest of the sum.
pub(crate) fn choose(
    alloc: Global,
    table: &Side,
    width: u32,
    weights: &[u64],
    sum: u32,
) -> Result<Vec<bool>, NoMemory>
    requires some { 3 ≤ length weights.now }
    requires sum { sum < width }
    requires vertices { (length weights.now - 2) * width ≤ table.now.vertices }
    requires few { table.now.vertices < 2 ^ 32 }
    requires count { length weights.now < 2 ^ 32 }
    requires rows { AreRows weights.now width (length weights.now - 2) table.now }
    requires made { has_sum table.now width (length weights.now - 2) sum ≡ true }
    ensures long { IfOk result (λ chosen. length chosen.items ≡ length weights.now) }
    ensures first { IfOk result (λ chosen. slice_index_or chosen.items 1 false ≡ false) }
    ensures sum { IfOk result (λ chosen. sum_of_rows weights.now (λ i. slice_index_or chosen.items i false) (length weights.now - 2) ≡ sum) }
{
    let mut chosen = none_chosen(alloc, weights.len())?;
    let mut left = sum;
    let mut row = weights.len() as u32 - 2;
    while row > 0 {
        row -= 1;
        if !makes(table, width, row, left) {
            let number = row as usize + 2;
            chosen[number] = true;
            left -= weights[number] as u32;
        }
    }
    Ok(chosen)
}
