//! Classes numbered by their least vertices, and counted.

ghost use Rattle.std.specs.Prelude.{◌≤◌, IfOk, length};
ghost use Rattle.cut_definitions.specs.Contraction.{IsLabels};
ghost use Rattle.vertex_classes.specs.Classes.{no_vertex, AreNumbersOf, AreParents, HasClasses, Respects};

use cut_definitions::NoMemory;
use std::alloc::Global;

/// The numbers of the classes of the vertices 1 to n, in the order of their least vertices.
pub(crate) fn class_numbers(alloc: Global, parents: &[u32]) -> Result<Vec<u32>, NoMemory>
    requires parents { AreParents parents.now }
    requires some { 1 ≤ length parents.now }
    requires few { length parents.now ≤ 4194305 }
    requires apart { Respects parents.now no_vertex }
    ensures labels { IfOk result (λ numbers. IsLabels numbers.items) }
    ensures numbers { IfOk result (λ numbers. AreNumbersOf parents.now numbers.items) }
{
    let mut numbers = Vec::with_capacity(alloc, parents.len() - 1)?;
    let mut count = 0;
    for v in 1..parents.len() {
        let parent = parents[v] as usize;
        if 1 <= parent && parent < v {
            numbers.push(numbers[parent - 1])?;
        } else {
            count += 1;
            numbers.push(count)?;
        }
    }
    Ok(numbers)
}

/// The number of the classes of the vertices from 1 on, which is the number of vertices that are
/// their own parents.
pub(crate) fn count_firsts(parents: &[u32]) -> u32
    requires parents { AreParents parents.now }
    requires some { 1 ≤ length parents.now }
    requires few { length parents.now ≤ 4194305 }
    requires apart { Respects parents.now no_vertex }
    ensures { HasClasses parents.now result }
{
    let mut count = 0;
    for v in 1..parents.len() {
        if parents[v] as usize == v {
            count += 1;
        }
    }
    count
}
