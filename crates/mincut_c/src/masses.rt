//! The masses of the vertices, by an array.

ghost use Rattle.std.specs.Prelude.{◌≡◌, ◌<◌, ◌≤◌, ◌^◌, IfOk, IfErr, OnOk, IsTrue, IsFalse, length, sum};
ghost use Rattle.mincut_c.specs.Statuses.{AreMasses, IsMassReason, masses_for, number_of};

use crate::status::Fault;
use cut_definitions::{NoMemory, VertexWeights};
use std::alloc::Global;

/// Whether masses add up to less than 2^64.
fn is_small(masses: &[u64]) -> bool
    ensures yes { IsTrue result → sum masses.now < 2 ^ 64 }
    ensures no { IsFalse result → 2 ^ 64 ≤ sum masses.now }
{
    let mut total = 0u64;
    'masses: for mass in masses {
        if *mass > u64::MAX - total {
            return false;
        }
        total += *mass;
    }
    true
}

/// Tests the masses of n vertices: there are n of them, or none,
/// and they add up to less than 2^64.
pub(crate) fn check_masses(n: u32, masses: &[u64]) -> Result<(), Fault>
    ensures masses { OnOk result (AreMasses n masses.now) }
    ensures reason { IfErr result (λ fault. IsMassReason fault n masses.now) }
    ensures known { IfErr result (λ fault. number_of fault ≤ 10) }
{
    if masses.is_empty() {
        return Ok(());
    }
    if masses.len() != n as usize {
        return Err(Fault::MassCount);
    }
    if !is_small(masses) {
        return Err(Fault::MassSum);
    }
    Ok(())
}

/// The masses of n vertices: those of the array, or 1 for each where it has no entry.
/// 8 bytes for each vertex.
pub(crate) fn masses_of(alloc: Global, n: u32, masses: &[u64]) -> Result<VertexWeights, NoMemory>
    requires few { n ≤ 4194304 }
    requires many { length (masses_for n masses.now) ≡ n }
    ensures { IfOk result (λ weights. weights ≡ masses_for n masses.now) }
{
    if masses.is_empty() {
        let ones = vec![in alloc; 1u64; n as usize]?;
        return Ok(VertexWeights::from_list(ones));
    }
    let list = masses.to_vec(alloc)?;
    Ok(VertexWeights::from_list(list))
}
