//! Bounds that raise one another's numbers in a circle.

ghost use Rattle.std.specs.Prelude.{◌≡◌, ◌+ℤ◌, IfOk, IfSome, IsTrue, slice_get};
ghost use Rattle.difference_solver.specs.Cycle.{IsNegativeCycle, IsWalk, total};

use crate::bound::Bound;
use sn_width::NoMemory;
use std::alloc::Global;

/// The bound that raised the number of the unknown last, by its index.
fn raiser_of(raisers: &[Option<u32>], unknown: u32) -> Option<u32> {
    match raisers.get(unknown as usize) {
        None => None,
        Some(raiser) => *raiser,
    }
}

fn bound_at(bounds: &[Bound], index: u32) -> Option<Bound>
    ensures { result ≡ slice_get bounds.now index }
{
    bounds.get(index as usize).copied()
}

/// The unknown whose number made a bound raise that of the unknown last.
fn before(bounds: &[Bound], raisers: &[Option<u32>], unknown: u32) -> Option<u32> {
    let index = raiser_of(raisers, unknown)?;
    let bound = bound_at(bounds, index)?;
    Some(bound.plus)
}

/// An unknown as many steps before this one as there are unknowns, which is on a circle; `None` where one was not raised.
fn far_before(bounds: &[Bound], raisers: &[Option<u32>], unknown: u32) -> Option<u32> {
    let mut place = unknown;
    for _ in 0..raisers.len() {
        place = before(bounds, raisers, place)?;
    }
    Some(place)
}

/// The bounds that raised the numbers from this unknown back to it, the first of them last.
fn around(
    alloc: Global,
    bounds: &[Bound],
    raisers: &[Option<u32>],
    unknown: u32,
) -> Result<Vec<u32>, NoMemory> {
    let mut indices = Vec::new(alloc);
    let mut place = unknown;
    for _ in 0..raisers.len() {
        let Some(index) = raiser_of(raisers, place) else {
            return Ok(indices);
        };
        indices.push(index)?;
        place = before(bounds, raisers, place).unwrap_or(unknown);
        if place == unknown {
            return Ok(indices);
        }
    }
    Ok(indices)
}

fn sum(first: i128, second: i128) -> Option<i128>
    ensures { IfSome result (λ sum. sum ≡ first +ℤ second) }
{
    first.checked_add(second)
}

/// The sum of the bounds at these indices, where they join head to tail from the unknown back to it, and it has at most 128 bits.
fn sum_around(bounds: &[Bound], indices: &[u32], unknown: u32) -> Option<i128>
    ensures { IfSome result (λ sum. IsWalk bounds.now unknown indices.now unknown
        × (sum ≡ total bounds.now indices.now)) }
{
    let mut so_far: i128 = 0;
    let mut place = unknown;
    for index in indices {
        let bound = bound_at(bounds, *index)?;
        if bound.plus != place {
            return None;
        }
        so_far = sum(so_far, bound.at_most)?;
        place = bound.minus;
    }
    if place == unknown { Some(so_far) } else { None }
}

/// Whether the bounds at these indices join head to tail from the unknown back to it, and sum below zero.
fn is_negative(bounds: &[Bound], indices: &[u32], unknown: u32) -> bool
    ensures { IsTrue result → IsNegativeCycle bounds.now indices.now }
{
    match sum_around(bounds, indices, unknown) {
        None => false,
        Some(sum) => sum < 0,
    }
}

/// Bounds around a cycle whose sum is below zero, among those that raised the number of this unknown, and of those before it.
pub fn circle_from(
    alloc: Global,
    bounds: &[Bound],
    raisers: &[Option<u32>],
    unknown: u32,
) -> Result<Option<Vec<u32>>, NoMemory>
    ensures { IfOk result (λ found. IfSome found (λ indices. IsNegativeCycle bounds.now indices.items)) }
{
    let Some(start) = far_before(bounds, raisers, unknown) else {
        return Ok(None);
    };
    let mut indices = around(alloc, bounds, raisers, start)?;
    indices.reverse();
    if is_negative(bounds, &indices, start) {
        return Ok(Some(indices));
    }
    Ok(None)
}
