//! Least numbers that meet bounds, by raising numbers that are too low.

ghost use Rattle.std.specs.Prelude.{◌≡◌, ◌^◌, ◌+◌, ◌+ℤ◌, ◌<◌, ◌≤◌, ◌≤ℤ◌, ℕ, ℤ, pos, List, All, length, IfOk};
ghost use Rattle.difference_solver.specs.Bound.{number, Meets, IsInRange, IsSolution};
ghost use Rattle.difference_solver.specs.Cycle.{IsNegativeCycle};
ghost use Rattle.difference_solver.specs.Raising.{IsAmong, IsLeastNatural, IsAsked, Raises, IfMet, IfRaised, IfCircle};

use crate::bound::Bound;
use crate::circle::circle_from;
use sn_width::NoMemory;
use std::alloc::{AllocError, Global};

/// What raising comes to.
#[derive(Drop)]
pub enum Raised {
    /// The least numbers.
    Least { values: Vec<i128> },
    /// A cycle of bounds, by their indices, that no integers meet together.
    Cycle { bounds: Vec<u32> },
    /// Neither was found.
    Open,
}

/// What a bound asks of its unknown `minus`.
enum Asked {
    /// It is met.
    Nothing,
    /// A larger number, this one.
    More { wanted: i128 },
    /// A number of more than 128 bits.
    TooFar,
}

/// What one pass over the bounds comes to.
enum Pass {
    /// All bounds are met.
    Met,
    /// The number of this unknown was raised last. It is 0 where a bound asks for more than zero of unknown 0.
    Higher { unknown: u32 },
    /// A number would need more than 128 bits.
    TooFar,
}

fn asked_by(bound: Bound, values: &[i128]) -> Asked
    requires { IsAmong values.now bound }
    ensures { IsAsked values.now bound result }
{
    let Some(wanted) = values[bound.plus as usize].checked_sub(bound.at_most) else {
        return Asked::TooFar;
    };
    if values[bound.minus as usize] < wanted {
        Asked::More { wanted }
    } else {
        Asked::Nothing
    }
}

/// Remembers which bound raised the number of an unknown last.
fn remember(raisers: &mut Vec<Option<u32>>, unknown: u32, index: usize) {
    if (unknown as usize) < raisers.len() {
        raisers[unknown as usize] = u32::try_from(index).ok();
    }
}

/// Raises the number of an unknown above 0 to what a bound asks of it.
fn lift(values: &mut Vec<i128>, bound: Bound, wanted: i128)
    requires above { 0 < bound.minus }
    requires minus { bound.minus < length values.old.items }
    requires asked { number values.old.items bound.plus ≡ wanted +ℤ bound.at_most }
    ensures { Raises (λ w. Meets w bound) values.old.items values.new.items }
{
    values[bound.minus as usize] = wanted;
}

/// Raises each number for which a bound asks more, once.
fn pass_over(bounds: &[Bound], values: &mut Vec<i128>, raisers: &mut Vec<Option<u32>>) -> Pass
    requires among { All (IsAmong values.old.items) bounds.now }
    ensures raises { Raises (λ w. All (Meets w) bounds.now) values.old.items values.new.items }
    ensures met { IfMet result (All (Meets values.new.items) bounds.now) }
{
    let mut last = None;
    for (index, bound) in bounds.iter().enumerate() {
        match asked_by(*bound, values) {
            Asked::Nothing => {}
            Asked::TooFar => return Pass::TooFar,
            Asked::More { wanted } => {
                remember(raisers, bound.minus, index);
                if bound.minus == 0 {
                    return Pass::Higher { unknown: 0 };
                }
                lift(values, *bound, wanted);
                last = Some(bound.minus);
            }
        }
    }
    match last {
        None => Pass::Met,
        Some(unknown) => Pass::Higher { unknown },
    }
}

/// Zero for unknown 0, and less than zero for each other one.
fn lowest(alloc: Global, count: u32) -> Result<Vec<i128>, AllocError>
    ensures one_each { IfOk result (λ v. length v.items ≡ count + 1) }
    ensures first { IfOk result (λ v. number v.items 0 ≡ pos 0) }
    ensures low { IfOk result (λ v. (u : ℕ) → number v.items u ≤ℤ pos 0) }
{
    let mut values = vec![in alloc; -1i128; count as usize + 1]?;
    values[0] = 0;
    Ok(values)
}

/// The least integers for the unknowns from 0 to `count` that meet all bounds together, among those not below zero; or bounds
/// around a cycle that no integers meet. It may find neither: it passes over the bounds a few times more than there are unknowns.
///
/// The work of a pass is the number of bounds, and few passes are wanted where the bounds on unknown 0 come first. A bound of
/// that unknown, from below, is wanted for each unknown of a cycle through it.
pub fn raise(alloc: Global, bounds: &[Bound], count: u32) -> Result<Raised, NoMemory>
    requires unknowns { count ≤ 64 }
    requires few { length bounds.now < 2 ^ 32 }
    requires in_range { All (IsInRange count) bounds.now }

    ensures solution { IfOk result (λ raised. IfRaised raised (IsSolution count bounds.now)) }
    ensures least { IfOk result (λ raised. IfRaised raised (IsLeastNatural count bounds.now)) }
    ensures cycle { IfOk result (λ raised. IfCircle raised (IsNegativeCycle bounds.now)) }
{
    let mut values = lowest(alloc, count)?;
    let mut raisers = vec![in alloc; None; count as usize + 1]?;
    for _ in 0..count + 2 {
        match pass_over(bounds, &mut values, &mut raisers) {
            Pass::Met => return Ok(Raised::Least { values }),
            Pass::TooFar => return Ok(Raised::Open),
            Pass::Higher { unknown } => {
                if let Some(found) = circle_from(alloc, bounds, &raisers, unknown)? {
                    return Ok(Raised::Cycle { bounds: found });
                }
            }
        }
    }
    Ok(Raised::Open)
}
