//! Bounds that join head to tail in a circle.

ghost use Rattle.std.specs.Prelude.{◌≡◌, ◌+ℤ◌, ◌↔◌, IsTrue, IfOk, MatchOption, slice_get};
ghost use Rattle.refutation_check.specs.Cycles.{IsWalk, total, IsNegativeCycle};

use path_formula::SymBound;
use sn_width::{NoMemory, SymId};

/// The sum of two numbers. A list of bounds whose sum needs more than 128 bits is longer than any memory.
fn sum(first: i128, second: i128) -> Result<i128, NoMemory>
    ensures { IfOk result (λ sum. sum ≡ first +ℤ second) }
{
    match first.checked_add(second) {
        Some(sum) => Ok(sum),
        None => Err(NoMemory),
    }
}

/// The gathered bound of the number.
fn bound_at(gathered: &[SymBound], number: u32) -> Option<SymBound>
    ensures { result ≡ slice_get gathered.now number }
{
    gathered.get(number as usize).copied()
}

/// The first of the numbers.
fn first_of(numbers: &[u32]) -> Option<u32>
    ensures { result ≡ slice_get numbers.now 0 }
{
    numbers.get(0).copied()
}

/// The sum of the gathered bounds of these numbers, where they join head to tail from the symbol back to it; `None` where
/// they do not.
fn circle_sum(
    gathered: &[SymBound],
    numbers: &[u32],
    start: Option<SymId>,
) -> Result<Option<i128>, NoMemory>
    ensures { IfOk result (λ found. MatchOption found
        (IsWalk gathered.now start numbers.now start → ⊥)
        (λ sum. IsWalk gathered.now start numbers.now start × (sum ≡ total gathered.now numbers.now))) }
{
    let mut so_far: i128 = 0;
    let mut place = start;
    for number in numbers {
        let Some(bound) = bound_at(gathered, *number) else {
            return Ok(None);
        };
        if bound.plus != place {
            return Ok(None);
        }
        so_far = sum(so_far, bound.at_most)?;
        place = bound.minus;
    }
    if place == start {
        Ok(Some(so_far))
    } else {
        Ok(None)
    }
}

/// Whether the gathered bounds of these numbers join head to tail in a circle, and their sum is below zero.
pub(crate) fn is_negative_cycle(gathered: &[SymBound], numbers: &[u32]) -> Result<bool, NoMemory>
    ensures { IfOk result (λ yes. IsTrue yes ↔ IsNegativeCycle gathered.now numbers.now) }
{
    let Some(first) = first_of(numbers) else {
        return Ok(false);
    };
    let Some(bound) = bound_at(gathered, first) else {
        return Ok(false);
    };
    match circle_sum(gathered, numbers, bound.plus)? {
        None => Ok(false),
        Some(sum) => Ok(sum < 0),
    }
}
