//! Whether integers meet bounds.

ghost use Rattle.std.specs.Prelude.{◌≡◌, ◌<◌, All, IsTrue, map, length, MatchOption};
ghost use Rattle.difference_solver.specs.Bound.{number, Meets};
ghost use Rattle.difference_solver.specs.Choices.{lists_of, items_of, MeetsOne, MeetsEach};

use crate::Bound;
use crate::choice::Choice;

/// The integer of an unknown.
pub(crate) fn number(values: &[i128], unknown: u32) -> i128
    ensures { result ≡ number values.now unknown }
{
    values.get(unknown as usize).copied().unwrap_or(0)
}

/// Whether the integers meet the bound. A sum that needs more than 128 bits is none that a search comes to.
fn is_met(values: &[i128], bound: &Bound) -> bool
    ensures { IsTrue result → Meets values.now bound.now }
{
    match number(values, bound.minus).checked_add(bound.at_most) {
        None => false,
        Some(most) => number(values, bound.plus) <= most,
    }
}

/// Whether the integers meet all bounds.
fn are_met(values: &[i128], case: &[Bound]) -> bool
    ensures { IsTrue result → All (Meets values.now) case.now }
{
    for bound in case {
        if !is_met(values, bound) {
            return false;
        }
    }
    true
}

/// Whether the integers meet all bounds of one of the cases.
fn is_one_met(values: &[i128], cases: &[Vec<Bound>]) -> bool
    ensures { IsTrue result → MeetsOne values.now (map items_of cases.now) }
{
    for case in cases {
        if are_met(values, case.as_slice()) {
            return true;
        }
    }
    false
}

/// The first choice without a case that the integers meet.
pub(crate) fn first_broken(choices: &[Choice], values: &[i128]) -> Option<usize>
    ensures { MatchOption result (MeetsEach values.now (lists_of choices.now)) (λ choice. choice < length choices.now) }
{
    for (index, choice) in choices.iter().enumerate() {
        if !is_one_met(values, choice.cases.as_slice()) {
            return Some(index);
        }
    }
    None
}
