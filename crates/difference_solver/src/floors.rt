//! Bounds from below that choices imply, whatever cases are taken.

ghost use Rattle.std.specs.Prelude.{◌≡◌, ℕ, ◌<◌, ◌≤◌, ◌++◌, List, true, Contains, map, length, IfOk, MatchOption};
ghost use Rattle.difference_solver.specs.Choices.{Case, lists_of, items_of, AreInRange, OneHasBelow};
ghost use Rattle.difference_solver.specs.Floors.{is_below, below_of, weakest, floor_bound, bounds_of, all_before, IsFloor, AreFloors};

use crate::Bound;
use crate::choice::Choice;
use std::alloc::{AllocError, Global};

/// The least number that a bound may have: -2^66.
const LEAST: i128 = -73_786_976_294_838_206_464;

/// A bound on 0 less an unknown that the cases of a choice imply: the weakest of theirs.
#[derive(Clone, Copy)]
pub struct Floor {
    pub choice: usize,
    pub bound: Bound,
}

fn is_below(bound: &Bound, unknown: u32) -> bool
    ensures { result ≡ is_below unknown bound.now }
{
    bound.plus == 0 && bound.minus == unknown
}

/// The number of the first bound on 0 less the unknown.
fn below_of(case: &[Bound], unknown: u32) -> Option<i128>
    ensures { result ≡ below_of unknown case.now }
{
    for bound in case {
        if is_below(bound, unknown) {
            return Some(bound.at_most);
        }
    }
    None
}

/// The greatest of these numbers of the cases, and of the least one that there may be; none where a case has no such bound.
fn weakest(cases: &[Vec<Bound>], unknown: u32, least: i128) -> Option<i128>
    ensures { result ≡ weakest unknown least (map items_of cases.now) }
{
    let mut most = least;
    for case in cases {
        match below_of(case.as_slice(), unknown) {
            None => return None,
            Some(number) => most = most.max(number),
        }
    }
    Some(most)
}

fn implied_floor(choice: usize, unknown: u32, at_most: i128) -> Floor
    ensures { result ≡ record { choice = choice; bound = floor_bound unknown at_most } }
{
    let bound = Bound {
        plus: 0,
        minus: unknown,
        at_most,
    };
    Floor { choice, bound }
}

/// The bound from below of the unknown that the first choice implies that implies one.
fn floor_of(choices: &[Choice], count: u32, unknown: u32) -> Option<Floor>
    requires unknown { unknown ≤ count }
    requires in_range { AreInRange count (lists_of choices.now) }
    ensures { MatchOption result (OneHasBelow unknown (lists_of choices.now) → ⊥)
        (λ floor. IsFloor count (lists_of choices.now) floor × (floor.bound.plus ≡ 0) × (floor.bound.minus ≡ unknown)) }
{
    for (index, choice) in choices.iter().enumerate() {
        match weakest(choice.cases.as_slice(), unknown, LEAST) {
            None => {}
            Some(at_most) => {
                return Some(implied_floor(index, unknown, at_most));
            }
        }
    }
    None
}

/// A bound from below of each unknown for which a choice implies one.
pub(crate) fn floors_of(
    alloc: Global,
    choices: &[Choice],
    count: u32,
) -> Result<Vec<Floor>, AllocError>
    requires unknowns { count ≤ 64 }
    requires in_range { AreInRange count (lists_of choices.now) }
    ensures { IfOk result (λ floors. AreFloors count (lists_of choices.now) floors.items) }
{
    let mut floors = Vec::new(alloc);
    for before in 0..count {
        match floor_of(choices, count, before + 1) {
            None => {}
            Some(floor) => floors.push(floor)?,
        }
    }
    Ok(floors)
}

/// The bounds, and behind them those of the floors.
pub(crate) fn with_floors(
    alloc: Global,
    gathered: &[Bound],
    floors: &[Floor],
) -> Result<Vec<Bound>, AllocError>
    ensures { IfOk result (λ bounds. bounds.items ≡ gathered.now ++ bounds_of floors.now) }
{
    let mut bounds = Vec::new(alloc);
    bounds.extend_from_slice(gathered)?;
    for floor in floors {
        bounds.push(floor.bound)?;
    }
    Ok(bounds)
}

/// The choice that implies the floor of an index.
pub(crate) fn choice_of(floors: &[Floor], index: usize) -> usize
    requires { index < length floors.now }
    ensures { (count : ℕ) (choices : List (List Case)) → AreFloors count choices floors.now → result < length choices }
{
    floors[index].choice
}

/// The first of the indices from the start on.
pub(crate) fn first_behind(indices: &[u32], start: usize) -> Option<usize>
    ensures { MatchOption result (all_before start indices.now ≡ true)
        (λ index. (start ≤ index) × Contains indices.now index) }
{
    for index in indices {
        if start <= *index as usize {
            return Some(*index as usize);
        }
    }
    None
}
