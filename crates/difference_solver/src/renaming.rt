//! Unknowns of a part, numbered anew from 1 on.

ghost use Rattle.std.specs.Prelude.{◌≡◌, ◌+◌, ◌<◌, ◌≤◌, ◌++◌, map, length, suc, IfOk, OnOk};
ghost use Rattle.difference_solver.specs.Choices.{cases_of, items_of};
ghost use Rattle.difference_solver.specs.Parts.{has_label};
ghost use Rattle.difference_solver.specs.Renaming.{one_name, names_of, place_of, renamed, renamed_case, renamed_cases, spread_at, spread};

use crate::Bound;
use crate::choice::Choice;
use crate::met::number;
use crate::parts::has_label;
use std::alloc::{AllocError, Global};

/// Adds the unknown, where it is the number zero or has the label.
#[tactic(auto, using(crate::proofs::Naming::is_name, crate::proofs::Naming::no_name))]
fn push_name(
    names: &mut Vec<u32>,
    labels: &[u32],
    label: u32,
    unknown: u32,
) -> Result<(), AllocError>
    ensures { OnOk result (names.new.items ≡ names.old.items ++ one_name (has_label labels.now label) unknown) }
{
    if has_label(labels, label, unknown as usize) {
        names.push(unknown)?;
    }
    Ok(())
}

/// The number zero and the unknowns with the label, in ascending order: the place of each is its new number.
pub(crate) fn names_of(
    alloc: Global,
    labels: &[u32],
    label: u32,
    count: u32,
) -> Result<Vec<u32>, AllocError>
    requires { count ≤ 64 }
    ensures { IfOk result (λ names. names.items ≡ names_of (has_label labels.now label) count) }
{
    let mut names = Vec::new(alloc);
    for unknown in 0..count + 1 {
        push_name(&mut names, labels, label, unknown)?;
    }
    Ok(names)
}

/// The greatest new number.
pub(crate) fn last_of(names: &[u32]) -> u32
    requires some { 0 < length names.now }
    requires few { length names.now ≤ 65 }
    ensures { result + 1 ≡ length names.now }
{
    names.len() as u32 - 1
}

/// The new number of an unknown.
fn place_of(names: &[u32], unknown: u32) -> u32
    requires { length names.now ≤ 65 }
    ensures { result ≡ place_of names.now unknown }
{
    let mut place = 0;
    for name in names {
        if *name == unknown {
            return place;
        }
        place += 1;
    }
    place
}

fn renamed(names: &[u32], bound: &Bound) -> Bound
    requires { length names.now ≤ 65 }
    ensures { result ≡ renamed names.now bound.now }
{
    Bound {
        plus: place_of(names, bound.plus),
        minus: place_of(names, bound.minus),
        at_most: bound.at_most,
    }
}

fn renamed_case(alloc: Global, names: &[u32], case: &[Bound]) -> Result<Vec<Bound>, AllocError>
    requires { length names.now ≤ 65 }
    ensures { IfOk result (λ after. after.items ≡ renamed_case names.now case.now) }
{
    let mut after = Vec::new(alloc);
    for bound in case {
        after.push(renamed(names, bound))?;
    }
    Ok(after)
}

/// A choice of these cases, with new numbers for the unknowns.
pub(crate) fn renamed_choice(
    alloc: Global,
    names: &[u32],
    cases: &[Vec<Bound>],
) -> Result<Choice, AllocError>
    requires { length names.now ≤ 65 }
    ensures { IfOk result (λ choice. cases_of choice ≡ renamed_cases names.now (map items_of cases.now)) }
{
    let mut after = Vec::new(alloc);
    for case in cases {
        after.push(renamed_case(alloc, names, case.as_slice())?)?;
    }
    Ok(Choice { cases: after })
}

/// The integer of an unknown, by that of its new number; 0 for one with another label.
fn spread_at(labels: &[u32], label: u32, names: &[u32], values: &[i128], unknown: u32) -> i128
    requires { length names.now ≤ 65 }
    ensures { result ≡ spread_at (has_label labels.now label) names.now values.now unknown }
{
    if has_label(labels, label, unknown as usize) {
        number(values, place_of(names, unknown))
    } else {
        0
    }
}

/// The integers of all unknowns from 0 to `count`, by those of the new numbers; 0 for unknowns with another label.
pub(crate) fn spread(
    alloc: Global,
    labels: &[u32],
    label: u32,
    names: &[u32],
    values: &[i128],
    count: u32,
) -> Result<Vec<i128>, AllocError>
    requires few { length names.now ≤ 65 }
    requires unknowns { count ≤ 64 }
    ensures { IfOk result (λ found. found.items ≡ spread (has_label labels.now label) names.now values.now 0
        (suc count)) }
{
    let mut found = Vec::new(alloc);
    for unknown in 0..count + 1 {
        found.push(spread_at(labels, label, names, values, unknown))?;
    }
    Ok(found)
}
