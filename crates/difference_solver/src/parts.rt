//! Parts of choices that share no unknowns.

ghost use Rattle.std.specs.Prelude.{◌≡◌, ℕ, ◌^◌, ◌<◌, ◌≤◌, All, IsTrue, map, length, IfOk, if◌then◌else◌};
ghost use Rattle.difference_solver.specs.Bound.{number};
ghost use Rattle.difference_solver.specs.Choices.{lists_of, items_of};
ghost use Rattle.difference_solver.specs.Parts.{has_label, case_passes, choice_passes, part_of, places_of, placed, EachHasLabel, AreApart};
ghost use Rattle.difference_solver.specs.Renaming.{renamed_choices};

use crate::Bound;
use crate::choice::{Choice, Step};
use crate::labels::{first_label, label_of};
use crate::renaming::renamed_choice;
use std::alloc::{AllocError, Global};

/// Whether it is the number zero, or an unknown with the label.
pub(crate) fn has_label(labels: &[u32], label: u32, unknown: usize) -> bool
    ensures { result ≡ has_label labels.now label unknown }
{
    unknown == 0 || label_of(labels, unknown) == label
}

fn case_has_label(labels: &[u32], label: u32, case: &[Bound]) -> bool
    ensures { result ≡ case_passes (has_label labels.now label) case.now }
{
    for bound in case {
        if !has_label(labels, label, bound.plus as usize) {
            return false;
        }
        if !has_label(labels, label, bound.minus as usize) {
            return false;
        }
    }
    true
}

/// Whether all unknowns of the cases have the label.
fn choice_has_label(labels: &[u32], label: u32, cases: &[Vec<Bound>]) -> bool
    ensures { result ≡ choice_passes (has_label labels.now label) (map items_of cases.now) }
{
    for case in cases {
        if !case_has_label(labels, label, case.as_slice()) {
            return false;
        }
    }
    true
}

/// Whether the unknowns of each choice have the same label, and it is up to `last`.
fn each_has_label(labels: &[u32], choices: &[Choice], last: u32) -> bool
    ensures { IsTrue result → EachHasLabel last labels.now (lists_of choices.now) }
{
    for choice in choices {
        let label = first_label(labels, choice);
        if label > last {
            return false;
        }
        if !choice_has_label(labels, label, choice.cases.as_slice()) {
            return false;
        }
    }
    true
}

fn are_up_to(labels: &[u32], last: u32) -> bool
    ensures { IsTrue result → All (λ label. label ≤ last) labels.now }
{
    for label in labels {
        if *label > last {
            return false;
        }
    }
    true
}

/// Whether the labels are up to `last`, and all unknowns of a choice have the same.
pub(crate) fn are_apart(labels: &[u32], choices: &[Choice], last: u32) -> bool
    ensures { IsTrue result → AreApart last labels.now (lists_of choices.now) }
{
    if !are_up_to(labels, last) {
        return false;
    }
    each_has_label(labels, choices, last)
}

/// Choices whose unknowns have the same label, with new numbers for these, and their indices among all choices.
#[derive(Drop)]
pub struct Part {
    pub places: Vec<u32>,
    pub choices: Vec<Choice>,
}

impl Part {
    /// The choices whose unknowns all have the label, by new numbers: the places of the unknowns among the names.
    pub(crate) fn of(
        alloc: Global,
        choices: &[Choice],
        labels: &[u32],
        label: u32,
        names: &[u32],
    ) -> Result<Part, AllocError>
        requires few { length choices.now < 2 ^ 32 }
        requires names { length names.now ≤ 65 }
        ensures places { IfOk result (λ part. part.places.items
            ≡ places_of (has_label labels.now label) 0 (lists_of choices.now)) }
        ensures choices { IfOk result (λ part. lists_of part.choices.items
            ≡ renamed_choices names.now (part_of (has_label labels.now label) (lists_of choices.now))) }
    {
        let mut part = Part {
            places: Vec::new(alloc),
            choices: Vec::new(alloc),
        };
        for (index, choice) in choices.iter().enumerate() {
            let cases = choice.cases.as_slice();
            if choice_has_label(labels, label, cases) {
                part.places.push(index as u32)?;
                part.choices.push(renamed_choice(alloc, names, cases)?)?;
            }
        }
        Ok(part)
    }
}

fn placed(places: &[u32], step: Step) -> Step
    ensures { result ≡ placed places.now step }
{
    match step {
        Step::Split { choice } => Step::Split {
            choice: places.get(choice as usize).copied().unwrap_or(0),
        },
        Step::Cycle { bounds } => Step::Cycle { bounds },
    }
}

/// The steps on the choices at these indices, as steps on all choices.
pub(crate) fn all_placed(
    alloc: Global,
    places: &[u32],
    mut steps: Vec<Step>,
) -> Result<Vec<Step>, AllocError>
    ensures { IfOk result (λ found. found.items ≡ map (placed places.now) steps.items) }
{
    let mut found = Vec::new(alloc);
    while let Some(step) = steps.pop() {
        found.push(placed(places, step))?;
    }
    found.reverse();
    Ok(found)
}

/// Puts the integers of the unknowns with the label in place of those before.
pub(crate) fn put_part(values: &mut Vec<i128>, labels: &[u32], label: u32, part: &[i128])
    requires { length values.old.items ≡ length part.now }
    ensures count { length values.new.items ≡ length values.old.items }
    ensures put { (u : ℕ) → number values.new.items u
        ≡ (if has_label labels.now label u then number part.now u else number values.old.items u) }
{
    for unknown in 0..values.len() {
        if has_label(labels, label, unknown) {
            values[unknown] = part[unknown];
        }
    }
}
