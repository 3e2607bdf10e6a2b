//! The least integers of choices, found part by part.

ghost use Rattle.std.specs.Prelude.{ℕ, ◌^◌, ◌≡◌, ◌<◌, ◌≤◌, ◌↔◌, [], ◌∷◌, length, IfOk};
ghost use Rattle.difference_solver.specs.Choices.{lists_of, AreBelow, AreInRange, IsLeast, IsUnmet};
ghost use Rattle.difference_solver.specs.Outcomes.{IfLeast, IfRefuted, IsRefuted};
ghost use Rattle.difference_solver.specs.Parts.{has_label, AreApart, IsPartLeast};
ghost use Rattle.difference_solver.specs.Renaming.{names_of as names_with};
ghost use Rattle.difference_solver.specs.Steps.{Refutes};

use crate::choice::{Choice, Outcome};
use crate::labels::{labels_of, renumber};
use crate::parts::{Part, all_placed, are_apart, put_part};
use crate::renaming::{last_of, names_of, spread};
use crate::search::search;
use sn_width::NoMemory;
use std::alloc::Global;

/// The first integers in the order of words, for the unknowns 0 to `count`, that meet one case of each choice; or a
/// refutation, where no integers do. Unknown 0 is the number zero, and each other unknown is bounded from below. Answers
/// NoMemory too where 2^32 bounds would be gathered.
///
/// Choices that share no unknowns are searched apart: the work is the sum over these parts, and not the product.
pub fn find_least(alloc: Global, choices: &[Choice], count: u32) -> Result<Outcome, NoMemory>
    requires unknowns { count ≤ 64 }
    requires few { length choices.now < 2 ^ 32 }
    requires in_range { AreInRange count (lists_of choices.now) }
    requires below { AreBelow count (lists_of choices.now) }

    ensures least { IfOk result (λ outcome. IfLeast outcome (IsLeast count (lists_of choices.now))) }
    ensures refuted { IfOk result (λ outcome. IfRefuted outcome (Refutes (lists_of choices.now) ([] ∷ []))) }
    ensures unmet { IfOk result (λ outcome. IsRefuted outcome ↔ IsUnmet count (lists_of choices.now)) }
{
    if choices.iter().all(|choice| choice.cases.len() < 2) {
        return search(alloc, choices, count);
    }
    let mut labels = labels_of(alloc, choices, count)?;
    let last = renumber(labels.as_mut_slice(), count);
    if last < 2 || !are_apart(labels.as_slice(), choices, last) {
        return search(alloc, choices, count);
    }
    search_parts(alloc, choices, count, labels.as_slice(), last)
}

/// What is found part by part, where the unknowns of a part have the same label, up to `last`.
fn search_parts(
    alloc: Global,
    choices: &[Choice],
    count: u32,
    labels: &[u32],
    last: u32,
) -> Result<Outcome, NoMemory>
    requires unknowns { count ≤ 64 }
    requires few { length choices.now < 2 ^ 32 }
    requires in_range { AreInRange count (lists_of choices.now) }
    requires below { AreBelow count (lists_of choices.now) }
    requires apart { AreApart last labels.now (lists_of choices.now) }
    requires parts { last ≤ count }

    ensures least { IfOk result (λ outcome. IfLeast outcome (IsLeast count (lists_of choices.now))) }
    ensures refuted { IfOk result (λ outcome. IfRefuted outcome (Refutes (lists_of choices.now) ([] ∷ []))) }
    ensures unmet { IfOk result (λ outcome. IsRefuted outcome → IsUnmet count (lists_of choices.now)) }
{
    let mut values = vec![in alloc; 0i128; count as usize + 1]?;
    for label in 0..last + 1 {
        match search_part(alloc, choices, count, labels, label)? {
            Outcome::Least { values: part } => {
                put_part(&mut values, labels, label, part.as_slice());
            }
            Outcome::Refuted { steps } => return Ok(Outcome::Refuted { steps }),
        }
    }
    Ok(Outcome::Least { values })
}

/// The least integers for the choices whose unknowns have the label, or a refutation of all choices. The unknowns of the
/// part have numbers of their own, so that the solver's work is that of the part.
fn search_part(
    alloc: Global,
    choices: &[Choice],
    count: u32,
    labels: &[u32],
    label: u32,
) -> Result<Outcome, NoMemory>
    requires unknowns { count ≤ 64 }
    requires few { length choices.now < 2 ^ 32 }
    requires in_range { AreInRange count (lists_of choices.now) }
    requires below { AreBelow count (lists_of choices.now) }
    requires apart { (last : ℕ) × AreApart last labels.now (lists_of choices.now) }

    ensures least { IfOk result (λ outcome. IfLeast outcome
        (IsPartLeast count (has_label labels.now label) (lists_of choices.now))) }
    ensures refuted { IfOk result (λ outcome. IfRefuted outcome (Refutes (lists_of choices.now) ([] ∷ []))) }
    ensures unmet { IfOk result (λ outcome. IsRefuted outcome → IsUnmet count (lists_of choices.now)) }
{
    let names = names_of(alloc, labels, label, count)?;
    search_named(alloc, choices, count, labels, label, names.as_slice())
}

/// The same, where these are the unknowns with the label.
fn search_named(
    alloc: Global,
    choices: &[Choice],
    count: u32,
    labels: &[u32],
    label: u32,
    names: &[u32],
) -> Result<Outcome, NoMemory>
    requires unknowns { count ≤ 64 }
    requires choices { length choices.now < 2 ^ 32 }
    requires in_range { AreInRange count (lists_of choices.now) }
    requires below { AreBelow count (lists_of choices.now) }
    requires apart { (last : ℕ) × AreApart last labels.now (lists_of choices.now) }
    requires names { names.now ≡ names_with (has_label labels.now label) count }
    requires some { 0 < length names.now }
    requires few { length names.now ≤ 65 }

    ensures least { IfOk result (λ outcome. IfLeast outcome
        (IsPartLeast count (has_label labels.now label) (lists_of choices.now))) }
    ensures refuted { IfOk result (λ outcome. IfRefuted outcome (Refutes (lists_of choices.now) ([] ∷ []))) }
    ensures unmet { IfOk result (λ outcome. IsRefuted outcome → IsUnmet count (lists_of choices.now)) }
{
    let part = Part::of(alloc, choices, labels, label, names)?;
    let last = last_of(names);
    let found = search(alloc, part.choices.as_slice(), last)?;
    match found {
        Outcome::Least { values } => {
            let integers = spread(alloc, labels, label, names, values.as_slice(), count)?;
            Ok(Outcome::Least { values: integers })
        }
        Outcome::Refuted { steps } => {
            let steps = all_placed(alloc, part.places.as_slice(), steps)?;
            Ok(Outcome::Refuted { steps })
        }
    }
}
