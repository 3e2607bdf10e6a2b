//! The cases of a formula.

ghost use Rattle.std.specs.Prelude.{◌≡◌, ◌++◌, IfOk, OnOk};
ghost use Rattle.path_formula.specs.View.{view, views};
ghost use Rattle.path_formula.specs.Bounds.{lists_of};
ghost use Rattle.path_formula.specs.Cases.{cases_of, cases_of_all, cases_of_any, joined, with_bounds};
ghost use Rattle.path_formula.specs.Splits.{CanSplit, EachCanSplit};

use crate::Formula;
use crate::atoms::{agree, comparison, constant, membership};
use crate::case_count::count_all;
use crate::sym_bound::SymBound;
use sn_width::NoMemory;
use std::alloc::Global;

/// The cases of the formula with the truth `holds`: it has this truth exactly where the values of its symbols, as integers,
/// meet all bounds of one of the cases. The formula has cases (`can_split`).
#[cycle(split)]
pub fn cases(alloc: Global, formula: &Formula, holds: bool) -> Result<Vec<Vec<SymBound>>, NoMemory>
    requires { CanSplit (view formula.now) }
    ensures { IfOk result (λ cases. lists_of cases.items ≡ cases_of (view formula.now) holds) }
{
    match formula {
        Formula::Truth(truth) => constant(alloc, agree(holds, *truth)),
        Formula::Compare { rel, left, right } => comparison(
            alloc, formula, *rel, left, right, holds,
        ),
        Formula::Member { value, ranges } => membership(alloc, formula, value, ranges, holds),
        Formula::And(parts) => {
            if holds {
                cases_all(alloc, parts, true)
            } else {
                cases_any(alloc, parts, false)
            }
        }
        Formula::Or(parts) => {
            if holds {
                cases_any(alloc, parts, true)
            } else {
                cases_all(alloc, parts, false)
            }
        }
        Formula::Not(part) => cases(alloc, part, !holds),
    }
}

/// Each choice of one case of each formula.
#[cycle(split)]
fn cases_all(
    alloc: Global,
    parts: &Vec<Formula>,
    holds: bool,
) -> Result<Vec<Vec<SymBound>>, NoMemory>
    requires { EachCanSplit (views parts.now.items) }
    ensures { IfOk result (λ cases. lists_of cases.items ≡ cases_of_all (views parts.now.items) holds) }
{
    if count_all(alloc, parts, holds)? == 0 {
        return Ok(Vec::new(alloc));
    }
    let mut choices = constant(alloc, true)?;
    for part in parts {
        let more = cases(alloc, part, holds)?;
        choices = join(alloc, &choices, &more)?;
    }
    Ok(choices)
}

/// The cases of each formula, in their order.
#[cycle(split)]
fn cases_any(
    alloc: Global,
    parts: &Vec<Formula>,
    holds: bool,
) -> Result<Vec<Vec<SymBound>>, NoMemory>
    requires { EachCanSplit (views parts.now.items) }
    ensures { IfOk result (λ cases. lists_of cases.items ≡ cases_of_any (views parts.now.items) holds) }
{
    let mut found = Vec::new(alloc);
    for part in parts {
        let mut more = cases(alloc, part, holds)?;
        found.append(&mut more)?;
    }
    Ok(found)
}

/// Each choice of one of the first and one of the second, that of the first varying slowest.
fn join(
    alloc: Global,
    firsts: &Vec<Vec<SymBound>>,
    seconds: &Vec<Vec<SymBound>>,
) -> Result<Vec<Vec<SymBound>>, NoMemory>
    ensures { IfOk result (λ cases. lists_of cases.items
        ≡ joined (lists_of firsts.now.items) (lists_of seconds.now.items)) }
{
    let mut choices = Vec::new(alloc);
    for first in firsts {
        push_joined(alloc, &mut choices, first, seconds)?;
    }
    Ok(choices)
}

/// Adds the first bounds with each of the second.
fn push_joined(
    alloc: Global,
    choices: &mut Vec<Vec<SymBound>>,
    first: &Vec<SymBound>,
    seconds: &Vec<Vec<SymBound>>,
) -> Result<(), NoMemory>
    ensures { OnOk result (lists_of choices.new.items
        ≡ lists_of choices.old.items ++ with_bounds (lists_of seconds.now.items) first.now.items) }
{
    for second in seconds {
        let mut choice = Vec::from_slice(alloc, first)?;
        choice.extend_from_slice(second)?;
        choices.push(choice)?;
    }
    Ok(())
}
