//! Formulas with few cases that values break, in place of those with many: a conjunction of choices has the product of their cases.

ghost use Rattle.std.specs.Prelude.{IfOk};
ghost use Rattle.path_formula.specs.View.{view, views};
ghost use Rattle.net_compare.specs.Needing.{IsNeeded, IsNeededOfAll, IsNeededOfOne};

use crate::formulas::required;
use path_formula::{Formula, can_split, case_count_of};
use sn_width::{NoMemory, Num};
use std::alloc::Global;

/// The most cases of a formula that is taken whole, and not part by part.
const MOST: u64 = 64;

/// Whether the formula, with the truth `holds`, has few cases.
pub(crate) fn is_short(alloc: Global, formula: &Formula, holds: bool) -> Result<bool, NoMemory> {
    if !can_split(formula) {
        return Ok(true);
    }
    let count = case_count_of(alloc, formula, holds)?;
    Ok(count <= MOST)
}

/// A formula that is true wherever this one has the truth `holds`. Where the values break that they make it false: of a conjunction it is that of
/// one part which they break, and of a choice one of each part.
#[cycle(needed)]
pub(crate) fn needed(
    alloc: Global,
    formula: &Formula,
    holds: bool,
    values: &[Num],
) -> Result<Formula, NoMemory>
    ensures { IfOk result (λ f. IsNeeded (view formula.now) holds (view f)) }
{
    if is_short(alloc, formula, holds)? {
        return required(alloc, formula, holds);
    }
    match formula {
        Formula::And(parts) => {
            if holds {
                needed_of_all(alloc, parts, true, values)
            } else {
                needed_of_one(alloc, parts, false, values)
            }
        }
        Formula::Or(parts) => {
            if holds {
                needed_of_one(alloc, parts, true, values)
            } else {
                needed_of_all(alloc, parts, false, values)
            }
        }
        Formula::Not(part) => needed(alloc, part, !holds, values),
        Formula::Truth(_) => required(alloc, formula, holds),
        Formula::Compare { .. } => required(alloc, formula, holds),
        Formula::Member { .. } => required(alloc, formula, holds),
    }
}

/// The same where each of these is to have the truth: that of the first that has not.
#[cycle(needed)]
fn needed_of_all(
    alloc: Global,
    parts: &Vec<Formula>,
    holds: bool,
    values: &[Num],
) -> Result<Formula, NoMemory>
    ensures { IfOk result (λ f. IsNeededOfAll (views parts.now.items) holds (view f)) }
{
    for part in parts {
        if !part.agrees(holds, values) {
            return needed(alloc, part, holds, values);
        }
    }
    Ok(Formula::Truth(true))
}

/// The same where one of these is to have the truth.
#[cycle(needed)]
fn needed_of_one(
    alloc: Global,
    parts: &Vec<Formula>,
    holds: bool,
    values: &[Num],
) -> Result<Formula, NoMemory>
    ensures { IfOk result (λ f. IsNeededOfOne (views parts.now.items) holds (view f)) }
{
    let mut list = Vec::with_capacity(alloc, parts.len())?;
    for part in parts {
        list.push(needed(alloc, part, holds, values)?)?;
    }
    Ok(Formula::Or(list))
}
