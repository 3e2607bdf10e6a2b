//! Copies of formulas.

ghost use Rattle.std.specs.Prelude.{◌≡◌, IfOk};
ghost use Rattle.path_formula.specs.View.{view, views};

use crate::formula::Formula;
use sn_width::NoMemory;
use std::alloc::Global;

#[cycle(copy)]
pub(crate) fn copy_of(alloc: Global, formula: &Formula) -> Result<Formula, NoMemory>
    ensures { IfOk result (λ copy. view copy ≡ view formula.now) }
{
    match formula {
        Formula::Truth(truth) => Ok(Formula::Truth(*truth)),
        Formula::Compare { rel, left, right } => {
            let left = left.copy(alloc)?;
            let right = right.copy(alloc)?;
            Ok(Formula::Compare {
                rel: *rel,
                left,
                right,
            })
        }
        Formula::Member { value, ranges } => {
            let value = value.copy(alloc)?;
            let ranges = ranges.clone()?;
            Ok(Formula::Member { value, ranges })
        }
        Formula::And(parts) => Ok(Formula::And(copies_of(alloc, parts)?)),
        Formula::Or(parts) => Ok(Formula::Or(copies_of(alloc, parts)?)),
        Formula::Not(part) => Ok(Formula::Not(Box::new(alloc, copy_of(alloc, part)?)?)),
    }
}

#[cycle(copy)]
fn copies_of(alloc: Global, parts: &Vec<Formula>) -> Result<Vec<Formula>, NoMemory>
    ensures { IfOk result (λ copies. views copies.items ≡ views parts.now.items) }
{
    let mut copies = Vec::with_capacity(alloc, parts.len())?;
    for part in parts {
        copies.push(copy_of(alloc, part)?)?;
    }
    Ok(copies)
}
