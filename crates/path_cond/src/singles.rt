//! The bounds of inside formulas that have one case.

ghost use Rattle.std.specs.Prelude.{◌≡◌, ◌++◌, [], true, if◌then◌else◌, IfOk};
ghost use Rattle.path_formula.specs.View.{view};
ghost use Rattle.path_formula.specs.Bounds.{lists_of};
ghost use Rattle.path_formula.specs.Cases.{cases_of};
ghost use Rattle.path_formula.specs.Splits.{CanSplit};
ghost use Rattle.path_cond.specs.Kept.{first_case, singles_at};

use crate::sequence::Sequence;
use path_formula::{Formula, SymBound, cases};
use sn_width::NoMemory;
use std::alloc::Global;

/// A bound of the only case of an inside formula, and the pick of the formula.
#[derive(Clone, Copy)]
pub struct Single {
    pub bound: SymBound,
    pub pick: u32,
}

/// The bounds of the first case.
fn first_case(cases: &[Vec<SymBound>]) -> &[SymBound]
    ensures { result.now ≡ first_case (lists_of cases.now) }
{
    if cases.is_empty() {
        return &[];
    }
    cases[0].as_slice()
}

/// The singles, and then the bounds of a case.
fn with_case(
    alloc: Global,
    singles: &Sequence<Single>,
    case: &[SymBound],
    pick: u32,
) -> Result<Sequence<Single>, NoMemory>
    ensures { IfOk result (λ list. list ≡ singles.now ++ singles_at pick case.now) }
{
    let mut list = singles.fork()?;
    for bound in case {
        let single = Single {
            bound: *bound,
            pick,
        };
        list = list.push(alloc, single)?;
    }
    Ok(list)
}

/// The singles, and then the bounds of the first case of one more formula, where it has `one` case alone.
pub(crate) fn singles_with(
    alloc: Global,
    singles: &Sequence<Single>,
    formula: &Formula,
    holds: bool,
    one: bool,
    pick: u32,
) -> Result<Sequence<Single>, NoMemory>
    requires { one ≡ true → CanSplit (view formula.now) }
    ensures { IfOk result (λ list. list
        ≡ singles.now ++ singles_at pick (if one then first_case (cases_of (view formula.now) holds) else [])) }
{
    if !one {
        return singles.fork();
    }
    let cases = cases(alloc, formula, holds)?;
    with_case(alloc, singles, first_case(&cases), pick)
}
