//! The first outside formula that values break.

ghost use Rattle.std.specs.Prelude.{◌≡◌, IfOk};
ghost use Rattle.path_cond.specs.Picks.{first_where};
ghost use Rattle.refutation_check.specs.Least.{first_broken_outside};
ghost use Rattle.path_solver.specs.Unmet.{is_unmet_at};

use path_cond::count_laws::the_first_of_the_picks_is_the_first_of_the_formulas;
use path_cond::{PathCond, outside_picks};
use sn_width::{NoMemory, Num};
use std::alloc::Global;

/// Whether there is a formula of the pick and it has not the truth that it must have.
fn is_unmet(cond: &PathCond, pick: u32, values: &[Num]) -> bool
    ensures { result ≡ is_unmet_at cond.now values.now pick }
{
    match cond.entry(pick) {
        None => false,
        Some((formula, holds)) => formula.truth(values) != holds,
    }
}

/// The first of the picks whose formula has not the truth that it must have.
fn first_unmet(cond: &PathCond, picks: &[u32], values: &[Num]) -> Option<u32>
    ensures { result ≡ first_where (is_unmet_at cond.now values.now) picks.now }
{
    for pick in picks {
        if is_unmet(cond, *pick, values) {
            return Some(*pick);
        }
    }
    None
}

/// The least pick of an outside formula that has not the truth that it must have. Only the outside formulas are looked at.
pub(crate) fn first_broken_outside(
    alloc: Global,
    cond: &PathCond,
    values: &[Num],
) -> Result<Option<u32>, NoMemory>
    ensures { IfOk result (λ first. first ≡ first_broken_outside cond.now values.now) }
{
    the_first_of_the_picks_is_the_first_of_the_formulas();
    let picks = outside_picks(alloc, cond)?;
    Ok(first_unmet(cond, &picks, values))
}
