//! The decision of the condition of a state.

ghost use Rattle.std.specs.Prelude.{◌≡◌, IfOk, IfSome, option_map};
ghost use Rattle.path_cond.specs.Seen.{seen};
ghost use Rattle.path_formula.specs.View.{view};
ghost use Rattle.path_solver.specs.Bases.{IsBaseOf};
ghost use Rattle.exact_records.specs.Points.{IsKnown};
ghost use Rattle.symbolic_engine.specs.Finding.{IsFoundOf, values_in, broken_in};
ghost use Rattle.symbolic_engine.specs.Origins.{condition_seen};

use path_cond::{PathCond, formula_count};
use path_solver::laws::{a_base_stays_one, the_values_of_a_decision_are_a_base};
use path_solver::{Base, Decided, decide_after};
use refutation_check::laws::a_condition_is_judged_by_its_trees;
use refutation_check::{Cause, Listed, Refutation, Verdict};
use sn_width::{NoMemory, Num};
use std::alloc::Global;
use sym_state::SymState;

/// What is found of a condition.
#[derive(Drop)]
pub(crate) enum Judged {
    /// It is not refuted.
    Open { verdict: Verdict },
    Refuted { refutation: Refutation },
}

/// Decides the condition of a state, where a base of it is known or none.
pub(crate) fn find(alloc: Global, state: &SymState, base: Option<&Base>) -> Result<Judged, NoMemory>
    requires { IfSome base (λ b. IsBaseOf state.now.condition b.now) }
    ensures { IfOk result (IsFoundOf (condition_seen state.now)) }
{
    a_condition_is_judged_by_its_trees();
    let condition = state.condition();
    condition.formulas_are_typed();
    match decide_after(alloc, condition, state.domains(), base)? {
        Decided::Sat { values } => Ok(Judged::Open {
            verdict: Verdict::Sat { values },
        }),
        Decided::Unsat { refutation } => Ok(Judged::Refuted { refutation }),
        Decided::Undecided { cause } => Ok(Judged::Open {
            verdict: Verdict::Undecided { cause },
        }),
    }
}

/// The least values that a verdict tells.
fn values_in(verdict: &Verdict) -> Option<&Listed<Num>>
    ensures { option_map (λ values. values.now) result ≡ values_in verdict.now }
{
    match verdict {
        Verdict::Sat { values } => Some(values),
        Verdict::Undecided { cause } => match cause {
            Cause::Outside { values, .. } => Some(values),
            Cause::Cases { .. } => None,
            Cause::Coupled { .. } => None,
        },
    }
}

/// The outside formula that a verdict says to be broken.
fn broken_in(verdict: &Verdict) -> Option<u32>
    ensures { result ≡ broken_in verdict.now }
{
    match verdict {
        Verdict::Sat { .. } => None,
        Verdict::Undecided { cause } => match cause {
            Cause::Outside { pick, .. } => Some(*pick),
            Cause::Cases { .. } => None,
            Cause::Coupled { .. } => None,
        },
    }
}

/// The base that is known where this was found of the condition, or of it without its last symbols.
pub(crate) fn base_of(
    alloc: Global,
    condition: &PathCond,
    before: &Verdict,
) -> Result<Option<Base>, NoMemory>
    requires { IsKnown (seen view condition.now) before.now }
    ensures { IfOk result (λ base. IfSome base (IsBaseOf condition.now)) }
{
    a_condition_is_judged_by_its_trees();
    the_values_of_a_decision_are_a_base();
    a_base_stays_one();
    let Some(values) = values_in(before) else {
        return Ok(None);
    };
    let formulas = formula_count(condition)?;
    let least = values.copy(alloc)?;
    let broken = broken_in(before);
    Ok(Some(Base {
        formulas,
        least,
        broken,
    }))
}
