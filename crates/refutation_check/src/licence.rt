//! Which causes may be given for leaving a condition undecided.

ghost use Rattle.std.specs.Prelude.{◌≡◌, ◌<◌, ◌↔◌, ℕ, true, length, IsTrue, IfOk};
ghost use Rattle.sn_width.specs.declared.ids.SymId.{SymId as Symbol};
ghost use Rattle.refutation_check.specs.Decisions.{is_possible, AreManyCoupled, AreManyChoices, AreBreaking, IsSimplyOpen, IsLicensed};

use crate::outcome::Cause;
use crate::values::are_candidates;
use path_cond::{PathCond, case_count};
use sn_width::{NoMemory, Num, SymId};
use std::alloc::Global;

/// The most symbols that may be coupled in a condition that is decided.
pub const MOST_COUPLED: u64 = 64;

/// Whether a value of the symbol's width meets each formula that is simple on the symbol.
fn has_value(alloc: Global, cond: &PathCond, symbol: SymId) -> Result<bool, NoMemory>
    requires { symbol.0 < length cond.now.widths }
    ensures { IfOk result (λ yes. IsTrue yes ↔ ((value : ℕ) × (is_possible cond.now symbol value ≡ true))) }
{
    let set = cond.domain(alloc, symbol)?;
    Ok(set.least().is_some())
}

/// Whether each symbol has such a value.
fn all_have_values(alloc: Global, cond: &PathCond) -> Result<bool, NoMemory>
    ensures { IfOk result (λ yes. IsTrue yes ↔ ((s : Symbol) → s.0 < length cond.now.widths
        → (value : ℕ) × (is_possible cond.now s value ≡ true))) }
{
    for symbol in 0..cond.symbols() {
        if !has_value(alloc, cond, SymId(symbol))? {
            return Ok(false);
        }
    }
    Ok(true)
}

/// Whether neither the constant formulas nor the simple formulas on one symbol refute the condition.
fn is_simply_open(alloc: Global, cond: &PathCond) -> Result<bool, NoMemory>
    ensures { IfOk result (λ yes. IsTrue yes ↔ IsSimplyOpen cond.now) }
{
    if cond.first_broken().is_some() {
        return Ok(false);
    }
    all_have_values(alloc, cond)
}

fn are_many_coupled(alloc: Global, cond: &PathCond, count: u64) -> Result<bool, NoMemory>
    ensures { IfOk result (λ yes. IsTrue yes ↔ AreManyCoupled cond.now count) }
{
    if count <= MOST_COUPLED || cond.coupled_count() != count {
        return Ok(false);
    }
    is_simply_open(alloc, cond)
}

fn are_many_choices(alloc: Global, cond: &PathCond, count: u64) -> Result<bool, NoMemory>
    ensures { IfOk result (λ yes. IsTrue yes ↔ AreManyChoices cond.now count) }
{
    if count <= cond.tried_choices() || case_count(alloc, cond)? != count {
        return Ok(false);
    }
    is_simply_open(alloc, cond)
}

/// Whether the formula of the pick is outside, and the values break it and satisfy every formula that is not outside.
fn are_breaking(cond: &PathCond, pick: u32, values: &[Num]) -> Result<bool, NoMemory>
    ensures { IfOk result (λ yes. IsTrue yes ↔ AreBreaking cond.now pick values.now) }
{
    match cond.entry(pick) {
        None => Ok(false),
        Some((formula, holds)) => {
            if !formula.kind().is_outside() || formula.agrees(holds, values) {
                return Ok(false);
            }
            are_candidates(cond, values)
        }
    }
}

/// Whether the cause may be given for leaving the condition undecided.
pub fn lawful(alloc: Global, cause: &Cause, cond: &PathCond) -> Result<bool, NoMemory>
    ensures { IfOk result (λ yes. IsTrue yes ↔ IsLicensed cond.now cause.now) }
{
    match cause {
        Cause::Outside { pick, values } => are_breaking(cond, *pick, values.as_slice()),
        Cause::Cases { count } => are_many_choices(alloc, cond, *count),
        Cause::Coupled { count } => are_many_coupled(alloc, cond, *count),
    }
}
