//! What an earlier decision found, as a base of a later one.

ghost use Rattle.std.specs.Prelude.{◌≡◌, ◌<◌, ◌≤◌, ◌-◌, ◌++◌, length, drop, slice_get, IfOk, IfSome};
ghost use Rattle.std.specs.List.{list_all, position_from};
ghost use Rattle.interval_solver.specs.Domains.{AreDomainsOf};
ghost use Rattle.refutation_check.specs.Least.{first_broken_outside, holds_unless_outside, is_broken_outside};
ghost use Rattle.refutation_check.specs.Longer.{zeros};
ghost use Rattle.path_solver.specs.Bases.{IsBaseOf, IsOnBase};

use crate::moved::move_value;
use crate::outside::first_broken_outside;
use interval_solver::Domains;
use path_cond::{PathCond, formula_count};
use refutation_check::Listed;
use refutation_check::laws::least_values_stay;
use sn_width::{NoMemory, Num};
use std::alloc::Global;

/// What an earlier decision found of a condition that had the first symbols and the first formulas of a later one.
#[derive(Drop)]
pub struct Base {
    /// How many formulas it had.
    pub formulas: u32,
    /// Its least values, one for each of its symbols.
    pub least: Listed<Num>,
    /// The first of its outside formulas that these values break.
    pub broken: Option<u32>,
}

/// Whether the formula of the pick is outside, or has the truth that it must have.
fn holds_at(cond: &PathCond, pick: u32, values: &[Num]) -> bool
    requires { pick < length cond.now.entries }
    ensures { IfSome (slice_get cond.now.entries pick) (λ entry. result ≡ holds_unless_outside values.now entry) }
{
    match cond.entry(pick) {
        None => unreachable!(),
        Some((formula, holds)) => formula.kind().is_outside() || formula.truth(values) == holds,
    }
}

/// Whether each formula from a pick on is outside, or has the truth that it must have.
fn hold_from(cond: &PathCond, first: u32, values: &[Num]) -> Result<bool, NoMemory>
    requires { first ≤ length cond.now.entries }
    ensures { IfOk result (λ yes. yes ≡ list_all (holds_unless_outside values.now) (drop first cond.now.entries)) }
{
    for pick in first..formula_count(cond)? {
        if !holds_at(cond, pick, values) {
            return Ok(false);
        }
    }
    Ok(true)
}

/// The values, with a zero behind for each further symbol of the condition.
fn padded(alloc: Global, cond: &PathCond, least: &[Num]) -> Result<Vec<Num>, NoMemory>
    requires { length least.now ≤ length cond.now.widths }
    ensures { IfOk result (λ values. values.items ≡ least.now ++ zeros (drop (length least.now) cond.now.widths)) }
{
    let mut values = Vec::from_slice(alloc, least)?;
    for place in least.len() as u64..cond.symbols() {
        let _symbol = place;
        values.push(0)?;
    }
    Ok(values)
}

/// The least values of a condition, as a base gives them.
#[derive(Drop)]
pub(crate) enum OnBase {
    /// Those of the base, with zeros behind.
    Stay { values: Vec<Num> },
    /// The same, but for one value.
    Moved { values: Vec<Num> },
    /// The base does not give them.
    Unknown,
}

/// The values of the base with zeros behind are the least of this condition too, where these satisfy each formula that is newer than the base
/// and not outside. Where one formula is newer, simple on a symbol, and no formula is inside, the least value of this symbol takes the
/// place of its own.
pub(crate) fn values_on(
    alloc: Global,
    cond: &PathCond,
    domains: &Domains,
    base: &Base,
) -> Result<OnBase, NoMemory>
    requires domains { AreDomainsOf cond.now domains.now }
    requires base { IsBaseOf cond.now base.now }
    ensures { IfOk result (IsOnBase cond.now base.now) }
{
    least_values_stay();
    let mut values = padded(alloc, cond, base.least.as_slice())?;
    let stay = hold_from(cond, base.formulas, values.as_slice())?;
    if stay {
        return Ok(OnBase::Stay { values });
    }
    let moved = move_value(cond, domains, base.formulas, &mut values);
    if moved {
        return Ok(OnBase::Moved { values });
    }
    Ok(OnBase::Unknown)
}

/// Whether the formula of the pick is outside, and has not the truth that it must have.
fn is_broken_at(cond: &PathCond, pick: u32, values: &[Num]) -> bool
    requires { pick < length cond.now.entries }
    ensures { IfSome (slice_get cond.now.entries pick) (λ entry. result ≡ is_broken_outside values.now entry) }
{
    match cond.entry(pick) {
        None => unreachable!(),
        Some((formula, holds)) => formula.kind().is_outside() && formula.truth(values) != holds,
    }
}

/// The first outside formula from a pick on that the values break.
fn first_broken_from(cond: &PathCond, first: u32, values: &[Num]) -> Result<Option<u32>, NoMemory>
    requires { first ≤ length cond.now.entries }
    ensures { IfOk result (λ found. found ≡ position_from (is_broken_outside values.now) first
        (drop first cond.now.entries)) }
{
    for pick in first..formula_count(cond)? {
        if is_broken_at(cond, pick, values) {
            return Ok(Some(pick));
        }
    }
    Ok(None)
}

/// The first outside formula that the values of the base break, with zeros behind. Where no symbol is new, only newer formulas are
/// tried, and those only where the base broke none.
pub(crate) fn broken_on(
    alloc: Global,
    cond: &PathCond,
    base: &Base,
    values: &[Num],
) -> Result<Option<u32>, NoMemory>
    requires base { IsBaseOf cond.now base.now }
    requires padded { values.now ≡ base.now.least ++ zeros (drop (length base.now.least) cond.now.widths) }
    ensures { IfOk result (λ first. first ≡ first_broken_outside cond.now values.now) }
{
    if base.least.as_slice().len() as u64 != cond.symbols() {
        return first_broken_outside(alloc, cond, values);
    }
    match base.broken {
        Some(pick) => Ok(Some(pick)),
        None => first_broken_from(cond, base.formulas, values),
    }
}
