//! What a step of a refutation leaves to be refuted.

ghost use Rattle.std.specs.Prelude.{◌≡◌, ◌≤◌, length, ◌↔◌, true, false, [], List, IsTrue, IfOk, MatchOption};
ghost use Rattle.path_formula.specs.Bounds.{Case, lists_of};
ghost use Rattle.path_formula.specs.Cases.{cases_of};
ghost use Rattle.path_formula.specs.Splits.{CanSplit};
ghost use Rattle.path_formula.specs.View.{view};
ghost use Rattle.path_cond.specs.Counts.{domain_cases};
ghost use Rattle.path_cond.specs.Picks.{are_simple_picks, is_simple_pick};
ghost use Rattle.refutation_check.specs.Accepted.{IsUnmeetable, IsDivisible, IsSplitInto, Leaves};

use crate::cycle::is_negative_cycle;
use crate::steps::Refute;
use path_cond::{PathCond, values_meeting};
use path_formula::case_laws::a_set_has_the_ranges_of_its_test;
use path_formula::{Formula, SymBound, can_split, case_count_of, cases, member_at, range_cases};
use sn_width::{NoMemory, SymId};
use std::alloc::Global;

/// The widest symbol whose domain may be divided, in bits.
const WIDEST: u8 = 64;

/// Whether the formula of the pick is simple on the symbol.
fn is_simple(cond: &PathCond, symbol: SymId, pick: u32) -> bool
    ensures { result ≡ is_simple_pick symbol cond.now pick }
{
    match cond.entry(pick) {
        None => false,
        Some((formula, _)) => formula.kind().is_on(symbol),
    }
}

fn are_simple(cond: &PathCond, symbol: SymId, picks: &[u32]) -> bool
    ensures { result ≡ are_simple_picks symbol cond.now picks.now }
{
    for pick in picks {
        if !is_simple(cond, symbol, *pick) {
            return false;
        }
    }
    true
}

/// Whether the picks are of simple formulas on the symbol that no value of its width meets together.
fn is_unmeetable(
    alloc: Global,
    cond: &PathCond,
    symbol: SymId,
    picks: &[u32],
) -> Result<bool, NoMemory>
    ensures { IfOk result (λ yes. IsTrue yes ↔ IsUnmeetable cond.now symbol picks.now) }
{
    if symbol.0 >= cond.symbols() || !are_simple(cond, symbol, picks) {
        return Ok(false);
    }
    let set = values_meeting(alloc, cond, symbol, picks)?;
    Ok(set.least().is_none())
}

/// The cases of the symbol's domain; `None` where it may not be divided.
fn cases_of_domain(
    alloc: Global,
    cond: &PathCond,
    symbol: SymId,
    room: usize,
) -> Result<Option<Vec<Vec<SymBound>>>, NoMemory>
    ensures { IfOk result (λ found. MatchOption found
        (IsDivisible cond.now symbol → length (domain_cases cond.now symbol) ≤ room → ⊥)
        (λ cases. IsDivisible cond.now symbol × (lists_of cases.items ≡ domain_cases cond.now symbol))) }
{
    a_set_has_the_ranges_of_its_test();
    let Some(width) = cond.width(symbol) else {
        return Ok(None);
    };
    if width.bits() > WIDEST {
        return Ok(None);
    }
    let set = cond.domain(alloc, symbol)?;
    if set.len() > room {
        return Ok(None);
    }
    let cases = range_cases(alloc, symbol, &set)?;
    Ok(Some(cases))
}

/// The cases of the formula; `None` where it has no cases, or more than there is room for.
fn cases_of_formula(
    alloc: Global,
    formula: &Formula,
    holds: bool,
    room: usize,
) -> Result<Option<Vec<Vec<SymBound>>>, NoMemory>
    ensures { IfOk result (λ found. MatchOption found
        (CanSplit (view formula.now) → length (cases_of (view formula.now) holds) ≤ room → ⊥)
        (λ cases. CanSplit (view formula.now) × (lists_of cases.items ≡ cases_of (view formula.now) holds))) }
{
    if !can_split(formula) {
        return Ok(None);
    }
    if case_count_of(alloc, formula, holds)? > room as u64 {
        return Ok(None);
    }
    let found = cases(alloc, formula, holds)?;
    Ok(Some(found))
}

/// The cases of the member to which the way leads in the formula of the pick; `None` where there is no such member, it has no
/// cases, or more than there is room for.
fn cases_of_member(
    alloc: Global,
    cond: &PathCond,
    pick: u32,
    way: &[u32],
    room: usize,
) -> Result<Option<Vec<Vec<SymBound>>>, NoMemory>
    ensures { IfOk result (λ found. MatchOption found
        ((cases : List Case) → IsSplitInto cond.now pick way.now cases → length cases ≤ room → ⊥)
        (λ cases. IsSplitInto cond.now pick way.now (lists_of cases.items))) }
{
    let Some((formula, holds)) = cond.entry(pick) else {
        return Ok(None);
    };
    match member_at(formula, holds, way) {
        None => Ok(None),
        Some((member, holds)) => cases_of_formula(alloc, member, holds, room),
    }
}

/// No cases, where the answer is yes.
fn none_where(alloc: Global, yes: bool) -> Option<Vec<Vec<SymBound>>>
    ensures { MatchOption result (yes ≡ false) (λ cases. (yes ≡ true) × (lists_of cases.items ≡ [])) }
{
    if yes { Some(Vec::new(alloc)) } else { None }
}

/// The cases that the step leaves where these bounds are gathered; `None` where it is not right there.
pub(crate) fn cases_left(
    alloc: Global,
    cond: &PathCond,
    gathered: &[SymBound],
    step: &Refute,
    room: usize,
) -> Result<Option<Vec<Vec<SymBound>>>, NoMemory>
    ensures { IfOk result (λ found. MatchOption found
        ((cases : List Case) → Leaves cond.now gathered.now step.now cases → length cases ≤ room → ⊥)
        (λ cases. Leaves cond.now gathered.now step.now (lists_of cases.items))) }
{
    match step {
        Refute::Empty { symbol, picks } => {
            let yes = is_unmeetable(alloc, cond, *symbol, picks.as_slice())?;
            Ok(none_where(alloc, yes))
        }
        Refute::Domain { symbol } => cases_of_domain(alloc, cond, *symbol, room),
        Refute::Split { pick, way } => cases_of_member(alloc, cond, *pick, way.as_slice(), room),
        Refute::Cycle { bounds } => {
            let yes = is_negative_cycle(gathered, bounds.as_slice())?;
            Ok(none_where(alloc, yes))
        }
    }
}
