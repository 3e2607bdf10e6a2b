//! The least values of a base with one value moved, where one simple formula is newer and no formula is inside.

ghost use Rattle.std.specs.Prelude.{◌≡◌, ◌+◌, true, None, length, IfSome};
ghost use Rattle.path_cond.specs.Conditions.{Condition, first_broken, is_simple_on};
ghost use Rattle.path_cond.specs.Picks.{is_simple_pick};
ghost use Rattle.interval_solver.specs.Domains.{AreDomainsOf};
ghost use Rattle.interval_solver.specs.Verdicts.{IsLeastPossible};
ghost use Rattle.refutation_check.specs.Least.{AreLeast};
ghost use Rattle.path_solver.specs.Bases.{IsMoved, with_first};
ghost use Rattle.path_solver.specs.Decisions.{HasNoInside};

use crate::below::facts;
use crate::values::put;
use interval_solver::Domains;
use path_cond::PathCond;
use path_formula::Kind;
use sn_width::{Num, SymId};

/// Whether no formula of a condition is inside.
fn has_no_inside(cond: &PathCond) -> bool
    ensures { result ≡ true → HasNoInside cond.now }
{
    cond.inside_picks().is_empty()
}

/// Whether no constant formula of a condition is broken.
fn is_unbroken(cond: &PathCond) -> bool
    ensures { result ≡ true → first_broken cond.now ≡ None }
{
    match cond.first_broken() {
        None => true,
        Some(_pick) => false,
    }
}

/// Whether a condition has one formula more than this many.
fn has_one_more(cond: &PathCond, formulas: u32) -> bool
    ensures { result ≡ true → length cond.now.entries ≡ formulas + 1 }
{
    cond.len() == u64::from(formulas) + 1
}

/// The symbol on which formulas of this kind are simple.
fn symbol_in(kind: Kind) -> Option<SymId>
    ensures { IfSome result (λ s. is_simple_on s kind ≡ true) }
{
    match kind {
        Kind::Simple { symbol } => Some(symbol),
        Kind::Constant(_) => None,
        Kind::Inside => None,
        Kind::Outside => None,
    }
}

/// The symbol on which the formula of a pick is simple.
fn symbol_of(cond: &PathCond, pick: u32) -> Option<SymId>
    ensures { IfSome result (λ s. is_simple_pick s cond.now pick ≡ true) }
{
    match cond.entry(pick) {
        None => None,
        Some((formula, holds)) => {
            let _holds = holds;
            symbol_in(formula.kind())
        }
    }
}

/// The symbol whose value alone may move by the last formula of a condition, behind this many.
fn moved_symbol(cond: &PathCond, formulas: u32) -> Option<SymId>
    ensures { IfSome result (IsMoved cond.now formulas) }
{
    if !has_one_more(cond, formulas) {
        return None;
    }
    if !has_no_inside(cond) {
        return None;
    }
    if !is_unbroken(cond) {
        return None;
    }
    symbol_of(cond, formulas)
}

/// The least value of the domain of a symbol.
fn least_in(domains: &Domains, symbol: SymId) -> Option<Num>
    ensures { IfSome result (λ value. (cond : Condition) → AreDomainsOf cond domains.now
        → IsLeastPossible cond symbol value) }
{
    match domains.get(symbol) {
        None => None,
        Some(set) => set.least(),
    }
}

/// Moves the value of this symbol.
fn move_to_least(
    cond: &PathCond,
    domains: &Domains,
    formulas: u32,
    symbol: SymId,
    values: &mut Vec<Num>,
) -> bool
    requires domains { AreDomainsOf cond.now domains.now }
    requires moved { IsMoved cond.now formulas symbol }
    requires least { AreLeast (with_first formulas cond.now) values.old.items }
    ensures { result ≡ true → AreLeast cond.now values.new.items }
{
    facts();
    cond.formulas_are_typed();
    match least_in(domains, symbol) {
        None => false,
        Some(value) => {
            put(values, symbol.0 as usize, value);
            true
        }
    }
}

/// Makes the least values that a condition has with its first formulas alone, this many, the least of the whole condition, where one value
/// moves. Else it is false.
pub(crate) fn move_value(
    cond: &PathCond,
    domains: &Domains,
    formulas: u32,
    values: &mut Vec<Num>,
) -> bool
    requires domains { AreDomainsOf cond.now domains.now }
    requires least { AreLeast (with_first formulas cond.now) values.old.items }
    ensures { result ≡ true → AreLeast cond.now values.new.items }
{
    match moved_symbol(cond, formulas) {
        None => false,
        Some(symbol) => move_to_least(cond, domains, formulas, symbol, values),
    }
}
