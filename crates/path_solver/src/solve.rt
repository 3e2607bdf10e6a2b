//! The decision by the cases of the inside formulas.

ghost use Rattle.std.specs.Prelude.{◌≡◌, ◌≤◌, None, drop, length, IfOk, IfSome};
ghost use Rattle.path_cond.specs.Conditions.{first_broken};
ghost use Rattle.path_cond.specs.Coupled.{coupled_symbols};
ghost use Rattle.interval_solver.specs.Domains.{AreDomainsOf};
ghost use Rattle.interval_solver.specs.Verdicts.{AreLeastValues};
ghost use Rattle.path_solver.specs.Problems.{IsProblem};
ghost use Rattle.path_solver.specs.Solutions.{IsFound, IsFoundAmong, IsSolved, IsSolvedAmong};
ghost use Rattle.path_solver.specs.Values.{with_integers};

use crate::below::facts;
use crate::found::Found;
use crate::problem::Problem;
use crate::raising::find_by_raising;
use crate::steps::refutation_of;
use crate::values::put_integers;
use difference_solver::{Outcome, find_least};
use interval_solver::Domains;
use path_cond::PathCond;
use refutation_check::{Refutation, are_candidates};
use sn_width::{NoMemory, Num, SymId};
use std::alloc::Global;

/// The most choices of cases of whole formulas that are searched at once. Where there are more, the formulas are searched by their
/// members, few at first.
const MOST_AT_ONCE: u64 = 4096;

/// What the cases of a condition decide.
#[derive(Drop)]
pub enum Solved {
    /// The least values that satisfy every formula that is not outside.
    Values { values: Vec<Num> },
    /// No values satisfy every formula that is not outside.
    Refuted { refutation: Refutation },
}

/// What the search among these choices finds, where these are the coupled symbols.
fn find_among(
    alloc: Global,
    cond: &PathCond,
    problem: &Problem,
    symbols: &[SymId],
) -> Result<Found, NoMemory>
    requires problem { IsProblem cond.now problem.now }
    requires symbols { symbols.now ≡ coupled_symbols cond.now }
    requires few { length symbols.now ≤ 64 }
    ensures { IfOk result (IsFoundAmong cond.now problem.now.steps.items) }
{
    facts();
    cond.formulas_are_typed();
    if problem.choices.len() > u32::MAX as usize {
        return Err(NoMemory);
    }
    match find_least(alloc, problem.choices.as_slice(), symbols.len() as u32) {
        Err(_) => Err(NoMemory),
        Ok(Outcome::Least { values }) => Ok(Found::Integers { values }),
        Ok(Outcome::Refuted { steps }) => {
            let refutation = refutation_of(alloc, problem.steps.as_slice(), steps)?;
            Ok(Found::Refuted { refutation })
        }
    }
}

/// What the search for cases of all formulas finds, where these are the coupled symbols.
fn find_by_cases(
    alloc: Global,
    cond: &PathCond,
    domains: &Domains,
    symbols: &[SymId],
) -> Result<Found, NoMemory>
    requires domains { AreDomainsOf cond.now domains.now }
    requires symbols { symbols.now ≡ coupled_symbols cond.now }
    requires few { length symbols.now ≤ 64 }
    ensures { IfOk result (IsFound cond.now) }
{
    cond.formulas_are_typed();
    let problem = Problem::of(alloc, cond, domains, symbols)?;
    find_among(alloc, cond, &problem, symbols)
}

/// What decides the cases, where these are the coupled symbols: found by raising values, where there is one choice of cases alone.
fn find(
    alloc: Global,
    cond: &PathCond,
    domains: &Domains,
    symbols: &[SymId],
) -> Result<Found, NoMemory>
    requires domains { AreDomainsOf cond.now domains.now }
    requires symbols { symbols.now ≡ coupled_symbols cond.now }
    requires few { length symbols.now ≤ 64 }
    ensures { IfOk result (IsFound cond.now) }
{
    match find_by_raising(alloc, cond, domains, symbols)? {
        Some(found) => Ok(found),
        None => find_by_cases(alloc, cond, domains, symbols),
    }
}

/// The values of the coupled symbols as found, and the least of the others.
fn values_of(
    alloc: Global,
    symbols: &[SymId],
    leasts: &[Num],
    integers: &[i128],
) -> Result<Vec<Num>, NoMemory>
    ensures { IfOk result (λ values. values.items ≡ with_integers leasts.now symbols.now (drop 1 integers.now)) }
{
    let mut values = Vec::from_slice(alloc, leasts)?;
    put_integers(&mut values, symbols, integers);
    Ok(values)
}

/// What the choices that are given decide, where these are the least values of the domains: values that are the least, if they satisfy
/// the condition's formulas that are not outside, or a refutation.
fn solve_among(
    alloc: Global,
    cond: &PathCond,
    problem: &Problem,
    symbols: &[SymId],
    leasts: &[Num],
) -> Result<Solved, NoMemory>
    requires problem { IsProblem cond.now problem.now }
    requires symbols { symbols.now ≡ coupled_symbols cond.now }
    requires few { length symbols.now ≤ 64 }
    requires leasts { AreLeastValues cond.now leasts.now }
    ensures { IfOk result (IsSolvedAmong cond.now) }
{
    facts();
    cond.formulas_are_typed();
    match find_among(alloc, cond, problem, symbols)? {
        Found::Refuted { refutation } => Ok(Solved::Refuted { refutation }),
        Found::Integers { values: integers } => {
            let values = values_of(alloc, symbols, leasts, integers.as_slice())?;
            Ok(Solved::Values { values })
        }
    }
}

/// Decides a condition by its cases, where no constant formula is broken, these are the coupled symbols, and these are the least values
/// of the domains. Of the members of the formulas those alone are given to the search that values found before have broken. `None`
/// where values are found that break a formula and no member.
fn solve_by_members(
    alloc: Global,
    cond: &PathCond,
    domains: &Domains,
    symbols: &[SymId],
    leasts: &[Num],
) -> Result<Option<Solved>, NoMemory>
    requires domains { AreDomainsOf cond.now domains.now }
    requires symbols { symbols.now ≡ coupled_symbols cond.now }
    requires few { length symbols.now ≤ 64 }
    requires leasts { AreLeastValues cond.now leasts.now }
    ensures { IfOk result (λ found. IfSome found (IsSolved cond.now)) }
{
    let mut problem = Problem::of_domains(alloc, cond, domains, symbols)?;
    // the search among the domains alone would find these
    problem.add_broken(alloc, cond, symbols, leasts)?;
    for _turn in 0..u64::MAX {
        match solve_among(alloc, cond, &problem, symbols, leasts)? {
            Solved::Refuted { refutation } => return Ok(Some(Solved::Refuted { refutation })),
            Solved::Values { values } => {
                if are_candidates(cond, values.as_slice())? {
                    return Ok(Some(Solved::Values { values }));
                }
                if !problem.add_broken(alloc, cond, symbols, values.as_slice())? {
                    return Ok(None);
                }
            }
        }
    }
    Ok(None)
}

/// Decides a condition by all cases of its formulas at once, where no constant formula is broken, these are the coupled symbols, and
/// these are the least values of the domains.
fn solve_at_once(
    alloc: Global,
    cond: &PathCond,
    domains: &Domains,
    symbols: &[SymId],
    leasts: Vec<Num>,
) -> Result<Solved, NoMemory>
    requires domains { AreDomainsOf cond.now domains.now }
    requires symbols { symbols.now ≡ coupled_symbols cond.now }
    requires few { length symbols.now ≤ 64 }
    requires unbroken { first_broken cond.now ≡ None }
    requires leasts { AreLeastValues cond.now leasts.items }
    ensures { IfOk result (IsSolved cond.now) }
{
    facts();
    cond.formulas_are_typed();
    match find(alloc, cond, domains, symbols)? {
        Found::Refuted { refutation } => Ok(Solved::Refuted { refutation }),
        Found::Integers { values: integers } => {
            let mut values = leasts;
            put_integers(&mut values, symbols, integers.as_slice());
            Ok(Solved::Values { values })
        }
    }
}

/// Decides a condition by its cases, where no constant formula is broken, these are the coupled symbols, and these are the
/// least values of the domains.
pub(crate) fn solve_cases(
    alloc: Global,
    cond: &PathCond,
    domains: &Domains,
    symbols: &[SymId],
    leasts: Vec<Num>,
) -> Result<Solved, NoMemory>
    requires domains { AreDomainsOf cond.now domains.now }
    requires symbols { symbols.now ≡ coupled_symbols cond.now }
    requires few { length symbols.now ≤ 64 }
    requires unbroken { first_broken cond.now ≡ None }
    requires leasts { AreLeastValues cond.now leasts.items }
    ensures { IfOk result (IsSolved cond.now) }
{
    if cond.formula_choices() > MOST_AT_ONCE {
        if let Some(solved) = solve_by_members(alloc, cond, domains, symbols, leasts.as_slice())? {
            return Ok(solved);
        }
    }
    solve_at_once(alloc, cond, domains, symbols, leasts)
}
