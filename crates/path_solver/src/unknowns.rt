//! Unknowns of bounds, for the symbols of a list.

ghost use Rattle.std.specs.Prelude.{◌≡◌, ◌<◌, ◌≤◌, List, length, IfOk, IfSome};
ghost use Rattle.path_formula.specs.Bounds.{lists_of};
ghost use Rattle.difference_solver.specs.Choices.{cases_of};
ghost use Rattle.path_solver.specs.Unknowns.{IsTableOf, unknown_of, bound_of, case_of, choice_of};
ghost use Rattle.sn_width.specs.declared.ids.SymId.{SymId as Symbol};

use difference_solver::{Bound, Choice};
use path_formula::SymBound;
use sn_width::{NoMemory, SymId};
use std::alloc::{AllocError, Global};

/// The unknown of a symbol, counted from 1 in the order of the list; 0 for the number zero.
fn unknown_of(symbols: &[SymId], symbol: Option<SymId>) -> u32
    requires { length symbols.now ≤ 64 }
    ensures { result ≡ unknown_of symbols.now symbol }
{
    let Some(symbol) = symbol else {
        return 0;
    };
    for (place, listed) in symbols.iter().enumerate() {
        if listed.0 == symbol.0 {
            return place as u32 + 1;
        }
    }
    0
}

fn bound_of(symbols: &[SymId], bound: &SymBound) -> Bound
    requires { length symbols.now ≤ 64 }
    ensures { result ≡ bound_of symbols.now bound.now }
{
    Bound {
        plus: unknown_of(symbols, bound.plus),
        minus: unknown_of(symbols, bound.minus),
        at_most: bound.at_most,
    }
}

fn case_of(alloc: Global, symbols: &[SymId], case: &[SymBound]) -> Result<Vec<Bound>, AllocError>
    requires { length symbols.now ≤ 64 }
    ensures { IfOk result (λ bounds. bounds.items ≡ case_of symbols.now case.now) }
{
    let mut bounds = Vec::new(alloc);
    for bound in case {
        bounds.push(bound_of(symbols, bound))?;
    }
    Ok(bounds)
}

/// The cases, with unknowns for the symbols of the list.
pub(crate) fn choice_of(
    alloc: Global,
    symbols: &[SymId],
    cases: &[Vec<SymBound>],
) -> Result<Choice, NoMemory>
    requires { length symbols.now ≤ 64 }
    ensures { IfOk result (λ choice. cases_of choice ≡ choice_of symbols.now (lists_of cases.now)) }
{
    let mut renamed = Vec::new(alloc);
    for case in cases {
        renamed.push(case_of(alloc, symbols, case.as_slice())?)?;
    }
    Ok(Choice { cases: renamed })
}

/// The unknown of each symbol at its place, counted from 1 in the order of the list, and 0 for a symbol that is none of it; so
/// that the list is not gone through for each bound. `None` where the list has a symbol that is not below the count.
pub(crate) fn table_of(
    alloc: Global,
    symbols: &[SymId],
    count: u64,
) -> Result<Option<Vec<u32>>, NoMemory>
    requires { length symbols.now ≤ 64 }
    ensures { IfOk result (λ found. IfSome found (λ table. IsTableOf symbols.now table.items)) }
{
    let mut table = vec![in alloc; 0u32; count as usize]?;
    for step in 0..symbols.len() {
        // from the last on, so that the first of equal ones stays
        let place = symbols.len() - 1 - step;
        let symbol = symbols[place];
        if symbol.0 >= table.len() as u64 {
            return Ok(None);
        }
        table[symbol.0 as usize] = place as u32 + 1;
    }
    Ok(Some(table))
}

/// The unknown of a symbol, by the table of the symbols.
fn unknown_in(table: &[u32], symbol: Option<SymId>) -> u32
    ensures { (symbols : List Symbol) → IsTableOf symbols table.now → result ≡ unknown_of symbols symbol }
{
    match symbol {
        None => 0,
        Some(symbol) => table.get(symbol.0 as usize).copied().unwrap_or(0),
    }
}

/// The bound, by the table of the symbols.
pub(crate) fn bound_in(table: &[u32], bound: &SymBound) -> Bound
    ensures { (symbols : List Symbol) → IsTableOf symbols table.now → result ≡ bound_of symbols bound.now }
{
    Bound {
        plus: unknown_in(table, bound.plus),
        minus: unknown_in(table, bound.minus),
        at_most: bound.at_most,
    }
}
