//! The number of choices of cases of a condition.

ghost use Rattle.std.specs.Prelude.{◌≡◌, ◌<◌, ◌*◌, length, map, IfOk};
ghost use Rattle.path_formula.specs.CaseCounts.{capped};
ghost use Rattle.path_cond.specs.Coupled.{coupled_symbols as symbols_coupled};
ghost use Rattle.path_cond.specs.Counts.{formula_choices, product, range_count, choice_count};

use crate::PathCond;
use crate::coupled::coupled_symbols;
use path_formula::case_laws::a_set_has_the_ranges_of_its_test;
use sn_width::{NoMemory, SymId};
use std::alloc::Global;

/// The product of the numbers, and `2^64 - 1` where it is more.
fn product_of(numbers: &[u64]) -> u64
    ensures { result ≡ capped (product numbers.now) }
{
    let mut total: u64 = 1;
    for number in numbers {
        total = total.saturating_mul(*number);
    }
    total
}

/// The number of choices of cases, where these are the numbers of ranges of the domains of the coupled symbols,
/// ascending by symbol.
pub fn case_count_with(cond: &PathCond, range_counts: &[u64]) -> u64
    requires { range_counts.now ≡ map (range_count cond.now) (symbols_coupled cond.now) }
    ensures { result ≡ choice_count cond.now }
{
    cond.formula_choices()
        .saturating_mul(product_of(range_counts))
}

/// The number of ranges of the domain of the symbol.
fn count_ranges(alloc: Global, cond: &PathCond, symbol: SymId) -> Result<u64, NoMemory>
    requires { symbol.0 < length cond.now.widths }
    ensures { IfOk result (λ count. count ≡ range_count cond.now symbol) }
{
    a_set_has_the_ranges_of_its_test();
    let set = cond.domain(alloc, symbol)?;
    Ok(set.len() as u64)
}

/// The numbers of ranges of the domains of the coupled symbols.
fn count_all_ranges(alloc: Global, cond: &PathCond) -> Result<Vec<u64>, NoMemory>
    ensures { IfOk result (λ counts. counts.items ≡ map (range_count cond.now) (symbols_coupled cond.now)) }
{
    let symbols = coupled_symbols(alloc, cond)?;
    let mut counts = Vec::new(alloc);
    for symbol in &symbols {
        counts.push(count_ranges(alloc, cond, *symbol)?)?;
    }
    Ok(counts)
}

/// The number of choices of a case of each inside formula and of a range of the domain of each coupled symbol, and
/// `2^64 - 1` where there are more.
pub fn case_count(alloc: Global, cond: &PathCond) -> Result<u64, NoMemory>
    ensures { IfOk result (λ count. count ≡ choice_count cond.now) }
{
    let counts = count_all_ranges(alloc, cond)?;
    Ok(case_count_with(cond, &counts))
}
