//! The number of choices of cases, where the domains are known.

ghost use Rattle.std.specs.Prelude.{◌≡◌, true, IfOk};
ghost use Rattle.path_cond.specs.Counts.{choice_count, range_count};
ghost use Rattle.path_cond.specs.Coupled.{coupled_symbols};
ghost use Rattle.interval_solver.specs.Domains.{AreDomainsOf};
ghost use Rattle.path_solver.specs.Unknowns.{is_listed};

use crate::below::facts;
use interval_solver::Domains;
use path_cond::{PathCond, case_count_with};
use sn_width::{NoMemory, SymId};
use std::alloc::Global;

/// The number of ranges of the domain of a coupled symbol.
fn count_ranges(cond: &PathCond, domains: &Domains, symbol: SymId) -> u64
    requires domains { AreDomainsOf cond.now domains.now }
    requires coupled { is_listed (coupled_symbols cond.now) symbol ≡ true }
    ensures { result ≡ range_count cond.now symbol }
{
    facts();
    cond.formulas_are_typed();
    match domains.get(symbol) {
        None => unreachable!(),
        Some(set) => set.len() as u64,
    }
}

/// The number of choices of cases of a condition that has these coupled symbols.
pub(crate) fn count_choices(
    alloc: Global,
    cond: &PathCond,
    domains: &Domains,
    symbols: &[SymId],
) -> Result<u64, NoMemory>
    requires domains { AreDomainsOf cond.now domains.now }
    requires symbols { symbols.now ≡ coupled_symbols cond.now }
    ensures { IfOk result (λ count. count ≡ choice_count cond.now) }
{
    let mut counts = Vec::new(alloc);
    for symbol in symbols {
        counts.push(count_ranges(cond, domains, *symbol))?;
    }
    Ok(case_count_with(cond, &counts))
}
