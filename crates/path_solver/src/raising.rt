//! The decision of a condition each of whose choices has one case, by raising values.

ghost use Rattle.std.specs.Prelude.{◌≡◌, ◌≤◌, length, IfOk, IfSome};
ghost use Rattle.path_cond.specs.Coupled.{coupled_symbols};
ghost use Rattle.interval_solver.specs.Domains.{AreDomainsOf};
ghost use Rattle.refutation_check.specs.Accepted.{IsAccepted};
ghost use Rattle.path_solver.specs.Solutions.{IsFound};

use crate::below::facts;
use crate::found::Found;
use crate::origin::{Origin, refute_of};
use crate::singles::Singles;
use difference_solver::laws::cycle_refutes;
use difference_solver::{Raised, raise};
use interval_solver::Domains;
use path_cond::PathCond;
use refutation_check::{Listed, Refutation, Refute, check};
use sn_width::{NoMemory, SymId};
use std::alloc::Global;

fn is_same(first: Origin, second: Origin) -> bool {
    match (first, second) {
        (Origin::Ranges { symbol: one }, Origin::Ranges { symbol: other }) => one == other,
        (Origin::Cases { pick: one }, Origin::Cases { pick: other }) => one == other,
        (Origin::Ranges { .. }, Origin::Cases { .. }) => false,
        (Origin::Cases { .. }, Origin::Ranges { .. }) => false,
    }
}

/// How many of the last origins are this one.
fn count_before(origins: &[Origin], origin: Origin) -> usize {
    let mut count: usize = 0;
    for other in origins.iter().rev() {
        if !is_same(*other, origin) {
            return count;
        }
        count = count.saturating_add(1);
    }
    count
}

/// How many of the first origins are this one.
fn count_behind(origins: &[Origin], origin: Origin) -> usize {
    let mut count: usize = 0;
    for other in origins {
        if !is_same(*other, origin) {
            return count;
        }
        count = count.saturating_add(1);
    }
    count
}

/// A refutation by the bounds of a cycle, of these indices: the choice that each comes from, and then the cycle of what is gathered.
fn refutation_around(
    alloc: Global,
    origins: &[Origin],
    cycle: &[u32],
) -> Result<Refutation, NoMemory> {
    let mut steps = Vec::new(alloc);
    let mut numbers = Vec::new(alloc);
    let mut gathered: usize = 0;
    for index in cycle {
        let index = *index as usize;
        if index < origins.len() {
            let origin = origins[index];
            let number = gathered.saturating_add(count_before(&origins[..index], origin));
            steps.push(refute_of(alloc, origin))?;
            numbers.push(u32::try_from(number).unwrap_or(0))?;
            gathered = number.saturating_add(count_behind(&origins[index..], origin));
        }
    }
    let bounds = Listed::from_vec(numbers);
    steps.push(Refute::Cycle { bounds })?;
    Ok(Listed::from_vec(steps))
}

/// That refutation, where it is accepted.
fn accepted_around(
    alloc: Global,
    cond: &PathCond,
    origins: &[Origin],
    cycle: &[u32],
) -> Result<Option<Refutation>, NoMemory>
    ensures { IfOk result (λ found. IfSome found (IsAccepted cond.now)) }
{
    let refutation = refutation_around(alloc, origins, cycle)?;
    if check(alloc, &refutation, cond)? {
        Ok(Some(refutation))
    } else {
        Ok(None)
    }
}

/// What decides a condition that has one choice of cases alone, where these are its coupled symbols. `None` where it has more, and where
/// raising finds nothing.
pub(crate) fn find_by_raising(
    alloc: Global,
    cond: &PathCond,
    domains: &Domains,
    symbols: &[SymId],
) -> Result<Option<Found>, NoMemory>
    requires domains { AreDomainsOf cond.now domains.now }
    requires symbols { symbols.now ≡ coupled_symbols cond.now }
    requires few { length symbols.now ≤ 64 }
    ensures { IfOk result (λ found. IfSome found (IsFound cond.now)) }
{
    facts();
    cycle_refutes();
    cond.formulas_are_typed();
    if cond.formula_choices() != 1 {
        return Ok(None);
    }
    let Some(singles) = Singles::of(alloc, cond, domains, symbols)? else {
        return Ok(None);
    };
    if singles.bounds.len() > u32::MAX as usize {
        return Ok(None);
    }
    match raise(alloc, singles.bounds.as_slice(), symbols.len() as u32) {
        Err(_) => Err(NoMemory),
        Ok(Raised::Open) => Ok(None),
        Ok(Raised::Least { values }) => Ok(Some(Found::Integers { values })),
        Ok(Raised::Cycle { bounds }) => {
            match accepted_around(alloc, cond, singles.origins.as_slice(), bounds.as_slice())? {
                None => Ok(None),
                Some(refutation) => Ok(Some(Found::Refuted { refutation })),
            }
        }
    }
}
