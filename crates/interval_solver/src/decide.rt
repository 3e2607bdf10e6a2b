//! The decision of a condition by its constant and its simple formulas.

ghost use Rattle.std.specs.Prelude.{◌≡◌, ◌<◌, ℕ, true, false, [], List, None, reverse, unwrap_or, option_copied, IfOk, IfSome};
ghost use Rattle.sn_ranges.specs.Ranges.{IsLeast, is_member};
ghost use Rattle.path_cond.specs.Conditions.{first_broken, holds_at};
ghost use Rattle.interval_solver.specs.Domains.{AreDomainsOf, first_empty};
ghost use Rattle.path_formula.specs.Typed.{AreValues};
ghost use Rattle.interval_solver.specs.Verdicts.{AreLeastValues, IsVerdictOn, is_refuting};

use crate::domains::Domains;
use crate::laws;
use path_cond::PathCond;
use sn_ranges::Ranges;
use sn_tree::Shared;
use sn_width::{NoMemory, Num, SymId};
use std::alloc::Global;

/// What the constant and the simple formulas of a condition say.
#[derive(Drop)]
pub enum SimpleVerdict {
    /// For each symbol the least value that meets its simple formulas.
    Values { values: Vec<Num> },
    /// The constant formula of this pick, the least such, has not the truth that it must have.
    False { pick: u32 },
    /// No value meets the symbol's simple formulas, which have these picks, ascending.
    Empty { symbol: SymId, picks: Vec<u32> },
}

/// The verdict on a condition with these domains.
pub fn decide_simple(
    alloc: Global,
    cond: &PathCond,
    domains: &Domains,
) -> Result<SimpleVerdict, NoMemory>
    requires { AreDomainsOf cond.now domains.now }
    ensures broken { IfSome (first_broken cond.now) (λ pick. result ≡ Ok (SimpleVerdict.False pick)) }
    ensures verdict { IfOk result (IsVerdictOn cond.now) }
    ensures refuted { IfOk result (λ verdict. is_refuting verdict ≡ true → (values : List ℕ)
        → AreValues cond.now.widths values → holds_at cond.now values ≡ false) }
{
    laws::a_verdict_refutes();
    if let Some(pick) = cond.first_broken() {
        return Ok(SimpleVerdict::False { pick });
    }
    match domains.first_empty() {
        Some(symbol) => {
            let picks = ascending(alloc, cond.simple_picks(symbol))?;
            Ok(SimpleVerdict::Empty { symbol, picks })
        }
        None => {
            let values = least_values(alloc, cond, domains)?;
            Ok(SimpleVerdict::Values { values })
        }
    }
}

/// The picks from the oldest on; they stand the newest first.
fn ascending(alloc: Global, picks: Option<&Shared<u32>>) -> Result<Vec<u32>, NoMemory>
    ensures { IfOk result (λ list. list.items ≡ reverse (unwrap_or (option_copied picks.entry) [])) }
{
    match picks {
        None => Ok(Vec::new(alloc)),
        Some(picks) => {
            let mut list: Vec<u32> = picks.iter().copied().collect(alloc)?;
            list.reverse();
            Ok(list)
        }
    }
}

/// The least value of each domain, where none is empty.
fn least_values(alloc: Global, cond: &PathCond, domains: &Domains) -> Result<Vec<Num>, NoMemory>
    requires domains { AreDomainsOf cond.now domains.now }
    requires filled { first_empty domains.now ≡ None }
    ensures { IfOk result (λ values. AreLeastValues cond.now values.items) }
{
    let mut values = Vec::new(alloc);
    for symbol in 0..cond.symbols() {
        match domains.get(SymId(symbol)) {
            None => unreachable!(),
            Some(set) => values.push(least_of(set))?,
        }
    }
    Ok(values)
}

/// The least number of a set that has one.
fn least_of(set: &Ranges) -> Num
    requires { (value : ℕ) × (is_member set.now.pairs value ≡ true) }
    ensures { IsLeast set.now.pairs result }
{
    match set.least() {
        None => unreachable!(),
        Some(value) => value,
    }
}
