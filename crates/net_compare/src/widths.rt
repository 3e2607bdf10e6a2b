//! Symbols of two conditions.

ghost use Rattle.std.specs.Prelude.{◌≡◌, ◌↔◌, ◌⊎◌, IfOk, IsTrue};
ghost use Rattle.compare_meaning.specs.Clashes.{Begins};
ghost use Rattle.compare_meaning.specs.Facing.{longer};
ghost use Rattle.interval_solver.specs.Domains.{with_width};
ghost use Rattle.net_compare.specs.Joining.{IsReady, with_widths};
ghost use Rattle.net_compare.specs.Matching.{Match};

use crate::joining::Decidable;
use path_cond::PathCond;
use sn_width::{NoMemory, SymId, Width};
use std::alloc::Global;

/// Whether the widths of the symbols of one of the two conditions begin those of the other.
#[tactic(auto, using(crate::proofs::Matched::matched_is_begun))]
pub(crate) fn agree(one: &PathCond, other: &PathCond) -> bool
    ensures { IsTrue result ↔ (Begins one.now.widths other.now.widths ⊎ Begins other.now.widths one.now.widths) }
{
    do_match(one, other)
}

/// Whether the widths of the symbols of one condition begin those of the other.
#[tactic(auto, using(crate::proofs::Matched::shorter_begins, crate::proofs::Matched::begins_matches, crate::proofs::Matched::begins_shorter))]
pub(crate) fn begins(one: &PathCond, other: &PathCond) -> bool
    ensures { IsTrue result ↔ Begins one.now.widths other.now.widths }
{
    one.symbols() <= other.symbols() && do_match(one, other)
}

#[tactic(auto, using(crate::proofs::Matched::match_before, crate::proofs::Matched::match_after, crate::proofs::Matched::matched_here, crate::proofs::Matched::match_past))]
fn do_match(one: &PathCond, other: &PathCond) -> bool
    ensures { IsTrue result ↔ Match one.now.widths other.now.widths }
{
    let count = one.symbols().min(other.symbols());
    for symbol in 0..count {
        if one.width(SymId(symbol)) != other.width(SymId(symbol)) {
            return false;
        }
    }
    true
}

/// The one of two conditions that has more symbols.
pub(crate) fn with_more_symbols<'d>(one: &'d PathCond, other: &'d PathCond) -> &'d PathCond
    ensures { result.now.widths ≡ longer one.now.widths other.now.widths }
{
    if one.symbols() < other.symbols() {
        return other;
    }
    one
}

/// With the symbols of another condition, where that has more. The ones begin the others.
#[tactic(auto, using(crate::proofs::Matched::symbols_first, crate::proofs::Matched::symbols_next, crate::proofs::Matched::symbols_end))]
pub(crate) fn with_symbols_of(
    alloc: Global,
    start: Decidable,
    other: &PathCond,
) -> Result<Decidable, NoMemory>
    requires ready { IsReady start }
    requires agree { Begins start.condition.widths other.now.widths ⊎ Begins other.now.widths start.condition.widths }
    ensures ready { IfOk result IsReady }
    ensures longer { IfOk result (λ next. next.condition
        ≡ with_widths start.condition (longer start.condition.widths other.now.widths)) }
{
    let first = start.condition.symbols();
    let mut now = start;
    for symbol in first..other.symbols() {
        match other.width(SymId(symbol)) {
            None => unreachable!(),
            Some(width) => now = with_symbol(alloc, &now, width)?,
        }
    }
    Ok(now)
}

/// With one symbol more.
fn with_symbol(alloc: Global, start: &Decidable, width: Width) -> Result<Decidable, NoMemory>
    requires { IsReady start.now }
    ensures ready { IfOk result IsReady }
    ensures wider { IfOk result (λ next. next.condition ≡ with_width start.now.condition width) }
{
    start.condition.formulas_are_typed();
    let condition = start.condition.with_symbol(alloc, width)?;
    let domains = start.domains.with_symbol(alloc, width)?;
    Ok(Decidable { condition, domains })
}
