//! The values of a symbol that meet formulas which are simple on it.

ghost use Rattle.std.specs.Prelude.{◌≡◌, ◌<◌, ◌&&◌, true, Some, length, reverse, slice_get, slice_index, unwrap_or, option_copied, [], IfOk};
ghost use Rattle.sn_ranges.specs.Ranges.{IsSetOf, IsCanonical, fits_width, is_member};
ghost use Rattle.path_formula.specs.Solutions.{alone};
ghost use Rattle.path_cond.specs.Conditions.{in_domain, simple_picks};
ghost use Rattle.path_cond.specs.Summaries.{inside_picks as picks_inside, outside_picks as picks_outside};
ghost use Rattle.path_cond.specs.Picks.{is_simple_pick, pick_holds, are_simple_picks, meets_picks, are_inside_picks};

use crate::PathCond;
use crate::laws::each_formula_is_typed;
use path_formula::Formula;
use path_formula::laws::a_simple_formula_is_over_its_symbol;
use sn_ranges::Ranges;
use sn_tree::Shared;
use sn_width::{NoMemory, SymId, Width};
use std::alloc::Global;

/// The members of the set that meet the formula of the pick, which is simple on the symbol.
fn narrowed(
    alloc: Global,
    set: &Ranges,
    cond: &PathCond,
    symbol: SymId,
    width: Width,
    pick: u32,
) -> Result<Ranges, NoMemory>
    requires known { slice_get cond.now.widths symbol.0 ≡ Some width }
    requires same_width { set.now.width ≡ width }
    requires canonical { IsCanonical width set.now.pairs }
    requires simple { is_simple_pick symbol cond.now pick ≡ true }
    ensures { IfOk result (IsSetOf width
        (λ x. is_member set.now.pairs x && pick_holds cond.now (alone symbol x) pick)) }
{
    cond.formulas_are_typed();
    each_formula_is_typed();
    a_simple_formula_is_over_its_symbol();
    match cond.entry(pick) {
        None => unreachable!(),
        Some((formula, holds)) => {
            let more = formula.solutions(alloc, symbol, width, holds)?;
            set.meet(alloc, &more)
        }
    }
}

/// The values of the width that meet the formulas of the picks, which are simple on the symbol.
fn values_of_width(
    alloc: Global,
    cond: &PathCond,
    symbol: SymId,
    width: Width,
    picks: &[u32],
) -> Result<Ranges, NoMemory>
    requires known { slice_get cond.now.widths symbol.0 ≡ Some width }
    requires simple { are_simple_picks symbol cond.now picks.now ≡ true }
    ensures { IfOk result (IsSetOf width
        (λ x. fits_width width x && meets_picks symbol cond.now picks.now x)) }
{
    let mut set = Formula::Truth(true).solutions(alloc, symbol, width, true)?;
    for pick in picks {
        set = narrowed(alloc, &set, cond, symbol, width, *pick)?;
    }
    Ok(set)
}

/// The values of the symbol's width that meet the formulas of these picks; each formula is simple on the symbol.
pub fn values_meeting(
    alloc: Global,
    cond: &PathCond,
    symbol: SymId,
    picks: &[u32],
) -> Result<Ranges, NoMemory>
    requires known { symbol.0 < length cond.now.widths }
    requires simple { are_simple_picks symbol cond.now picks.now ≡ true }
    ensures { IfOk result (IsSetOf (slice_index cond.now.widths symbol.0)
        (λ x. fits_width (slice_index cond.now.widths symbol.0) x && meets_picks symbol cond.now picks.now x)) }
{
    match cond.width(symbol) {
        None => unreachable!(),
        Some(width) => values_of_width(alloc, cond, symbol, width, picks),
    }
}

/// The picks of the formulas that are simple on the symbol, the newest first.
fn picks_on(alloc: Global, picks: Option<&Shared<u32>>) -> Result<Vec<u32>, NoMemory>
    ensures { IfOk result (λ list. list.items ≡ unwrap_or (option_copied picks.entry) []) }
{
    match picks {
        None => Ok(Vec::new(alloc)),
        Some(picks) => {
            let list: Vec<u32> = picks.iter().copied().collect(alloc)?;
            Ok(list)
        }
    }
}

impl PathCond {
    /// The values of the symbol's width that meet each simple formula of the symbol. Only the symbol's simple formulas are looked at.
    pub fn domain(&self, alloc: Global, symbol: SymId) -> Result<Ranges, NoMemory>
        requires { symbol.0 < length self.now.widths }
        ensures { IfOk result (IsSetOf (slice_index self.now.widths symbol.0)
            (λ x. fits_width (slice_index self.now.widths symbol.0) x && in_domain symbol self.now x)) }
    {
        let picks = picks_on(alloc, self.simple_picks(symbol))?;
        values_meeting(alloc, self, symbol, &picks)
    }
}

/// The picks from the oldest on; they stand the newest first.
fn ascending(alloc: Global, picks: &Shared<u32>) -> Result<Vec<u32>, NoMemory>
    ensures { IfOk result (λ list. list.items ≡ reverse picks.now) }
{
    let mut list: Vec<u32> = picks.iter().copied().collect(alloc)?;
    list.reverse();
    Ok(list)
}

/// The picks of the inside formulas, ascending.
#[tactic(auto, using(crate::proofs::PickLemmas::reversed_twice, crate::proofs::PickLemmas::inside_are_inside))]
pub fn inside_picks(alloc: Global, cond: &PathCond) -> Result<Vec<u32>, NoMemory>
    ensures all { IfOk result (λ picks. picks.items ≡ picks_inside cond.now) }
    ensures inside { IfOk result (λ picks. are_inside_picks cond.now picks.items ≡ true) }
{
    ascending(alloc, cond.inside_picks())
}

/// The picks of the outside formulas, ascending.
#[tactic(auto, using(crate::proofs::PickLemmas::reversed_twice))]
pub fn outside_picks(alloc: Global, cond: &PathCond) -> Result<Vec<u32>, NoMemory>
    ensures { IfOk result (λ picks. picks.items ≡ picks_outside cond.now) }
{
    ascending(alloc, cond.outside_picks())
}
