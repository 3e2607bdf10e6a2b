//! What formulas that follow from a condition decide of it: only those are looked at that values found before break.

ghost use Rattle.std.specs.Prelude.{◌≡◌, true, [], IfOk, IsTrue};
ghost use Rattle.std.specs.List.{AllByRecursion, list_all};
ghost use Rattle.path_cond.specs.Seen.{AllTyped, itself, seen};
ghost use Rattle.path_formula.specs.View.{view};
ghost use Rattle.refutation_check.specs.Longer.{condition_of};
ghost use Rattle.refutation_check.specs.Seen.{AreLeast, IsWithinLimits, holds_unless_outside};
ghost use Rattle.net_compare.specs.Joining.{IsReady};
ghost use Rattle.net_compare.specs.Rows.{row_seen};
ghost use Rattle.net_compare.specs.Weighing.{AreTypedAs, FollowsFrom, IsSelectionOf, IsSmall, IsTurned, IsWeighed, whole_seen};

use crate::formulas::required;
use crate::joining::{Decidable, with_each};
use crate::judged::{Judged, judge};
use crate::needed::{is_short, needed};
use crate::rows::{entry_at, is_nothing};
use compare_typing::laws::{
    few_symbols_are_within_the_limits, some_formulas_refute_a_condition,
    the_least_of_some_formulas_are_the_least,
};
use interval_solver::Domains;
use path_cond::PathCond;
use path_formula::Formula;
use refutation_check::{Listed, MOST_COUPLED};
use sn_width::{NoMemory, Num, SymId, Width};
use std::alloc::Global;

/// A condition that is not built: its symbols, its bound on choices of cases, and its formulas with their truths, in two rows.
#[derive(Drop)]
pub(crate) struct Whole<'w> {
    pub(crate) symbols: &'w PathCond,
    pub(crate) most: u64,
    pub(crate) firsts: &'w [(&'w Formula, bool)],
    pub(crate) seconds: &'w [(&'w Formula, bool)],
}

/// What some of its formulas decide.
#[derive(Drop)]
pub(crate) enum Weighed {
    /// The least values that satisfy every formula that is not outside.
    Least { values: Listed<Num> },
    /// No values make the condition true.
    Never,
    Unknown,
}

/// What a turn decides, or the formulas that are looked at in the next one.
#[derive(Drop)]
enum Turned {
    Done { weighed: Weighed },
    More { chosen: Decidable },
}

/// Whether each condition with these symbols and this bound is within the limits: all choices of cases are tried, and the symbols are
/// few.
pub(crate) fn is_small(symbols: &PathCond, most: u64) -> bool
    ensures { IsTrue result → IsSmall symbols.now.widths most }
{
    few_symbols_are_within_the_limits();
    if most != u64::MAX {
        return false;
    }
    symbols.symbols() <= MOST_COUPLED
}

/// Whether the formula is outside, or has the truth that it must have.
#[tactic(auto, using(crate::proofs::WeighLemmas::either_holds, crate::proofs::WeighLemmas::only_outside))]
fn stands(formula: &Formula, holds: bool, values: &[Num]) -> bool
    ensures { result ≡ holds_unless_outside itself values.now (view formula.now, holds) }
{
    if formula.agrees(holds, values) {
        return true;
    }
    formula.kind().is_outside()
}

/// Formulas that are true wherever those of a row are, except the outside ones: one for each that the values break, in order.
fn broken(alloc: Global, row: &[(&Formula, bool)], values: &[Num]) -> Result<Vec<Formula>, NoMemory>
    ensures follow { IfOk result (λ list. AllByRecursion (FollowsFrom (row_seen row.now)) list.items) }
    ensures typed { IfOk result (λ list. AreTypedAs (row_seen row.now) list.items) }
    ensures none { IfOk result (λ list. list.items ≡ []
        → list_all (holds_unless_outside itself values.now) (row_seen row.now) ≡ true) }
{
    let mut list = Vec::new(alloc);
    for (formula, holds) in row {
        if !stands(formula, *holds, values) {
            list.push(needed(alloc, formula, *holds, values)?)?;
        }
    }
    Ok(list)
}

/// The last formula of a row, unless it is outside or has many cases: that which a path has met last mostly says most of it.
fn last_of(alloc: Global, row: &[(&Formula, bool)]) -> Result<Vec<Formula>, NoMemory>
    ensures follow { IfOk result (λ list. AllByRecursion (FollowsFrom (row_seen row.now)) list.items) }
    ensures typed { IfOk result (λ list. AreTypedAs (row_seen row.now) list.items) }
{
    let Some((formula, holds)) = entry_at(row, row.len().saturating_sub(1)) else {
        return Ok(Vec::new(alloc));
    };
    if formula.kind().is_outside() {
        return Ok(Vec::new(alloc));
    }
    if !is_short(alloc, formula, holds)? {
        return Ok(Vec::new(alloc));
    }
    let mut list = Vec::new(alloc);
    list.push(required(alloc, formula, holds)?)?;
    Ok(list)
}

/// The widths of the symbols.
fn widths_of(alloc: Global, symbols: &PathCond) -> Result<Vec<Width>, NoMemory>
    ensures { IfOk result (λ widths. widths.items ≡ symbols.now.widths) }
{
    let mut widths = Vec::new(alloc);
    for symbol in 0..symbols.symbols() {
        match symbols.width(SymId(symbol)) {
            None => unreachable!(),
            Some(width) => widths.push(width)?,
        }
    }
    Ok(widths)
}

/// The condition with these symbols and this bound that has no formulas.
fn without_formulas(alloc: Global, symbols: &PathCond, most: u64) -> Result<Decidable, NoMemory>
    ensures ready { IfOk result IsReady }
    ensures none { IfOk result (λ start. start.condition ≡ condition_of most symbols.now.widths []) }
{
    let widths = widths_of(alloc, symbols)?;
    let condition = PathCond::new(alloc, widths, most)?;
    let domains = Domains::of(alloc, &condition)?;
    Ok(Decidable { condition, domains })
}

/// The formulas that are looked at first: the last ones of both rows.
fn first_chosen(alloc: Global, whole: &Whole<'_>) -> Result<Decidable, NoMemory>
    requires typed { AllTyped itself (whole_seen whole.now).widths (whole_seen whole.now).entries }
    ensures { IfOk result (IsSelectionOf (whole_seen whole.now)) }
{
    let start = without_formulas(alloc, whole.symbols, whole.most)?;
    let one = last_of(alloc, whole.firsts)?;
    let two = last_of(alloc, whole.seconds)?;
    let more = with_each(alloc, start, one.as_slice(), true)?;
    let chosen = with_each(alloc, more, two.as_slice(), true)?;
    Ok(chosen)
}

/// With the formulas that these values break, which are the least of those that are looked at. Where they break none they are the least
/// of all.
fn grown(
    alloc: Global,
    whole: &Whole<'_>,
    chosen: Decidable,
    values: Listed<Num>,
) -> Result<Turned, NoMemory>
    requires typed { AllTyped itself (whole_seen whole.now).widths (whole_seen whole.now).entries }
    requires selection { IsSelectionOf (whole_seen whole.now) chosen }
    requires least { AreLeast itself (seen view chosen.condition) values }
    ensures { IfOk result (IsTurned (whole_seen whole.now)) }
{
    the_least_of_some_formulas_are_the_least();
    let one = broken(alloc, whole.firsts, values.as_slice())?;
    let two = broken(alloc, whole.seconds, values.as_slice())?;
    if is_nothing(one.as_slice()) && is_nothing(two.as_slice()) {
        let weighed = Weighed::Least { values };
        return Ok(Turned::Done { weighed });
    }
    let more = with_each(alloc, chosen, one.as_slice(), true)?;
    let chosen = with_each(alloc, more, two.as_slice(), true)?;
    Ok(Turned::More { chosen })
}

/// What these formulas decide.
fn turn(alloc: Global, whole: &Whole<'_>, chosen: Decidable) -> Result<Turned, NoMemory>
    requires typed { AllTyped itself (whole_seen whole.now).widths (whole_seen whole.now).entries }
    requires within { IsWithinLimits itself (whole_seen whole.now) }
    requires selection { IsSelectionOf (whole_seen whole.now) chosen }
    ensures { IfOk result (IsTurned (whole_seen whole.now)) }
{
    some_formulas_refute_a_condition();
    match judge(alloc, &chosen.condition, &chosen.domains)? {
        Judged::Met { values } => grown(alloc, whole, chosen, values),
        Judged::Out => {
            let weighed = Weighed::Never;
            Ok(Turned::Done { weighed })
        }
        Judged::Open => {
            let weighed = Weighed::Unknown;
            Ok(Turned::Done { weighed })
        }
    }
}

/// What formulas of the condition decide of it, where it is within the limits.
pub(crate) fn weigh(alloc: Global, whole: &Whole<'_>) -> Result<Weighed, NoMemory>
    requires typed { AllTyped itself (whole_seen whole.now).widths (whole_seen whole.now).entries }
    ensures { IfOk result (IsWeighed (whole_seen whole.now)) }
{
    if !is_small(whole.symbols, whole.most) {
        return Ok(Weighed::Unknown);
    }
    let mut chosen = first_chosen(alloc, whole)?;
    for _round in 0..u64::MAX {
        match turn(alloc, whole, chosen)? {
            Turned::Done { weighed } => return Ok(weighed),
            Turned::More { chosen: more } => chosen = more,
        }
    }
    Ok(Weighed::Unknown)
}
