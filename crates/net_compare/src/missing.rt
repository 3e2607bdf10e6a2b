//! The miss condition of a path.

ghost use Rattle.std.specs.Prelude.{◌≡◌, true, IfOk, IfSome, IsTrue, map};
ghost use Rattle.std.specs.List.{AllByRecursion, list_all};
ghost use Rattle.path_cond.specs.Seen.{entry_holds, itself, seen};
ghost use Rattle.path_formula.specs.Typed.{IsTyped};
ghost use Rattle.path_formula.specs.View.{view};
ghost use Rattle.refutation_check.specs.Seen.{AreLeast};
ghost use Rattle.compare_meaning.specs.Facing.{must_not};
ghost use Rattle.net_compare.specs.Facings.{FitTogether, FitsWith, IsSound};
ghost use Rattle.net_compare.specs.Joining.{denied_by};
ghost use Rattle.net_compare.specs.Rows.{row_seen};
ghost use Rattle.net_compare.specs.Saying.{MissSays, Says, seen_path};
ghost use Rattle.net_compare.specs.Weighing.{IsWeighed, whole_seen};

use crate::delivery::Delivery;
use crate::facing::{Faced, facing_formulas};
use crate::joining::{Decidable, with_each};
use crate::judged::{Judged, judge};
use crate::weighing::{Weighed, Whole, is_small, weigh};
use path_formula::Formula;
use refutation_check::Listed;
use refutation_check::laws::a_condition_is_judged_by_its_trees;
use sn_width::{NoMemory, Num};
use std::alloc::Global;

/// What the miss condition of a path says, before the paths of the other net.
pub(crate) fn miss(
    alloc: Global,
    path: &Delivery<'_>,
    others: &[Delivery<'_>],
) -> Result<Judged, NoMemory>
    requires sound { IsSound path.now }
    requires others_sound { AllByRecursion IsSound others.now }
    requires fits { AllByRecursion (FitsWith (seen_path path.now)) (map seen_path others.now) }
    requires together { FitTogether (map seen_path others.now) }
    ensures { IfOk result (MissSays (map seen_path others.now) (seen_path path.now)) }
{
    let Faced { start, formulas } = facing_formulas(alloc, path, others)?;
    if let Some(judged) = known_miss(alloc, path, &start, &formulas)? {
        return Ok(judged);
    }
    let longer = with_each(alloc, start, &formulas, false)?;
    judge(alloc, &longer.condition, &longer.domains)
}

/// What it says, where some of its formulas tell it.
fn known_miss(
    alloc: Global,
    path: &Delivery<'_>,
    start: &Decidable,
    formulas: &[Formula],
) -> Result<Option<Judged>, NoMemory>
    requires sound { IsSound path.now }
    requires typed { AllByRecursion (λ f. IsTyped start.now.condition.widths (view f)) formulas.now }
    requires same { (seen view start.now.condition).entries ≡ (seen_path path.now).condition.entries }
    ensures { IfOk result (λ found. IfSome found (Says (denied_by (seen view start.now.condition) (map view formulas.now)))) }
{
    a_condition_is_judged_by_its_trees();
    start.condition.formulas_are_typed();
    let denied = denied_row(alloc, formulas)?;
    let whole = Whole {
        symbols: &start.condition,
        most: start.condition.most_choices(),
        firsts: path.formulas.as_slice(),
        seconds: denied.as_slice(),
    };
    let weighed = weigh(alloc, &whole)?;
    Ok(told_by(&whole, weighed))
}

/// The formulas in a row, each to be false.
fn denied_row<'e>(
    alloc: Global,
    formulas: &'e [Formula],
) -> Result<Vec<(&'e Formula, bool)>, NoMemory>
    ensures { IfOk result (λ row. row_seen row.items ≡ map must_not (map view formulas.now)) }
{
    let mut row = Vec::new(alloc);
    for formula in formulas {
        row.push((formula, false))?;
    }
    Ok(row)
}

/// What is told of a condition by what some of its formulas decide: it is out, or it is met by these least values, where these satisfy
/// the formulas that are outside too.
fn told_by(whole: &Whole<'_>, weighed: Weighed) -> Option<Judged>
    requires { IsWeighed (whole_seen whole.now) weighed }
    ensures { IfSome result (Says (whole_seen whole.now)) }
{
    match weighed {
        Weighed::Never => Some(Judged::Out),
        Weighed::Unknown => None,
        Weighed::Least { values } => met_by(whole, values),
    }
}

/// That a condition is met by its least values, where these satisfy the formulas that are outside too, and it is within the limits.
fn met_by(whole: &Whole<'_>, values: Listed<Num>) -> Option<Judged>
    requires { AreLeast itself (whole_seen whole.now) values }
    ensures { IfSome result (Says (whole_seen whole.now)) }
{
    if !is_small(whole.symbols, whole.most) {
        return None;
    }
    if all_agree(whole.firsts, values.as_slice()) && all_agree(whole.seconds, values.as_slice()) {
        return Some(Judged::Met { values });
    }
    None
}

/// Whether each formula has the truth that it must have.
fn all_agree(row: &[(&Formula, bool)], values: &[Num]) -> bool
    ensures { IsTrue result → (list_all (entry_holds itself values.now) (row_seen row.now) ≡ true) }
{
    for (formula, holds) in row {
        if !formula.agrees(*holds, values) {
            return false;
        }
    }
    true
}
