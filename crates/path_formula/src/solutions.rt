//! The values of one symbol that give a formula a truth.

ghost use Rattle.std.specs.Prelude.{◌&&◌, IfOk};
ghost use Rattle.sn_width.specs.Rel.{relates};
ghost use Rattle.sn_ranges.specs.Ranges.{IsSetOf, fits_width, is_member};
ghost use Rattle.lin_term.specs.Terms.{value_at};
ghost use Rattle.path_formula.specs.Atoms.{comparison_kind, membership_kind};
ghost use Rattle.path_formula.specs.Formulas.{truth_at};
ghost use Rattle.path_formula.specs.Solutions.{AtomIsOver, IsOver, AreOver, agrees, alone, all_agree, any_agrees};
ghost use Rattle.path_formula.specs.View.{view, views};

use crate::atom::{AtomKind, Shape};
use crate::formula::Formula;
use crate::ranges::{agree, all_or_none, moved_back, moved_related};
use lin_term::Term;
use sn_ranges::Ranges;
use sn_width::{NoMemory, Rel, SymId, Width};
use std::alloc::Global;

#[cycle(solve)]
pub(crate) fn solutions_of(
    alloc: Global,
    formula: &Formula,
    symbol: SymId,
    width: Width,
    holds: bool,
) -> Result<Ranges, NoMemory>
    requires over { IsOver symbol width (view formula.now) }
    ensures { IfOk result (IsSetOf width (λ x. fits_width width x
        && agrees holds (truth_at (view formula.now) (alone symbol x)))) }
{
    match formula {
        Formula::Truth(truth) => all_or_none(alloc, width, agree(holds, *truth)),
        Formula::Compare { rel, left, right } => {
            comparison(alloc, *rel, left, right, symbol, width, holds)
        }
        Formula::Member { value, ranges } => membership(alloc, value, ranges, symbol, width, holds),
        Formula::And(parts) => {
            if holds {
                meet_all(alloc, parts, symbol, width, true)
            } else {
                join_all(alloc, parts, symbol, width, false)
            }
        }
        Formula::Or(parts) => {
            if holds {
                join_all(alloc, parts, symbol, width, true)
            } else {
                meet_all(alloc, parts, symbol, width, false)
            }
        }
        Formula::Not(part) => solutions_of(alloc, part, symbol, width, !holds),
    }
}

/// The values for which each of the formulas has the truth `holds`.
#[cycle(solve)]
fn meet_all(
    alloc: Global,
    parts: &Vec<Formula>,
    symbol: SymId,
    width: Width,
    holds: bool,
) -> Result<Ranges, NoMemory>
    requires over { AreOver symbol width (views parts.now.items) }
    ensures { IfOk result (IsSetOf width (λ x. fits_width width x
        && all_agree holds (views parts.now.items) (alone symbol x))) }
{
    let mut set = all_or_none(alloc, width, true)?;
    for part in parts {
        let more = solutions_of(alloc, part, symbol, width, holds)?;
        set = set.meet(alloc, &more)?;
    }
    Ok(set)
}

/// The values for which one of the formulas has the truth `holds`.
#[cycle(solve)]
fn join_all(
    alloc: Global,
    parts: &Vec<Formula>,
    symbol: SymId,
    width: Width,
    holds: bool,
) -> Result<Ranges, NoMemory>
    requires over { AreOver symbol width (views parts.now.items) }
    ensures { IfOk result (IsSetOf width (λ x. fits_width width x
        && any_agrees holds (views parts.now.items) (alone symbol x))) }
{
    let mut set = all_or_none(alloc, width, false)?;
    for part in parts {
        let more = solutions_of(alloc, part, symbol, width, holds)?;
        set = set.join(alloc, &more)?;
    }
    Ok(set)
}

fn comparison(
    alloc: Global,
    rel: Rel,
    left: &Term,
    right: &Term,
    symbol: SymId,
    width: Width,
    holds: bool,
) -> Result<Ranges, NoMemory>
    requires { AtomIsOver symbol width (comparison_kind left.now right.now) left.now.width right.now.width }
    ensures { IfOk result (IsSetOf width (λ x. fits_width width x && agrees holds
        (relates rel (value_at left.now (alone symbol x)) (value_at right.now (alone symbol x))))) }
{
    match AtomKind::of_comparison(left, right) {
        AtomKind::Single { .. } => match Shape::of(left) {
            Shape::Number => {
                let rel = rel.exchanged();
                moved_related(alloc, width, rel, right.constant(), left.constant(), holds)
            }
            _ => moved_related(alloc, width, rel, left.constant(), right.constant(), holds),
        },
        _ => {
            let truth = rel.holds(left.value(&[]), right.value(&[]));
            all_or_none(alloc, width, agree(holds, truth))
        }
    }
}

fn membership(
    alloc: Global,
    value: &Term,
    ranges: &Ranges,
    symbol: SymId,
    width: Width,
    holds: bool,
) -> Result<Ranges, NoMemory>
    requires { AtomIsOver symbol width (membership_kind value.now) value.now.width ranges.now.width }
    ensures { IfOk result (IsSetOf width (λ x. fits_width width x
        && agrees holds (is_member ranges.now.pairs (value_at value.now (alone symbol x))))) }
{
    match AtomKind::of_membership(value) {
        AtomKind::Single { .. } => {
            if holds {
                return moved_back(alloc, ranges, value.constant());
            }
            let others = ranges.other(alloc)?;
            moved_back(alloc, &others, value.constant())
        }
        _ => {
            let truth = ranges.has(value.value(&[]));
            all_or_none(alloc, width, agree(holds, truth))
        }
    }
}
