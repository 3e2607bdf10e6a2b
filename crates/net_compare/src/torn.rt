//! Paths of which one has a formula that the other one has with the other truth.

ghost use Rattle.std.specs.Prelude.{IsTrue};
ghost use Rattle.compare_meaning.specs.Facing.{IsImpossible, joined};
ghost use Rattle.compare_typing.specs.Selecting.{IsTorn};
ghost use Rattle.net_compare.specs.Facings.{IsSound};
ghost use Rattle.net_compare.specs.Rows.{row_seen};
ghost use Rattle.net_compare.specs.Saying.{seen_path};

use crate::delivery::Delivery;
use crate::marks::Places;
use crate::rows::entry_at;
use crate::weighing::is_small;
use crate::widths::with_more_symbols;
use compare_typing::laws::torn_paths_do_not_face;
use path_formula::Formula;
use same_formulas::same_formula;

/// Whether two paths are found to have a formula with both truths. Two paths of one list always have: the later one has negated the
/// rule that the earlier one has taken.
pub(crate) fn are_torn(path: &Delivery<'_>, other: &Delivery<'_>, places: &Places) -> bool
    requires path { IsSound path.now }
    requires other { IsSound other.now }
    ensures { IsTrue result → IsImpossible (joined (seen_path path.now) (seen_path other.now)) }
{
    torn_paths_do_not_face();
    let symbols = with_more_symbols(path.condition, other.condition);
    if !is_small(symbols, path.condition.most_choices()) {
        return false;
    }
    let Some((pick, at)) = places.tear(path, other) else {
        return false;
    };
    is_torn_at(
        path.formulas.as_slice(),
        pick,
        other.formulas.as_slice(),
        at,
    )
}

/// Whether the formulas at these two places are the same, not outside, and have the one truth and the other.
fn is_torn_at(row: &[(&Formula, bool)], pick: usize, others: &[(&Formula, bool)], at: usize) -> bool
    ensures { IsTrue result → IsTorn (row_seen row.now) (row_seen others.now) }
{
    let Some((formula, holds)) = entry_at(row, pick) else {
        return false;
    };
    let Some((other, truth)) = entry_at(others, at) else {
        return false;
    };
    if holds == truth {
        return false;
    }
    if formula.kind().is_outside() {
        return false;
    }
    same_formula(formula, other)
}
