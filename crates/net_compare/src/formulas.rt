//! The formulas of a path that another path does not have.

ghost use Rattle.std.specs.Prelude.{◌≡◌, ◌↔◌, Some, IfOk, IsTrue, map, slice_get};
ghost use Rattle.path_formula.specs.View.{view};
ghost use Rattle.sefl_meaning.specs.Order.{Has};
ghost use Rattle.compare_meaning.specs.Facing.{AreMissing, must_be};
ghost use Rattle.net_compare.specs.Adding.{AddsMissing};
ghost use Rattle.net_compare.specs.Rows.{row_seen};

use crate::marks::Places;
use crate::rows::entry_at;
use path_formula::Formula;
use same_formulas::same_formula;
use sn_width::NoMemory;
use std::alloc::Global;

/// The formulas of a row as they must be, except those that another one has with the same truth. Each is looked for first where the
/// places of the other row have its mark.
#[tactic(auto, using(crate::proofs::Lacking::missing_first, crate::proofs::Lacking::missing_next, crate::proofs::Lacking::missing_end))]
pub(crate) fn missing(
    alloc: Global,
    had: &[(&Formula, bool)],
    of: &[(&Formula, bool)],
    marks: &[u32],
    places: &Places,
) -> Result<Vec<Formula>, NoMemory>
    ensures { IfOk result (λ formulas. AreMissing (row_seen had.now) (row_seen of.now)
        (map view formulas.items)) }
{
    let mut formulas = Vec::new(alloc);
    let mut at: usize = 0;
    for (formula, holds) in of {
        let first = place_of(marks, at, places);
        add_missing(alloc, had, first, formula, *holds, &mut formulas)?;
        at = at.saturating_add(1);
    }
    Ok(formulas)
}

/// Where a formula is probably found.
fn place_of(marks: &[u32], at: usize, places: &Places) -> usize {
    match marks.get(at) {
        None => at,
        Some(mark) => match places.get(*mark) {
            None => at,
            Some(place) => place,
        },
    }
}

/// Adds a formula as it must be, unless the row has it with this truth, which is looked for at a place first.
fn add_missing(
    alloc: Global,
    had: &[(&Formula, bool)],
    first: usize,
    formula: &Formula,
    holds: bool,
    formulas: &mut Vec<Formula>,
) -> Result<(), NoMemory>
    ensures { IfOk result (λ done. AddsMissing (row_seen had.now) (view formula.now, holds)
        (map view formulas.old.items) (map view formulas.new.items)) }
{
    if has_entry(had, first, formula, holds) {
        return Ok(());
    }
    formulas.push(required(alloc, formula, holds)?)?;
    Ok(())
}

/// The formula, negated where it must be false.
pub(crate) fn required(alloc: Global, formula: &Formula, holds: bool) -> Result<Formula, NoMemory>
    ensures { IfOk result (λ f. view f ≡ must_be (view formula.now, holds)) }
{
    let copy = formula.copy(alloc)?;
    if holds {
        return Ok(copy);
    }
    Ok(Formula::Not(Box::new(alloc, copy)?))
}

/// Whether the row has the formula with this truth, which is looked for at a place first.
#[tactic(auto, using(crate::proofs::Lacking::has_at, crate::proofs::Lacking::has_next, crate::proofs::Lacking::has_none, crate::proofs::Lacking::row_length))]
fn has_entry(row: &[(&Formula, bool)], first: usize, formula: &Formula, holds: bool) -> bool
    ensures { IsTrue result ↔ Has (row_seen row.now) (view formula.now, holds) }
{
    if is_entry(row, first, formula, holds) {
        return true;
    }
    for at in 0..row.len() {
        if is_entry(row, at, formula, holds) {
            return true;
        }
    }
    false
}

/// Whether the formula of this place is this one, with this truth.
#[tactic(auto, using(crate::proofs::Lacking::got_lent))]
fn is_entry(row: &[(&Formula, bool)], place: usize, formula: &Formula, holds: bool) -> bool
    ensures { IsTrue result ↔ (slice_get (row_seen row.now) place ≡ Some (view formula.now, holds)) }
{
    match entry_at(row, place) {
        None => false,
        Some((other, truth)) => truth == holds && same_formula(other, formula),
    }
}
