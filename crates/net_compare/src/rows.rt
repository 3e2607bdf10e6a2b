//! Formulas in a row, each with the truth that it must have.

ghost use Rattle.std.specs.Prelude.{◌≡◌, [], IfOk, IsTrue, map, slice_get};
ghost use Rattle.net_compare.specs.Rows.{lent};

use path_cond::PathCond;
use path_formula::Formula;
use sn_width::NoMemory;
use std::alloc::Global;

/// The formulas of a condition, in order.
pub(crate) fn row_of<'c>(
    alloc: Global,
    condition: &'c PathCond,
) -> Result<Vec<(&'c Formula, bool)>, NoMemory>
    ensures { IfOk result (λ row. map lent row.items ≡ condition.now.entries) }
{
    let mut row = Vec::new(alloc);
    for pick in 0..condition.len() {
        let Ok(at) = u32::try_from(pick) else {
            return Err(NoMemory);
        };
        match condition.entry(at) {
            None => unreachable!(),
            Some(entry) => row.push(entry)?,
        }
    }
    Ok(row)
}

/// The formula of a place, with its truth.
pub(crate) fn entry_at<'e>(row: &[(&'e Formula, bool)], place: usize) -> Option<(&'e Formula, bool)>
    ensures { result ≡ slice_get row.now place }
{
    row.get(place).copied()
}

/// Whether there are no formulas.
pub(crate) fn is_nothing(formulas: &[Formula]) -> bool
    ensures { IsTrue result → (formulas.now ≡ []) }
{
    formulas.is_empty()
}
