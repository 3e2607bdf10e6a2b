//! Values that satisfy every formula that is not outside.

ghost use Rattle.std.specs.Prelude.{◌≡◌, ◌<◌, ◌↔◌, length, slice_get, IsTrue, IfOk, IfSome};
ghost use Rattle.std.specs.List.{list_all};
ghost use Rattle.refutation_check.specs.Least.{AreFitting, AreCandidates, holds_unless_outside, FitsAt};

use path_cond::{PathCond, formula_count};
use sn_width::{NoMemory, Num, SymId};

/// Whether the number is a value of the width of the symbol of this place.
fn fits_at(cond: &PathCond, place: usize, value: Num) -> bool
    requires { place < length cond.now.widths }
    ensures { IsTrue result ↔ FitsAt cond.now.widths place value }
{
    match cond.width(SymId(place as u64)) {
        None => unreachable!(),
        Some(width) => value <= width.max(),
    }
}

/// Whether there is one number for each symbol, each a value of its symbol's width.
fn are_fitting(cond: &PathCond, values: &[Num]) -> bool
    ensures { IsTrue result ↔ AreFitting cond.now.widths values.now }
{
    if values.len() as u64 != cond.symbols() {
        return false;
    }
    for (place, value) in values.iter().enumerate() {
        if !fits_at(cond, place, *value) {
            return false;
        }
    }
    true
}

/// Whether the formula of the pick is outside, or has the truth that it must have.
fn holds_at(cond: &PathCond, pick: u32, values: &[Num]) -> bool
    requires { pick < length cond.now.entries }
    ensures { IfSome (slice_get cond.now.entries pick) (λ entry. result ≡ holds_unless_outside values.now entry) }
{
    match cond.entry(pick) {
        None => unreachable!(),
        // the kind, which takes longer, is asked of a broken formula alone
        Some((formula, holds)) => formula.agrees(holds, values) || formula.kind().is_outside(),
    }
}

/// Whether each formula is outside, or has the truth that it must have.
fn all_hold(cond: &PathCond, values: &[Num]) -> Result<bool, NoMemory>
    ensures { IfOk result (λ yes. yes ≡ list_all (holds_unless_outside values.now) cond.now.entries) }
{
    for pick in 0..formula_count(cond)? {
        if !holds_at(cond, pick, values) {
            return Ok(false);
        }
    }
    Ok(true)
}

/// Whether there is one fitting number for each symbol, and they satisfy every formula that is not outside.
pub fn are_candidates(cond: &PathCond, values: &[Num]) -> Result<bool, NoMemory>
    ensures { IfOk result (λ yes. IsTrue yes ↔ AreCandidates cond.now values.now) }
{
    if !are_fitting(cond, values) {
        return Ok(false);
    }
    all_hold(cond, values)
}
