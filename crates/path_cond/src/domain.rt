//! The truth of the formulas of a condition.

ghost use Rattle.std.specs.Prelude.{◌≡◌, ◌<◌, length, slice_get, IfSome};
ghost use Rattle.std.specs.List.{list_all};
ghost use Rattle.path_cond.specs.Conditions.{entry_holds};

use crate::sequence::Sequence;
use path_formula::Formula;
use sn_width::Num;

/// Whether each formula has the truth that it must have.
pub(crate) fn all_hold(entries: &Sequence<(Formula, bool)>, values: &[Num]) -> bool
    ensures { result ≡ list_all (entry_holds values.now) entries.now }
{
    for pick in 0..entries.len() {
        if !holds_at(entries, pick, values) {
            return false;
        }
    }
    true
}

#[tactic(auto, using(crate::proofs::Entries::not_missing))]
fn holds_at(entries: &Sequence<(Formula, bool)>, pick: u32, values: &[Num]) -> bool
    requires { pick < length entries.now }
    ensures { IfSome (slice_get entries.now pick) (λ e. result ≡ entry_holds values.now e) }
{
    match entries.get(pick) {
        None => unreachable!(),
        Some(entry) => entry.0.agrees(entry.1, values),
    }
}
