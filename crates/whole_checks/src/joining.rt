//! Whether a record comes next behind another one.

ghost use Rattle.std.specs.Prelude.{◌≡◌, ◌↔◌, ◌≤◌, IsTrue, Some, length, take, slice_get};
ghost use Rattle.sefl_meaning.specs.Order.{BeginsWith};
ghost use Rattle.exact_records.specs.View.{record_tree};
ghost use Rattle.exact_records.specs.Exact.{IsTried};
ghost use Rattle.exact_records.specs.Records.{SymStart, decisions_of};
ghost use Rattle.whole_checks.specs.Chains.{ComesNext, Ends, Joins};
ghost use Rattle.whole_checks.specs.Settling.{AreSettled, AreSharedAt, IsSettled, decisions_before};

use crate::order::{are_first, is_next};
use path_records::Record;
use sefl_meaning::Decision;

/// The decisions of a record, and how many of them have later ones beside them.
#[derive(Clone, Copy)]
pub(crate) struct Before<'r> {
    pub decisions: &'r [Decision],
    pub settled: usize,
}

pub(crate) fn decisions_of(found: &Record) -> &[Decision]
    ensures { result.now ≡ decisions_of (record_tree found.now) }
{
    match found {
        Record::Path { decisions, .. } => decisions,
        Record::Pruned { decisions, .. } => decisions,
        Record::Unexplored { decisions } => decisions,
    }
}

fn is_tried(found: &Record) -> bool
    ensures { IsTrue result ↔ IsTried (record_tree found.now) }
{
    match found {
        Record::Path { .. } => true,
        Record::Pruned { .. } => true,
        Record::Unexplored { .. } => false,
    }
}

/// The decision of this place.
fn decision_at(decisions: &[Decision], place: usize) -> Option<Decision>
    ensures { result ≡ slice_get decisions.now place }
{
    decisions.get(place).copied()
}

/// Whether two lists have one decision at this place.
fn is_shared(one: &[Decision], other: &[Decision], place: usize) -> bool
    ensures { IsTrue result ↔ AreSharedAt one.now other.now place }
{
    let Some(first) = decision_at(one, place) else {
        return false;
    };
    let Some(second) = decision_at(other, place) else {
        return false;
    };
    first == second
}

/// How many of the first decisions two lists share.
fn shared(one: &[Decision], other: &[Decision]) -> usize
    ensures few { result ≤ length one.now }
    ensures shared { BeginsWith (take result one.now) other.now }
    ensures part { AreSharedAt one.now other.now result → ⊥ }
{
    for at in 0..one.len() {
        if !is_shared(one, other, at) {
            return at;
        }
    }
    one.len()
}

/// Whether decisions come next behind those of a record.
fn comes_next(before: Before<'_>, decisions: &[Decision]) -> bool
    ensures { (s : SymStart) → IsSettled s before.entry.decisions.now before.entry.settled
        → (IsTrue result ↔ ComesNext s before.entry.decisions.now decisions.now) }
{
    let at = shared(before.decisions, decisions);
    let Some(one) = decision_at(before.decisions, at) else {
        return false;
    };
    let Some(other) = decision_at(decisions, at) else {
        return false;
    };
    if at + 1 < before.settled {
        return false;
    }
    if !is_next(one, other) {
        return false;
    }
    are_first(decisions, at + 1)
}

/// Whether a record was tried, and comes next behind the one before it; where there is none, whether nothing comes before it.
pub(crate) fn joins(before: Option<Before<'_>>, found: &Record) -> bool
    ensures { (s : SymStart) → AreSettled s before.entry
        → (IsTrue result ↔ Joins s (decisions_before before.entry) (record_tree found.now)) }
{
    if !is_tried(found) {
        return false;
    }
    match before {
        None => are_first(decisions_of(found), 0),
        Some(before) => comes_next(before, decisions_of(found)),
    }
}

/// Whether nothing comes behind the last record.
pub(crate) fn ends(before: Option<Before<'_>>) -> bool
    ensures { (s : SymStart) → AreSettled s before.entry → (IsTrue result ↔ Ends s (decisions_before before.entry)) }
{
    match before {
        None => false,
        Some(before) => is_closed(before),
    }
}

/// Whether no decision of a record has a later one beside it.
fn is_closed(before: Before<'_>) -> bool
    ensures { (s : SymStart) → IsSettled s before.entry.decisions.now before.entry.settled
        → (IsTrue result ↔ Ends s (Some before.entry.decisions.now)) }
{
    if before.settled == 0 {
        return true;
    }
    false
}
