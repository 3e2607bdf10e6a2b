//! Records that are confirmed one after another.

ghost use Rattle.std.specs.Prelude.{IfOk};
ghost use Rattle.exact_records.specs.View.{record_tree, record_trees};
ghost use Rattle.record_checks.specs.Confirming.{Confirms, ConfirmsNext, IsConfirmedBack};
ghost use Rattle.record_checks.specs.Counts.{AreAtMost};
ghost use Rattle.record_checks.specs.Supplies.{ConfirmsAll, ConfirmsMore};
ghost use Rattle.record_checks.specs.Trails.{IsTrail};

use crate::checks::broken_in;
use crate::counts::{Confirmed, no_counts, with_record};
use crate::fault::ReplayFault;
use crate::guide::Guide;
use crate::supply::Supply;
use crate::trail::{Trail, begin};
use path_records::Record;
use std::alloc::Global;

/// Confirms each record along one guided run: where the records ascend by their decisions, what they share is run
/// once. Their counts exactly where each has its own meaning; else the first that has not, by its first broken part.
pub fn confirm_along<G: Guide>(
    alloc: Global,
    guide: &G,
    records: &[Record],
) -> Result<Confirmed, ReplayFault>
    ensures confirms { Confirms G.start (record_trees records.now) result }
    ensures back { IsConfirmedBack G.start (record_trees records.now) result }
{
    confirm_each(alloc, guide, records)
}

/// The same, one way.
fn confirm_each<G: Guide>(
    alloc: Global,
    guide: &G,
    records: &[Record],
) -> Result<Confirmed, ReplayFault>
    ensures { Confirms G.start (record_trees records.now) result }
{
    let mut trail = begin(alloc, guide)?;
    let mut counts = no_counts();
    let mut number = 0;
    for found in records {
        counts = confirm_next(alloc, guide, &mut trail, found, number, counts)?;
        number += 1;
    }
    Ok(counts)
}

/// The counts with the record of this number, where it has its own meaning.
pub fn confirm_next<G: Guide>(
    alloc: Global,
    guide: &G,
    trail: &mut Trail<G::Stop>,
    found: &Record,
    number: u64,
    counts: Confirmed,
) -> Result<Confirmed, ReplayFault>
    requires trail { IsTrail G.start G.seen trail.old }
    requires room { AreAtMost 18446744073709551614 counts }
    ensures trail { IsTrail G.start G.seen trail.new }
    ensures confirms { ConfirmsNext G.start (record_tree found.now) number counts result }
{
    match broken_in(alloc, guide, trail, found)? {
        Some(part) => Err(ReplayFault::NotConfirmed { number, part }),
        None => Ok(with_record(counts, found)),
    }
}

/// Confirms each record that is handed over, and keeps none. All are taken, also behind one that is not confirmed.
pub fn confirm_given_along<G: Guide, S: Supply>(
    alloc: Global,
    guide: &G,
    supply: &mut S,
) -> Result<Confirmed, ReplayFault>
    ensures { ConfirmsAll S.steps G.start supply.old supply.new result }
{
    let mut trail = begin(alloc, guide)?;
    let mut answer = Ok(no_counts());
    let mut number: u64 = 0;
    while let Some(found) = supply.next()? {
        let next = number.checked_add(1).ok_or(ReplayFault::NoMemory)?;
        answer = confirm_taken(alloc, guide, &mut trail, found, number, answer);
        number = next;
    }
    answer
}

/// The answer with the record of this number; behind one that is not confirmed it stays.
fn confirm_more<G: Guide>(
    alloc: Global,
    guide: &G,
    trail: &mut Trail<G::Stop>,
    found: &Record,
    number: u64,
    answer: Result<Confirmed, ReplayFault>,
) -> Result<Confirmed, ReplayFault>
    requires trail { IsTrail G.start G.seen trail.old }
    requires room { IfOk answer (AreAtMost 18446744073709551614) }
    ensures trail { IsTrail G.start G.seen trail.new }
    ensures confirms { ConfirmsMore G.start (record_tree found.now) number answer result }
{
    match answer {
        Ok(counts) => confirm_next(alloc, guide, trail, found, number, counts),
        Err(fault) => Err(fault),
    }
}

/// The same of a record that is not kept.
fn confirm_taken<G: Guide>(
    alloc: Global,
    guide: &G,
    trail: &mut Trail<G::Stop>,
    found: Record,
    number: u64,
    answer: Result<Confirmed, ReplayFault>,
) -> Result<Confirmed, ReplayFault>
    requires trail { IsTrail G.start G.seen trail.old }
    requires room { IfOk answer (AreAtMost 18446744073709551614) }
    ensures trail { IsTrail G.start G.seen trail.new }
    ensures confirms { ConfirmsMore G.start (record_tree found) number answer result }
{
    confirm_more(alloc, guide, trail, &found, number, answer)
}
