//! Records that are confirmed one after another, and leave nothing out.

ghost use Rattle.std.specs.Prelude.{◌≡◌, IfErr, IfOk};
ghost use Rattle.exact_records.specs.Records.{HasMeaning};
ghost use Rattle.exact_records.specs.View.{record_tree, record_trees};
ghost use Rattle.record_checks.specs.Trails.{IsTrail};
ghost use Rattle.whole_checks.specs.Confirming.{ConfirmsWhole};
ghost use Rattle.whole_checks.specs.Settling.{AreSettled, IsJoined, IsNotJoined};

use crate::fault::WholeFault;
use crate::joining::{Before, decisions_of, ends, joins};
use crate::settling::settled;
use lin_term::Term;
use path_records::Record;
use record_checks::guide::Guide;
use record_checks::{Confirmed, Trail, begin, confirm_next, no_counts};
use sefl_meaning::laws::routes_compose;
use std::alloc::Global;
use term_values::Formulas;

/// Confirms each record along one guided run, and that together they leave nothing out: each was tried, and comes next behind the one
/// before it, and nothing comes before the first and behind the last. Their counts; else the first that has not its meaning, or before which
/// one is missing.
pub fn confirm_whole_along<G: Guide>(
    alloc: Global,
    guide: &G,
    records: &[Record],
) -> Result<Confirmed, WholeFault>
    ensures { ConfirmsWhole G.start (record_trees records.now) result }
{
    let mut trail = begin(alloc, guide)?;
    let mut counts = no_counts();
    let mut before = None;
    let mut number = 0;
    for found in records {
        counts = confirm_next(alloc, guide, &mut trail, found, number, counts)?;
        before = Some(joined(alloc, guide, &mut trail, before, found, number)?);
        number += 1;
    }
    if !ends(before) {
        return Err(WholeFault::NotWhole { number });
    }
    Ok(counts)
}

/// What stands before the next record, where the record of this number comes next behind the one before it.
fn joined<'r, G: Guide>(
    alloc: Global,
    guide: &G,
    trail: &mut Trail<G::Stop>,
    before: Option<Before<'r>>,
    found: &'r Record,
    number: u64,
) -> Result<Before<'r>, WholeFault>
    requires trail { IsTrail G.start G.seen trail.old }
    requires settled { AreSettled G.start before }
    requires meaning { HasMeaning G.start (record_tree found.now) }
    ensures trail { IsTrail G.start G.seen trail.new }
    ensures joined { IfOk result (IsJoined G.start before.entry (record_tree found.now)) }
    ensures other { IfErr result (IsNotJoined G.start before.entry (record_tree found.now) number) }
{
    routes_compose::<Term, Formulas>();
    if !joins(before, found) {
        return Err(WholeFault::NotWhole { number });
    }
    let decisions = decisions_of(found);
    let settled = settled(alloc, guide, trail, decisions)?;
    Ok(Before { decisions, settled })
}
