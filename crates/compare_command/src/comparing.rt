//! The comparison of two jobs.

ghost use Rattle.std.specs.Prelude.{◌≡◌, ◌<◌, IfOk, IfErr, string_bytes};
ghost use Rattle.net_check.specs.Network.{entry, network};
ghost use Rattle.net_check.specs.Sound.{AreOfOneJob};
ghost use Rattle.exact_records.specs.View.{record_tree, record_trees};
ghost use Rattle.path_questions.specs.Formulas.{explored};
ghost use Rattle.net_compare.specs.Delivering.{AreStatesOf};
ghost use Rattle.command_edge.specs.Puts.{text as a_text};
ghost use Rattle.command_runs.specs.Runs.{IsRefusal};
ghost use Rattle.explore_command.specs.Explores.{IsEnding};
ghost use Rattle.compare_command.specs.Compares.{AreFoundFor, ComparesTo, cut_count, cuts_of, fault_of, is_cut};

use crate::text::{compared_text, partial_text};
use command_edge::{Ending, OwnFault};
use net_check::Accepted;
use net_compare::{CompareFault, Explored, compare, explore};
use path_records::Record;
use same_injections::same_injection;
use sefl_meaning::End;
use sn_width::{NoMemory, Steps};
use std::alloc::Global;
use std::marker::Brand;
use std::sync::ledger::{Blank, Ledger};

/// The refusal that tells why two jobs are not compared.
fn fault_of(fault: CompareFault) -> OwnFault
    ensures { result ≡ fault_of fault }
{
    match fault {
        CompareFault::OtherInjection => OwnFault::BadCompare {
            kind: 1,
            one: 0,
            other: 0,
        },
        CompareFault::Widths { one, other } => OwnFault::BadCompare {
            kind: 2,
            one,
            other,
        },
        CompareFault::NoMemory => OwnFault::NoMemory,
    }
}

/// How an exploration with these records ended: Partial where some decision was not tried.
fn ending_of(records: &[Record]) -> Ending
    ensures { IsEnding result (record_trees records.now) }
{
    for record in records {
        if let Record::Unexplored { .. } = record {
            return Ending::Partial;
        }
    }
    Ending::Done
}

/// Whether the record is a path that is cut at the bound of hops.
fn is_cut(found: &Record) -> bool
    ensures { result ≡ is_cut (record_tree found.now) }
{
    matches!(found, Record::Path { end: End::Cut, .. })
}

/// How many are.
fn cut_count(records: &[Record]) -> u64
    ensures { result ≡ cut_count (record_trees records.now) }
{
    let mut count: u64 = 0;
    for found in records {
        if is_cut(found) {
            count += 1;
        }
    }
    count
}

/// How many are of each of two lists, where they are to be counted.
fn cuts_of(counts: bool, left: &[Record], right: &[Record]) -> Option<(u64, u64)>
    ensures { result ≡ cuts_of counts (record_trees left.now) (record_trees right.now) }
{
    if !counts {
        return None;
    }
    Some((cut_count(left), cut_count(right)))
}

/// One exploration of a job, and how it ended.
fn explored_of<L: Ledger>(
    alloc: Global,
    job: &Accepted,
    hops: u32,
    limit: u32,
    blank: Blank,
) -> Result<(Ending, Explored), NoMemory>
    requires job { AreOfOneJob (network job.now.net) (entry job.now.injection) }
    requires limit { 0 < limit }
    requires name { blank.name ≡ L.name }
    requires parts { blank.parts ≡ L.parts }
    requires some { 0 < blank.parts }
    ensures found { IfOk result (λ r. AreFoundFor hops limit (network job.now.net) (entry job.now.injection) r.0
        (record_trees r.1.records.items)) }
    ensures states { IfOk result (λ r. AreStatesOf (explored (network job.now.net) (entry job.now.injection) hops)
        (record_trees r.1.records.items) r.1.states.items) }
{
    let mut steps = Steps::<L>::new(blank);
    let found = explore(alloc, &job.net, &job.injection, hops, limit, &mut steps)?;
    Ok((ending_of(&found.records), found))
}

/// The text of the comparison of two jobs, with its ending, and with the numbers of paths that are cut where they are to be counted; or why they are not compared. Nothing is explored where their injections
/// differ, and of the second job nothing where something of the first is left out.
pub(crate) fn text_of_comparison(
    alloc: Global,
    left: &Accepted,
    right: &Accepted,
    hops: u32,
    limit: u32,
    counts: bool,
) -> Result<(Ending, String), OwnFault>
    requires left { AreOfOneJob (network left.now.net) (entry left.now.injection) }
    requires right { AreOfOneJob (network right.now.net) (entry right.now.injection) }
    requires limit { 0 < limit }
    ensures text { IfOk result (λ t. ComparesTo hops limit (network left.now.net) (entry left.now.injection)
        (network right.now.net) (entry right.now.injection) counts (a_text t.0 (string_bytes t.1))) }
    ensures refused { IfErr result (IsRefusal (ComparesTo hops limit (network left.now.net) (entry left.now.injection)
        (network right.now.net) (entry right.now.injection) counts)) }
{
    if !same_injection(&left.injection, &right.injection) {
        return Err(fault_of(CompareFault::OtherInjection));
    }
    let (ending, lefts) = explored_of::<Brand>(alloc, left, hops, limit, Blank::new(1))?;
    if let Ending::Partial = ending {
        return Ok((Ending::Partial, partial_text(alloc)?));
    }
    let (ending, rights) = explored_of::<Brand>(alloc, right, hops, limit, Blank::new(1))?;
    if let Ending::Partial = ending {
        return Ok((Ending::Partial, partial_text(alloc)?));
    }
    match compare(alloc, left, &lefts, right, &rights, hops) {
        Ok(compared) => {
            let cuts = cuts_of(counts, &lefts.records, &rights.records);
            Ok((Ending::Done, compared_text(alloc, cuts, &compared)?))
        }
        Err(fault) => Err(fault_of(fault)),
    }
}
