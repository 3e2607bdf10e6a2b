//! The command `replay`.

ghost use Rattle.std.specs.Prelude.{◌≡◌, ◌<◌, ◌^◌, Ok, [], ◌∷◌, IfOk, IfErr, IfSome, length, string_bytes};
ghost use Rattle.net_check.specs.Network.{entry, network};
ghost use Rattle.net_check.specs.Sound.{AreOfOneJob};
ghost use Rattle.exact_records.specs.View.{record_trees};
ghost use Rattle.path_report.specs.Reading.{ReadsReport};
ghost use Rattle.command_runs.specs.Inputs.{given_of, some_bytes};
ghost use Rattle.command_edge.specs.Puts.{text as a_text};
ghost use Rattle.command_runs.specs.Runs.{IsRefusal};
ghost use Rattle.replay_command.specs.Replays.{CountsCome, IsBoundAgain, IsCountsText, IsNoReport, IsReplayRefusal, NoCountsCome, ReplayComes, TellsAnswer, choices_of};

use crate::counts::confirmed_text;
use crate::fault::{fault_of_replay, fault_of_report};
use command_edge::{Ending, OwnFault};
use command_runs::{Both, ByteFile, JobFile, OnePiece, Two};
use kept_texts::OfNet;
use net_check::{Accepted, Injection, Net, USUAL_CHOICES};
use path_records::Record;
use path_replay::{Confirmed, ReplayFault, Supply, confirm, confirm_given};
use path_report::laws::printed_records_are_read;
use path_report::{PrintedRecords, Report, open_printed, read_report};
use sn_width::NoMemory;
use std::alloc::Global;
use std::marker::Brand;

/// The most bytes that the file of a report may have.
pub const REPORT_LIMIT: u64 = 268_435_456;

/// The counts of the records of the report of one file, where the job of the other confirms each record.
#[derive(Clone, Copy)]
pub struct Replay<'a> {
    pub source: Both<JobFile<'a>, ByteFile<'a>>,
}

/// The report that the bytes show.
pub(crate) fn report_of(alloc: Global, net: &Net, bytes: &[u8]) -> Result<Report, OwnFault>
    ensures report { IfOk result (λ report. ReadsReport (network net.now) bytes.now (Ok report)) }
    ensures refused { IfErr result (IsNoReport (network net.now) bytes.now) }
{
    match read_report(alloc, net, bytes) {
        Ok(report) => Ok(report),
        Err(fault) => Err(fault_of_report(alloc, fault)),
    }
}

/// The bound on choices of cases that a report says, or the usual one.
pub(crate) fn choices_of(cases: Option<u64>) -> u64
    ensures { result ≡ choices_of cases }
{
    match cases {
        None => USUAL_CHOICES,
        Some(most) => most,
    }
}

/// The text of the counts of these records, whose walks have `hops` hops.
fn text_of_counts(
    alloc: Global,
    net: &Net,
    injection: &Injection,
    hops: u32,
    records: &[Record],
) -> Result<String, OwnFault>
    requires { AreOfOneJob (network net.now) (entry injection.now) }
    ensures text { IfOk result (λ text. IsCountsText (network net.now) (entry injection.now) hops
        (record_trees records.now) (string_bytes text)) }
    ensures refused { IfErr result (IsReplayRefusal (network net.now) (entry injection.now) hops
        (record_trees records.now)) }
{
    let answer = confirm(alloc, net, injection, hops, records);
    text_of_answer(alloc, answer)
}

/// The text of the counts of the report that the bytes show, which is read whole.
fn text_of_whole(
    alloc: Global,
    net: &Net,
    injection: &mut Injection,
    bytes: &[u8],
) -> Result<String, OwnFault>
    requires { AreOfOneJob (network net.now) (entry injection.old) }
    ensures text { IfOk result (λ text. CountsCome (network net.now) (entry injection.old) bytes.now
        (string_bytes text)) }
    ensures refused { IfErr result (NoCountsCome (network net.now) (entry injection.old) bytes.now) }
{
    let report = report_of(alloc, net, bytes)?;
    injection.set_choices(choices_of(report.cases));
    text_of_counts(alloc, net, injection, report.hops, &report.records)
}

/// The records of a report in its printed form. Each is confirmed as it is read.
#[derive(Drop)]
struct AsRead<'a, N: OfNet> {
    records: PrintedRecords<'a, N>,
}

impl<N: OfNet> Supply for AsRead<'_, N> {
    ghost use Rattle.std.specs.Prelude.{length};
    ghost use Rattle.path_report.specs.Printed.{IsNext};

    ghost steps = { λ u found v. IsNext N.net u.records found v.records };

    ghost left = { λ s. length s.records.left };

    fn next(&mut self) -> Result<Option<Record>, NoMemory> {
        self.records.next()
    }
}

/// The text of these counts.
fn text_of_answer(alloc: Global, answer: Result<Confirmed, ReplayFault>) -> Result<String, OwnFault>
    ensures { TellsAnswer answer result }
{
    match answer {
        Ok(counts) => Ok(confirmed_text(alloc, &counts)?),
        Err(fault) => Err(fault_of_replay(fault)),
    }
}

/// The text of the counts of the records of a report in its printed form. It keeps none of them. None also where that form is
/// not seen. The injection has another bound on choices of cases behind it.
fn text_of_printed<N: OfNet>(
    alloc: Global,
    net: &Net,
    injection: &mut Injection,
    bytes: &[u8],
) -> Result<Option<String>, OwnFault>
    requires net { network net.now ≡ N.net }
    requires job { AreOfOneJob (network net.now) (entry injection.old) }
    requires short { length bytes.now < 2 ^ 63 }
    ensures text { IfOk result (λ found. IfSome found
        (λ text. CountsCome (network net.now) (entry injection.old) bytes.now (string_bytes text))) }
    ensures refused { IfErr result (NoCountsCome (network net.now) (entry injection.old) bytes.now) }
    ensures kept { IsBoundAgain injection.old injection.new }
{
    printed_records_are_read();
    let Some((frame, records)) = open_printed::<N>(alloc, net, bytes)? else {
        return Ok(None);
    };
    injection.set_choices(choices_of(frame.cases));
    let mut supply = AsRead { records };
    let answer = confirm_given(alloc, net, injection, frame.hops, &mut supply);
    if !supply.records.is_over() {
        return Ok(None);
    }
    match text_of_answer(alloc, answer) {
        Ok(text) => Ok(Some(text)),
        Err(fault) => Err(fault),
    }
}

/// The text of the counts of the report that the bytes show, of an accepted net and injection.
fn text_of_report(
    alloc: Global,
    net: &Net,
    injection: &mut Injection,
    bytes: &[u8],
) -> Result<String, OwnFault>
    requires job { AreOfOneJob (network net.now) (entry injection.old) }
    requires short { length bytes.now < 2 ^ 63 }
    ensures text { IfOk result (λ text. CountsCome (network net.now) (entry injection.old) bytes.now
        (string_bytes text)) }
    ensures refused { IfErr result (NoCountsCome (network net.now) (entry injection.old) bytes.now) }
{
    match text_of_printed::<Brand>(alloc, net, injection, bytes)? {
        Some(text) => Ok(text),
        None => text_of_whole(alloc, net, injection, bytes),
    }
}

/// The text of the counts of the report of the file.
fn text_of(alloc: Global, job: &mut Accepted, bytes: &[u8]) -> Result<(Ending, String), OwnFault>
    requires job { AreOfOneJob (network job.old.net) (entry job.old.injection) }
    requires short { length bytes.now < 2 ^ 63 }
    ensures text { IfOk result (λ t. ReplayComes (given_of job.old ∷ some_bytes bytes.now ∷ [])
        (a_text t.0 (string_bytes t.1))) }
    ensures refused { IfErr result (IsRefusal (ReplayComes (given_of job.old ∷ some_bytes bytes.now ∷ []))) }
{
    let text = text_of_report(alloc, &job.net, &mut job.injection, bytes)?;
    Ok((Ending::Done, text))
}

impl<'a> OnePiece for Replay<'a> {
    type From = Both<JobFile<'a>, ByteFile<'a>>;

    ghost source = { λ r. r.source };

    ghost comes = { λ r. ReplayComes };

    fn source(&self) -> &Both<JobFile<'a>, ByteFile<'a>> {
        &self.source
    }

    fn text(
        &self,
        alloc: Global,
        given: Two<Accepted, Vec<u8>>,
    ) -> Result<(Ending, String), OwnFault> {
        let Two { first, second } = given;
        let mut job = first;
        text_of(alloc, &mut job, &second)
    }
}
