//! The command `replay` with `--records whole`.

ghost use Rattle.std.specs.Prelude.{◌≡◌, ◌↔◌, [], ◌∷◌, IfErr, IfOk, IsTrue, string_bytes};
ghost use Rattle.net_check.specs.Network.{Entry, entry, network, with_choices};
ghost use Rattle.net_check.specs.Sound.{AreOfOneJob};
ghost use Rattle.command_runs.specs.Inputs.{given_of, some_bytes};
ghost use Rattle.command_edge.specs.Puts.{text as a_text};
ghost use Rattle.command_runs.specs.Runs.{IsRefusal};
ghost use Rattle.replay_command.specs.Replays.{choices_of};
ghost use Rattle.replay_command.specs.Counted.{confirmed_text};
ghost use Rattle.replay_command.specs.Wholes.{HasHead, IsHeadRefusal, IsWholeRefusal, IsWholeText, NoWholeComes, WholeComes, WholeTextComes, told_by};

use crate::counts::confirmed_text;
use crate::fault::fault_of_whole;
use crate::replay::{choices_of, report_of};
use command_edge::{Ending, OwnFault};
use command_runs::{Both, ByteFile, JobFile, OnePiece, Two};
use net_check::{Accepted, Injection, Net};
use path_replay::{Confirmed, confirm_whole};
use path_report::Report;
use std::alloc::Global;

/// The counts of the records of the report of one file, where the job of the other confirms each record, and that together they leave
/// nothing out.
#[derive(Clone, Copy)]
pub struct ReplayWhole<'a> {
    pub source: Both<JobFile<'a>, ByteFile<'a>>,
}

/// Whether what a report says beside its records is so: nothing is left, these are the counts, and the limit is kept.
fn has_head(report: &Report, counts: &Confirmed) -> bool
    ensures { IsTrue result ↔ HasHead (told_by report.now) counts.now }
{
    if !report.complete {
        return false;
    }
    if report.refuted != counts.pruned {
        return false;
    }
    if u64::from(report.limit) < report.records.len() as u64 {
        return false;
    }
    true
}

/// The text of the counts of a report, of which the injection has the bound on choices of cases.
fn text_of_read(
    alloc: Global,
    net: &Net,
    injection: &Injection,
    report: &Report,
) -> Result<String, OwnFault>
    requires { AreOfOneJob (network net.now) (entry injection.now) }
    ensures text { IfOk result (λ text. (i : Entry) → entry injection.now ≡ with_choices (choices_of report.now.cases) i
        → IsWholeText (network net.now) i (told_by report.now) (string_bytes text)) }
    ensures refused { IfErr result (λ fault. (i : Entry) → entry injection.now ≡ with_choices (choices_of report.now.cases) i
        → IsWholeRefusal (network net.now) i (told_by report.now) fault) }
{
    match confirm_whole(alloc, net, injection, report.hops, &report.records) {
        Ok(counts) => text_of_head(alloc, report, &counts),
        Err(fault) => Err(fault_of_whole(fault)),
    }
}

/// The text of the counts of the records of a report, where what it says beside them is so.
fn text_of_head(alloc: Global, report: &Report, counts: &Confirmed) -> Result<String, OwnFault>
    ensures text { IfOk result (λ text. HasHead (told_by report.now) counts.now
        × (string_bytes text ≡ confirmed_text counts.now)) }
    ensures refused { IfErr result (IsHeadRefusal (told_by report.now) counts.now) }
{
    if !has_head(report, counts) {
        return Err(OwnFault::NotConfirmed {
            number: report.records.len() as u64,
            kind: 6,
        });
    }
    Ok(confirmed_text(alloc, counts)?)
}

/// The text of the counts of the report that the bytes show, which is read whole.
fn text_of_report(
    alloc: Global,
    net: &Net,
    injection: &mut Injection,
    bytes: &[u8],
) -> Result<String, OwnFault>
    requires { AreOfOneJob (network net.now) (entry injection.old) }
    ensures text { IfOk result (λ text. WholeTextComes (network net.now) (entry injection.old) bytes.now
        (string_bytes text)) }
    ensures refused { IfErr result (NoWholeComes (network net.now) (entry injection.old) bytes.now) }
{
    let report = report_of(alloc, net, bytes)?;
    injection.set_choices(choices_of(report.cases));
    text_of_read(alloc, net, injection, &report)
}

/// The text of the counts of the report of the file.
fn text_of(alloc: Global, job: &mut Accepted, bytes: &[u8]) -> Result<(Ending, String), OwnFault>
    requires { AreOfOneJob (network job.old.net) (entry job.old.injection) }
    ensures text { IfOk result (λ t. WholeComes (given_of job.old ∷ some_bytes bytes.now ∷ [])
        (a_text t.0 (string_bytes t.1))) }
    ensures refused { IfErr result (IsRefusal (WholeComes (given_of job.old ∷ some_bytes bytes.now ∷ []))) }
{
    let text = text_of_report(alloc, &job.net, &mut job.injection, bytes)?;
    Ok((Ending::Done, text))
}

impl<'a> OnePiece for ReplayWhole<'a> {
    type From = Both<JobFile<'a>, ByteFile<'a>>;

    ghost source = { λ r. r.source };

    ghost comes = { λ r. WholeComes };

    fn source(&self) -> &Both<JobFile<'a>, ByteFile<'a>> {
        &self.source
    }

    fn text(
        &self,
        alloc: Global,
        given: Two<Accepted, Vec<u8>>,
    ) -> Result<(Ending, String), OwnFault> {
        let Two { first, second } = given;
        let mut job = first;
        text_of(alloc, &mut job, &second)
    }
}
