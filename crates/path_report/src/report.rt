//! Reports.

ghost use Rattle.std.specs.Prelude.{◌≡◌, codes, option_map, IfOk, IsUtf8};
ghost use Rattle.serde_json.specs.Data.{object};
ghost use Rattle.serde_json.specs.Find.{get_member};
ghost use Rattle.serde_json.specs.View.{view, members_view};
ghost use Rattle.net_check.specs.Network.{network};
ghost use Rattle.report_shape.specs.declared.part.Part.TheVariants as part;
ghost use Rattle.run_text.specs.Forms.{count};
ghost use Rattle.record_text.specs.declared.report.Report.{Report};
ghost use Rattle.record_text.specs.Reports.{data_of, report_text};
ghost use Rattle.report_forms.specs.Fits.{CasesFit, ReportFits};
ghost use Rattle.path_report.specs.Having.{HasForm, HoldsReport};
ghost use Rattle.path_report.specs.Reading.{refusal, ReadsReport, GivesBack};

use crate::decoder::{Decoder, field, member};
use crate::lines::shaped_lines_are_read;
use crate::printed::read_printed;
use net_check::Net;
use record_text::Report;
use report_forms::laws::reports_have_their_form;
use report_names::NetNames;
use report_shape::{Part, ShapeFault, read_value};
use serde_json::{Map, Value};
use sn_width::NoMemory;
use std::alloc::Global;

/// Why bytes are not the text of a report.
#[derive(Drop)]
pub enum ReportFault {
    /// They are not the text of a JSON value, as `serde_json` reads it.
    NotJson,
    /// The first place of the value that has not its shape, as a JSON Pointer (RFC 6901).
    NotReport { pointer: String },
    NoMemory,
}

impl From<NoMemory> for ReportFault {
    ghost use Rattle.std.specs.Prelude.{◌≡◌};
    ghost use Rattle.path_report.specs.declared.report.ReportFault.TheVariants.{NoMemory as OutOfMemory};

    ghost from_gives = { λ _ fault. fault ≡ OutOfMemory };

    fn from(_error: NoMemory) -> ReportFault {
        ReportFault::NoMemory
    }
}

fn refusal(fault: ShapeFault) -> ReportFault
    ensures { result ≡ refusal fault }
{
    match fault {
        ShapeFault::NotJson => ReportFault::NotJson,
        ShapeFault::NotShaped { pointer } => ReportFault::NotReport { pointer },
        ShapeFault::NoMemory => ReportFault::NoMemory,
    }
}

impl Decoder<'_> {
    /// The most choices of cases, where they are said.
    fn cases_of(&self, members: &Map<String, Value>) -> Option<u64>
        requires { HoldsReport (network self.now.net.now) (members_view members.now.entries) }
        ensures shown { option_map count result ≡ get_member (codes "cases") (members_view members.now.entries) }
        ensures fits { CasesFit result }
    {
        match member(members, "cases") {
            Some(value) => value.as_u64(),
            None => None,
        }
    }

    #[tactic(auto, unfolding(record_text::specs::Reports::report_data))]
    fn report_of(&self, alloc: Global, members: &Map<String, Value>) -> Result<Report, NoMemory>
        requires { HoldsReport (network self.now.net.now) (members_view members.now.entries) }
        ensures shown { IfOk result (λ report. data_of (network self.now.net.now) report
            ≡ object (members_view members.now.entries)) }
        ensures fits { IfOk result (λ report. ReportFits (network self.now.net.now) report) }
    {
        let cases = self.cases_of(members);
        let hops = self.hops(field(members, "hops"));
        let limit = self.limit(field(members, "limit"));
        let records = self.records(alloc, field(members, "records"))?;
        let refuted = self.count(field(members, "refuted"));
        let complete = self.complete(field(members, "state"));
        Ok(Report {
            cases,
            hops,
            limit,
            records,
            refuted,
            complete,
        })
    }

    fn report(&self, alloc: Global, value: &Value) -> Result<Report, NoMemory>
        requires { HasForm (network self.now.net.now) part.Report (view value.now) }
        ensures shown { IfOk result (λ report. data_of (network self.now.net.now) report ≡ view value.now) }
        ensures fits { IfOk result (λ report. ReportFits (network self.now.net.now) report) }
    {
        let Value::Object(members) = value else {
            unreachable!();
        };
        self.report_of(alloc, members)
    }
}

/// Reads the report by the one value that the bytes are the text of.
pub(crate) fn read_whole(alloc: Global, net: &Net, bytes: &[u8]) -> Result<Report, ReportFault>
    ensures { ReadsReport (network net.now) bytes.now result }
{
    let names = NetNames { net };
    let decoder = Decoder { net };
    match read_value(alloc, &names, Part::Report, bytes) {
        Ok(value) => Ok(decoder.report(alloc, &value)?),
        Err(fault) => Err(refusal(fault)),
    }
}

/// Reads the report record by record where it is in its printed form, and else by its one value.
fn read(alloc: Global, net: &Net, bytes: &[u8]) -> Result<Report, ReportFault>
    ensures { ReadsReport (network net.now) bytes.now result }
{
    reports_have_their_form();
    shaped_lines_are_read();
    match read_printed(alloc, net, bytes)? {
        Some(report) => Ok(report),
        None => read_whole(alloc, net, bytes),
    }
}

/// The report that the bytes show, by the names of the net; or the first place that has not its shape.
pub fn read_report(alloc: Global, net: &Net, bytes: &[u8]) -> Result<Report, ReportFault>
    ensures reads { ReadsReport (network net.now) bytes.now result }
    ensures back { (report : Report) → ReportFits (network net.now) report → IsUtf8 bytes.now
        → bytes.now ≡ report_text (network net.now) report
        → GivesBack report result }
{
    reports_have_their_form();
    shaped_lines_are_read();
    read(alloc, net, bytes)
}
