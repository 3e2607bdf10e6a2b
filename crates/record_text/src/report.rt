//! Reports.

ghost use Rattle.std.specs.Prelude.{◌≡◌, string_bytes, IfOk, OnOk, None, Some};
ghost use Rattle.serde_json.specs.Data.{string};
ghost use Rattle.net_check.specs.Network.{network};
ghost use Rattle.run_text.specs.Tokens.{EndsObject, Gains};
ghost use Rattle.record_text.specs.Records.{records_data};
ghost use Rattle.record_text.specs.Reports.{state_text, with_cases, members_of, report_data, data_of, head_text, tail_text, report_text};

use crate::records::write_record;
use net_check::Net;
use path_records::Record;
use run_text::JsonText;
use run_text::json_laws::objects_are_written;
use sn_width::NoMemory;
use std::alloc::Global;

/// The room that the text of a report has at the start, in bytes.
const ROOM: usize = 4096;

/// What an exploration told.
#[derive(Drop)]
pub struct Report {
    /// The most choices of cases that were tried, from 1 on, where they are said.
    pub cases: Option<u64>,
    /// The most hops of a walk, from 1 to 256.
    pub hops: u32,
    /// The most paths and refuted sides, from 1 to 100,000.
    pub limit: u32,
    pub records: Vec<Record>,
    /// How many sides were refuted, also those that are not among the records.
    pub refuted: u64,
    /// Whether nothing is left unexplored.
    pub complete: bool,
}

fn state_text(complete: bool) -> &'static str
    ensures { result.now ≡ state_text complete }
{
    if complete { "done" } else { "partial" }
}

fn plain_head(alloc: Global, hops: u32, limit: u32) -> Result<String, NoMemory>
    ensures { IfOk result (λ text. string_bytes text ≡ head_text None hops limit) }
{
    Ok(format!(in alloc; "{{\"hops\":{hops},\"limit\":{limit},\"records\":[")?)
}

fn bounded_head(alloc: Global, cases: u64, hops: u32, limit: u32) -> Result<String, NoMemory>
    ensures { IfOk result (λ text. string_bytes text ≡ head_text (Some cases) hops limit) }
{
    Ok(format!(in alloc; "{{\"cases\":{cases},\"hops\":{hops},\"limit\":{limit},\"records\":[")?)
}

/// The text of a report up to its records.
pub fn head_text(
    alloc: Global,
    cases: Option<u64>,
    hops: u32,
    limit: u32,
) -> Result<String, NoMemory>
    ensures { IfOk result (λ text. string_bytes text ≡ head_text cases hops limit) }
{
    match cases {
        None => plain_head(alloc, hops, limit),
        Some(cases) => bounded_head(alloc, cases, hops, limit),
    }
}

/// The text of a report from the end of its records on, with the line feed.
pub fn tail_text(alloc: Global, refuted: u64, complete: bool) -> Result<String, NoMemory>
    ensures { IfOk result (λ text. string_bytes text ≡ tail_text refuted complete) }
{
    let state = state_text(complete);
    Ok(format!(in alloc; "],\"refuted\":{refuted},\"state\":\"{state}\",\"symnet\":1}}\n")?)
}

#[tactic(auto, unfolding(crate::specs::Records::records_data))]
fn write_records(
    alloc: Global,
    out: &mut JsonText,
    net: &Net,
    records: &[Record],
) -> Result<(), NoMemory>
    ensures { Gains (records_data (network net.now) records.now) result out.old out.new }
{
    out.begin_list()?;
    for entry in records {
        write_record(alloc, out, net, entry)?;
    }
    out.end_list()?;
    Ok(())
}

fn write_all_records(
    alloc: Global,
    out: &mut JsonText,
    net: &Net,
    report: &Report,
) -> Result<(), NoMemory>
    ensures { Gains (records_data (network net.now) report.now.records.items) result out.old out.new }
{
    write_records(alloc, out, net, &report.records)
}

fn write_state(out: &mut JsonText, complete: bool) -> Result<(), NoMemory>
    ensures { Gains (string (state_text complete)) result out.old out.new }
{
    out.string(state_text(complete))
}

/// Writes the members that every report has, and the end of the object.
#[tactic(auto, unfolding(crate::specs::Reports::report_members))]
fn write_members(
    alloc: Global,
    out: &mut JsonText,
    net: &Net,
    report: &Report,
) -> Result<(), NoMemory>
    ensures { OnOk result (EndsObject (members_of (network net.now) report.now) out.old out.new) }
{
    objects_are_written();
    out.key("hops")?;
    out.id(report.hops)?;
    out.key("limit")?;
    out.id(report.limit)?;
    out.key("records")?;
    write_all_records(alloc, out, net, report)?;
    out.key("refuted")?;
    out.count(report.refuted)?;
    out.key("state")?;
    write_state(out, report.complete)?;
    out.key("symnet")?;
    out.count(1)?;
    out.end_object()?;
    Ok(())
}

/// Writes the most choices of cases, and the other members.
fn write_bounded(
    alloc: Global,
    out: &mut JsonText,
    net: &Net,
    report: &Report,
    cases: u64,
) -> Result<(), NoMemory>
    ensures { OnOk result (EndsObject (with_cases (Some cases) (members_of (network net.now) report.now))
        out.old out.new) }
{
    objects_are_written();
    out.key("cases")?;
    out.count(cases)?;
    write_members(alloc, out, net, report)?;
    Ok(())
}

fn write_all_members(
    alloc: Global,
    out: &mut JsonText,
    net: &Net,
    report: &Report,
) -> Result<(), NoMemory>
    ensures { OnOk result (EndsObject (with_cases report.now.cases (members_of (network net.now) report.now))
        out.old out.new) }
{
    match report.cases {
        None => write_members(alloc, out, net, report),
        Some(cases) => write_bounded(alloc, out, net, report, cases),
    }
}

#[tactic(auto, unfolding(crate::specs::Reports::report_data))]
fn write_report(
    alloc: Global,
    out: &mut JsonText,
    net: &Net,
    report: &Report,
) -> Result<(), NoMemory>
    ensures { Gains (data_of (network net.now) report.now) result out.old out.new }
{
    objects_are_written();
    out.begin_object()?;
    write_all_members(alloc, out, net, report)?;
    Ok(())
}

/// The report as one line of compact JSON, keys ascending, with a line feed at its end. An id that is
/// none of the net's is shown with an empty name.
pub fn report_text(alloc: Global, net: &Net, report: &Report) -> Result<String, NoMemory>
    ensures { IfOk result (λ text. string_bytes text ≡ report_text (network net.now) report.now) }
{
    let mut out = JsonText::with_capacity(alloc, ROOM)?;
    write_report(alloc, &mut out, net, report)?;
    let mut text = out.into_text();
    text.push('\n')?;
    Ok(text)
}
