//! Records.

ghost use Rattle.std.specs.Prelude.{◌≡◌, string_bytes, IfOk};
ghost use Rattle.serde_json.specs.Written.{compact_text};
ghost use Rattle.net_check.specs.Network.{network};
ghost use Rattle.path_records.specs.Shown.{fields_seen};
ghost use Rattle.run_text.specs.Tokens.{Gains};
ghost use Rattle.run_text.specs.Forms.{term_data, fields_data};
ghost use Rattle.record_text.specs.Records.{path_data, pruned_data, unexplored_data, record_data};

use crate::refutations::write_refutation;
use crate::verdicts::{write_before, write_verdict};
use net_check::Net;
use path_records::{Fields, Record};
use refutation_check::{Refute, Verdict};
use run_text::json_laws::objects_are_written;
use run_text::{JsonText, write_decisions, write_end, write_fields, write_places};
use sefl_meaning::{Decision, End, Place};
use sn_width::NoMemory;
use std::alloc::Global;

/// The room that the text of a record has at the start, in bytes.
const ROOM: usize = 1024;

fn write_carried(
    alloc: Global,
    out: &mut JsonText,
    net: &Net,
    fields: &Fields,
) -> Result<(), NoMemory>
    ensures { Gains (fields_data term_data (network net.now) (fields_seen fields.now)) result out.old out.new }
{
    write_fields(alloc, out, net, &fields.tags, &fields.heads, &fields.metas)?;
    Ok(())
}

/// The members of a path that are lists.
#[derive(Clone, Copy)]
struct Course<'r> {
    decisions: &'r [Decision],
    places: &'r [Place],
}

#[tactic(auto, unfolding(crate::specs::Records::path_data))]
fn write_path(
    alloc: Global,
    out: &mut JsonText,
    net: &Net,
    course: Course<'_>,
    end: &End,
    fields: &Fields,
    verdict: &Verdict,
) -> Result<(), NoMemory>
    ensures { Gains (path_data (network net.now) course.entry.decisions.now course.entry.places.now end.now
        (fields_seen fields.now) verdict.now)
        result out.old out.new }
{
    objects_are_written();
    out.begin_object()?;
    out.key("decisions")?;
    write_decisions(out, course.decisions)?;
    out.key("end")?;
    write_end(out, end)?;
    out.key("fields")?;
    write_carried(alloc, out, net, fields)?;
    out.key("kind")?;
    out.string("path")?;
    out.key("places")?;
    write_places(alloc, out, net, course.places)?;
    out.key("verdict")?;
    write_verdict(alloc, out, verdict)?;
    out.end_object()?;
    Ok(())
}

#[tactic(auto, unfolding(crate::specs::Records::pruned_data))]
fn write_pruned(
    alloc: Global,
    out: &mut JsonText,
    before: &Option<Verdict>,
    decisions: &[Decision],
    steps: &[Refute],
) -> Result<(), NoMemory>
    ensures { Gains (pruned_data before.now decisions.now steps.now) result out.old out.new }
{
    objects_are_written();
    out.begin_object()?;
    out.key("before")?;
    write_before(alloc, out, before)?;
    out.key("decisions")?;
    write_decisions(out, decisions)?;
    out.key("kind")?;
    out.string("pruned")?;
    out.key("refutation")?;
    write_refutation(out, steps)?;
    out.end_object()?;
    Ok(())
}

#[tactic(auto, unfolding(crate::specs::Records::unexplored_data))]
fn write_unexplored(out: &mut JsonText, decisions: &[Decision]) -> Result<(), NoMemory>
    ensures { Gains (unexplored_data decisions.now) result out.old out.new }
{
    objects_are_written();
    out.begin_object()?;
    out.key("decisions")?;
    write_decisions(out, decisions)?;
    out.key("kind")?;
    out.string("unexplored")?;
    out.end_object()?;
    Ok(())
}

pub(crate) fn write_record(
    alloc: Global,
    out: &mut JsonText,
    net: &Net,
    entry: &Record,
) -> Result<(), NoMemory>
    ensures { Gains (record_data (network net.now) entry.now) result out.old out.new }
{
    match entry {
        Record::Path {
            decisions,
            places,
            end,
            fields,
            verdict,
        } => write_path(
            alloc,
            out,
            net,
            Course { decisions, places },
            end,
            fields,
            verdict,
        ),
        Record::Pruned {
            decisions,
            before,
            refutation,
        } => write_pruned(alloc, out, before, decisions, refutation.as_slice()),
        Record::Unexplored { decisions } => write_unexplored(out, decisions),
    }
}

/// The record as compact JSON, keys ascending, with no line feed. An id that is none of the net's is
/// shown with an empty name.
pub fn record_text(alloc: Global, net: &Net, entry: &Record) -> Result<String, NoMemory>
    ensures { IfOk result (λ text. string_bytes text ≡ compact_text (record_data (network net.now) entry.now)) }
{
    let mut out = JsonText::with_capacity(alloc, ROOM)?;
    write_record(alloc, &mut out, net, entry)?;
    Ok(out.into_text())
}
