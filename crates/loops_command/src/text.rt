//! The text of what is found.

ghost use Rattle.std.specs.Prelude.{◌≡◌, string_bytes, IfOk, map};
ghost use Rattle.run_text.specs.Tokens.{Gains};
ghost use Rattle.loops_command.specs.Seen.{opened};
ghost use Rattle.loops_command.specs.Texts.{cause_word, cell_data, found_data, loop_data, loop_list_data, loops_in, loops_text, open_data, open_in, open_list_data, plain_data, unknown_data, visit_data, visit_list_data};

use loop_meaning::{Differ, LoopAnswer, Why};
use refutation_check::Cause;
use run_text::json_laws::objects_are_written;
use run_text::{JsonText, write_values};
use sn_width::{NoMemory, Num};
use std::alloc::Global;

/// The room that a text has at the start, in bytes.
const ROOM: usize = 1024;

/// What is written of the paths that are cut and show no loop.
#[derive(Clone, Copy)]
pub enum OpenPaths {
    /// The numbers of their records alone.
    Numbers,
    /// Each earlier visit of their last port as well, with why it shows no loop.
    Visits,
}

/// The loops: the place of the first visit that does not differ, and the number of the record.
fn loops_in(alloc: Global, found: &[(u64, LoopAnswer)]) -> Result<Vec<(u32, u64)>, NoMemory>
    ensures { IfOk result (λ loops. loops.items ≡ loops_in found.now) }
{
    let mut loops = Vec::new(alloc);
    for (number, answer) in found {
        let LoopAnswer::Loop { first } = answer else {
            continue;
        };
        loops.push((*first, *number))?;
    }
    Ok(loops)
}

/// The numbers of the records of the other paths that are cut, each with its earlier visits.
fn open_in(alloc: Global, found: &[(u64, LoopAnswer)]) -> Result<Vec<(u64, &[Differ])>, NoMemory>
    ensures { IfOk result (λ others. map opened others.items ≡ open_in found.now) }
{
    let mut others = Vec::new(alloc);
    for (number, answer) in found {
        let LoopAnswer::Open { differs } = answer else {
            continue;
        };
        others.push((*number, differs.as_slice()))?;
    }
    Ok(others)
}

fn write_loop(out: &mut JsonText, found: (u32, u64)) -> Result<(), NoMemory>
    ensures { Gains (loop_data found) result out.old out.new }
{
    objects_are_written();
    out.begin_object()?;
    out.key("first")?;
    out.id(found.0)?;
    out.key("number")?;
    out.count(found.1)?;
    out.end_object()?;
    Ok(())
}

/// What left it undecided.
fn cause_word(cause: &Cause) -> &str
    ensures { result.now ≡ cause_word cause.now }
{
    match cause {
        Cause::Outside { .. } => "outside",
        Cause::Cases { .. } => "cases",
        Cause::Coupled { .. } => "coupled",
    }
}

fn write_plain(out: &mut JsonText, place: u32, word: &str) -> Result<(), NoMemory>
    ensures { Gains (plain_data place word.now) result out.old out.new }
{
    objects_are_written();
    out.begin_object()?;
    out.key("place")?;
    out.id(place)?;
    out.key("why")?;
    out.string(word)?;
    out.end_object()?;
    Ok(())
}

fn write_cell(alloc: Global, out: &mut JsonText, place: u32, values: &[Num]) -> Result<(), NoMemory>
    ensures { Gains (cell_data place values.now) result out.old out.new }
{
    objects_are_written();
    out.begin_object()?;
    out.key("place")?;
    out.id(place)?;
    out.key("values")?;
    write_values(alloc, out, values)?;
    out.key("why")?;
    out.string("cell")?;
    out.end_object()?;
    Ok(())
}

fn write_unknown(out: &mut JsonText, place: u32, cause: &str) -> Result<(), NoMemory>
    ensures { Gains (unknown_data place cause.now) result out.old out.new }
{
    objects_are_written();
    out.begin_object()?;
    out.key("cause")?;
    out.string(cause)?;
    out.key("place")?;
    out.id(place)?;
    out.key("why")?;
    out.string("unknown")?;
    out.end_object()?;
    Ok(())
}

/// An earlier visit, with why it shows no loop.
fn write_visit(alloc: Global, out: &mut JsonText, visit: &Differ) -> Result<(), NoMemory>
    ensures { Gains (visit_data visit.now) result out.old out.new }
{
    match &visit.why {
        Why::Choice => write_plain(out, visit.place, "choice"),
        Why::Layout => write_plain(out, visit.place, "layout"),
        Why::Cell { values } => write_cell(alloc, out, visit.place, values.as_slice()),
        Why::Unknown { cause } => write_unknown(out, visit.place, cause_word(cause)),
    }
}

#[tactic(auto, unfolding(crate::specs::Texts::visit_list_data))]
fn write_visit_list(alloc: Global, out: &mut JsonText, visits: &[Differ]) -> Result<(), NoMemory>
    ensures { Gains (visit_list_data visits.now) result out.old out.new }
{
    out.begin_list()?;
    for visit in visits {
        write_visit(alloc, out, visit)?;
    }
    out.end_list()?;
    Ok(())
}

/// A path without a loop.
fn write_open(
    alloc: Global,
    out: &mut JsonText,
    detail: OpenPaths,
    number: u64,
    visits: &[Differ],
) -> Result<(), NoMemory>
    ensures { Gains (open_data detail (number, visits.now)) result out.old out.new }
{
    match detail {
        OpenPaths::Numbers => {
            out.count(number)?;
            Ok(())
        }
        OpenPaths::Visits => {
            objects_are_written();
            out.begin_object()?;
            out.key("number")?;
            out.count(number)?;
            out.key("visits")?;
            write_visit_list(alloc, out, visits)?;
            out.end_object()?;
            Ok(())
        }
    }
}

#[tactic(auto, unfolding(crate::specs::Texts::open_list_data))]
fn write_open_list(
    alloc: Global,
    out: &mut JsonText,
    detail: OpenPaths,
    others: &[(u64, &[Differ])],
) -> Result<(), NoMemory>
    ensures { Gains (open_list_data detail (map opened others.now)) result out.old out.new }
{
    out.begin_list()?;
    for (number, visits) in others {
        write_open(alloc, out, detail, *number, visits)?;
    }
    out.end_list()?;
    Ok(())
}

#[tactic(auto, unfolding(crate::specs::Texts::loop_list_data))]
fn write_loop_list(out: &mut JsonText, loops: &[(u32, u64)]) -> Result<(), NoMemory>
    ensures { Gains (loop_list_data loops.now) result out.old out.new }
{
    out.begin_list()?;
    for found in loops {
        write_loop(out, *found)?;
    }
    out.end_list()?;
    Ok(())
}

#[tactic(auto, unfolding(crate::specs::Texts::found_data))]
fn write_found(
    alloc: Global,
    out: &mut JsonText,
    detail: OpenPaths,
    loops: &[(u32, u64)],
    others: &[(u64, &[Differ])],
) -> Result<(), NoMemory>
    ensures { Gains (found_data detail loops.now (map opened others.now)) result out.old out.new }
{
    objects_are_written();
    out.begin_object()?;
    out.key("loops")?;
    write_loop_list(out, loops)?;
    out.key("open")?;
    write_open_list(alloc, out, detail, others)?;
    out.key("symnet")?;
    out.count(1)?;
    out.end_object()?;
    Ok(())
}

/// What is found of the paths that are cut, each with the number of its record, as one line of JSON, keys ascending, with a line feed at
/// its end.
#[tactic(auto, unfolding(crate::specs::Texts::loops_text))]
pub fn loops_text(
    alloc: Global,
    found: &[(u64, LoopAnswer)],
    detail: OpenPaths,
) -> Result<String, NoMemory>
    ensures { IfOk result (λ text. string_bytes text ≡ loops_text detail found.now) }
{
    let loops = loops_in(alloc, found)?;
    let others = open_in(alloc, found)?;
    let mut out = JsonText::with_capacity(alloc, ROOM)?;
    write_found(alloc, &mut out, detail, &loops, &others)?;
    let mut text = out.into_text();
    text.push('\n')?;
    Ok(text)
}
