//! The summary of an exploration as JSON.

ghost use Rattle.std.specs.Prelude.{◌≡◌, string_bytes, IfOk, OnOk};
ghost use Rattle.run_text.specs.Tokens.{Gains};
ghost use Rattle.grow_command.specs.Summary.{AddsMember, summary_data, summary_text};

use crate::counts::Counts;
use run_text::JsonText;
use run_text::json_laws::objects_are_written;
use sn_width::NoMemory;
use std::alloc::Global;

/// The room that the text has at the start, in bytes.
const ROOM: usize = 256;

/// Writes a member of an object: a name and a number.
fn write_count(out: &mut JsonText, name: &str, number: u64) -> Result<(), NoMemory>
    ensures { OnOk result (AddsMember name.now number out.old out.new) }
{
    objects_are_written();
    out.key(name)?;
    out.count(number)?;
    Ok(())
}

#[tactic(auto, unfolding(crate::specs::Summary::summary_data))]
fn write_summary(out: &mut JsonText, seed: u64, boxes: u32, counts: &Counts) -> Result<(), NoMemory>
    ensures { Gains (summary_data seed boxes counts.now) result out.old out.new }
{
    objects_are_written();
    out.begin_object()?;
    write_count(out, "cut", counts.cut)?;
    write_count(out, "delivered", counts.delivered)?;
    write_count(out, "failed", counts.failed)?;
    write_count(out, "nodes", u64::from(boxes))?;
    write_count(out, "pruned", counts.pruned)?;
    write_count(out, "sat", counts.sat)?;
    write_count(out, "seed", seed)?;
    write_count(out, "stopped", counts.stopped)?;
    write_count(out, "symnet", 1)?;
    write_count(out, "undecided", counts.undecided)?;
    write_count(out, "unexplored", counts.unexplored)?;
    out.end_object()?;
    Ok(())
}

/// The summary as one line of JSON, keys ascending, with a line feed at its end.
#[tactic(auto, unfolding(crate::specs::Summary::summary_text))]
pub fn summary_text(
    alloc: Global,
    seed: u64,
    boxes: u32,
    counts: &Counts,
) -> Result<String, NoMemory>
    ensures { IfOk result (λ text. string_bytes text ≡ summary_text seed boxes counts.now) }
{
    let mut out = JsonText::with_capacity(alloc, ROOM)?;
    write_summary(&mut out, seed, boxes, counts)?;
    let mut text = out.into_text();
    text.push('\n')?;
    Ok(text)
}
