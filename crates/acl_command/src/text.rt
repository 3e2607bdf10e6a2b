//! The text of fates.

ghost use Rattle.std.specs.Prelude.{◌≡◌, string_bytes, map, IfOk};
ghost use Rattle.run_text.specs.Tokens.{Gains};
ghost use Rattle.acl_rules.specs.Covers.{decides, fate_seen, hidden};
ghost use Rattle.acl_command.specs.Texts.{cover_data, fate_data, fates_data, packet_data, rules_data, rules_text, step_data};

use acl_model::{Cover, Fate};
use run_text::JsonText;
use run_text::json_laws::{lists_are_written, objects_are_written};
use sn_width::NoMemory;
use std::alloc::Global;

/// The room that a text has at the start, in bytes.
const ROOM: usize = 1024;

fn write_inside(out: &mut JsonText, rule: u32) -> Result<(), NoMemory>
    ensures { Gains (step_data (Cover.Inside rule)) result out.old out.new }
{
    lists_are_written();
    out.begin_list()?;
    out.string("inside")?;
    out.id(rule)?;
    out.end_list()?;
    Ok(())
}

pub(crate) fn write_cut(out: &mut JsonText, field: u8, at: u32) -> Result<(), NoMemory>
    ensures { Gains (step_data (Cover.Cut field at)) result out.old out.new }
{
    lists_are_written();
    out.begin_list()?;
    out.string("cut")?;
    out.id(u32::from(field))?;
    out.id(at)?;
    out.end_list()?;
    Ok(())
}

fn write_step(out: &mut JsonText, step: Cover) -> Result<(), NoMemory>
    ensures { Gains (step_data step) result out.old out.new }
{
    match step {
        Cover::Inside { rule } => write_inside(out, rule),
        Cover::Cut { field, at } => write_cut(out, field, at),
    }
}

#[tactic(auto, unfolding(crate::specs::Texts::cover_data))]
fn write_cover(out: &mut JsonText, cover: &[Cover]) -> Result<(), NoMemory>
    ensures { Gains (cover_data cover.now) result out.old out.new }
{
    out.begin_list()?;
    for step in cover {
        write_step(out, *step)?;
    }
    out.end_list()?;
    Ok(())
}

#[tactic(auto, unfolding(crate::specs::Texts::packet_data))]
pub(crate) fn write_packet(out: &mut JsonText, values: &[u32]) -> Result<(), NoMemory>
    ensures { Gains (packet_data values.now) result out.old out.new }
{
    out.begin_list()?;
    for value in values {
        out.id(*value)?;
    }
    out.end_list()?;
    Ok(())
}

fn write_decides(out: &mut JsonText, values: &[u32]) -> Result<(), NoMemory>
    ensures { Gains (fate_data (decides values.now)) result out.old out.new }
{
    objects_are_written();
    out.begin_object()?;
    out.key("rule")?;
    out.string("decides")?;
    out.key("values")?;
    write_packet(out, values)?;
    out.end_object()?;
    Ok(())
}

fn write_hidden(out: &mut JsonText, cover: &[Cover]) -> Result<(), NoMemory>
    ensures { Gains (fate_data (hidden cover.now)) result out.old out.new }
{
    objects_are_written();
    out.begin_object()?;
    out.key("cover")?;
    write_cover(out, cover)?;
    out.key("rule")?;
    out.string("hidden")?;
    out.end_object()?;
    Ok(())
}

fn write_fate(out: &mut JsonText, fate: &Fate) -> Result<(), NoMemory>
    ensures { Gains (fate_data (fate_seen fate.now)) result out.old out.new }
{
    match fate {
        Fate::Decides { values } => write_decides(out, values),
        Fate::Hidden { cover } => write_hidden(out, cover),
    }
}

#[tactic(auto, unfolding(crate::specs::Texts::fates_data))]
fn write_fates(out: &mut JsonText, fates: &[Fate]) -> Result<(), NoMemory>
    ensures { Gains (fates_data (map fate_seen fates.now)) result out.old out.new }
{
    out.begin_list()?;
    for fate in fates {
        write_fate(out, fate)?;
    }
    out.end_list()?;
    Ok(())
}

#[tactic(auto, unfolding(crate::specs::Texts::rules_data))]
fn write_rules(out: &mut JsonText, fates: &[Fate]) -> Result<(), NoMemory>
    ensures { Gains (rules_data (map fate_seen fates.now)) result out.old out.new }
{
    objects_are_written();
    out.begin_object()?;
    out.key("rules")?;
    write_fates(out, fates)?;
    out.key("symnet")?;
    out.count(1)?;
    out.end_object()?;
    Ok(())
}

/// The fates of a list's rules as one line of JSON, keys ascending, with a line feed at its end.
#[tactic(auto, unfolding(crate::specs::Texts::rules_text))]
pub fn rules_text(alloc: Global, fates: &[Fate]) -> Result<String, NoMemory>
    ensures { IfOk result (λ text. string_bytes text ≡ rules_text (map fate_seen fates.now)) }
{
    let mut out = JsonText::with_capacity(alloc, ROOM)?;
    write_rules(&mut out, fates)?;
    let mut text = out.into_text();
    text.push('\n')?;
    Ok(text)
}
