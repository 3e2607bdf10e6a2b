//! The text of a verdict on two lists.

ghost use Rattle.std.specs.Prelude.{◌≡◌, string_bytes, map, IfOk};
ghost use Rattle.run_text.specs.Tokens.{Gains};
ghost use Rattle.acl_rules.specs.Comparing.{joint_seen, verdict_seen};
ghost use Rattle.acl_command.specs.VerdictTexts.{action_of, inside_data, joint_data, joint_step_data, joint_steps_data, joints_data, other_data, range_data, ranges_data, rule_data, same_data, side_data, verdict_data, verdict_text};

use crate::text::{write_cut, write_packet};
use acl_model::{Cover, JointCover, Side, Verdict};
use run_text::JsonText;
use run_text::json_laws::{lists_are_written, objects_are_written};
use sn_width::NoMemory;
use std::alloc::Global;

/// The room that a text has at the start, in bytes.
const ROOM: usize = 1024;

fn write_inside(out: &mut JsonText, word: &str, rule: u32) -> Result<(), NoMemory>
    ensures { Gains (inside_data word.now rule) result out.old out.new }
{
    lists_are_written();
    out.begin_list()?;
    out.string(word)?;
    out.id(rule)?;
    out.end_list()?;
    Ok(())
}

/// A step, where so many rules of the left list come first.
fn write_step(out: &mut JsonText, left: u32, step: Cover) -> Result<(), NoMemory>
    ensures { Gains (joint_step_data left step) result out.old out.new }
{
    match step {
        Cover::Inside { rule } => {
            if rule < left {
                write_inside(out, "left", rule)
            } else {
                write_inside(out, "right", rule - left)
            }
        }
        Cover::Cut { field, at } => write_cut(out, field, at),
    }
}

#[tactic(auto, unfolding(crate::specs::VerdictTexts::joint_steps_data))]
fn write_steps(out: &mut JsonText, left: u32, steps: &[Cover]) -> Result<(), NoMemory>
    ensures { Gains (joint_steps_data left steps.now) result out.old out.new }
{
    out.begin_list()?;
    for step in steps {
        write_step(out, left, *step)?;
    }
    out.end_list()?;
    Ok(())
}

fn write_range(out: &mut JsonText, range: (u32, u32)) -> Result<(), NoMemory>
    ensures { Gains (range_data range) result out.old out.new }
{
    lists_are_written();
    out.begin_list()?;
    out.id(range.0)?;
    out.id(range.1)?;
    out.end_list()?;
    Ok(())
}

#[tactic(auto, unfolding(crate::specs::VerdictTexts::ranges_data))]
fn write_ranges(out: &mut JsonText, ranges: &[(u32, u32)]) -> Result<(), NoMemory>
    ensures { Gains (ranges_data ranges.now) result out.old out.new }
{
    out.begin_list()?;
    for range in ranges {
        write_range(out, *range)?;
    }
    out.end_list()?;
    Ok(())
}

fn write_joint(out: &mut JsonText, joint: &JointCover) -> Result<(), NoMemory>
    ensures { Gains (joint_data (joint_seen joint.now)) result out.old out.new }
{
    objects_are_written();
    out.begin_object()?;
    out.key("cover")?;
    write_steps(out, joint.left, &joint.steps)?;
    out.key("left")?;
    out.id(joint.left)?;
    out.key("ranges")?;
    write_ranges(out, &joint.part)?;
    out.key("right")?;
    out.id(joint.right)?;
    out.end_object()?;
    Ok(())
}

#[tactic(auto, unfolding(crate::specs::VerdictTexts::joints_data))]
fn write_joints(out: &mut JsonText, joints: &[JointCover]) -> Result<(), NoMemory>
    ensures { Gains (joints_data (map joint_seen joints.now)) result out.old out.new }
{
    out.begin_list()?;
    for joint in joints {
        write_joint(out, joint)?;
    }
    out.end_list()?;
    Ok(())
}

fn action_of(permits: bool) -> &'static str
    ensures { result.now ≡ action_of permits }
{
    if permits { "permit" } else { "deny" }
}

fn write_rule(out: &mut JsonText, rule: Option<u32>) -> Result<(), NoMemory>
    ensures { Gains (rule_data rule) result out.old out.new }
{
    match rule {
        Some(rule) => out.id(rule),
        None => out.null(),
    }
}

fn write_side(out: &mut JsonText, side: Side) -> Result<(), NoMemory>
    ensures { Gains (side_data side) result out.old out.new }
{
    objects_are_written();
    out.begin_object()?;
    out.key("action")?;
    out.string(action_of(side.permits))?;
    out.key("rule")?;
    write_rule(out, side.rule)?;
    out.end_object()?;
    Ok(())
}

fn write_same(out: &mut JsonText, joints: &[JointCover]) -> Result<(), NoMemory>
    ensures { Gains (same_data (map joint_seen joints.now)) result out.old out.new }
{
    objects_are_written();
    out.begin_object()?;
    out.key("answer")?;
    out.string("same")?;
    out.key("covers")?;
    write_joints(out, joints)?;
    out.key("symnet")?;
    out.count(1)?;
    out.end_object()?;
    Ok(())
}

fn write_other(out: &mut JsonText, values: &[u32], left: Side, right: Side) -> Result<(), NoMemory>
    ensures { Gains (other_data values.now left right) result out.old out.new }
{
    objects_are_written();
    out.begin_object()?;
    out.key("answer")?;
    out.string("other")?;
    out.key("left")?;
    write_side(out, left)?;
    out.key("right")?;
    write_side(out, right)?;
    out.key("symnet")?;
    out.count(1)?;
    out.key("values")?;
    write_packet(out, values)?;
    out.end_object()?;
    Ok(())
}

fn write_verdict(out: &mut JsonText, verdict: &Verdict) -> Result<(), NoMemory>
    ensures { Gains (verdict_data (verdict_seen verdict.now)) result out.old out.new }
{
    match verdict {
        Verdict::Same { joints } => write_same(out, joints),
        Verdict::Other {
            values,
            left,
            right,
        } => write_other(out, values, *left, *right),
    }
}

/// The verdict on two lists as one line of JSON, keys ascending, with a line feed at its end.
#[tactic(auto, unfolding(crate::specs::VerdictTexts::verdict_text))]
pub fn verdict_text(alloc: Global, verdict: &Verdict) -> Result<String, NoMemory>
    ensures { IfOk result (λ text. string_bytes text ≡ verdict_text (verdict_seen verdict.now)) }
{
    let mut out = JsonText::with_capacity(alloc, ROOM)?;
    write_verdict(&mut out, verdict)?;
    let mut text = out.into_text();
    text.push('\n')?;
    Ok(text)
}
