//! The canonical texts of injections, questions and jobs.

ghost use Rattle.std.specs.Prelude.{◌≡◌, ◌++◌, IfOk, OnOk, map, string_bytes};
ghost use Rattle.std.specs.List.{flat_map};
ghost use Rattle.sefl_syntax.specs.JobText.{tag_line, field_line, value_text, where_line, injection_heading, injection_text, with_text, reach_text, question_text, ask_text, job_text};
ghost use Rattle.sefl_syntax.specs.Views.{cond_tree, injection_tree, ask_tree, job_tree};

use crate::cond::{Cond, write_cond};
use crate::job::{Ask, Job, RawField, RawInjection, RawPlace};
use crate::name::Name;
use crate::net_text::write_net;
use crate::reference::{Addr, Target};
use sn_width::{NoMemory, Num};
use std::alloc::{AllocError, Global};
use std::fmt::Write;

/// The canonical text of a job, of version 2: each statement on a line of its own, two blanks deeper
/// for each open brace. Reading it gives the job back.
#[tactic(auto, unfolding(crate::specs::JobText::job_text))]
pub fn print_job(alloc: Global, job: &Job) -> Result<String, NoMemory>
    ensures { IfOk result (λ text. string_bytes text ≡ job_text (job_tree job.now)) }
{
    let mut out = String::from_str(alloc, "symnet 2;\n")?;
    write_net(&mut out, &job.net)?;
    write_injection(&mut out, &job.injection)?;
    write_asks(&mut out, &job.asks)?;
    Ok(out)
}

#[tactic(auto, unfolding(crate::specs::JobText::injection_text))]
fn write_injection(out: &mut String, injection: &RawInjection) -> Result<(), AllocError>
    ensures { OnOk result (string_bytes out.new ≡ string_bytes out.old
        ++ injection_text (injection_tree injection.now)) }
{
    write_injection_heading(out, &injection.node, injection.port)?;
    write_tags(out, &injection.tags)?;
    write_fields(out, &injection.fields)?;
    write_tests(out, &injection.tests)?;
    out.push_str("}\n")
}

#[tactic(auto, unfolding(crate::specs::JobText::injection_heading))]
fn write_injection_heading(out: &mut String, node: &Name, port: u32) -> Result<(), AllocError>
    ensures { OnOk result (string_bytes out.new ≡ string_bytes out.old
        ++ injection_heading node.now port) }
{
    write!(out, "inject {node}.{port} {{\n")
}

fn write_tags(out: &mut String, tags: &[(Name, Addr)]) -> Result<(), AllocError>
    ensures { OnOk result (string_bytes out.new ≡ string_bytes out.old
        ++ flat_map tag_line tags.now) }
{
    for tag in tags {
        write_tag(out, tag)?;
    }
    Ok(())
}

#[tactic(auto, unfolding(crate::specs::JobText::tag_line))]
fn write_tag(out: &mut String, tag: &(Name, Addr)) -> Result<(), AllocError>
    ensures { OnOk result (string_bytes out.new ≡ string_bytes out.old ++ tag_line tag.now) }
{
    let (name, addr) = tag;
    write!(out, "  tag {name} = {addr};\n")
}

fn write_fields(out: &mut String, fields: &[RawField]) -> Result<(), AllocError>
    ensures { OnOk result (string_bytes out.new ≡ string_bytes out.old
        ++ flat_map field_line fields.now) }
{
    for field in fields {
        write_field(out, field)?;
    }
    Ok(())
}

#[tactic(auto, unfolding(crate::specs::JobText::field_line))]
fn write_field(out: &mut String, field: &RawField) -> Result<(), AllocError>
    ensures { OnOk result (string_bytes out.new ≡ string_bytes out.old ++ field_line field.now) }
{
    let target = &field.target;
    write!(out, "  field {target}")?;
    write_value(out, field.value)?;
    out.push_str(";\n")
}

fn write_value(out: &mut String, value: Option<Num>) -> Result<(), AllocError>
    ensures { OnOk result (string_bytes out.new ≡ string_bytes out.old ++ value_text value) }
{
    match value {
        None => Ok(()),
        Some(value) => write!(out, " = {value}"),
    }
}

fn write_tests(out: &mut String, tests: &[Cond]) -> Result<(), AllocError>
    ensures { OnOk result (string_bytes out.new ≡ string_bytes out.old
        ++ flat_map where_line (map cond_tree tests.now)) }
{
    for test in tests {
        write_test(out, test)?;
    }
    Ok(())
}

#[tactic(auto, unfolding(crate::specs::JobText::where_line))]
fn write_test(out: &mut String, test: &Cond) -> Result<(), AllocError>
    ensures { OnOk result (string_bytes out.new ≡ string_bytes out.old
        ++ where_line (cond_tree test.now)) }
{
    out.push_str("  where ")?;
    write_cond(out, test)?;
    out.push_str(";\n")
}

fn write_asks(out: &mut String, asks: &[Ask]) -> Result<(), AllocError>
    ensures { OnOk result (string_bytes out.new ≡ string_bytes out.old
        ++ flat_map ask_text (map ask_tree asks.now)) }
{
    for ask in asks {
        write_ask(out, ask)?;
    }
    Ok(())
}

fn write_ask(out: &mut String, ask: &Ask) -> Result<(), AllocError>
    ensures { OnOk result (string_bytes out.new ≡ string_bytes out.old
        ++ ask_text (ask_tree ask.now)) }
{
    match ask {
        Ask::Reach { place, test } => write_reach(out, place, test),
        Ask::Invariant { target, place } => write_question(out, "invariant", target, place),
        Ask::Visible { target, place } => write_question(out, "visible", target, place),
    }
}

#[tactic(auto, unfolding(crate::specs::JobText::reach_text))]
fn write_reach(out: &mut String, place: &RawPlace, test: &Cond) -> Result<(), AllocError>
    ensures { OnOk result (string_bytes out.new ≡ string_bytes out.old
        ++ reach_text place.now (cond_tree test.now)) }
{
    write!(out, "ask reach {place}")?;
    write_with(out, test)?;
    out.push_str(";\n")
}

/// Appends the test of a question, where it is not always met.
fn write_with(out: &mut String, test: &Cond) -> Result<(), AllocError>
    ensures { OnOk result (string_bytes out.new ≡ string_bytes out.old
        ++ with_text (cond_tree test.now)) }
{
    match test {
        Cond::True => Ok(()),
        test => {
            out.push_str(" with ")?;
            write_cond(out, test)
        }
    }
}

#[tactic(auto, unfolding(crate::specs::JobText::question_text))]
fn write_question(
    out: &mut String,
    word: &str,
    target: &Target,
    place: &RawPlace,
) -> Result<(), AllocError>
    ensures { OnOk result (string_bytes out.new ≡ string_bytes out.old
        ++ question_text word.now target.now place.now) }
{
    write!(out, "ask {word} {target}")?;
    write!(out, " at {place};\n")
}
