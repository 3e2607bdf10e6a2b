//! The text of answers.

ghost use Rattle.std.specs.Prelude.{◌≡◌, string_bytes, map, IfOk};
ghost use Rattle.run_text.specs.Tokens.{Gains};
ghost use Rattle.queries.specs.Answers.{answer_seen, hit_seen};
ghost use Rattle.ask_command.specs.Texts.{answers_data, answers_text, counts_data, decided_data, replies_data, reply_data, unknown_data};

use queries::{Answer, Hit};
use run_text::json_laws::objects_are_written;
use run_text::{JsonText, write_values};
use sn_width::NoMemory;
use std::alloc::Global;

/// The room that a text has at the start, in bytes.
const ROOM: usize = 1024;

/// The word, and the number and the values of a hit.
fn write_decided(
    alloc: Global,
    out: &mut JsonText,
    word: &str,
    found: &Option<Hit>,
) -> Result<(), NoMemory>
    ensures { Gains (decided_data word.now (hit_seen found.now)) result out.old out.new }
{
    objects_are_written();
    out.begin_object()?;
    out.key("answer")?;
    out.string(word)?;
    if let Some(hit) = found {
        out.key("number")?;
        out.count(hit.number)?;
        out.key("values")?;
        write_values(alloc, out, hit.values.as_slice())?;
    }
    out.end_object()?;
    Ok(())
}

/// Adds a list of counts.
#[tactic(auto, unfolding(crate::specs::Texts::counts_data))]
pub fn write_counts(out: &mut JsonText, counts: &[u64]) -> Result<(), NoMemory>
    ensures { Gains (counts_data counts.now) result out.old out.new }
{
    out.begin_list()?;
    for count in counts {
        out.count(*count)?;
    }
    out.end_list()?;
    Ok(())
}

fn write_unknown(out: &mut JsonText, numbers: &[u64]) -> Result<(), NoMemory>
    ensures { Gains (unknown_data numbers.now) result out.old out.new }
{
    objects_are_written();
    out.begin_object()?;
    out.key("answer")?;
    out.string("unknown")?;
    out.key("numbers")?;
    write_counts(out, numbers)?;
    out.end_object()?;
    Ok(())
}

fn write_answer(alloc: Global, out: &mut JsonText, answer: &Answer) -> Result<(), NoMemory>
    ensures { Gains (reply_data (answer_seen answer.now)) result out.old out.new }
{
    match answer {
        Answer::Yes { found } => write_decided(alloc, out, "yes", found),
        Answer::No { found } => write_decided(alloc, out, "no", found),
        Answer::Unknown { numbers } => write_unknown(out, numbers),
    }
}

#[tactic(auto, unfolding(crate::specs::Texts::replies_data))]
fn write_answer_list(alloc: Global, out: &mut JsonText, answers: &[Answer]) -> Result<(), NoMemory>
    ensures { Gains (replies_data (map answer_seen answers.now)) result out.old out.new }
{
    out.begin_list()?;
    for answer in answers {
        write_answer(alloc, out, answer)?;
    }
    out.end_list()?;
    Ok(())
}

#[tactic(auto, unfolding(crate::specs::Texts::answers_data))]
fn write_answers(alloc: Global, out: &mut JsonText, answers: &[Answer]) -> Result<(), NoMemory>
    ensures { Gains (answers_data (map answer_seen answers.now)) result out.old out.new }
{
    objects_are_written();
    out.begin_object()?;
    out.key("answers")?;
    write_answer_list(alloc, out, answers)?;
    out.key("symnet")?;
    out.count(1)?;
    out.end_object()?;
    Ok(())
}

/// The answers as one line of JSON, keys ascending, with a line feed at its end.
#[tactic(auto, unfolding(crate::specs::Texts::answers_text))]
pub fn answers_text(alloc: Global, answers: &[Answer]) -> Result<String, NoMemory>
    ensures { IfOk result (λ text. string_bytes text ≡ answers_text (map answer_seen answers.now)) }
{
    let mut out = JsonText::with_capacity(alloc, ROOM)?;
    write_answers(alloc, &mut out, answers)?;
    let mut text = out.into_text();
    text.push('\n')?;
    Ok(text)
}
