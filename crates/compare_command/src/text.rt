//! The text of a comparison.

ghost use Rattle.std.specs.Prelude.{◌≡◌, List, string_bytes, IfOk, OnOk};
ghost use Rattle.json.specs.Token.{Token};
ghost use Rattle.serde_json.specs.Data.{Members};
ghost use Rattle.run_text.specs.Tokens.{EndsObject, Gains};
ghost use Rattle.net_compare.specs.Saying.{compared_seen};
ghost use Rattle.compare_command.specs.Texts.{compared_data, compared_text, other_data, partial_data, partial_text, side_of, unknown_data, with_cuts, word_data};

use ask_command::write_counts;
use net_compare::Compared;
use run_text::json_laws::objects_are_written;
use run_text::{JsonText, write_values};
use sn_width::{NoMemory, Num};
use std::alloc::Global;

/// The room that a text has at the start, in bytes.
const ROOM: usize = 1024;

/// How many paths of each job are cut at the bound of hops, where that is told.
fn write_cuts(out: &mut JsonText, cuts: Option<(u64, u64)>) -> Result<(), NoMemory>
    ensures { OnOk result ((members : Members) (end' : List Token) → EndsObject members out.new end'
        → EndsObject (with_cuts cuts members) out.old end') }
{
    let Some((left, right)) = cuts else {
        return Ok(());
    };
    objects_are_written();
    out.key("cut")?;
    write_counts(out, &[left, right])
}

/// An answer that is one word.
fn write_word(out: &mut JsonText, cuts: Option<(u64, u64)>, word: &str) -> Result<(), NoMemory>
    ensures { Gains (word_data cuts word.now) result out.old out.new }
{
    objects_are_written();
    out.begin_object()?;
    out.key("answer")?;
    out.string(word)?;
    write_cuts(out, cuts)?;
    out.key("symnet")?;
    out.count(1)?;
    out.end_object()?;
    Ok(())
}

fn side_of(left: bool) -> &'static str
    ensures { result.now ≡ side_of left }
{
    if left { "left" } else { "right" }
}

/// The number of the path that delivers what the other net does not, its side, and the values.
fn write_other(
    alloc: Global,
    out: &mut JsonText,
    cuts: Option<(u64, u64)>,
    left: bool,
    number: u64,
    values: &[Num],
) -> Result<(), NoMemory>
    ensures { Gains (other_data cuts left number values.now) result out.old out.new }
{
    objects_are_written();
    out.begin_object()?;
    out.key("answer")?;
    out.string("other")?;
    write_cuts(out, cuts)?;
    out.key("number")?;
    out.count(number)?;
    out.key("side")?;
    out.string(side_of(left))?;
    out.key("symnet")?;
    out.count(1)?;
    out.key("values")?;
    write_values(alloc, out, values)?;
    out.end_object()?;
    Ok(())
}

/// For each side the numbers of the paths for which it is not known.
fn write_unknown(
    out: &mut JsonText,
    cuts: Option<(u64, u64)>,
    left: &[u64],
    right: &[u64],
) -> Result<(), NoMemory>
    ensures { Gains (unknown_data cuts left.now right.now) result out.old out.new }
{
    objects_are_written();
    out.begin_object()?;
    out.key("answer")?;
    out.string("unknown")?;
    write_cuts(out, cuts)?;
    out.key("left")?;
    write_counts(out, left)?;
    out.key("right")?;
    write_counts(out, right)?;
    out.key("symnet")?;
    out.count(1)?;
    out.end_object()?;
    Ok(())
}

fn write_compared(
    alloc: Global,
    out: &mut JsonText,
    cuts: Option<(u64, u64)>,
    compared: &Compared,
) -> Result<(), NoMemory>
    ensures { Gains (compared_data cuts (compared_seen compared.now)) result out.old out.new }
{
    match compared {
        Compared::Same => write_word(out, cuts, "same"),
        Compared::Other {
            left,
            number,
            values,
        } => write_other(alloc, out, cuts, *left, *number, values.as_slice()),
        Compared::Unknown { left, right } => write_unknown(out, cuts, left, right),
    }
}

/// The answer as one line of JSON, keys ascending, with a line feed at its end.
#[tactic(auto, unfolding(crate::specs::Texts::compared_text))]
pub fn compared_text(
    alloc: Global,
    cuts: Option<(u64, u64)>,
    compared: &Compared,
) -> Result<String, NoMemory>
    ensures { IfOk result (λ text. string_bytes text ≡ compared_text cuts (compared_seen compared.now)) }
{
    let mut out = JsonText::with_capacity(alloc, ROOM)?;
    write_compared(alloc, &mut out, cuts, compared)?;
    let mut text = out.into_text();
    text.push('\n')?;
    Ok(text)
}

#[tactic(auto, unfolding(crate::specs::Texts::partial_data))]
fn write_partial(out: &mut JsonText) -> Result<(), NoMemory>
    ensures { Gains partial_data result out.old out.new }
{
    write_word(out, None, "partial")
}

/// The line where something of a job is left out.
#[tactic(auto, unfolding(crate::specs::Texts::partial_text))]
pub(crate) fn partial_text(alloc: Global) -> Result<String, NoMemory>
    ensures { IfOk result (λ text. string_bytes text ≡ partial_text) }
{
    let mut out = JsonText::with_capacity(alloc, ROOM)?;
    write_partial(&mut out)?;
    let mut text = out.into_text();
    text.push('\n')?;
    Ok(text)
}
