//! The counts of confirmed records as JSON.

ghost use Rattle.std.specs.Prelude.{◌≡◌, string_bytes, IfOk};
ghost use Rattle.run_text.specs.Tokens.{Gains};
ghost use Rattle.replay_command.specs.Counted.{confirmed_data, confirmed_text};

use path_replay::Confirmed;
use run_text::JsonText;
use run_text::json_laws::objects_are_written;
use sn_width::NoMemory;
use std::alloc::Global;

/// The room that the text has at the start, in bytes.
const ROOM: usize = 128;

#[tactic(auto, unfolding(crate::specs::Counted::confirmed_data))]
fn write_confirmed(out: &mut JsonText, counts: &Confirmed) -> Result<(), NoMemory>
    ensures { Gains (confirmed_data counts.now) result out.old out.new }
{
    objects_are_written();
    out.begin_object()?;
    out.key("pruned")?;
    out.count(counts.pruned)?;
    out.key("sat")?;
    out.count(counts.sat)?;
    out.key("symnet")?;
    out.count(1)?;
    out.key("undecided")?;
    out.count(counts.undecided)?;
    out.key("unexplored")?;
    out.count(counts.unexplored)?;
    out.end_object()?;
    Ok(())
}

/// The counts as one line of JSON, keys ascending, with a line feed at its end.
#[tactic(auto, unfolding(crate::specs::Counted::confirmed_text))]
pub fn confirmed_text(alloc: Global, counts: &Confirmed) -> Result<String, NoMemory>
    ensures { IfOk result (λ text. string_bytes text ≡ confirmed_text counts.now) }
{
    let mut out = JsonText::with_capacity(alloc, ROOM)?;
    write_confirmed(&mut out, counts)?;
    let mut text = out.into_text();
    text.push('\n')?;
    Ok(text)
}
