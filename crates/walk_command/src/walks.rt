//! The text of walks.

ghost use Rattle.std.specs.Prelude.{◌≡◌, string_bytes, map, IfOk};
ghost use Rattle.net_check.specs.Network.{network};
ghost use Rattle.sefl_meaning.specs.View.{trail_of};
ghost use Rattle.run_text.specs.Tokens.{Gains};
ghost use Rattle.walk_command.specs.WalkTexts.{walk_data, walk_list, walks_data, walks_text};

use crate::state::write_state;
use net_check::Net;
use run_text::json_laws::objects_are_written;
use run_text::{JsonText, write_decisions, write_end, write_places};
use sefl_meaning::Walk;
use sn_width::NoMemory;
use std::alloc::Global;

/// The room that a text has at the start, in bytes.
const ROOM: usize = 1024;

#[tactic(auto, unfolding(crate::specs::WalkTexts::walk_data))]
fn write_walk(alloc: Global, out: &mut JsonText, net: &Net, walk: &Walk) -> Result<(), NoMemory>
    ensures { Gains (walk_data (network net.now) (trail_of walk.now)) result out.old out.new }
{
    objects_are_written();
    out.begin_object()?;
    out.key("decisions")?;
    write_decisions(out, &walk.decisions)?;
    out.key("end")?;
    write_end(out, &walk.end)?;
    out.key("fields")?;
    write_state(alloc, out, net, &walk.state)?;
    out.key("places")?;
    write_places(alloc, out, net, &walk.places)?;
    out.end_object()?;
    Ok(())
}

#[tactic(auto, unfolding(crate::specs::WalkTexts::walk_list))]
fn write_walk_list(
    alloc: Global,
    out: &mut JsonText,
    net: &Net,
    walks: &[Walk],
) -> Result<(), NoMemory>
    ensures { Gains (walk_list (network net.now) (map trail_of walks.now)) result out.old out.new }
{
    out.begin_list()?;
    for walk in walks {
        write_walk(alloc, out, net, walk)?;
    }
    out.end_list()?;
    Ok(())
}

#[tactic(auto, unfolding(crate::specs::WalkTexts::walks_data))]
fn write_walks(alloc: Global, out: &mut JsonText, net: &Net, walks: &[Walk]) -> Result<(), NoMemory>
    ensures { Gains (walks_data (network net.now) (map trail_of walks.now)) result out.old out.new }
{
    objects_are_written();
    out.begin_object()?;
    out.key("symnet")?;
    out.count(1)?;
    out.key("walks")?;
    write_walk_list(alloc, out, net, walks)?;
    out.end_object()?;
    Ok(())
}

/// The walks as one line of JSON, keys ascending, with a line feed at its end. An id that is none of
/// the net's, which no walk of an accepted net has, is shown with an empty name.
#[tactic(auto, unfolding(crate::specs::WalkTexts::walks_text))]
pub fn walks_text(alloc: Global, net: &Net, walks: &[Walk]) -> Result<String, NoMemory>
    ensures { IfOk result (λ text. string_bytes text ≡ walks_text (network net.now) (map trail_of walks.now)) }
{
    let mut out = JsonText::with_capacity(alloc, ROOM)?;
    write_walks(alloc, &mut out, net, walks)?;
    let mut text = out.into_text();
    text.push('\n')?;
    Ok(text)
}
