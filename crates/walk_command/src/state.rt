//! What a packet carries.

ghost use Rattle.net_check.specs.Network.{network};
ghost use Rattle.sefl_meaning.specs.Fields.{fields_of};
ghost use Rattle.sefl_meaning.specs.View.{carried_of};
ghost use Rattle.run_text.specs.Tokens.{Gains};
ghost use Rattle.run_text.specs.Forms.{number_parts, fields_data};

use net_check::Net;
use run_text::{JsonText, write_fields};
use sefl_meaning::State;
use sn_width::NoMemory;
use std::alloc::Global;

/// What a packet carries at the end of a walk.
pub(crate) fn write_state(
    alloc: Global,
    out: &mut JsonText,
    net: &Net,
    state: &State,
) -> Result<(), NoMemory>
    ensures { Gains (fields_data number_parts (network net.now) (fields_of (carried_of state.now))) result out.old
        out.new }
{
    let tags = state.layers.tags(alloc)?;
    let heads = state.layers.heads(alloc)?;
    let metas = state.scopes.metas(alloc)?;
    write_fields(alloc, out, net, &tags, &heads, &metas)?;
    Ok(())
}
