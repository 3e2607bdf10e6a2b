//! Numbers, decisions and places.

ghost use Rattle.std.specs.Prelude.{◌≡◌, ◌++◌, string_bytes, codes, decimal, IfOk};
ghost use Rattle.net_check.specs.Network.{network};
ghost use Rattle.run_text.specs.Tokens.{Gains};
ghost use Rattle.run_text.specs.Names.{node_name};
ghost use Rattle.run_text.specs.Forms.{value_data, values_data, decision_data, decisions_data, place_data, places_data};

use crate::JsonText;
use crate::names::node_text;
use net_check::Net;
use sefl_meaning::{Decision, Place};
use sefl_syntax::Side;
use sn_width::{NoMemory, NodeId, Num};
use std::alloc::Global;

/// A number of 128 bits: a JSON number up to `2^64 - 1`, and above that a text of its decimal digits.
pub(crate) fn write_value(alloc: Global, out: &mut JsonText, value: Num) -> Result<(), NoMemory>
    ensures { Gains (value_data value) result out.old out.new }
{
    match u64::try_from(value) {
        Ok(small) => out.count(small),
        Err(_) => out.string(value.to_string(alloc)?.as_str()),
    }
}

/// Numbers of 128 bits, in order.
#[tactic(auto, unfolding(crate::specs::Forms::values_data))]
pub fn write_values(alloc: Global, out: &mut JsonText, values: &[Num]) -> Result<(), NoMemory>
    ensures { Gains (values_data values.now) result out.old out.new }
{
    out.begin_list()?;
    for value in values {
        write_value(alloc, out, *value)?;
    }
    out.end_list()?;
    Ok(())
}

/// A decision: `"then"`, `"else"`, `"pass"`, `"broken"`, or the number of a Copy.
pub fn write_decision(out: &mut JsonText, decision: Decision) -> Result<(), NoMemory>
    ensures { Gains (decision_data decision) result out.old out.new }
{
    match decision {
        Decision::Then => out.string("then"),
        Decision::Else => out.string("else"),
        Decision::Pass => out.string("pass"),
        Decision::Broken => out.string("broken"),
        Decision::Copy(number) => out.id(number),
    }
}

/// A list of decisions.
#[tactic(auto, unfolding(crate::specs::Forms::decisions_data))]
pub fn write_decisions(out: &mut JsonText, decisions: &[Decision]) -> Result<(), NoMemory>
    ensures { Gains (decisions_data decisions.now) result out.old out.new }
{
    out.begin_list()?;
    for decision in decisions {
        write_decision(out, *decision)?;
    }
    out.end_list()?;
    Ok(())
}

fn place_text(
    alloc: Global,
    net: &Net,
    side: &str,
    node: NodeId,
    port: u32,
) -> Result<String, NoMemory>
    ensures { IfOk result (λ text. string_bytes text
        ≡ side.now ++ (node_name (network net.now) node ++ (codes "." ++ decimal port))) }
{
    let name = node_text(net, node);
    Ok(format!(in alloc; "{side}{name}.{port}")?)
}

/// A place: `"in NODE.PORT"` or `"out NODE.PORT"`, with an empty name for an id that is none of the net's.
pub fn write_place(
    alloc: Global,
    out: &mut JsonText,
    net: &Net,
    place: Place,
) -> Result<(), NoMemory>
    ensures { Gains (place_data (network net.now) place) result out.old out.new }
{
    match place.side {
        Side::Inward => out.string(place_text(alloc, net, "in ", place.node, place.port)?.as_str()),
        Side::Outward => out.string(place_text(
            alloc, net, "out ", place.node, place.port,
        )?.as_str()),
    }
}

/// A list of places.
#[tactic(auto, unfolding(crate::specs::Forms::places_data))]
pub fn write_places(
    alloc: Global,
    out: &mut JsonText,
    net: &Net,
    places: &[Place],
) -> Result<(), NoMemory>
    ensures { Gains (places_data (network net.now) places.now) result out.old out.new }
{
    out.begin_list()?;
    for place in places {
        write_place(alloc, out, net, *place)?;
    }
    out.end_list()?;
    Ok(())
}
