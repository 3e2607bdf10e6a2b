//! Ids and places of texts that the net knows.

ghost use Rattle.std.specs.Prelude.{◌≡◌, IfOk, is_some, true};
ghost use Rattle.serde_json.specs.Data.{string};
ghost use Rattle.net_check.specs.Network.{network};
ghost use Rattle.run_text.specs.Names.{node_name, meta_name, tag_name};
ghost use Rattle.run_text.specs.Forms.{place_data};
ghost use Rattle.report_names.specs.Names.{node_named, meta_named, tag_named, place_named};
ghost use Rattle.report_names.specs.Own.{IsOwnNode, IsOwnName, IsOwnTag, IsOwnPlace};

use crate::names::{meta_named, node_named, tag_named};
use crate::places::place_named;
use net_check::Net;
use net_check::table_laws::positions_have_names;
use sefl_meaning::Place;
use sn_width::{NameId, NoMemory, NodeId, TagId};
use std::alloc::Global;

/// The node of a name that is known.
pub fn known_node(alloc: Global, net: &Net, text: &str) -> Result<NodeId, NoMemory>
    requires { is_some (node_named (network net.now) text.now) ≡ true }
    ensures name { IfOk result (λ node. node_name (network net.now) node ≡ text.now) }
    ensures own { IfOk result (λ node. IsOwnNode (network net.now) node) }
{
    positions_have_names();
    match node_named(alloc, net, text)? {
        Some(node) => Ok(node),
        None => unreachable!(),
    }
}

/// The metadata of a name that is known.
pub fn known_meta(alloc: Global, net: &Net, text: &str) -> Result<NameId, NoMemory>
    requires { is_some (meta_named (network net.now) text.now) ≡ true }
    ensures name { IfOk result (λ name. meta_name (network net.now) name ≡ text.now) }
    ensures own { IfOk result (λ name. IsOwnName (network net.now) name) }
{
    match meta_named(alloc, net, text)? {
        Some(name) => Ok(name),
        None => unreachable!(),
    }
}

/// The tag of a name that is known.
pub fn known_tag(alloc: Global, net: &Net, text: &str) -> Result<TagId, NoMemory>
    requires { is_some (tag_named (network net.now) text.now) ≡ true }
    ensures name { IfOk result (λ tag. tag_name (network net.now) tag ≡ text.now) }
    ensures own { IfOk result (λ tag. IsOwnTag (network net.now) tag) }
{
    match tag_named(alloc, net, text)? {
        Some(tag) => Ok(tag),
        None => unreachable!(),
    }
}

/// The place of a text that is known.
pub fn known_place(alloc: Global, net: &Net, text: &str) -> Result<Place, NoMemory>
    requires { is_some (place_named (network net.now) text.now) ≡ true }
    ensures text { IfOk result (λ place. place_data (network net.now) place ≡ string text.now) }
    ensures own { IfOk result (λ place. IsOwnPlace (network net.now) place) }
{
    positions_have_names();
    match place_named(alloc, net, text)? {
        Some(place) => Ok(place),
        None => unreachable!(),
    }
}
