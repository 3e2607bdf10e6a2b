//! Ids by their names.

ghost use Rattle.std.specs.Prelude.{◌≡◌, IfOk, option_map};
ghost use Rattle.net_check.specs.Network.{network, node_number, name_number, tag_number};
ghost use Rattle.report_names.specs.Names.{node_named, meta_named, tag_named};

use crate::places::place_named;
use net_check::Net;
use report_shape::{Names, Part};
use sefl_syntax::Name;
use sn_width::{NameId, NoMemory, NodeId, TagId};
use std::alloc::Global;

/// The node with this name; None where the net has none.
pub(crate) fn node_named(alloc: Global, net: &Net, text: &str) -> Result<Option<NodeId>, NoMemory>
    ensures { IfOk result (λ found. option_map node_number found ≡ node_named (network net.now) text.now) }
{
    match Name::of(alloc, text)? {
        Some(name) => Ok(net.node_id(&name)),
        None => Ok(None),
    }
}

/// The metadata with this name; None where the net has none.
pub(crate) fn meta_named(alloc: Global, net: &Net, text: &str) -> Result<Option<NameId>, NoMemory>
    ensures { IfOk result (λ found. option_map name_number found ≡ meta_named (network net.now) text.now) }
{
    match Name::of(alloc, text)? {
        Some(name) => Ok(net.name_id(&name)),
        None => Ok(None),
    }
}

/// The tag with this name; None where the net has none.
pub(crate) fn tag_named(alloc: Global, net: &Net, text: &str) -> Result<Option<TagId>, NoMemory>
    ensures { IfOk result (λ found. option_map tag_number found ≡ tag_named (network net.now) text.now) }
{
    match Name::of(alloc, text)? {
        Some(name) => Ok(net.tag_id(&name)),
        None => Ok(None),
    }
}

/// The names and places of a net.
#[derive(Drop)]
pub struct NetNames<'n> {
    pub net: &'n Net,
}

impl Names for NetNames<'_> {
    ghost use Rattle.report_names.specs.Names.{knows};
    ghost use Rattle.net_check.specs.Network.{network};

    ghost knows = { λ names. knows (network names.net.now) };

    fn is_known(&self, alloc: Global, part: Part, text: &str) -> Result<bool, NoMemory> {
        match part {
            Part::Place => Ok(place_named(alloc, self.net, text)?.is_some()),
            Part::Owner => Ok(node_named(alloc, self.net, text)?.is_some()),
            Part::MetaName => Ok(meta_named(alloc, self.net, text)?.is_some()),
            Part::TagName => Ok(tag_named(alloc, self.net, text)?.is_some()),
            _ => Ok(false),
        }
    }
}
