//! Links by the output port that they leave.

ghost use Rattle.std.specs.Prelude.{◌≡◌, ℕ, filter_map, IfOk, OnOk, option_map, option_to_list};
ghost use Rattle.std.specs.Option.{option_or};
ghost use Rattle.sn_width.specs.declared.ids.NodeId.{NodeId};
ghost use Rattle.net_check.specs.Lookups.{number_of, position_at, way_at};
ghost use Rattle.net_check.specs.Places.{way_from, way_of};

use crate::ports::{Port, enter};
use sefl_syntax::{Link, Name};
use sn_width::{NoMemory, NodeId};
use std::alloc::Global;
use std::collections::BTreeMap;

/// Where links lead, by the output port that they leave.
pub(crate) fn ways_of(
    alloc: Global,
    ids: &BTreeMap<Name, NodeId>,
    links: &[Link],
) -> Result<BTreeMap<Port, Port>, NoMemory>
    ensures { IfOk result (λ ways. (node : NodeId) (port : ℕ) → way_at ways.entries node port
        ≡ way_from (filter_map (way_of (position_at ids.now.entries)) links.now) (node.0, port)) }
{
    let mut ways = BTreeMap::new(alloc);
    for link in links {
        enter_link(&mut ways, ids, link)?;
    }
    Ok(ways)
}

/// Enters where a link leads, unless an earlier one leaves the same port.
fn enter_link(
    ways: &mut BTreeMap<Port, Port>,
    ids: &BTreeMap<Name, NodeId>,
    link: &Link,
) -> Result<(), NoMemory>
    ensures { OnOk result ((node : NodeId) (port : ℕ) → way_at ways.new.entries node port
        ≡ option_or (way_at ways.old.entries node port)
        (way_from (option_to_list (way_of (position_at ids.now.entries) link.now)) (node.0, port))) }
{
    let Some(from) = id_named(ids, &link.from) else {
        return Ok(());
    };
    let Some(to) = id_named(ids, &link.to) else {
        return Ok(());
    };
    enter(ways, (from, link.from_port), (to, link.to_port))
}

/// The id of the node of the name.
pub(crate) fn id_named(ids: &BTreeMap<Name, NodeId>, name: &Name) -> Option<NodeId>
    ensures { option_map number_of result ≡ position_at ids.now.entries name.now }
{
    ids.get(name).copied()
}
