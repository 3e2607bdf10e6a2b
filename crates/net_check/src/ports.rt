//! Tables by port, in which the first entry of a port counts.

ghost use Rattle.std.specs.Prelude.{◌≡◌, ℕ, cond, OnOk, None, Some};
ghost use Rattle.std.specs.Option.{option_or};
ghost use Rattle.sn_width.specs.declared.ids.NodeId.{NodeId};
ghost use Rattle.net_check.specs.Lookups.{at_port, port_of};
ghost use Rattle.net_check.specs.Places.{is_same_port};

use sn_width::{NoMemory, NodeId};
use std::collections::BTreeMap;

/// A node and a port of it.
pub(crate) type Port = (NodeId, u32);

/// Enters the value, unless the port has one.
pub(crate) fn enter<V: Drop>(
    table: &mut BTreeMap<Port, V>,
    port: Port,
    value: V,
) -> Result<(), NoMemory>
    ensures { OnOk result ((node : NodeId) (at : ℕ) → at_port table.new.entries node at
        ≡ option_or (at_port table.old.entries node at)
        (cond (is_same_port (port_of port) (node.0, at)) (Some value) None)) }
{
    if table.contains_key(&port) {
        return Ok(());
    }
    table.insert(port, value)?;
    Ok(())
}
