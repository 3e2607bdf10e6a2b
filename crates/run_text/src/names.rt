//! The names of the ids in a walk.

ghost use Rattle.std.specs.Prelude.{◌≡◌};
ghost use Rattle.net_check.specs.Network.{network};
ghost use Rattle.run_text.specs.Names.{node_name, meta_name, tag_name};

use net_check::Net;
use sn_width::{NameId, NodeId, TagId};

/// The name of a node; empty past the last id.
#[tactic(auto, unfolding(crate::specs::Names::node_name))]
pub(crate) fn node_text(net: &Net, node: NodeId) -> &str
    ensures { result.now ≡ node_name (network net.now) node }
{
    if node.0 < net.node_count() {
        net.node_name(node).text()
    } else {
        ""
    }
}

/// The name of metadata; empty past the last id.
#[tactic(auto, unfolding(crate::specs::Names::meta_name))]
pub(crate) fn name_text(net: &Net, name: NameId) -> &str
    ensures { result.now ≡ meta_name (network net.now) name }
{
    if name.0 < net.name_count() {
        net.name(name).text()
    } else {
        ""
    }
}

/// The name of a tag; empty past the last id.
#[tactic(auto, unfolding(crate::specs::Names::tag_name))]
pub(crate) fn tag_text(net: &Net, tag: TagId) -> &str
    ensures { result.now ≡ tag_name (network net.now) tag }
{
    if tag.0 < net.tag_count() {
        net.tag_name(tag).text()
    } else {
        ""
    }
}
