//! The names of a net. Each function here does nothing: it says what types say.

ghost use Rattle.std.specs.List.{AllByRecursion};
ghost use Rattle.net_check.specs.Network.{network};
ghost use Rattle.report_forms.specs.Spelled.{AreSpelled, IsSpelled};

use net_check::Net;
use sn_width::{NameId, NodeId, TagId};

fn nodes_are_spelled(net: &Net)
    ensures { AllByRecursion (λ d. IsSpelled d.name) (network net.now).own.nodes }
{
    for index in 0..net.node_count() {
        let _text = net.node_name(NodeId(index)).text();
    }
}

fn metas_are_spelled(net: &Net)
    ensures { AllByRecursion IsSpelled (network net.now).names.metas }
{
    for index in 0..net.name_count() {
        let _text = net.name(NameId(index)).text();
    }
}

fn tags_are_spelled(net: &Net)
    ensures { AllByRecursion IsSpelled (network net.now).names.tags }
{
    for index in 0..net.tag_count() {
        let _text = net.tag_name(TagId(index)).text();
    }
}

/// Says that the names of a net are spelled as names. It does nothing.
pub fn names_are_spelled(net: &Net)
    ensures { AreSpelled (network net.now) }
{
    nodes_are_spelled(net);
    metas_are_spelled(net);
    tags_are_spelled(net);
}
