//! Laws of what exact records name. Each is the contract of a function that does nothing.

ghost use Rattle.std.specs.Prelude.{◌<◌, ℕ, List, length};
ghost use Rattle.std.specs.List.{AllByRecursion};
ghost use Rattle.sn_width.specs.declared.ids.NodeId.{NodeId as NodeOf};
ghost use Rattle.sn_width.specs.declared.ids.NameId.{NameId as NameOf};
ghost use Rattle.sn_width.specs.declared.ids.TagId.{TagId as TagOf};
ghost use Rattle.net_check.specs.Network.{Entry, Network};
ghost use Rattle.net_check.specs.Sound.{AreOfOneJob, IsAcceptedNet};
ghost use Rattle.path_records.specs.declared.records.Record.{Record};
ghost use Rattle.exact_records.specs.Packets.{AreExactFor};
ghost use Rattle.exact_records.specs.View.{record_trees};
ghost use Rattle.report_names.specs.Own.{IsOwnName, IsOwnNode, IsOwnTag};
ghost use Rattle.report_forms.specs.Fits.{RecordFits};
ghost use Rattle.report_forms.specs.Ranges.{RecordInRange};
ghost use Rattle.report_forms.specs.Spelled.{AreSpelled};

use crate::below::names_and_widths;
use job_names::laws::sets_ascend;
use net_check::laws::accepted_parts_keep_the_rules;

/// Each node, each name of metadata and each tag of an accepted net is found by its name.
pub fn ids_are_found()
    ensures nodes { (net : Network) → IsAcceptedNet net → AreSpelled net → (node : NodeOf)
        → node.0 < length net.own.nodes → IsOwnNode net node }
    ensures metas { (net : Network) → IsAcceptedNet net → AreSpelled net → (name : NameOf)
        → name.0 < length net.names.metas → IsOwnName net name }
    ensures tags { (net : Network) → IsAcceptedNet net → AreSpelled net → (tag : TagOf) → tag.0 < length net.names.tags
        → IsOwnTag net tag }
{
    accepted_parts_keep_the_rules();
    sets_ascend();
}

/// Exact records whose numbers are of their types fit the net that they are of.
pub fn exact_records_fit()
    ensures { (net : Network) (i : Entry) (hops limit : ℕ) (records : List Record) → AreOfOneJob net i → AreSpelled net
        → AreExactFor net i hops limit (record_trees records) → AllByRecursion RecordInRange records
        → AllByRecursion (RecordFits net) records }
{
    ids_are_found();
    names_and_widths();
}
