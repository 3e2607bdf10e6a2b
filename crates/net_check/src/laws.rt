//! What follows from breaking no rule. These functions do nothing: their contracts are the laws.

ghost use Rattle.std.specs.Prelude.{◌≡◌, ◌<◌, ℕ, List, Some, fold, length, slice_get};
ghost use Rattle.std.specs.List.{AllByRecursion};
ghost use Rattle.sefl_syntax.specs.Trees.{AskTree, JobTree};
ghost use Rattle.sefl_syntax.specs.Views.{ask_tree};
ghost use Rattle.sefl_syntax.specs.declared.job.Ask.{Ask};
ghost use Rattle.job_items.specs.Atoms.{ask_atoms};
ghost use Rattle.job_items.specs.Items.{Item, ask_item, job_items, net_items};
ghost use Rattle.job_items.specs.Rules.{counted, item_atoms, no_counts};
ghost use Rattle.net_check.specs.Keeping.{HasNamesOf, KeepsLimits, KeepsRules, KeepsWidth, line_items};
ghost use Rattle.net_check.specs.Network.{Entry, Network, entry, names_found, network};
ghost use Rattle.net_check.specs.Acceptance.{IsAcceptedAs};
ghost use Rattle.net_check.specs.declared.acceptance.Accepted.{Accepted};
ghost use Rattle.net_check.specs.Sound.{AreIds, AreOfOneJob, IsAcceptedEntry, IsAcceptedNet, IsAskOf, IsSound};

use crate::table_laws::positions_have_names;
use job_names::laws::sets_ascend;

/// No item of a job that breaks no rule breaks one, and its items together pass no limit; and the
/// other way.
pub fn sound_jobs_keep_the_rules()
    ensures items { (j : JobTree) → IsSound j → AllByRecursion KeepsRules (job_items j) }
    ensures limits { (j : JobTree) → IsSound j → KeepsLimits (fold counted no_counts (job_items j)) }
    ensures sound { (j : JobTree) → AllByRecursion KeepsRules (job_items j)
        → KeepsLimits (fold counted no_counts (job_items j)) → IsSound j }
{}

/// The nodes, codes and links of an accepted net keep the rules, and so do the lines of an accepted
/// injection.
pub fn accepted_parts_keep_the_rules()
    ensures net { (net : Network) → IsAcceptedNet net → AllByRecursion KeepsRules (net_items net.own) }
    ensures injection { (i : Entry) → IsAcceptedEntry i → AllByRecursion KeepsRules (line_items i.own) }
{}

/// Each atom of an item that keeps the rules has one width, which its constants and ranges fit.
pub fn atoms_keep_their_widths()
    ensures { (item : Item) → KeepsRules item → AllByRecursion KeepsWidth (item_atoms item) }
{}

/// The packets of a job are injected into a node of its net.
pub fn packets_enter_a_node()
    ensures { (net : Network) (i : Entry) → AreOfOneJob net i → i.node.0 < length net.own.nodes }
{
    positions_have_names();
}

/// The names in an accepted net and in the lines of its job's injection are among those of the net.
pub fn names_are_known()
    ensures net { (net : Network) → IsAcceptedNet net → AllByRecursion (HasNamesOf net.names) (net_items net.own) }
    ensures injection { (net : Network) (i : Entry) → AreOfOneJob net i
        → AllByRecursion (HasNamesOf net.names) (line_items i.own) }
{
    sets_ascend();
}

/// What a pattern finds in an accepted net are ids of the net's metadata names, ascending.
pub fn found_names_ascend()
    ensures { (net : Network) → IsAcceptedNet net → (pattern : List ℕ)
        → AreIds (length net.names.metas) (names_found net pattern) }
{}

/// The questions that are accepted are those of the job that the net and the injection are of. They
/// keep the rules, each of their atoms has one width, and their names are among those of the net.
pub fn questions_keep_the_rules()
    ensures told { (j : JobTree) (a : Accepted) → IsAcceptedAs j a → (index : ℕ) (ask : Ask)
        → slice_get a.asks.items index ≡ Some ask
        → IsAskOf (network a.net) (entry a.injection) (ask_tree ask) }
    ensures rules { (net : Network) (i : Entry) (ask : AskTree) → IsAskOf net i ask → KeepsRules (ask_item ask) }
    ensures widths { (net : Network) (i : Entry) (ask : AskTree) → IsAskOf net i ask
        → AllByRecursion KeepsWidth (ask_atoms ask) }
    ensures names { (net : Network) (i : Entry) (ask : AskTree) → IsAskOf net i ask
        → HasNamesOf net.names (ask_item ask) }
{
    sets_ascend();
}
