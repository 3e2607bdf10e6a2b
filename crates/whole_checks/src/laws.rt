//! Laws of records that leave nothing out. Each is the contract of a function that does nothing.

ghost use Rattle.std.specs.Prelude.{ℕ, List};
ghost use Rattle.sefl_meaning.specs.Network.{Network, Entry};
ghost use Rattle.exact_records.specs.Records.{RecordTree, SymStart};
ghost use Rattle.whole_checks.specs.Confirming.{AreWhole, HaveOneAnswer};
ghost use Rattle.whole_checks.specs.Walks.{ChainsShowWalks, ExactRecordsAreChains};

use exact_records::laws::{packets_take_routes, records_tell_packets};
use lin_term::Term;
use record_checks::laws::parts_make_the_meaning;
use sefl_meaning::laws::routes_compose;
use term_values::Formulas;

/// Where each record has its own meaning and comes next behind the one before it, each walk of each packet that meets the injection has
/// exactly one path among them.
pub fn chains_show_walks()
    ensures { (net : Network) (i : Entry) (hops : ℕ) → ChainsShowWalks net i hops }
{
    routes_compose::<Term, Formulas>();
    packets_take_routes();
    records_tell_packets();
}

/// Records have one answer, but for want of memory.
pub fn one_answer_for_whole_records()
    ensures { (s : SymStart) (records : List RecordTree) → HaveOneAnswer s records }
{
    parts_make_the_meaning();
}

/// Records of which the counts are answered have their meaning, and each comes next behind the one before it.
pub fn counted_records_are_whole()
    ensures { (s : SymStart) (records : List RecordTree) → AreWhole s records }
{}

/// Exact records, all of them tried, come next one behind another, and nothing comes before the first and behind the last.
pub fn exact_records_are_chains()
    ensures { (s : SymStart) → ExactRecordsAreChains s }
{
    routes_compose::<Term, Formulas>();
}
