//! Laws of what is answered of records. Each is the contract of a function that does nothing.

ghost use Rattle.std.specs.Prelude.{ℕ, List, Result, IfOk};
ghost use Rattle.sefl_meaning.specs.Network.{Network, Entry};
ghost use Rattle.exact_records.specs.Records.{RecordTree};
ghost use Rattle.record_checks.specs.declared.counts.Confirmed.{Confirmed};
ghost use Rattle.record_checks.specs.declared.fault.ReplayFault.{ReplayFault};
ghost use Rattle.path_replay.specs.Replaying.{ConfirmsFor, ConfirmsWholeFor, IsConfirmedBackFor, TellPackets};
ghost use Rattle.whole_checks.specs.Confirming.{Answer};
ghost use Rattle.whole_checks.specs.Walks.{ShowEachWalk};

use exact_records::laws::records_tell_packets;
use record_checks::laws::one_answer_for_records;
use whole_checks::laws::{chains_show_walks, counted_records_are_whole};

/// What may be answered of records is the only answer, but for want of memory.
pub fn one_answer_for_a_net()
    ensures { (net : Network) (i : Entry) (hops : ℕ) (records : List RecordTree) (answer : Result Confirmed ReplayFault)
        → ConfirmsFor net i hops records answer → IsConfirmedBackFor net i hops records answer }
{
    one_answer_for_records();
}

/// Records that are confirmed tell of packets what they mean: the values of each path that has some are a
/// packet that takes it, and no packet takes a refuted side.
pub fn confirmed_records_tell_packets()
    ensures { (net : Network) (i : Entry) (hops : ℕ) (records : List RecordTree) (answer : Result Confirmed ReplayFault)
        → ConfirmsFor net i hops records answer → IfOk answer (λ counts. TellPackets net i hops records) }
{
    records_tell_packets();
}

/// The same of records that leave nothing out; and each walk of each packet that meets the injection has exactly one path among them.
pub fn whole_records_show_walks()
    ensures packets { (net : Network) (i : Entry) (hops : ℕ) (records : List RecordTree) (answer : Answer)
        → ConfirmsWholeFor net i hops records answer → IfOk answer (λ counts. TellPackets net i hops records) }
    ensures walks { (net : Network) (i : Entry) (hops : ℕ) (records : List RecordTree) (answer : Answer)
        → ConfirmsWholeFor net i hops records answer → IfOk answer (λ counts. ShowEachWalk net i hops records) }
{
    records_tell_packets();
    counted_records_are_whole();
    chains_show_walks();
}
