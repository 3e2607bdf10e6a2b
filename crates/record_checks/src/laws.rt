//! Laws of the parts of records, and of what is answered of many. Each is the contract of a function that does nothing.

ghost use Rattle.std.specs.Prelude.{List, Result};
ghost use Rattle.exact_records.specs.Records.{RecordTree, SymStart};
ghost use Rattle.record_checks.specs.Confirming.{Confirms, IsConfirmedBack};
ghost use Rattle.record_checks.specs.Parts.{PartsMakeTheMeaning};
ghost use Rattle.record_checks.specs.declared.counts.Confirmed.{Confirmed};
ghost use Rattle.record_checks.specs.declared.fault.ReplayFault.{ReplayFault};

/// A record has its meaning exactly where it has all of its parts, and at most one part is the first that is broken.
pub fn parts_make_the_meaning()
    ensures { (s : SymStart) → PartsMakeTheMeaning s }
{}

/// What may be answered of records is the only answer, but for want of memory.
pub fn one_answer_for_records()
    ensures { (s : SymStart) (records : List RecordTree) (answer : Result Confirmed ReplayFault)
        → Confirms s records answer → IsConfirmedBack s records answer }
{}
