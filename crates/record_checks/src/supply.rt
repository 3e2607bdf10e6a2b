//! Records that are handed over one by one.

use path_records::Record;
use sn_width::NoMemory;

/// Hands over records one by one, and keeps none of them.
pub trait Supply {
    ghost use Rattle.std.specs.Prelude.{ℕ, ◌<◌, Option, IfOk, IfSome};
    ghost use Rattle.path_records.specs.declared.records.Record.{Record as RecordOf};

    /// What a call may hand over, None behind the last record, and leave.
    ghost steps: { Self → Option RecordOf → Self → Type 0 };

    /// More records than this are not handed over.
    ghost left: { Self → ℕ };

    /// The next record. Behind an error nothing is said of what is left.
    fn next(&mut self) -> Result<Option<Record>, NoMemory>
        ensures step { IfOk result (λ found. steps self.old found self.new) }
        ensures fewer { IfOk result (λ found. IfSome found (λ _. left self.new < left self.old)) };
}
