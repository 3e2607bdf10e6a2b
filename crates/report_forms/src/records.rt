//! Records.

ghost use Rattle.std.specs.Prelude.{IfOk};
ghost use Rattle.report_forms.specs.Ranges.{RecordInRange};

use crate::fields::fields_fit;
use crate::numbers::{decisions_fit, end_fits, ports_fit};
use crate::verdicts::{before_fits, steps_fit, verdict_fits};
use path_records::Record;
use sn_width::NoMemory;

/// Says that the numbers of a record are of their types. It does nothing. It fails only where a term has more parts than a
/// `usize` can count.
pub fn numbers_are_in_range(item: &Record) -> Result<(), NoMemory>
    ensures { IfOk result (λ _. RecordInRange item.now) }
{
    match item {
        Record::Path {
            decisions,
            places,
            end,
            fields,
            verdict,
        } => {
            decisions_fit(decisions);
            ports_fit(places);
            end_fits(end);
            verdict_fits(verdict);
            fields_fit(fields)
        }
        Record::Pruned {
            decisions,
            before,
            refutation,
        } => {
            decisions_fit(decisions);
            before_fits(before);
            steps_fit(refutation.as_slice());
            Ok(())
        }
        Record::Unexplored { decisions } => {
            decisions_fit(decisions);
            Ok(())
        }
    }
}
