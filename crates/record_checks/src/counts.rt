//! Counts of records.

ghost use Rattle.std.specs.Prelude.{◌≡◌, []};
ghost use Rattle.exact_records.specs.View.{record_tree};
ghost use Rattle.record_checks.specs.Counts.{AreAtMost, counts_of, with_record};

use path_records::Record;
use refutation_check::Verdict;

/// How many records of each kind there are.
#[derive(Clone, Copy, PartialEq, Eq)]
pub struct Confirmed {
    /// Paths with values.
    pub sat: u64,
    /// Paths with a cause.
    pub undecided: u64,
    /// Refuted sides.
    pub pruned: u64,
    /// Decisions that were not tried.
    pub unexplored: u64,
}

/// The counts of no records.
pub fn no_counts() -> Confirmed
    ensures { result ≡ counts_of [] }
{
    Confirmed {
        sat: 0,
        undecided: 0,
        pruned: 0,
        unexplored: 0,
    }
}

/// The counts with one record more.
pub(crate) fn with_record(counts: Confirmed, found: &Record) -> Confirmed
    requires { AreAtMost 18446744073709551614 counts }
    ensures { result ≡ with_record (record_tree found.now) counts }
{
    match found {
        Record::Path { verdict, .. } => match verdict {
            Verdict::Sat { .. } => Confirmed {
                sat: counts.sat + 1,
                ..counts
            },
            Verdict::Undecided { .. } => Confirmed {
                undecided: counts.undecided + 1,
                ..counts
            },
        },
        Record::Pruned { .. } => Confirmed {
            pruned: counts.pruned + 1,
            ..counts
        },
        Record::Unexplored { .. } => Confirmed {
            unexplored: counts.unexplored + 1,
            ..counts
        },
    }
}
