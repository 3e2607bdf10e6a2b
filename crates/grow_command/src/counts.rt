//! How many records there are of each kind.

ghost use Rattle.std.specs.Prelude.{◌≡◌, IfSome, List};
ghost use Rattle.sefl_meaning.specs.declared.walk.Decision.{Decision as DecisionOf};
ghost use Rattle.symbolic_engine.specs.Finds.{found_tree};
ghost use Rattle.grow_command.specs.Counted.{no_counts, with_end, with_record, with_verdict};

use path_exec::{Observer, Took};
use refutation_check::Verdict;
use sefl_meaning::{Decision, End};
use symbolic_engine::Found;

/// How many paths there are by their ends, and by their verdicts; how many refuted sides; and how many decisions that were not
/// tried.
#[derive(Clone, Copy)]
pub struct Counts {
    pub stopped: u64,
    pub delivered: u64,
    pub failed: u64,
    pub cut: u64,
    pub sat: u64,
    pub undecided: u64,
    pub pruned: u64,
    pub unexplored: u64,
}

impl Counts {
    /// Of no records.
    pub fn none() -> Counts
        ensures { result ≡ no_counts }
    {
        Counts {
            stopped: 0,
            delivered: 0,
            failed: 0,
            cut: 0,
            sat: 0,
            undecided: 0,
            pruned: 0,
            unexplored: 0,
        }
    }
}

/// With a path more, by its end; None where a count cannot rise any more.
fn with_end(counts: Counts, end: &End) -> Option<Counts>
    ensures { IfSome result (λ more. more ≡ with_end end.now counts) }
{
    Some(match end {
        End::Stopped => Counts {
            stopped: counts.stopped.checked_add(1)?,
            ..counts
        },
        End::Delivered => Counts {
            delivered: counts.delivered.checked_add(1)?,
            ..counts
        },
        End::Failed { .. } => Counts {
            failed: counts.failed.checked_add(1)?,
            ..counts
        },
        End::Cut => Counts {
            cut: counts.cut.checked_add(1)?,
            ..counts
        },
    })
}

/// With a path more, by its verdict.
fn with_verdict(counts: Counts, verdict: &Verdict) -> Option<Counts>
    ensures { IfSome result (λ more. more ≡ with_verdict verdict.now counts) }
{
    Some(match verdict {
        Verdict::Sat { .. } => Counts {
            sat: counts.sat.checked_add(1)?,
            ..counts
        },
        Verdict::Undecided { .. } => Counts {
            undecided: counts.undecided.checked_add(1)?,
            ..counts
        },
    })
}

/// With what was found more.
fn with_found(counts: Counts, found: &Found) -> Option<Counts>
    ensures { IfSome result (λ more. (ds : List DecisionOf) → more ≡ with_record (found_tree found.now ds) counts) }
{
    match found {
        Found::Path { end, verdict, .. } => with_verdict(with_end(counts, end)?, verdict),
        Found::Pruned { .. } => Some(Counts {
            pruned: counts.pruned.checked_add(1)?,
            ..counts
        }),
        Found::Unexplored => Some(Counts {
            unexplored: counts.unexplored.checked_add(1)?,
            ..counts
        }),
    }
}

/// With what was found more, which is not kept.
fn with_last(counts: Counts, found: Found) -> Option<Counts>
    ensures { IfSome result (λ more. (ds : List DecisionOf) → more ≡ with_record (found_tree found ds) counts) }
{
    with_found(counts, &found)
}

/// Counts what is found, and makes no record of it.
#[derive(Drop)]
pub struct Tally {
    pub counts: Counts,
}

impl Observer for Tally {
    type Found = Found;

    ghost use Rattle.std.specs.Prelude.{◌≡◌, map};
    ghost use Rattle.symbolic_engine.specs.Finds.{handed_tree};
    ghost use Rattle.grow_command.specs.Counted.{counts_of};

    ghost seen = { λ tally. record {
      StandsFor = λ items. tally.counts ≡ counts_of (map handed_tree items);
      StoppedIn = λ items. ⊥;
      stops = 0;
      target = 0;
      Takes = λ item. Unit {0};
    } };

    fn see(&mut self, found: Found, _decisions: &[Decision]) -> Took {
        match with_last(self.counts, found) {
            Some(counts) => {
                self.counts = counts;
                Took::More
            }
            None => Took::NoMemory,
        }
    }
}
