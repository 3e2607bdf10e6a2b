//! Verdicts and refutations. Each function here does nothing: it says what types say.

ghost use Rattle.std.specs.List.{AllByRecursion};
ghost use Rattle.report_forms.specs.Fits.{BeforeFits, CauseFits, StepFits, VerdictFits};

use crate::numbers::{ids_fit, number_of_symbol, values_fit};
use refutation_check::{Cause, Refute, Verdict};

fn cause_fits(cause: &Cause)
    ensures { CauseFits cause.now }
{
    match cause {
        Cause::Outside { pick, values } => {
            let _pick = *pick;
            values_fit(values.as_slice());
        }
        Cause::Cases { count } => {
            let _count = *count;
        }
        Cause::Coupled { count } => {
            let _count = *count;
        }
    }
}

/// Says that the numbers of a verdict are of their types. It does nothing.
pub fn verdict_fits(verdict: &Verdict)
    ensures { VerdictFits verdict.now }
{
    match verdict {
        Verdict::Sat { values } => values_fit(values.as_slice()),
        Verdict::Undecided { cause } => cause_fits(cause),
    }
}

pub(crate) fn before_fits(before: &Option<Verdict>)
    ensures { BeforeFits before.now }
{
    if let Some(verdict) = before {
        verdict_fits(verdict);
    }
}

fn step_fits(step: &Refute)
    ensures { StepFits step.now }
{
    match step {
        Refute::Empty { symbol, picks } => {
            let _number = number_of_symbol(*symbol);
            ids_fit(picks.as_slice());
        }
        Refute::Domain { symbol } => {
            let _number = number_of_symbol(*symbol);
        }
        Refute::Split { pick, way } => {
            let _pick = *pick;
            ids_fit(way.as_slice());
        }
        Refute::Cycle { bounds } => ids_fit(bounds.as_slice()),
    }
}

/// Says that the numbers of a refutation are of their types. It does nothing.
pub fn steps_fit(steps: &[Refute])
    ensures { AllByRecursion StepFits steps.now }
{
    for step in steps {
        step_fits(step);
    }
}
