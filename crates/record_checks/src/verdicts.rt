//! Refutations and verdicts against conditions.

ghost use Rattle.std.specs.Prelude.{◌↔◌, IsTrue, IfOk};
ghost use Rattle.path_cond.specs.Seen.{itself};
ghost use Rattle.refutation_check.specs.Seen.{IsLicensed};
ghost use Rattle.exact_records.specs.Records.{IsRefutedBy, MayPrecede, Satisfy};
ghost use Rattle.record_checks.specs.Stops.{trees_of};

use path_cond::PathCond;
use refutation_check::laws::a_condition_is_judged_by_its_trees;
use refutation_check::{Cause, Refutation, Verdict, check, lawful};
use sn_width::{NoMemory, Num};
use std::alloc::Global;

/// Whether the refutation is accepted of the condition.
pub(crate) fn is_refuted(
    alloc: Global,
    refutation: &Refutation,
    cond: &PathCond,
) -> Result<bool, NoMemory>
    ensures { IfOk result (λ yes. IsTrue yes ↔ IsRefutedBy (trees_of cond.now) refutation.now) }
{
    a_condition_is_judged_by_its_trees();
    cond.formulas_are_typed();
    check(alloc, refutation, cond)
}

/// Whether the cause may be given for leaving the condition undecided.
pub(crate) fn is_licensed(alloc: Global, cause: &Cause, cond: &PathCond) -> Result<bool, NoMemory>
    ensures { IfOk result (λ yes. IsTrue yes ↔ IsLicensed itself (trees_of cond.now) cause.now) }
{
    a_condition_is_judged_by_its_trees();
    lawful(alloc, cause, cond)
}

/// Whether the values make the condition true.
pub(crate) fn make_true(values: &[Num], cond: &PathCond) -> bool
    ensures { IsTrue result ↔ Satisfy values.now (trees_of cond.now) }
{
    a_condition_is_judged_by_its_trees();
    cond.holds(values)
}

/// Whether the verdict may be that of the condition before a refuted side: its values make the condition true, or its
/// cause may be given.
pub(crate) fn may_precede(
    alloc: Global,
    before: &Verdict,
    cond: &PathCond,
) -> Result<bool, NoMemory>
    ensures { IfOk result (λ yes. IsTrue yes ↔ MayPrecede (trees_of cond.now) before.now) }
{
    match before {
        Verdict::Sat { values } => Ok(make_true(values.as_slice(), cond)),
        Verdict::Undecided { cause } => is_licensed(alloc, cause, cond),
    }
}
