//! The checker of refutations.

ghost use Rattle.std.specs.Prelude.{◌≡◌, ◌↔◌, ℕ, false, List, IsTrue, IfOk};
ghost use Rattle.path_cond.specs.Conditions.{holds_at};
ghost use Rattle.refutation_check.specs.Accepted.{IsAccepted};

use crate::agenda::Agenda;
use crate::laws::an_accepted_refutation_refutes;
use crate::steps::Refutation;
use path_cond::PathCond;
use sn_width::NoMemory;
use std::alloc::Global;

/// Whether the steps are right where they stand, and leave no alternative when they are read to their end.
fn is_accepted(alloc: Global, refutation: &Refutation, cond: &PathCond) -> Result<bool, NoMemory>
    ensures { IfOk result (λ yes. IsTrue yes ↔ IsAccepted cond.now refutation.now) }
{
    let mut agenda = Agenda::new(alloc)?;
    let mut left = refutation.as_slice().len();
    for step in refutation.as_slice() {
        left -= 1;
        if !agenda.advance(alloc, cond, step, left)? {
            return Ok(false);
        }
    }
    Ok(agenda.is_done())
}

/// Whether the refutation is accepted for the condition; then no values make the condition true.
pub fn check(alloc: Global, refutation: &Refutation, cond: &PathCond) -> Result<bool, NoMemory>
    ensures accepted { IfOk result (λ yes. IsTrue yes ↔ IsAccepted cond.now refutation.now) }
    ensures refuted { IfOk result (λ yes. IsTrue yes → (values : List ℕ) → holds_at cond.now values ≡ false) }
{
    an_accepted_refutation_refutes();
    cond.formulas_are_typed();
    is_accepted(alloc, refutation, cond)
}
