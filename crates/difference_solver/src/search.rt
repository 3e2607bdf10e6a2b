//! The search.

ghost use Rattle.std.specs.Prelude.{◌^◌, ◌≤◌, ◌↔◌, [], ◌∷◌, length, IfOk};
ghost use Rattle.difference_solver.specs.Choices.{lists_of, AreBelow, AreInRange, IsMet, IsLeast, IsUnmet};
ghost use Rattle.difference_solver.specs.Outcomes.{IfLeast, IfRefuted, IsRefuted};
ghost use Rattle.difference_solver.specs.Steps.{Refutes};

use crate::choice::{Choice, Outcome};
use crate::floors::floors_of;
use crate::walk::Walk;
use sn_width::NoMemory;
use std::alloc::Global;

/// Integers that meet one case of each choice, the first in the order of words where each unknown is bounded from below;
/// or a refutation. Choices of one case are taken first. Answers NoMemory too where 2^64 lists of bounds were looked at.
pub(crate) fn search(alloc: Global, choices: &[Choice], count: u32) -> Result<Outcome, NoMemory>
    requires unknowns { count ≤ 64 }
    requires few { length choices.now ≤ 2 ^ 32 }
    requires in_range { AreInRange count (lists_of choices.now) }

    ensures met { IfOk result (λ outcome. IfLeast outcome (IsMet count (lists_of choices.now))) }
    ensures least { IfOk result (λ outcome. AreBelow count (lists_of choices.now)
        → IfLeast outcome (IsLeast count (lists_of choices.now))) }
    ensures refuted { IfOk result (λ outcome. IfRefuted outcome (Refutes (lists_of choices.now) ([] ∷ []))) }
    ensures unmet { IfOk result (λ outcome. IsRefuted outcome ↔ IsUnmet count (lists_of choices.now)) }
{
    let floors = floors_of(alloc, choices, count)?;
    let mut walk = Walk::new(alloc);
    walk.take_single_cases(alloc, choices, count)?;
    for _ in 0..u64::MAX {
        if !walk.turn(alloc, choices, floors.as_slice(), count)? {
            return Ok(walk.outcome());
        }
    }
    Err(NoMemory)
}
