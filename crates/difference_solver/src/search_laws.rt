//! Laws of refutations, each the contract of a function that does nothing.

ghost use Rattle.std.specs.Prelude.{ℤ, List, [], ◌∷◌};
ghost use Rattle.difference_solver.specs.Choices.{Case, MeetsEach};
ghost use Rattle.difference_solver.specs.Steps.{Refutes};
ghost use Rattle.difference_solver.specs.declared.choice.Step.{Step};

use crate::laws::cycle_refutes;

/// Where steps refute no bounds at all, no integers meet one case of each choice.
pub fn refuted_choices_are_not_met()
    ensures { (choices : List (List Case)) (steps : List Step) (v : List ℤ) →
        Refutes choices ([] ∷ []) steps → MeetsEach v choices → ⊥ }
{
    cycle_refutes();
}
