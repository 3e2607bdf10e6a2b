//! Laws of bounds, each the contract of a function that does nothing.

ghost use Rattle.std.specs.Prelude.{ℕ, ℤ, List, All};
ghost use Rattle.difference_solver.specs.declared.bound.Bound.{Bound};
ghost use Rattle.difference_solver.specs.Bound.{Meets};
ghost use Rattle.difference_solver.specs.Cycle.{IsNegativeCycle};

/// No integers meet the bounds of a cycle whose sum is below zero.
pub fn cycle_refutes()
    ensures { (bounds : List Bound) (indices : List ℕ) (v : List ℤ) →
        IsNegativeCycle bounds indices → All (Meets v) bounds → ⊥ }
{}
