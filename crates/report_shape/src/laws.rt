//! What follows from the definition of the shape. This function does nothing: its contract is the law.

ghost use Rattle.std.specs.Prelude.{◌≡◌, ◌≤◌, ◌<◌, ◌^◌, ℕ, List, Some, true, decimal};
ghost use Rattle.report_shape.specs.Numbers.{is_large, large_of};

/// The texts of large numbers are their decimal digits.
pub fn large_numbers_have_digits()
    ensures digits { (n : ℕ) → 2 ^ 64 ≤ n → n < 2 ^ 128 → is_large (decimal n) ≡ true }
    ensures number { (s : List ℕ) (n : ℕ) → large_of s ≡ Some n → (decimal n ≡ s) × (2 ^ 64 ≤ n) × (n < 2 ^ 128) }
{}
