//! Laws of the definitions of terms. Each is the contract of a function that does nothing.

ghost use Rattle.std.specs.Prelude.{◌≡◌, ℕ, ◌%◌, ◌^◌, ◌<◌, ◌↔◌, true, List, [], ◌∷◌, slice_index};
ghost use Rattle.sn_width.specs.Width.{FitsWidth, wrapped_sum, wrapped_difference};
ghost use Rattle.sn_width.specs.declared.ids.SymId.{SymId};
ghost use Rattle.lin_term.specs.Terms.{LinearTerm, IsReduced, coefficient_of, value_at, IsSum, IsDifference};
ghost use Rattle.lin_term.specs.Sums.{term_sum, term_difference};
ghost use Rattle.lin_term.specs.Reduced.{is_reduced};

/// Two terms of one width with one constant and the same coefficient of each symbol are the same.
pub fn coefficients_fix_a_term()
    ensures { (a b : LinearTerm) → IsReduced a → IsReduced b → a.width ≡ b.width
        → a.constant ≡ b.constant
        → ((s : ℕ) → coefficient_of s a.parts ≡ coefficient_of s b.parts) → a ≡ b }
{}

/// The value of a number of the width is the number.
pub fn value_of_a_number()
    ensures { (width number : ℕ) (values : List ℕ) → FitsWidth width number
        → value_at (record { width = width; constant = number; parts = [] }) values ≡ number }
{}

/// The value of a symbol is its number, modulo `2^w`, and 0 where it has none.
pub fn value_of_a_symbol()
    ensures { (width : ℕ) (symbol : SymId) (values : List ℕ)
        → value_at (record { width = width; constant = 0; parts = (symbol, 1) ∷ [] }) values
        ≡ slice_index values symbol.0 % 2 ^ width }
{}

/// The value of a sum is the sum of the values.
pub fn value_of_a_sum()
    ensures { (a b r : LinearTerm) (values : List ℕ) → a.width ≡ b.width → IsSum a b r
        → value_at r values ≡ wrapped_sum a.width (value_at a values) (value_at b values) }
{}

/// The value of a difference is the difference of the values.
pub fn value_of_a_difference()
    ensures { (a b r : LinearTerm) (values : List ℕ) → a.width ≡ b.width → IsReduced b → IsDifference a b r
        → value_at r values ≡ wrapped_difference a.width (value_at a values) (value_at b values) }
{}

/// The value goes by the numbers of the symbols whose coefficient is not 0, modulo `2^w`.
pub fn value_goes_by_its_symbols()
    ensures { (t : LinearTerm) (values others : List ℕ)
        → ((s : ℕ) → 0 < coefficient_of s t.parts
        → slice_index values s % 2 ^ t.width ≡ slice_index others s % 2 ^ t.width)
        → value_at t values ≡ value_at t others }
{}

/// The sum of two terms is the one reduced term that is their sum, and its value the sum of the values.
pub fn the_sum_of_terms()
    ensures sum { (a b : LinearTerm) → IsSum a b (term_sum a b) }
    ensures reduced { (a b : LinearTerm) → IsReduced (term_sum a b) }
    ensures only { (a b r : LinearTerm) → IsSum a b r → IsReduced r → r ≡ term_sum a b }
    ensures value { (a b : LinearTerm) (values : List ℕ) → a.width ≡ b.width
        → value_at (term_sum a b) values ≡ wrapped_sum a.width (value_at a values) (value_at b values) }
{}

/// The difference of two terms is the one reduced term that is their difference, and its value the
/// difference of the values.
pub fn the_difference_of_terms()
    ensures difference { (a b : LinearTerm) → IsDifference a b (term_difference a b) }
    ensures reduced { (a b : LinearTerm) → IsReduced (term_difference a b) }
    ensures only { (a b r : LinearTerm) → IsDifference a b r → IsReduced r → r ≡ term_difference a b }
    ensures value { (a b : LinearTerm) (values : List ℕ) → a.width ≡ b.width → IsReduced b
        → value_at (term_difference a b) values
        ≡ wrapped_difference a.width (value_at a values) (value_at b values) }
{}

/// The test tells the reduced terms.
pub fn the_test_of_reduced_terms()
    ensures { (t : LinearTerm) → (is_reduced t ≡ true) ↔ IsReduced t }
{}
