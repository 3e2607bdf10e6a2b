//! Laws of the operations on terms. Each is the contract of a function that does nothing.

ghost use Rattle.std.specs.Prelude.{◌≡◌, ◌↔◌, ℕ, List, length};
ghost use Rattle.lin_term.specs.Terms.{LinearTerm, IsReduced, value_at};
ghost use Rattle.path_formula.specs.Formulas.{truth_at};
ghost use Rattle.path_formula.specs.TypeTests.{is_typed};
ghost use Rattle.path_formula.specs.Typed.{TermIsTyped};
ghost use Rattle.sefl_meaning.specs.Values.{numbers};
ghost use Rattle.sefl_meaning.specs.Valued.{Fits, KeepsSums, KeepsSymbols, KeepsTests, Respects};
ghost use Rattle.term_values.specs.Fits.{term_fits, typed_fits};
ghost use Rattle.term_values.specs.TermValues.{terms};

use lin_term::laws::{
    the_difference_of_terms, the_sum_of_terms, the_test_of_reduced_terms, value_of_a_number,
    value_of_a_symbol,
};
use path_formula::laws::{
    formulas_of_typed_parts_are_typed, more_symbols_keep_types, numbers_and_symbols_are_typed,
    sums_of_typed_terms_are_typed, the_tests_of_types, truths_go_by_the_parts,
};
use sefl_meaning::laws::Truths;

/// Formulas as truths.
pub struct Formulas;

impl Truths for Formulas {
    ghost use Rattle.path_formula.specs.Formulas.{FormulaTree};

    ghost Truth = { FormulaTree };
}

/// The value of a term, and the truth of a formula, at a list of numbers respect the operations: of
/// the list the first numbers are the unknown fields, and the others the choices.
pub fn values_respect_the_operations()
    ensures { (v : List ℕ) (unknowns : ℕ)
        → Respects term_fits (terms unknowns) (numbers v unknowns) (λ t. value_at t v) (λ f. truth_at f v) }
{
    the_test_of_reduced_terms();
    value_of_a_number();
    value_of_a_symbol();
    the_sum_of_terms();
    the_difference_of_terms();
    truths_go_by_the_parts();
}

/// Terms and formulas stay typed: over the symbols that there are, with one more, and where a new
/// symbol is made, which has the next number.
pub fn terms_keep_types()
    ensures sums { (widths : List ℕ) (unknowns : ℕ) → KeepsSums (typed_fits widths) (terms unknowns) }
    ensures tests { (widths : List ℕ) (unknowns : ℕ)
        → KeepsTests (typed_fits widths) (is_typed widths) (terms unknowns) }
    ensures symbols { (widths : List ℕ) → KeepsSymbols typed_fits widths (terms (length widths)) }
{
    the_test_of_reduced_terms();
    the_sum_of_terms();
    the_difference_of_terms();
    formulas_of_typed_parts_are_typed();
    numbers_and_symbols_are_typed();
    sums_of_typed_terms_are_typed();
    more_symbols_keep_types();
    the_tests_of_types();
}

/// The tests tell the terms that fit, and those that are typed, too.
pub fn the_tests_of_fitting_terms()
    ensures fits { (w : ℕ) (t : LinearTerm) → Fits term_fits w t ↔ ((t.width ≡ w) × IsReduced t) }
    ensures typed { (widths : List ℕ) (w : ℕ) (t : LinearTerm)
        → Fits (typed_fits widths) w t ↔ (Fits term_fits w t × TermIsTyped widths t) }
{
    the_test_of_reduced_terms();
    the_tests_of_types();
}
