//! What holds of all formulas. Each is the contract of a function that does nothing.

ghost use Rattle.std.specs.Prelude.{◌≡◌, ◌↔◌, ◌++◌, ℕ, Bool, true, not, List, [], ◌∷◌, Some, length, slice_get, slice_index};
ghost use Rattle.std.specs.List.{AllByRecursion, list_all, list_any};
ghost use Rattle.sn_width.specs.Rel.{relates};
ghost use Rattle.sn_width.specs.declared.ids.SymId.{SymId};
ghost use Rattle.sn_width.specs.declared.rel.Rel.{Rel};
ghost use Rattle.lin_term.specs.Terms.{LinearTerm, value_at};
ghost use Rattle.lin_term.specs.Sums.{term_sum, term_difference};
ghost use Rattle.sn_ranges.specs.Ranges.{Range, RangeSet, is_member};
ghost use Rattle.sn_ranges.specs.Sets.{set_of};
ghost use Rattle.path_formula.specs.Formulas.{FormulaTree, compared, belongs, all_of, any_of, opposite, truth_at};
ghost use Rattle.path_formula.specs.Kinds.{kind_of};
ghost use Rattle.path_formula.specs.Solutions.{IsOver, alone};
ghost use Rattle.path_formula.specs.Typed.{IsTyped, TermIsTyped};
ghost use Rattle.path_formula.specs.TypeTests.{is_typed, is_typed_term};
ghost use Rattle.path_formula.specs.View.{formulas_of};
ghost use Rattle.path_formula.specs.declared.kinds.Kind.{Kind};

use sn_ranges::laws::the_set_of_a_test;

/// A constant formula has its truth at all values.
pub fn a_constant_formula_has_one_truth()
    ensures { (f : FormulaTree) (truth : Bool) (values : List ℕ)
        → kind_of f ≡ Kind.Constant truth → truth_at f values ≡ truth }
{}

/// A formula that is simple on a symbol goes by the value of this symbol.
pub fn a_simple_formula_goes_by_its_symbol()
    ensures { (f : FormulaTree) (symbol : SymId) (values others : List ℕ)
        → kind_of f ≡ Kind.Simple symbol → slice_index values symbol.0 ≡ slice_index others symbol.0
        → truth_at f values ≡ truth_at f others }
{}

/// A formula that is simple on a symbol has the truth that it has where all other symbols are 0.
pub fn a_simple_formula_may_stand_alone()
    ensures { (f : FormulaTree) (symbol : SymId) (values : List ℕ) → kind_of f ≡ Kind.Simple symbol
        → truth_at f values ≡ truth_at f (alone symbol (slice_index values symbol.0)) }
{}

/// The solutions of a constant formula may be asked for, for any symbol.
pub fn a_constant_formula_is_over_each_symbol()
    ensures { (f : FormulaTree) (truth : Bool) (symbol : SymId) (width : ℕ)
        → kind_of f ≡ Kind.Constant truth → IsOver symbol width f }
{}

/// The solutions of a typed formula that is simple on a symbol may be asked for, for this symbol.
pub fn a_simple_formula_is_over_its_symbol()
    ensures { (f : FormulaTree) (symbol : SymId) (widths : List ℕ) (width : ℕ)
        → kind_of f ≡ Kind.Simple symbol → IsTyped widths f → slice_get widths symbol.0 ≡ Some width
        → IsOver symbol width f }
{}

/// A typed formula is simple on a symbol that has a width.
pub fn a_simple_formula_has_a_known_symbol()
    ensures { (f : FormulaTree) (symbol : SymId) (widths : List ℕ)
        → kind_of f ≡ Kind.Simple symbol → IsTyped widths f
        → (width : ℕ) × (slice_get widths symbol.0 ≡ Some width) }
{}

/// The truth of a formula goes by the values of its terms and the truths of its parts. A membership
/// may be in the set of any list of ranges: they come in any order, and may overlap.
pub fn truths_go_by_the_parts()
    ensures comparison { (rel : Rel) (left right : LinearTerm) (values : List ℕ)
        → truth_at (compared rel left right) values ≡ relates rel (value_at left values) (value_at right values) }
    ensures membership { (term : LinearTerm) (ranges : List Range) (values : List ℕ)
        → truth_at (belongs term (set_of term.width (is_member ranges))) values
        ≡ is_member ranges (value_at term values) }
    ensures all { (fs : List FormulaTree) (values : List ℕ)
        → truth_at (all_of (formulas_of fs)) values ≡ list_all (λ f. truth_at f values) fs }
    ensures any { (fs : List FormulaTree) (values : List ℕ)
        → truth_at (any_of (formulas_of fs)) values ≡ list_any (λ f. truth_at f values) fs }
    ensures opposite { (f : FormulaTree) (values : List ℕ)
        → truth_at (opposite f) values ≡ not (truth_at f values) }
{
    the_set_of_a_test();
}

/// A formula of typed parts is typed.
pub fn formulas_of_typed_parts_are_typed()
    ensures comparison { (widths : List ℕ) (rel : Rel) (left right : LinearTerm) → left.width ≡ right.width
        → TermIsTyped widths left → TermIsTyped widths right → IsTyped widths (compared rel left right) }
    ensures membership { (widths : List ℕ) (term : LinearTerm) (set : RangeSet) → term.width ≡ set.width
        → TermIsTyped widths term → IsTyped widths (belongs term set) }
    ensures all { (widths : List ℕ) (fs : List FormulaTree)
        → AllByRecursion (IsTyped widths) fs → IsTyped widths (all_of (formulas_of fs)) }
    ensures any { (widths : List ℕ) (fs : List FormulaTree)
        → AllByRecursion (IsTyped widths) fs → IsTyped widths (any_of (formulas_of fs)) }
    ensures opposite { (widths : List ℕ) (f : FormulaTree)
        → IsTyped widths f → IsTyped widths (opposite f) }
{}

/// Numbers are typed, and so is a symbol at its width.
pub fn numbers_and_symbols_are_typed()
    ensures number { (widths : List ℕ) (width constant : ℕ)
        → TermIsTyped widths (record { width = width; constant = constant; parts = [] }) }
    ensures symbol { (widths : List ℕ) (width : ℕ) (symbol : SymId) → slice_get widths symbol.0 ≡ Some width
        → TermIsTyped widths (record { width = width; constant = 0; parts = (symbol, 1) ∷ [] }) }
    ensures next { (widths more : List ℕ) (width : ℕ) → TermIsTyped (widths ++ width ∷ more)
        (record { width = width; constant = 0; parts = (record { 0 = length widths }, 1) ∷ [] }) }
{}

/// Sums and differences of typed terms of one width are typed.
pub fn sums_of_typed_terms_are_typed()
    ensures sum { (widths : List ℕ) (a b : LinearTerm) → a.width ≡ b.width
        → TermIsTyped widths a → TermIsTyped widths b → TermIsTyped widths (term_sum a b) }
    ensures difference { (widths : List ℕ) (a b : LinearTerm) → a.width ≡ b.width
        → TermIsTyped widths a → TermIsTyped widths b → TermIsTyped widths (term_difference a b) }
{}

/// What is typed stays so with more symbols.
pub fn more_symbols_keep_types()
    ensures term { (widths more : List ℕ) (term : LinearTerm)
        → TermIsTyped widths term → TermIsTyped (widths ++ more) term }
    ensures formula { (widths more : List ℕ) (f : FormulaTree)
        → IsTyped widths f → IsTyped (widths ++ more) f }
{}

/// The tests tell what is typed.
pub fn the_tests_of_types()
    ensures term { (widths : List ℕ) (term : LinearTerm)
        → (is_typed_term widths term ≡ true) ↔ TermIsTyped widths term }
    ensures formula { (widths : List ℕ) (f : FormulaTree)
        → (is_typed widths f ≡ true) ↔ IsTyped widths f }
{}
