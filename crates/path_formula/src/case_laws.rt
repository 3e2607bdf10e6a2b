//! What holds of the cases of all formulas. Each is the contract of a function that does nothing.

ghost use Rattle.std.specs.Prelude.{◌≡◌, ◌&&◌, ℕ, Bool, false, true, List, Some, slice_index};
ghost use Rattle.std.specs.List.{list_any};
ghost use Rattle.sn_width.specs.Width.{FitsWidth};
ghost use Rattle.sn_width.specs.declared.ids.SymId.{SymId};
ghost use Rattle.sn_ranges.specs.Ranges.{RangeSet, IsSetOf, fits_width};
ghost use Rattle.path_formula.specs.Formulas.{FormulaTree, truth_at};
ghost use Rattle.path_formula.specs.Kinds.{atoms_of, is_hard, kind_of};
ghost use Rattle.path_formula.specs.Members.{Member, member_of};
ghost use Rattle.path_formula.specs.Solutions.{agrees};
ghost use Rattle.path_formula.specs.Typed.{IsTyped};
ghost use Rattle.path_formula.specs.declared.kinds.Kind.{Kind};
ghost use Rattle.path_formula.specs.Bounds.{AreValues, Case, is_case_met, is_one_met};
ghost use Rattle.path_formula.specs.Cases.{cases_of, single_cases, with_bounds};
ghost use Rattle.sn_ranges.specs.Sets.{ranges_where};
ghost use Rattle.path_formula.specs.Splits.{CanSplit};

/// A typed formula that has cases has the truth, at values that fit the widths of their symbols, exactly where they meet
/// all bounds of one of its cases, as integers.
pub fn one_case_is_met_exactly_where_the_formula_has_the_truth()
    ensures { (f : FormulaTree) (holds : Bool) (widths values : List ℕ)
        → CanSplit f → IsTyped widths f → AreValues widths values
        → is_one_met values (cases_of f holds) ≡ agrees holds (truth_at f values) }
{}

/// A typed formula has cases where none of its atoms is outside, and none but constant ones is wider than 64 bits.
pub fn a_formula_without_a_hard_atom_has_cases()
    ensures { (f : FormulaTree) (widths : List ℕ)
        → list_any is_hard (atoms_of f) ≡ false → IsTyped widths f → CanSplit f }
{}

/// A typed formula that is inside has cases.
pub fn an_inside_formula_has_cases()
    ensures { (f : FormulaTree) (widths : List ℕ)
        → kind_of f ≡ Kind.Inside → IsTyped widths f → CanSplit f }
{}

/// A set of values has the ranges of the values that pass its test.
pub fn a_set_has_the_ranges_of_its_test()
    ensures { (width : ℕ) (test : ℕ → Bool) (set : RangeSet)
        → IsSetOf width (λ x. fits_width width x && test x) set → set.pairs ≡ ranges_where width test }
{}

/// A value of the width passes the test exactly where it meets both bounds of one of the ranges of those that pass.
pub fn one_range_is_met_exactly_where_the_value_passes()
    ensures { (symbol : SymId) (width : ℕ) (test : ℕ → Bool) (values : List ℕ)
        → FitsWidth width (slice_index values symbol.0)
        → is_one_met values (single_cases symbol width test) ≡ test (slice_index values symbol.0) }
{}

/// One of several cases with more bounds before each is met exactly where those bounds and one of the cases are.
pub fn bounds_before_cases_are_met_with_one_of_them()
    ensures { (bounds : Case) (cases : List Case) (values : List ℕ)
        → is_one_met values (with_bounds cases bounds) ≡ (is_case_met values bounds && is_one_met values cases) }
{}

/// Where a formula has the truth that it must have, each of its members has its own. A member of a typed formula is typed, and one
/// of a formula that has cases has cases.
pub fn a_member_of_a_formula_that_has_its_truth_has_its_own()
    ensures truth { (f : FormulaTree) (holds : Bool) (way : List ℕ) (m : Member) (values : List ℕ)
        → member_of f holds way ≡ Some m → agrees holds (truth_at f values) ≡ true
        → agrees m.1 (truth_at m.0 values) ≡ true }
    ensures typed { (f : FormulaTree) (holds : Bool) (way : List ℕ) (m : Member) (widths : List ℕ)
        → member_of f holds way ≡ Some m → IsTyped widths f → IsTyped widths m.0 }
    ensures splits { (f : FormulaTree) (holds : Bool) (way : List ℕ) (m : Member)
        → member_of f holds way ≡ Some m → CanSplit f → CanSplit m.0 }
{}
