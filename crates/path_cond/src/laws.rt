//! What holds of all path conditions. Each is the contract of a function that has nothing to do.

ghost use Rattle.std.specs.Prelude.{◌≡◌, ℕ, ◌≤◌, [], length, Some, slice_get};
ghost use Rattle.sn_width.specs.declared.ids.SymId.{SymId};
ghost use Rattle.path_formula.specs.Typed.{IsTyped};
ghost use Rattle.path_formula.specs.View.{view};
ghost use Rattle.path_cond.specs.Conditions.{AllTyped, Condition, Entry, simple_picks};

use path_formula::laws::a_simple_formula_has_a_known_symbol;

/// No typed formula is simple on a symbol past the last.
pub fn no_formula_is_simple_on_an_unknown_symbol()
    ensures { (cond : Condition) (symbol : SymId) → AllTyped cond.widths cond.entries
        → length cond.widths ≤ symbol.0 → simple_picks symbol cond ≡ [] }
{
    a_simple_formula_has_a_known_symbol();
}

/// Each of typed formulas is typed.
pub fn each_formula_is_typed()
    ensures { (cond : Condition) (pick : ℕ) (entry : Entry) → AllTyped cond.widths cond.entries
        → slice_get cond.entries pick ≡ Some entry → IsTyped cond.widths (view entry.0) }
{}
