//! What holds of all conditions. Each is the contract of a function that does nothing.

ghost use Rattle.std.specs.Prelude.{◌≡◌, Bool, true, false, List, slice_get};
ghost use Rattle.std.specs.List.{All, position_from};
ghost use Rattle.path_cond.specs.Conditions.{AllTyped, Condition, Entry};
ghost use Rattle.path_cond.specs.Summaries.{picks_where};
ghost use Rattle.path_cond.specs.Coupled.{IsNarrow, coupled_symbols};
ghost use Rattle.path_cond.specs.Picks.{first_where, passes};

use path_formula::case_laws::an_inside_formula_has_cases;

/// The coupled symbols of a condition have at most 64 bits.
pub fn coupled_symbols_have_at_most_64_bits()
    ensures { (cond : Condition) → AllTyped cond.widths cond.entries
        → All (IsNarrow cond.widths) (coupled_symbols cond) }
{
    an_inside_formula_has_cases();
}

/// Where only formulas of one test pass a second, the first formula that passes the second is the first to pass among the
/// picks of those of the first; there a third test will do that agrees with the second on these.
pub fn the_first_of_the_picks_is_the_first_of_the_formulas()
    ensures { (chosen other test : Entry → Bool) (entries : List Entry)
        → ((e : Entry) → chosen e ≡ true → other e ≡ test e) → ((e : Entry) → chosen e ≡ false → test e ≡ false)
        → first_where (λ p. passes other (slice_get entries p)) (picks_where chosen 0 entries)
        ≡ position_from test 0 entries }
{}
