//! What holds of all conditions and their domains. Each is the contract of a function that has
//! nothing to do.

ghost use Rattle.std.specs.Prelude.{◌≡◌, ◌↔◌, ℕ, true, false, [], ◌∷◌, ◌++◌, ◌<◌, List, Some, None, length};
ghost use Rattle.std.specs.List.{list_all};
ghost use Rattle.sn_ranges.specs.Ranges.{RangeSet};
ghost use Rattle.sn_width.specs.declared.ids.SymId.{SymId as Symbol};
ghost use Rattle.path_cond.specs.Conditions.{Condition, Entry, first_broken, holds_at, is_possible};
ghost use Rattle.interval_solver.specs.Domains.{AreDomainsOf, AreDomainsBeforeLast, first_empty};
ghost use Rattle.path_formula.specs.Typed.{AreValues};
ghost use Rattle.interval_solver.specs.Verdicts.{AreLeastValues, IsVerdictOn, IsWithoutValue, is_refuting, is_false, is_empty_verdict, holds_if_settled};
ghost use Rattle.interval_solver.specs.declared.decide.SimpleVerdict.{SimpleVerdict as Answer};

/// A condition has one list of domains.
pub fn domains_are_unique()
    ensures { (cond : Condition) (left right : List RangeSet)
        → AreDomainsOf cond left → AreDomainsOf cond right → left ≡ right }
{
    sn_ranges::laws::one_list_for_each_set();
}

/// Where the verdict on a condition is False or Empty, no values that fit make the condition true.
pub fn a_verdict_refutes()
    ensures { (cond : Condition) (verdict : Answer) (values : List ℕ) → IsVerdictOn cond verdict
        → is_refuting verdict ≡ true → AreValues cond.widths values → holds_at cond values ≡ false }
{
    path_formula::laws::a_constant_formula_has_one_truth();
    path_formula::laws::a_simple_formula_may_stand_alone();
}

/// A verdict is False exactly where a constant formula has not the truth that it must have.
pub fn false_exactly_where_a_constant_is_broken()
    ensures { (cond : Condition) (verdict : Answer) → IsVerdictOn cond verdict
        → (is_false verdict ≡ true) ↔ ((pick : ℕ) × (first_broken cond ≡ Some pick)) }
{}

/// A verdict is Empty exactly where no constant formula is broken and a symbol has no possible value.
pub fn empty_exactly_where_a_symbol_has_no_value()
    ensures { (cond : Condition) (verdict : Answer) → IsVerdictOn cond verdict
        → (is_empty_verdict verdict ≡ true) ↔ ((symbol : Symbol) × IsWithoutValue cond symbol) }
{}

/// The least values give each constant formula, and each that is simple on a symbol of the
/// condition, the truth that it must have.
pub fn least_values_settle_simple_formulas()
    ensures { (cond : Condition) (values : List ℕ) → first_broken cond ≡ None → AreLeastValues cond values
        → list_all (holds_if_settled cond values) cond.entries ≡ true }
{
    path_formula::laws::a_constant_formula_has_one_truth();
    path_formula::laws::a_simple_formula_may_stand_alone();
}

/// Where no domain is empty, each symbol has a possible value.
pub fn each_symbol_of_filled_domains_has_a_value()
    ensures { (cond : Condition) (sets : List RangeSet) → AreDomainsOf cond sets → first_empty sets ≡ None
        → (s : Symbol) → s.0 < length cond.widths → (value : ℕ) × (is_possible cond s value ≡ true) }
{}

/// The domains of a condition may be met with a condition that has one formula more.
pub fn one_formula_more_may_be_met()
    ensures { (cond next : Condition) (last : Entry) (sets : List RangeSet)
        → next ≡ record cond { entries = cond.entries ++ last ∷ [] }
        → AreDomainsOf cond sets → AreDomainsBeforeLast next sets }
{}
