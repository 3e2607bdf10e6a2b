//! What holds of all refutations. Each is the contract of a function that has nothing to do.

ghost use Rattle.std.specs.Prelude.{◌≡◌, ℕ, false, List, [], ◌∷◌, ◌++◌};
ghost use Rattle.path_formula.specs.View.{view};
ghost use Rattle.path_cond.specs.Conditions.{AllTyped, Condition, holds_at};
ghost use Rattle.path_cond.specs.Seen.{itself};
ghost use Rattle.path_formula.specs.Bounds.{Case};
ghost use Rattle.refutation_check.specs.Accepted.{Advances, IsAccepted, Reaches, Refutes};
ghost use Rattle.refutation_check.specs.Longer.{ConstantsAreFree, LeastStay, WidenFreely};
ghost use Rattle.refutation_check.specs.Trees.{AcceptedRefute, IsJudgedByTrees};
ghost use Rattle.refutation_check.specs.declared.steps.Refute.{Refute as Step};

use path_formula::case_laws::{
    a_member_of_a_formula_that_has_its_truth_has_its_own,
    bounds_before_cases_are_met_with_one_of_them,
    one_case_is_met_exactly_where_the_formula_has_the_truth,
    one_range_is_met_exactly_where_the_value_passes,
};
use path_formula::laws::{
    a_constant_formula_has_one_truth, a_simple_formula_has_a_known_symbol,
    a_simple_formula_may_stand_alone,
};

/// Where a refutation is accepted, no values make the condition true.
pub fn an_accepted_refutation_refutes()
    ensures { (cond : Condition) (steps : List Step) (values : List ℕ)
        → AllTyped cond.widths cond.entries → IsAccepted cond steps → holds_at cond values ≡ false }
{
    a_simple_formula_may_stand_alone();
    one_range_is_met_exactly_where_the_value_passes();
    one_case_is_met_exactly_where_the_formula_has_the_truth();
    a_member_of_a_formula_that_has_its_truth_has_its_own();
    bounds_before_cases_are_met_with_one_of_them();
}

/// The same of a condition of trees.
pub fn an_accepted_refutation_of_trees_refutes()
    ensures { AcceptedRefute itself }
{
    a_simple_formula_may_stand_alone();
    one_range_is_met_exactly_where_the_value_passes();
    one_case_is_met_exactly_where_the_formula_has_the_truth();
    a_member_of_a_formula_that_has_its_truth_has_its_own();
    bounds_before_cases_are_met_with_one_of_them();
}

/// Steps may be read one after another: a step that is right where they lead to goes on from there.
pub fn one_step_more_goes_on()
    ensures { (cond : Condition) (before middle after : List Case) (steps : List Step) (step : Step)
        → Reaches cond before steps middle → Advances cond middle step after
        → Reaches cond before (steps ++ step ∷ []) after }
{}

/// Steps that leave no alternative refute those that they begin with.
pub fn steps_that_leave_nothing_refute()
    ensures { (cond : Condition) (before : List Case) (steps : List Step)
        → Reaches cond before steps [] → Refutes cond before steps }
{}

/// Refutations of alternatives may be joined.
pub fn refutations_join()
    ensures { (cond : Condition) (firsts seconds : List Case) (steps more : List Step)
        → Refutes cond firsts steps → Refutes cond seconds more
        → Refutes cond (firsts ++ seconds) (steps ++ more) }
{}

/// What is said of a condition is said of the trees of its formulas, and the other way.
pub fn a_condition_is_judged_by_its_trees()
    ensures { (cond : Condition) → IsJudgedByTrees view cond }
{}

/// What stays where a condition has more formulas, or more symbols: least values that satisfy the further formulas.
pub fn least_values_stay()
    ensures formulas { LeastStay view }
    ensures trees { LeastStay itself }
{}

/// Symbols that no formula has change no verdict; they are 0 in the least values.
pub fn symbols_that_no_formula_has_change_nothing()
    ensures formulas { WidenFreely view }
    ensures trees { WidenFreely itself }
{
    a_simple_formula_has_a_known_symbol();
}

/// A constant formula that has the truth that it must have changes no verdict.
pub fn a_true_constant_changes_no_verdict()
    ensures formulas { ConstantsAreFree view }
    ensures trees { ConstantsAreFree itself }
{
    a_constant_formula_has_one_truth();
}
