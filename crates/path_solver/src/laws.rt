//! What holds of all decisions. Each is the contract of a function that has nothing to do.

ghost use Rattle.std.specs.Prelude.{◌≡◌, ◌↔◌, ◌⊎◌, ℕ, true, List, length};
ghost use Rattle.path_cond.specs.Conditions.{AllTyped, Condition, Entry, holds_at};
ghost use Rattle.path_cond.specs.Seen.{itself};
ghost use Rattle.refutation_check.specs.Decisions.{IsMetBy, IsUndecidedBy, IsLicensed, IsRefuted};
ghost use Rattle.refutation_check.specs.Least.{AreFitting};
ghost use Rattle.refutation_check.specs.declared.outcome.Cause.{Cause as CauseOf};
ghost use Rattle.refutation_check.specs.Longer.{with_entries, with_widths};
ghost use Rattle.path_solver.specs.Bases.{HasValues, IsBaseOf, broken_in};
ghost use Rattle.path_solver.specs.declared.base.Base.{Base as BaseOf};
ghost use Rattle.path_solver.specs.Decisions.{IsDecisionOn, IsSat, IsUnsat, IsUndecided, IsSettled, IsInFragment, HasNoInside, HasLeastValues};
ghost use Rattle.path_solver.specs.Judged.{AreExact};
ghost use Rattle.path_solver.specs.declared.decision.Decided.{Decided as Decision};

use crate::below::facts;

/// The values that meet a condition fit, and make it true.
pub fn the_values_of_a_met_condition_make_it_true()
    ensures { (cond : Condition) (values : List ℕ) → IsMetBy cond values
        → AreFitting cond.widths values × (holds_at cond values ≡ true) }
{}

/// The cause by which a condition is undecided may be given.
pub fn the_cause_of_an_undecided_condition_may_be_given()
    ensures { (cond : Condition) (cause : CauseOf) → IsUndecidedBy cond cause → IsLicensed cond cause }
{}

/// Each condition is refuted, undecided or met.
pub fn each_condition_is_refuted_undecided_or_met()
    ensures { (cond : Condition) → IsRefuted cond
        ⊎ (((cause : CauseOf) × IsUndecidedBy cond cause) ⊎ ((values : List ℕ) × IsMetBy cond values)) }
{}

/// No condition is two of refuted, undecided and met.
pub fn no_condition_is_two_of_refuted_undecided_and_met()
    ensures undecided { (cond : Condition) (cause : CauseOf)
        → IsRefuted cond → IsUndecidedBy cond cause → ⊥ }
    ensures met { (cond : Condition) (values : List ℕ) → IsRefuted cond → IsMetBy cond values → ⊥ }
    ensures either { (cond : Condition) (cause : CauseOf) (values : List ℕ)
        → IsUndecidedBy cond cause → IsMetBy cond values → ⊥ }
{
    facts();
}

/// The same of conditions of trees: each is exactly one of refuted, undecided and met, and what these three say holds.
pub fn verdicts_on_trees_are_exact()
    ensures { AreExact itself }
{
    facts();
}

/// A decision is Sat with some values exactly where the condition is met by these.
pub fn sat_exactly_where_met()
    ensures { (cond : Condition) (decision : Decision) (values : List ℕ)
        → IsDecisionOn cond decision → IsSat values decision ↔ IsMetBy cond values }
{
    facts();
}

/// A decision is Unsat exactly where the condition is refuted.
pub fn unsat_exactly_where_refuted()
    ensures { (cond : Condition) (decision : Decision) → AllTyped cond.widths cond.entries
        → IsDecisionOn cond decision → IsUnsat decision ↔ IsRefuted cond }
{
    facts();
}

/// A decision is Undecided by some cause exactly where the condition is undecided by this.
pub fn undecided_exactly_where_undecided()
    ensures { (cond : Condition) (decision : Decision) (cause : CauseOf)
        → IsDecisionOn cond decision → IsUndecided cause decision ↔ IsUndecidedBy cond cause }
{
    facts();
}

/// A decision is Sat or Unsat where each formula is constant, simple or inside and the limits are kept, and where each is
/// constant or simple.
pub fn settled_in_the_fragment()
    ensures { (cond : Condition) (decision : Decision)
        → IsDecisionOn cond decision → IsInFragment cond → IsSettled decision }
{}

/// Where no formula is inside, a decision has the least possible value of each symbol, or is Unsat.
pub fn simple_conditions_have_the_least_values()
    ensures { (cond : Condition) (decision : Decision) → AllTyped cond.widths cond.entries
        → IsDecisionOn cond decision → HasNoInside cond → HasLeastValues cond decision }
{
    facts();
}

/// The least values that a decision of a condition has, the outside formula that they break, and the number of its formulas are a
/// base of it.
pub fn the_values_of_a_decision_are_a_base()
    ensures { (cond : Condition) (decision : Decision) (base : BaseOf) → AllTyped cond.widths cond.entries
        → IsDecisionOn cond decision → HasValues base.least decision → broken_in decision ≡ base.broken
        → base.formulas ≡ length cond.entries → IsBaseOf cond base }
{}

/// A base of a condition is one of the condition with more symbols, and with more formulas.
pub fn a_base_stays_one()
    ensures symbols { (cond : Condition) (base : BaseOf) (widths : List ℕ)
        → IsBaseOf cond base → IsBaseOf (with_widths cond widths) base }
    ensures formulas { (cond : Condition) (base : BaseOf) (more : List Entry)
        → IsBaseOf cond base → IsBaseOf (with_entries cond more) base }
{}
