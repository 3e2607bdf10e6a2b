//! Laws of lists of records that are exact for one job. Each is the contract of a function that does nothing.

ghost use Rattle.std.specs.Prelude.{◌≡◌, ℕ};
ghost use Rattle.path_cond.specs.Seen.{itself};
ghost use Rattle.refutation_check.specs.Seen.{IsRefuted};
ghost use Rattle.refutation_check.specs.declared.outcome.Verdict.{Verdict as VerdictOf};
ghost use Rattle.exact_records.specs.Records.{IsVerdictOn, SymCondition};
ghost use Rattle.sefl_meaning.specs.Network.{Network, Entry};
ghost use Rattle.one_list.specs.Same.{ExploredRecordsAreOne, RecordsAreOne};
ghost use Rattle.one_list.specs.Told.{AlikeTellTheSame, RightAnswersAreOne};

use lin_term::Term;
use path_solver::laws::verdicts_on_trees_are_exact;
use refutation_check::laws::symbols_that_no_formula_has_change_nothing;
use sefl_meaning::laws::routes_compose;
use term_values::Formulas;

/// A condition has one verdict, and none where it is refuted.
pub fn verdicts_are_one()
    ensures one { (c : SymCondition) (a b : VerdictOf) → IsVerdictOn c a → IsVerdictOn c b → a ≡ b }
    ensures unrefuted { (c : SymCondition) (a : VerdictOf) → IsVerdictOn c a → IsRefuted itself c → ⊥ }
{
    verdicts_on_trees_are_exact();
}

/// Two lists of records that are exact of what is explored, for one limit, are the same, except for their refutations.
pub fn explored_records_are_one()
    ensures { (net : Network) (i : Entry) (hops : ℕ) → ExploredRecordsAreOne net i hops }
{
    verdicts_on_trees_are_exact();
    symbols_that_no_formula_has_change_nothing();
    routes_compose::<Term, Formulas>();
}

/// Two lists of records that are exact for one net, injection, hops and limit are the same, except for their refutations.
pub fn exact_records_are_one()
    ensures { (net : Network) (i : Entry) (hops : ℕ) → RecordsAreOne net i hops }
{
    explored_records_are_one();
}

/// Such lists have as many records, and as many of each kind, end and verdict; nothing was left in the one where nothing was left
/// in the other.
pub fn alike_records_tell_the_same()
    ensures { AlikeTellTheSame }
{}

/// A question has one right answer over the records that are exact for one net, injection, hops and limit.
pub fn right_answers_are_one()
    ensures { (net : Network) (i : Entry) (hops : ℕ) → RightAnswersAreOne net i hops }
{
    verdicts_on_trees_are_exact();
    exact_records_are_one();
}
