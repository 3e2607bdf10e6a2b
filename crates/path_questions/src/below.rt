//! What the laws of the crates below say, of terms and formulas.

ghost use Rattle.std.specs.Prelude.{ℕ};
ghost use Rattle.sefl_meaning.specs.Network.{Entry, Network};
ghost use Rattle.path_questions.specs.Below.{Below};

use exact_records::laws::packets_take_routes;
use lin_term::Term;
use path_solver::laws::verdicts_on_trees_are_exact;
use refutation_check::laws::an_accepted_refutation_of_trees_refutes;
use sefl_meaning::laws::{
    expressions_keep, steps_keep, symbols_are_typed, valuing_commutes, walks_are_routes,
    widths_are_kept,
};
use sn_width::Num;
use term_values::Formulas;
use term_values::laws::{
    terms_keep_types, the_tests_of_fitting_terms, values_respect_the_operations,
};

pub(crate) fn below()
    ensures { (net : Network) (i : Entry) (hops : ℕ) → Below net i hops }
{
    verdicts_on_trees_are_exact();
    an_accepted_refutation_of_trees_refutes();
    packets_take_routes();
    walks_are_routes();
    values_respect_the_operations();
    valuing_commutes::<Term, Formulas, Num, bool>();
    widths_are_kept::<Term, Formulas>();
    expressions_keep::<Term, Formulas>();
    symbols_are_typed::<Term, Formulas>();
    terms_keep_types();
    the_tests_of_fitting_terms();
    steps_keep::<Term>();
}
