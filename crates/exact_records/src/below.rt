//! What the laws of the crates below say, of terms and formulas.

ghost use Rattle.exact_records.specs.Below.{Facts, Meanings};

use lin_term::Term;
use path_solver::laws::verdicts_on_trees_are_exact;
use refutation_check::laws::{
    an_accepted_refutation_of_trees_refutes, symbols_that_no_formula_has_change_nothing,
};
use sefl_meaning::laws::{routes_commute, routes_compose, walks_are_routes};
use sefl_meaning::starts::injections_have_a_start;
use sn_width::Num;
use term_values::Formulas;
use term_values::laws::values_respect_the_operations;

// Of verdicts on conditions, and of routes.
pub(crate) fn facts()
    ensures { Facts }
{
    verdicts_on_trees_are_exact();
    an_accepted_refutation_of_trees_refutes();
    symbols_that_no_formula_has_change_nothing();
    routes_compose::<Term, Formulas>();
}

// Of the walks of packets.
pub(crate) fn meanings()
    ensures { Meanings }
{
    injections_have_a_start::<Term, Formulas, Num, bool>();
    values_respect_the_operations();
    routes_commute::<Term, Formulas, Num, bool>();
    walks_are_routes();
}
