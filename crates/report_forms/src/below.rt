//! What the laws of the crates below say, of names and of widths.

ghost use Rattle.net_check.specs.Network.{Entry, Network};
ghost use Rattle.report_forms.specs.Below.{Below};

use lin_term::Term;
use sefl_meaning::laws::symbols_are_typed;
use sefl_meaning::starts::ids_are_the_nets_own;
use term_values::Formulas;
use term_values::laws::{terms_keep_types, the_tests_of_fitting_terms};

pub(crate) fn names_and_widths()
    ensures { (net : Network) (i : Entry) → Below net i }
{
    ids_are_the_nets_own::<Term, Formulas>();
    symbols_are_typed::<Term, Formulas>();
    terms_keep_types();
    the_tests_of_fitting_terms();
}
