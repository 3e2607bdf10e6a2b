//! Laws of questions. Each is the contract of a function that does nothing.

ghost use Rattle.std.specs.Prelude.{ℕ};
ghost use Rattle.sefl_meaning.specs.Network.{Entry, Network};
ghost use Rattle.path_questions.specs.Laws.{FormulasAreTyped, KeptIsRight};

use crate::below::below;

/// Over exact records, what is kept of a question is right: a hit has the values of a packet that meets the injection, one of
/// whose walks has the path's decisions and shows the answer; and where there is no hit and no record leaves the question open,
/// no walk shows it.
pub fn kept_outcomes_are_right()
    ensures { (net : Network) (i : Entry) (hops : ℕ) → KeptIsRight net i hops }
{
    below();
}

/// The formulas of a question on a path are over the symbols of the path's condition.
pub fn the_formulas_of_questions_are_typed()
    ensures { (net : Network) (i : Entry) (hops : ℕ) → FormulasAreTyped net i hops }
{
    below();
}
