//! Laws of larger bounds of hops. Each is the contract of a function that does nothing.

ghost use Rattle.std.specs.Prelude.{ℕ};
ghost use Rattle.sefl_meaning.specs.Network.{Network, Entry};
ghost use Rattle.hop_bounds.specs.Beyond.{RightAnswersGoBeyond, TruthGoesBeyond, UncutRecordsGoBeyond};

use exact_records::laws::{exact_records_show_each_walk, packets_take_routes};

/// Where no path was cut by the bound of hops, and nothing was left untried, each packet has the same walks under every larger
/// bound, and the records are exact for it.
pub fn uncut_records_go_beyond()
    ensures { (net : Network) (i : Entry) (hops : ℕ) → UncutRecordsGoBeyond net i hops }
{
    packets_take_routes();
    exact_records_show_each_walk();
}

/// What is true of a question is true under another bound where each packet has the same walks.
pub fn truth_goes_beyond()
    ensures { (net : Network) (i : Entry) (hops : ℕ) → TruthGoesBeyond net i hops }
{}

/// What is right of a question over such records is right under every larger bound.
pub fn right_answers_go_beyond()
    ensures { (net : Network) (i : Entry) (hops : ℕ) → RightAnswersGoBeyond net i hops }
{
    uncut_records_go_beyond();
}
