//! Laws of grown jobs. Each is the contract of a function that does nothing.

ghost use Rattle.std.specs.Prelude.{◌≡◌, ℕ};
ghost use Rattle.net_check.specs.Network.{Entry, Network};
ghost use Rattle.command_edge.specs.Puts.{Outcome};
ghost use Rattle.grow_command.specs.Grows.{SummaryOf};

use one_list::laws::{alike_records_tell_the_same, exact_records_are_one};

/// What `grow` comes to of a job is one thing.
pub fn grown_jobs_have_one_outcome()
    ensures { (seed boxes : ℕ) (net : Network) (i : Entry) (a b : Outcome) → SummaryOf seed boxes net i a
        → SummaryOf seed boxes net i b → a ≡ b }
{
    alike_records_tell_the_same();
    exact_records_are_one();
}
