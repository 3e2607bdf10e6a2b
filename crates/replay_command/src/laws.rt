//! Laws of replays. Each is the contract of a function that does nothing.

ghost use Rattle.std.specs.Prelude.{◌≡◌, ℕ, List};
ghost use Rattle.net_check.specs.Network.{Entry, Network};
ghost use Rattle.command_edge.specs.Puts.{Outcome};
ghost use Rattle.replay_command.specs.Replays.{ReplayOf};
ghost use Rattle.replay_command.specs.Wholes.{WholeOf};

use path_replay::laws::one_answer_for_a_net;
use report_forms::laws::reports_have_their_form;
use whole_checks::laws::one_answer_for_whole_records;

/// What `replay` comes to of the bytes of a report is one thing: a text, or one refusal.
pub fn replays_have_one_outcome()
    ensures { (net : Network) (i : Entry) (bytes : List ℕ) (a b : Outcome) → ReplayOf net i bytes a
        → ReplayOf net i bytes b → a ≡ b }
{
    reports_have_their_form();
    one_answer_for_a_net();
}

/// What `replay` of all records comes to of the bytes of a report is one thing, too.
pub fn whole_replays_have_one_outcome()
    ensures { (net : Network) (i : Entry) (bytes : List ℕ) (a b : Outcome) → WholeOf net i bytes a
        → WholeOf net i bytes b → a ≡ b }
{
    reports_have_their_form();
    one_answer_for_whole_records();
}
