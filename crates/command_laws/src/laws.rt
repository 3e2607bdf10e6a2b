//! Laws of what commands say of one job. Each is the contract of a function that does nothing.

ghost use Rattle.std.specs.Prelude.{◌≡◌, ℕ, List};
ghost use Rattle.net_check.specs.Network.{Entry, Network};
ghost use Rattle.exact_records.specs.View.{record_trees};
ghost use Rattle.path_records.specs.declared.sides.RefutedSides.TheVariants.{Written};
ghost use Rattle.record_checks.specs.Counts.{counts_of};
ghost use Rattle.command_edge.specs.Puts.{Outcome, text};
ghost use Rattle.command_edge.specs.declared.ending.Ending.{Ending as EndingOf};
ghost use Rattle.command_edge.specs.declared.ending.Ending.TheVariants.{Done, Partial};
ghost use Rattle.explore_command.specs.Explores.{IsReport};
ghost use Rattle.explore_command.specs.Headline.{MayBeShown};
ghost use Rattle.replay_command.specs.Counted.{confirmed_text};
ghost use Rattle.replay_command.specs.Replays.{ReplayOf};
ghost use Rattle.replay_command.specs.Wholes.{WholeOf};
ghost use Rattle.command_laws.specs.Cases.{AllCasesAreTried};
ghost use Rattle.command_laws.specs.Following.{HitsAreFollowed, PathsAreFollowed};

use explore_command::laws::reports_are_read_back;
use one_list::laws::{alike_records_tell_the_same, exact_records_are_one};
use path_replay::laws::one_answer_for_a_net;
use replay_command::laws::whole_replays_have_one_outcome;
use whole_checks::laws::{chains_show_walks, exact_records_are_chains};

/// What `explore` wrote of a job with its refuted sides, whole or partial, `replay` of that job confirms: it comes to the counts
/// of these records, and to nothing else.
pub fn replays_confirm_what_explore_wrote()
    ensures { (hops limit : ℕ) (net : Network) (i : Entry) (ending : EndingOf) (whole : List ℕ) (outcome : Outcome)
        → MayBeShown i.most_choices hops limit
        → (report : IsReport hops limit Written net i ending whole) → ReplayOf net i whole outcome
        → outcome ≡ text Done (confirmed_text (counts_of (record_trees report.records))) }
{
    reports_are_read_back();
    one_answer_for_a_net();
}

/// What `explore` wrote whole of a job with its refuted sides, `replay` of that job confirms with `--records whole`, too: it comes to the
/// counts of these records, and to nothing else. Of a report that is partial it comes to no counts.
pub fn whole_replays_confirm_what_explore_wrote()
    ensures whole { (hops limit : ℕ) (net : Network) (i : Entry) (whole : List ℕ) (outcome : Outcome)
        → MayBeShown i.most_choices hops limit
        → (report : IsReport hops limit Written net i Done whole) → WholeOf net i whole outcome
        → outcome ≡ text Done (confirmed_text (counts_of (record_trees report.records))) }
    ensures partial { (hops limit : ℕ) (net : Network) (i : Entry) (ending : EndingOf) (whole line : List ℕ)
        → MayBeShown i.most_choices hops limit → IsReport hops limit Written net i Partial whole
        → WholeOf net i whole (text ending line) → ⊥ }
{
    reports_are_read_back();
    chains_show_walks();
    exact_records_are_chains();
    whole_replays_have_one_outcome();
}

/// Two reports that `explore` wrote of one job with its refuted sides, by the same hops and limit, have the same counts: `replay` of
/// that job comes to one text of both.
pub fn replays_of_one_job_count_alike()
    ensures counts { (hops limit : ℕ) (net : Network) (i : Entry) (one other : EndingOf) (whole line : List ℕ)
        → (report : IsReport hops limit Written net i one whole)
        → (again : IsReport hops limit Written net i other line)
        → counts_of (record_trees report.records) ≡ counts_of (record_trees again.records) }
    ensures replays { (hops limit : ℕ) (net : Network) (i : Entry) (one other : EndingOf) (whole line : List ℕ)
        (a b : Outcome)
        → MayBeShown i.most_choices hops limit → IsReport hops limit Written net i one whole
        → IsReport hops limit Written net i other line
        → ReplayOf net i whole a → ReplayOf net i line b → a ≡ b }
{
    replays_confirm_what_explore_wrote();
    alike_records_tell_the_same();
    exact_records_are_one();
}

/// What `walk` writes of the packet that a path carries has a walk along that path, with the same hops.
pub fn walks_follow_paths()
    ensures { (net : Network) (i : Entry) (hops : ℕ) → PathsAreFollowed net i hops }
{}

/// What `walk` writes of the packet that answers a question of `ask` has a walk along the path that showed the answer.
pub fn walks_follow_hits()
    ensures { (net : Network) (i : Entry) (hops : ℕ) → HitsAreFollowed net i hops }
{}

/// Where the bound on choices of cases is the greatest, as `--cases all` sets it, no path is undecided for their number, and neither
/// is what stands before a refuted side.
#[tactic(auto, using(crate::proofs::AllCases::all_cases_are_tried))]
pub fn all_cases_are_tried()
    ensures { AllCasesAreTried }
{}
