//! Laws of answers. Each is the contract of a function that does nothing.

ghost use Rattle.std.specs.Prelude.{◌≡◌, ◌≤◌, ℕ, List};
ghost use Rattle.sefl_syntax.specs.Trees.{AskTree};
ghost use Rattle.net_check.specs.Network.{Entry, Network};
ghost use Rattle.command_edge.specs.Puts.{Outcome, refused};
ghost use Rattle.command_edge.specs.declared.fault.OwnFault.{OwnFault};
ghost use Rattle.hop_bounds.specs.Beyond.{AllUncut, HasSameWalks};
ghost use Rattle.command_edge.specs.declared.ending.Ending.{Ending as EndingOf};
ghost use Rattle.ask_command.specs.Asks.{AnswersOf, IsAnswersText};
ghost use Rattle.ask_command.specs.Beyond.{AreTrueReplies};

use explore_command::laws::explorations_have_one_ending;
use hop_bounds::laws::truth_goes_beyond;
use one_list::laws::right_answers_are_one;

/// Where a question is refused, `ask` comes to that refusal alone: to no text, and to no refusal of another question.
#[tactic(auto, using(crate::proofs::OnceLemmas::refused_alone))]
pub fn refused_questions_are_told_alone()
    ensures { (hops limit : ℕ) (net : Network) (i : Entry) (asks : List AskTree) (fault : OwnFault) (other : Outcome)
        → AnswersOf hops limit net i asks (refused fault) → AnswersOf hops limit net i asks other
        → other ≡ refused fault }
{}

/// Where no record was cut by the bound of hops, and nothing was left untried, the text is one of right answers under every
/// larger bound.
pub fn answers_over_uncut_records_hold_beyond()
    ensures { (hops limit : ℕ) (net : Network) (i : Entry) (asks : List AskTree) (ending : EndingOf) (whole : List ℕ)
        → (answers : IsAnswersText hops limit net i asks ending whole) → AllUncut answers.records → (more : ℕ)
        → hops ≤ more
        → IsAnswersText more limit net i asks ending whole }
{}

/// Where each packet has the same walks under another bound of hops, the answers are true under that bound.
pub fn answers_stay_true_where_walks_are_the_same()
    ensures { (hops limit : ℕ) (net : Network) (i : Entry) (asks : List AskTree) (ending : EndingOf) (whole : List ℕ)
        → (answers : IsAnswersText hops limit net i asks ending whole) → (more : ℕ) → HasSameWalks net i hops more
        → AreTrueReplies net i more answers.records answers.questions answers.replies }
{
    truth_goes_beyond();
}

/// What `ask` comes to of a job is one thing: a text, or one refusal.
pub fn answers_have_one_outcome()
    ensures { (hops limit : ℕ) (net : Network) (i : Entry) (asks : List AskTree) (a b : Outcome)
        → AnswersOf hops limit net i asks a → AnswersOf hops limit net i asks b → a ≡ b }
{
    explorations_have_one_ending();
    right_answers_are_one();
}
