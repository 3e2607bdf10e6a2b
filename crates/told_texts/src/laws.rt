//! Laws of the texts that commands write: each tells what it is of. Each is the contract of a function that does nothing.

ghost use Rattle.std.specs.Prelude.{◌≡◌, ℕ, List, map};
ghost use Rattle.std.specs.List.{AllByRecursion};
ghost use Rattle.sefl_syntax.specs.Trees.{AskTree};
ghost use Rattle.sefl_meaning.specs.Walks.{Trail};
ghost use Rattle.net_check.specs.Network.{Entry, Network};
ghost use Rattle.command_edge.specs.declared.ending.Ending.{Ending as EndingOf};
ghost use Rattle.command_edge.specs.declared.ending.Ending.TheVariants.{Done};
ghost use Rattle.queries.specs.Answers.{Reply};
ghost use Rattle.ask_command.specs.Asks.{IsAnswersText};
ghost use Rattle.ask_command.specs.Texts.{answers_text};
ghost use Rattle.compare_meaning.specs.Comparing.{Comparison};
ghost use Rattle.compare_command.specs.Texts.{Cuts, compared_text, partial_text};
ghost use Rattle.grow_command.specs.Grows.{AreCounts};
ghost use Rattle.grow_command.specs.Summary.{summary_text};
ghost use Rattle.grow_command.specs.declared.counts.Counts.{Counts as CountsOf};
ghost use Rattle.loop_meaning.specs.declared.answer.LoopAnswer.{LoopAnswer as LoopAnswerOf};
ghost use Rattle.loops_command.specs.Texts.{loops_text};
ghost use Rattle.loops_command.specs.declared.text.OpenPaths.{OpenPaths as OpenPathsOf};
ghost use Rattle.record_checks.specs.declared.counts.Confirmed.{Confirmed as ConfirmedOf};
ghost use Rattle.replay_command.specs.Counted.{confirmed_text};
ghost use Rattle.walk_command.specs.WalkTexts.{walks_text};
ghost use Rattle.told_texts.specs.Compared.{ComparisonFits, CutsFit};
ghost use Rattle.told_texts.specs.Loops.{FoundFits, loops_told};
ghost use Rattle.told_texts.specs.Ranges.{AllBelow, AllFit, ConfirmedFits, CountsFit, SummaryFits, numbers_of};
ghost use Rattle.told_texts.specs.Walks.{WalkFits, walk_told};

use report_names::laws::places_are_found;
use run_text::json_laws::lines_are_read;

/// The text of answers tells them: two lists of answers that differ have different texts. So what `ask` wrote is the text of one list
/// of answers, whatever job it was asked of.
pub fn answers_are_told()
    ensures texts { (a b : List Reply) → AllFit a → AllFit b → answers_text a ≡ answers_text b → a ≡ b }
    ensures jobs { (hops limit more most : ℕ) (net other : Network) (i j : Entry) (asks others : List AskTree)
        (ending last : EndingOf) (whole : List ℕ)
        → (a : IsAnswersText hops limit net i asks ending whole)
        → (b : IsAnswersText more most other j others last whole)
        → AllFit a.replies → AllFit b.replies → a.replies ≡ b.replies }
{
    lines_are_read();
}

/// The text of a summary of `grow` tells the seed, the number of boxes and each count.
pub fn summaries_are_told()
    ensures { (seed boxes again more : ℕ) (a b : CountsOf) → SummaryFits seed boxes a → SummaryFits again more b
        → summary_text seed boxes a ≡ summary_text again more b → (seed ≡ again) × (boxes ≡ more) × (a ≡ b) }
{
    lines_are_read();
}

/// The text of `replay` tells each count of confirmed records.
pub fn confirmed_counts_are_told()
    ensures { (a b : ConfirmedOf) → ConfirmedFits a → ConfirmedFits b → confirmed_text a ≡ confirmed_text b → a ≡ b }
{
    lines_are_read();
}

/// The text of a comparison tells it, and how many paths are cut where they are counted; it is not the text that says that some
/// decision was not tried.
pub fn comparisons_are_told()
    ensures texts { (k m : Cuts) (a b : Comparison) → CutsFit k → CutsFit m → ComparisonFits a → ComparisonFits b
        → compared_text k a ≡ compared_text m b → (k ≡ m) × (a ≡ b) }
    ensures whole { (k : Cuts) (a : Comparison) → CutsFit k → ComparisonFits a → compared_text k a ≡ partial_text → ⊥ }
{
    lines_are_read();
}

/// The text of loops tells each loop, and each path without one: the number of its record and, where they are written, its earlier visits,
/// each with why it shows no loop.
pub fn loops_are_told()
    ensures { (detail : OpenPathsOf) (a b : List (ℕ × LoopAnswerOf)) → FoundFits a → FoundFits b
        → loops_text detail a ≡ loops_text detail b
        → loops_told detail a ≡ loops_told detail b }
{
    lines_are_read();
}

/// The text of walks through a net tells them: of each what was decided, where it was, how it ended, and what the packet carries then.
pub fn walks_are_told()
    ensures { (net : Network) (a b : List Trail) → AllByRecursion (WalkFits net) a → AllByRecursion (WalkFits net) b
        → walks_text net a ≡ walks_text net b → map walk_told a ≡ map walk_told b }
{
    lines_are_read();
    places_are_found();
}

/// The numbers of records that answers name are below the limit of the words, where no decision was left untried.
pub fn whole_answers_name_few_records()
    ensures { (hops limit : ℕ) (net : Network) (i : Entry) (asks : List AskTree) (whole : List ℕ)
        → (a : IsAnswersText hops limit net i asks Done whole)
        → AllByRecursion (λ reply. AllBelow limit (numbers_of reply)) a.replies }
{}

/// The counts of a summary of `grow` have 64 bits, where no decision was left untried.
pub fn whole_summaries_have_low_counts()
    ensures { (net : Network) (i : Entry) (counts : CountsOf) → AreCounts net i Done counts → CountsFit counts }
{}
