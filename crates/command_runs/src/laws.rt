//! What follows of texts, and of what a world tells. These functions do nothing: their contracts are the laws.

ghost use Rattle.std.specs.Prelude.{◌≡◌, ℕ, Bool, List, Some};
ghost use Rattle.std.specs.Str.{IsUtf8};
ghost use Rattle.sn_width.specs.declared.ids.Site.{Site};
ghost use Rattle.sefl_syntax.specs.JobText.{job_text};
ghost use Rattle.sefl_syntax.specs.Trees.{JobTree};
ghost use Rattle.sefl_reader.specs.Outcome.{IsSpellable};
ghost use Rattle.command_runs.specs.Inputs.{AllOpen, FirstFails, Given, Input, IsSettled};
ghost use Rattle.command_runs.specs.Jobs.{IsRefusedAt, IsTextOf};
ghost use Rattle.command_runs.specs.Outside.{World, world};
ghost use Rattle.command_runs.specs.Tables.{FirstUnfilled, IsFilled};
ghost use Rattle.command_edge.specs.declared.fault.InputFault.{InputFault};
ghost use Rattle.command_edge.specs.declared.fault.InputFault.TheVariants.{Refused};

use sefl_grammar::laws::canonical_text_is_read;
use table_files::laws::files_have_one_node;

/// The canonical text of a job that can be spelled with at most 64 constructs open at once is a text of that job.
pub fn canonical_texts_are_read()
    ensures { (j : JobTree) (bytes : List ℕ) → IsSpellable j → IsUtf8 bytes → bytes ≡ job_text j → IsTextOf j bytes }
{
    canonical_text_is_read();
}

/// A job is refused in one way: at one item, by one rule.
#[tactic(auto, using(crate::proofs::OnceLemmas::refused_once))]
pub fn jobs_are_refused_once()
    ensures { (j : JobTree) (a x : Site) (b y : ℕ) → IsRefusedAt j a b → IsRefusedAt j x y → Refused a b ≡ Refused x y }
{}

/// In a world the first input that is refused is refused in one way, where the world decides it; and then the inputs are
/// not all good. Where it is told what the patterns find, they are good in one way.
pub fn worlds_decide()
    ensures first { (w : World) (is : List Input) (f g : InputFault) → IsSettled w f → IsSettled w g
        → FirstFails (world w) tt is f tt → FirstFails (world w) tt is g tt → f ≡ g }
    ensures excludes { (w : World) (is : List Input) (given : List Given) (f : InputFault) → IsSettled w f
        → AllOpen (world w) tt is given tt → FirstFails (world w) tt is f tt → ⊥ }
    ensures all { (w : World) (is : List Input) (a b : List Given) (finds : List ℕ → List ℕ → Bool)
        → w.finds ≡ Some finds
        → AllOpen (world w) tt is a tt → AllOpen (world w) tt is b tt → a ≡ b }
{
    files_have_one_node();
}

/// In a world the tables of a job are filled in one way, or the first that has no node has none for one cause, where the world
/// decides it, and not both.
pub fn jobs_are_filled_once()
    ensures full { (w : World) (j a b : JobTree) → IsFilled (Some w.at) j a → IsFilled (Some w.at) j b → a ≡ b }
    ensures excludes { (w : World) (j full : JobTree) (f : InputFault) → IsSettled w f → IsFilled (Some w.at) j full
        → FirstUnfilled (Some w.at) j.net.nodes f → ⊥ }
    ensures first { (w : World) (j : JobTree) (f g : InputFault) → IsSettled w f → IsSettled w g
        → FirstUnfilled (Some w.at) j.net.nodes f → FirstUnfilled (Some w.at) j.net.nodes g → f ≡ g }
{
    files_have_one_node();
}
