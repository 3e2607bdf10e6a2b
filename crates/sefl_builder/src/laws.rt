//! Laws of spelling, each the contract of a function that does nothing.

ghost use Rattle.std.specs.Prelude.{◌≡◌, List};
ghost use Rattle.sefl_syntax.specs.Trees.{JobTree};
ghost use Rattle.sefl_grammar.specs.Word.{AreWords, Word};
ghost use Rattle.sefl_builder.specs.Spelled.{IsSpelled};

/// Words spell one job at most, with at most 64 constructs open at once.
pub fn one_job()
    ensures { (words : List Word) (j k : JobTree) →
        AreWords words → IsSpelled j words → IsSpelled k words → j ≡ k }
{}
