//! Laws of the grammar, each the contract of a function that does nothing.

ghost use Rattle.std.specs.Prelude.{◌≡◌, List};
ghost use Rattle.sefl_syntax.specs.Trees.{JobTree};
ghost use Rattle.sefl_grammar.specs.Grammar.{IsJob};
ghost use Rattle.sefl_grammar.specs.Word.{AreShallow, AreWords, Placed, bare};
ghost use Rattle.sefl_grammar.specs.Words.{IsReadBack};

/// The canonical text of a job that some words spell, with at most 64 constructs open at once, is
/// read as tokens that spell the same job, with at most 64 open.
pub fn canonical_text_is_read()
    ensures { (j : JobTree) (placed : List Placed) →
        IsJob j placed → AreWords (bare placed) → AreShallow placed → IsReadBack j }
{}

/// The words of a job have one nesting.
pub fn one_nesting()
    ensures { (j i : JobTree) (placed other : List Placed) →
        IsJob j placed → IsJob i other → AreWords (bare placed) → bare placed ≡ bare other → placed ≡ other }
{}
