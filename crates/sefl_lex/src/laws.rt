//! Laws of the reading of texts, each the contract of a function that does nothing.

ghost use Rattle.std.specs.Prelude.{◌≡◌, ℕ, List, Result};
ghost use Rattle.sefl_lex.specs.declared.fault.LexFault.{LexFault};
ghost use Rattle.sefl_lex.specs.declared.token.Token.{Token};
ghost use Rattle.sefl_lex.specs.Reads.{IsReadAs};

/// A text is read as one answer alone: one list of tokens, or one fault.
#[tactic(auto, using(crate::proofs::Reading::one_answer))]
pub fn one_reading()
    ensures { (text : List ℕ) (answer other : Result (List Token) LexFault) →
        IsReadAs text answer → IsReadAs text other → answer ≡ other }
{}
