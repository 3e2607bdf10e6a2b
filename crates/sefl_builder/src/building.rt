//! Makes the job that the tokens of a text spell.

ghost use Rattle.std.specs.Prelude.{◌≡◌, All, IfOk, MatchOption};
ghost use Rattle.sefl_lex.specs.Reads.{IsTokenOf};
ghost use Rattle.sefl_syntax.specs.Trees.{JobTree};
ghost use Rattle.sefl_syntax.specs.Views.{job_tree};
ghost use Rattle.sefl_grammar.specs.Words.{words_of};
ghost use Rattle.sefl_builder.specs.Spelled.{IsMade, IsSpelled};
ghost use Rattle.sefl_builder.specs.Nets.{job};
ghost use Rattle.sefl_builder.specs.Pieces.{IsPieceOf, piece_words};

use crate::cursor::Cursor;
use crate::job::read_job;
use crate::misread::Misread;
use crate::piece::{Piece, pieces_of};
use sefl_lex::Token;
use sefl_syntax::Job;
use sn_width::NoMemory;
use std::alloc::Global;

/// The job that the reader finds.
fn found(alloc: Global, text: &str, pieces: &[Piece]) -> Result<Option<Job>, NoMemory>
    requires { All (IsPieceOf text.now) pieces.now }
    ensures { IfOk result (IsMade (job (piece_words text.now pieces.now))) }
{
    let mut words = Cursor::new(alloc, text, pieces)?;
    match read_job(&mut words) {
        Ok(job) => Ok(Some(job)),
        Err(Misread::Unexpected) => Ok(None),
        Err(Misread::NoMemory) => Err(NoMemory),
    }
}

/// The job that the tokens of the text spell, if they spell one with at most 64 constructs open at
/// once. Of other tokens nothing is said.
pub fn build(alloc: Global, text: &str, tokens: Vec<Token>) -> Result<Option<Job>, NoMemory>
    requires { All (IsTokenOf text.now) tokens.items }
    ensures { (j : JobTree) → IsSpelled j (words_of text.now tokens.items) →
        IfOk result (λ built. MatchOption built ⊥ (λ job. job_tree job ≡ j)) }
{
    let pieces = pieces_of(alloc, &tokens)?;
    drop(tokens);
    found(alloc, text, &pieces)
}
