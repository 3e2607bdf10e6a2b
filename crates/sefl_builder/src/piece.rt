//! Tokens in half the room, for the time in which the job is made.

ghost use Rattle.std.specs.Prelude.{◌≡◌, map, IfOk};
ghost use Rattle.sefl_builder.specs.Pieces.{piece, token};

use sefl_lex::{Token, TokenKind};
use sn_width::NoMemory;
use std::alloc::Global;

/// A token of a text below 4 GB: its bytes are those of the text from `start` to before `end`.
#[derive(Clone, Copy)]
pub(crate) struct Piece {
    pub(crate) kind: TokenKind,
    start: u32,
    end: u32,
}

/// The piece of a token. A text past 4 GB is taken for one that there is no memory for.
fn piece_of(token: Token) -> Result<Piece, NoMemory>
    ensures { IfOk result (λ made. made ≡ piece token) }
{
    let Ok(start) = u32::try_from(token.start) else {
        return Err(NoMemory);
    };
    let Ok(end) = u32::try_from(token.end) else {
        return Err(NoMemory);
    };
    Ok(Piece {
        kind: token.kind,
        start,
        end,
    })
}

/// The pieces of tokens.
pub(crate) fn pieces_of(alloc: Global, tokens: &[Token]) -> Result<Vec<Piece>, NoMemory>
    ensures { IfOk result (λ pieces. pieces.items ≡ map piece tokens.now) }
{
    let mut pieces = Vec::with_capacity(alloc, tokens.len())?;
    for token in tokens {
        pieces.push(piece_of(*token)?)?;
    }
    Ok(pieces)
}

impl Piece {
    /// The token that it is of.
    pub(crate) fn token(self) -> Token
        ensures { result ≡ token self }
    {
        Token {
            kind: self.kind,
            start: u64::from(self.start),
            end: u64::from(self.end),
        }
    }
}
