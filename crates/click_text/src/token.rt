//! The tokens of a configuration.

ghost use Rattle.std.specs.Prelude.{◌≡◌, ◌+◌, ◌≤◌, ◌<◌, ◌^◌, [], ◌∷◌, length, IfSome, IfNone};
ghost use Rattle.click_text.specs.Tokens.{seen, tokens_from};

use crate::comment::line_behind;
use crate::front::front_of;

/// What a token is.
#[derive(Clone, Copy)]
pub(crate) enum TokenKind {
    /// A letter or `_`, then letters, digits and `_`: 64 bytes at most.
    Name,
    /// A digit, then letters, digits and `_`: it need not be a number.
    Number,
    /// `->`
    Arrow,
    /// `::`
    Colons,
    /// `[`
    OpenPort,
    /// `]`
    ClosePort,
    Semicolon,
    /// Parentheses with what stands between them.
    Arguments,
    /// A parenthesis that is not closed, with all that follows it.
    OpenArguments,
    /// A byte that begins no token, or a name that is too long.
    Stray,
    /// The end of the text.
    End,
}

/// A token with the line that it begins in. Lines count from 1.
#[derive(Clone, Copy)]
pub(crate) struct Token<'a> {
    pub kind: TokenKind,
    pub line: u64,
    pub word: &'a [u8],
}

/// The first token of the bytes, which begin in the line `line`, and what follows it with its line;
/// nothing follows the end.
pub(crate) fn next_token(bytes: &[u8], line: u64) -> (Token<'_>, Option<(&[u8], u64)>)
    requires room { line + length bytes.now < 2 ^ 64 }
    ensures last { IfNone result.1 (tokens_from line bytes.now ≡ seen result.0 ∷ []) }
    ensures more { IfSome result.1 (λ behind. tokens_from line bytes.now
        ≡ seen result.0 ∷ tokens_from behind.1 behind.0.now) }
    ensures shorter { IfSome result.1 (λ behind. length behind.0.now < length bytes.now) }
    ensures lines { IfSome result.1 (λ behind. behind.1 + length behind.0.now ≤ line + length bytes.now) }
{
    let mut left = bytes;
    let mut number = line;
    loop {
        let Some((first, rest)) = left.split_first() else {
            let end = Token {
                kind: TokenKind::End,
                line: number,
                word: left,
            };
            return (end, None);
        };
        let front = front_of(*first, rest);
        let (word, behind) = left.split_at(front.more + 1);
        let next = line_behind(number, word);
        if let Some(kind) = front.token {
            let token = Token {
                kind,
                line: number,
                word,
            };
            return (token, Some((behind, next)));
        }
        left = behind;
        number = next;
    }
}
