//! The words of a line.

ghost use Rattle.std.specs.Prelude.{◌≡◌, ◌<◌, [], ◌∷◌, IfSome, IfNone};
ghost use Rattle.std.specs.List.{list_all};
ghost use Rattle.table_lines.specs.Words.{is_ascii_byte, before_comment, words};

use crate::pieces::{Separator, next_piece};

/// Whether each byte is an ASCII character.
pub fn is_ascii(bytes: &[u8]) -> bool
    ensures { result ≡ list_all is_ascii_byte bytes.now }
{
    bytes.iter().all(|byte| *byte < 128)
}

/// What stands before a comment, if there is one.
pub fn before_comment(bytes: &[u8]) -> &[u8]
    ensures { result.now ≡ before_comment bytes.now }
{
    next_piece(bytes, Separator::NumberSign).0
}

/// What stands behind a piece; nothing, where it is the last.
fn rest_of(behind: Option<&[u8]>) -> &[u8]
    ensures some { IfSome behind.entry (λ rest. result.now ≡ rest.now) }
    ensures none { IfNone behind.entry (result.now ≡ []) }
{
    match behind {
        Some(rest) => rest,
        None => &[],
    }
}

/// The first word, and what follows it; None exactly where there is no word.
pub fn next_word(bytes: &[u8]) -> Option<(&[u8], &[u8])>
    ensures some { IfSome result (λ next. words bytes.now ≡ next.0.now ∷ words next.1.now) }
    ensures none { IfNone result (words bytes.now ≡ []) }
{
    let mut left = bytes;
    loop {
        let (piece, behind) = next_piece(left, Separator::Blank);
        if !piece.is_empty() {
            return Some((piece, rest_of(behind)));
        }
        let Some(rest) = behind else {
            return None;
        };
        left = rest;
    }
}
