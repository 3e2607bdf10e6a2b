//! What stands at the front of a text.

ghost use Rattle.std.specs.Prelude.{◌≡◌, ◌==◌};
ghost use Rattle.sefl_lex.specs.Bytes.{begins, is_pair};
ghost use Rattle.sefl_lex.specs.Words.{begins_comment};
ghost use Rattle.sefl_lex.specs.Front.{front_of, name_front, number_front, text_front, sign_front};

use crate::bytes::{
    is_blank, is_decimal, is_name_start, is_pair, is_single, line_bytes, name_bytes, text_bytes,
};
use crate::number::value_of;
use crate::token::TokenKind;

/// The most bytes of a name.
pub const MOST_BYTES: usize = 64;

/// What stands at the front of a text. Counts are in bytes.
#[derive(Clone, Copy)]
pub enum Front {
    /// A blank or a comment.
    Gap(usize),
    /// A token.
    Word(TokenKind, usize),
    /// A byte that begins nothing.
    Stray,
    /// A name that goes on past its 64 bytes.
    LongName,
    /// A digit that begins no number.
    NoNumber,
    /// A quote that begins no text.
    NoText,
}

fn name_front(bytes: &[u8]) -> Front
    ensures { result ≡ name_front bytes.now }
{
    let count = name_bytes(bytes);
    if count <= MOST_BYTES {
        Front::Word(TokenKind::Name, count)
    } else {
        Front::LongName
    }
}

fn number_front(bytes: &[u8]) -> Front
    ensures { result ≡ number_front bytes.now }
{
    let (word, _) = bytes.split_at(name_bytes(bytes));
    match value_of(word) {
        Some(_) => Front::Word(TokenKind::Number, word.len()),
        None => Front::NoNumber,
    }
}

fn begins_quote(bytes: &[u8]) -> bool
    ensures { result ≡ begins (λ c. c == 34) bytes.now }
{
    matches!(bytes, [b'"', ..])
}

/// The front of a text that begins with a quote, from the rest of the text.
fn text_front(rest: &[u8]) -> Front
    ensures { result ≡ text_front rest.now }
{
    let (body, after) = rest.split_at(text_bytes(rest));
    if begins_quote(after) {
        Front::Word(TokenKind::Text, body.len() + 2)
    } else {
        Front::NoText
    }
}

fn begins_pair(first: u8, rest: &[u8]) -> bool
    ensures { result ≡ begins (is_pair first) rest.now }
{
    match rest {
        [] => false,
        [second, ..] => is_pair(first, *second),
    }
}

fn sign_front(first: u8, rest: &[u8]) -> Front
    ensures { result ≡ sign_front first rest.now }
{
    if begins_pair(first, rest) {
        Front::Word(TokenKind::Sign, 2)
    } else if is_single(first) {
        Front::Word(TokenKind::Sign, 1)
    } else {
        Front::Stray
    }
}

fn begins_comment(bytes: &[u8]) -> bool
    ensures { result ≡ begins_comment bytes.now }
{
    matches!(bytes, [b'/', b'/', ..])
}

/// What stands at the front of the bytes; there is at least one byte.
pub fn front_of(bytes: &[u8]) -> Front
    ensures { result ≡ front_of bytes.now }
{
    let Some((first, rest)) = bytes.split_first() else {
        return Front::Stray;
    };
    if is_blank(*first) {
        Front::Gap(1)
    } else if begins_comment(bytes) {
        Front::Gap(line_bytes(bytes))
    } else if is_name_start(*first) {
        name_front(bytes)
    } else if is_decimal(*first) {
        number_front(bytes)
    } else if *first == b'"' {
        text_front(rest)
    } else {
        sign_front(*first, rest)
    }
}
