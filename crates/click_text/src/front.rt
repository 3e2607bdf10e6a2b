//! What stands at the front of a text.

ghost use Rattle.std.specs.Prelude.{◌≡◌, ◌==◌, ◌≤◌, length};
ghost use Rattle.sefl_lex.specs.Bytes.{begins};
ghost use Rattle.click_text.specs.Fronts.{gap, word, front_of, name_front, slash_front, arguments_front, single, sign_front};

use crate::bytes::{is_blank, is_decimal, name_bytes};
use crate::comment::{Mode, arguments_end, comment_end};
use crate::token::TokenKind;
use sefl_lex::is_name_start;

/// The most bytes of a name.
const MOST_BYTES: usize = 64;

/// What stands at the front of a text.
#[derive(Clone, Copy)]
pub(crate) struct Front {
    /// None where it is a blank or a comment.
    pub token: Option<TokenKind>,
    /// How many bytes it has behind its first one.
    pub more: usize,
}

fn gap(more: usize) -> Front
    ensures { result ≡ gap more }
{
    Front { token: None, more }
}

fn word(kind: TokenKind, more: usize) -> Front
    ensures { result ≡ word kind more }
{
    Front {
        token: Some(kind),
        more,
    }
}

fn name_front(rest: &[u8]) -> Front
    ensures front { result ≡ name_front rest.now }
    ensures within { result.more ≤ length rest.now }
{
    let more = name_bytes(rest);
    if more < MOST_BYTES {
        word(TokenKind::Name, more)
    } else {
        word(TokenKind::Stray, 0)
    }
}

/// The front of a text that begins with a slash.
fn slash_front(rest: &[u8]) -> Front
    ensures front { result ≡ slash_front rest.now }
    ensures within { result.more ≤ length rest.now }
{
    match rest {
        [] => word(TokenKind::Stray, 0),
        [second, inside @ ..] => {
            if *second == b'/' {
                gap(comment_end(Mode::Line, inside) + 1)
            } else if *second == b'*' {
                gap(comment_end(Mode::Block, inside) + 1)
            } else {
                word(TokenKind::Stray, 0)
            }
        }
    }
}

fn arguments_front(rest: &[u8]) -> Front
    ensures front { result ≡ arguments_front rest.now }
    ensures within { result.more ≤ length rest.now }
{
    match arguments_end(rest) {
        Some(more) => word(TokenKind::Arguments, more),
        None => word(TokenKind::OpenArguments, rest.len()),
    }
}

/// The sign of one byte.
fn single(byte: u8) -> TokenKind
    ensures { result ≡ single byte }
{
    if byte == b'[' {
        TokenKind::OpenPort
    } else if byte == b']' {
        TokenKind::ClosePort
    } else if byte == b';' {
        TokenKind::Semicolon
    } else {
        TokenKind::Stray
    }
}

fn begins_greater(bytes: &[u8]) -> bool
    ensures { result ≡ begins (λ c. c == 62) bytes.now }
{
    matches!(bytes, [b'>', ..])
}

fn begins_colon(bytes: &[u8]) -> bool
    ensures { result ≡ begins (λ c. c == 58) bytes.now }
{
    matches!(bytes, [b':', ..])
}

fn sign_front(first: u8, rest: &[u8]) -> Front
    ensures front { result ≡ sign_front first rest.now }
    ensures within { result.more ≤ length rest.now }
{
    if first == b'-' && begins_greater(rest) {
        return word(TokenKind::Arrow, 1);
    }
    if first == b':' && begins_colon(rest) {
        return word(TokenKind::Colons, 1);
    }
    word(single(first), 0)
}

/// What stands at the front of a text, by its first byte and those that follow.
pub(crate) fn front_of(first: u8, rest: &[u8]) -> Front
    ensures front { result ≡ front_of first rest.now }
    ensures within { result.more ≤ length rest.now }
{
    if is_blank(first) {
        gap(0)
    } else if is_name_start(first) {
        name_front(rest)
    } else if is_decimal(first) {
        word(TokenKind::Number, name_bytes(rest))
    } else if first == b'/' {
        slash_front(rest)
    } else if first == b'(' {
        arguments_front(rest)
    } else {
        sign_front(first, rest)
    }
}
