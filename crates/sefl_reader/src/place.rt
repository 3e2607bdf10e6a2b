//! Lines and columns of a text.

ghost use Rattle.std.specs.Prelude.{◌≡◌, ◌≤◌, length, take, All};
ghost use Rattle.sefl_lex.specs.Reads.{IsTokenOf};
ghost use Rattle.sefl_reader.specs.Outcome.{column_at, in_line, line_at, line_ends, start_of};

use sefl_lex::Token;

/// How many lines end in the bytes.
fn line_ends(bytes: &[u8]) -> usize
    ensures count { result ≡ line_ends bytes.now }
    ensures within { result ≤ length bytes.now }
{
    let mut count = 0;
    for byte in bytes {
        if *byte == b'\n' {
            count += 1;
        }
    }
    count
}

/// How many bytes stand behind the last line's end.
fn in_line(bytes: &[u8]) -> usize
    ensures count { result ≡ in_line 0 bytes.now }
    ensures within { result ≤ length bytes.now }
{
    let mut count = 0;
    for byte in bytes {
        count = if *byte == b'\n' { 0 } else { count + 1 };
    }
    count
}

/// The line and the column of a byte, both from 1, columns in bytes; lines end at LF. A place behind
/// the bytes counts as their end.
pub fn position(bytes: &[u8], at: u64) -> (u64, u64)
    ensures line { result.0 ≡ line_at bytes.now at }
    ensures column { result.1 ≡ column_at bytes.now at }
{
    let at = within(bytes, at);
    (line_at(bytes, at), column_at(bytes, at))
}

/// The place, or the end of the bytes where that comes first.
#[tactic(auto, using(crate::proofs::PlaceLemmas::take_behind))]
fn within(bytes: &[u8], at: u64) -> usize
    ensures within { result ≤ length bytes.now }
    ensures front { take result bytes.now ≡ take at bytes.now }
{
    if at < bytes.len() as u64 {
        at as usize
    } else {
        bytes.len()
    }
}

/// The line of the byte, from 1; the end of the bytes has a place too.
pub(crate) fn line_at(bytes: &[u8], at: usize) -> u64
    requires { at ≤ length bytes.now }
    ensures { result ≡ line_at bytes.now at }
{
    line_ends(&bytes[..at]) as u64 + 1
}

/// The column of the byte, from 1.
pub(crate) fn column_at(bytes: &[u8], at: usize) -> u64
    requires { at ≤ length bytes.now }
    ensures { result ≡ column_at bytes.now at }
{
    in_line(&bytes[..at]) as u64 + 1
}

/// The first byte of a token, or the end of the text behind the last one.
pub(crate) fn start_of(text: &str, tokens: &[Token], place: usize) -> usize
    requires { All (IsTokenOf text.now) tokens.now }
    ensures start { result ≡ start_of text.now tokens.now place }
    ensures within { result ≤ length text.now }
{
    match tokens.get(place) {
        Some(token) => token.start as usize,
        None => text.len(),
    }
}
