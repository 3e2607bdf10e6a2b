//! What a line of a table file says.

ghost use Rattle.std.specs.Prelude.{◌≡◌, bytes_eq, codes};
ghost use Rattle.table_lines.specs.Contents.{header_of, row_of, two_words, words_say, content_of};
ghost use Rattle.table_lines.specs.Words.{words};

use crate::address::key_of;
use crate::number::plain_number;
use crate::words::{before_comment, is_ascii, next_word};
use sefl_syntax::TableKind;

/// The most ports of a node.
const MOST_PORTS: u32 = 1024;

/// What a line says.
#[derive(Clone, Copy)]
pub(crate) enum Content {
    /// Nothing, or a comment alone.
    Skipped,
    Bad,
    /// How many ports there are.
    Ports(u32),
    /// An address, with how many of its bits count, and a port.
    Row((u64, u32), u32),
}

fn header_of(number: Option<u32>) -> Content
    ensures { result ≡ header_of number }
{
    let Some(ports) = number else {
        return Content::Bad;
    };
    if 1 <= ports && ports <= MOST_PORTS {
        Content::Ports(ports)
    } else {
        Content::Bad
    }
}

fn row_of(key: Option<(u64, u32)>, port: Option<u32>) -> Content
    ensures { result ≡ row_of key port }
{
    let Some(key) = key else {
        return Content::Bad;
    };
    match port {
        Some(port) => Content::Row(key, port),
        None => Content::Bad,
    }
}

fn is_header(word: &[u8]) -> bool
    ensures { result ≡ bytes_eq word.now (codes "ports") }
{
    word == "ports".as_bytes()
}

fn two_words(kind: TableKind, first: &[u8], second: &[u8]) -> Content
    ensures { result ≡ two_words kind first.now second.now }
{
    if is_header(first) {
        return header_of(plain_number(second));
    }
    row_of(key_of(kind, first), plain_number(second))
}

/// What the words of a line say.
fn words_say(kind: TableKind, line: &[u8]) -> Content
    ensures { result ≡ words_say kind (words line.now) }
{
    let Some((first, rest)) = next_word(line) else {
        return Content::Skipped;
    };
    let Some((second, rest)) = next_word(rest) else {
        return Content::Bad;
    };
    if next_word(rest).is_some() {
        return Content::Bad;
    }
    two_words(kind, first, second)
}

/// What the line says.
pub(crate) fn content_of(kind: TableKind, line: &[u8]) -> Content
    ensures { result ≡ content_of kind line.now }
{
    if !is_ascii(line) {
        return Content::Bad;
    }
    words_say(kind, before_comment(line))
}
