//! What one line of a table says.

use crate::flaw::Flaw;
use crate::piece::{Piece, piece_of};

#[derive(Clone, Copy)]
pub enum Line<'a> {
    /// A blank line, or a comment.
    Nothing,
    Text { name: &'a str },
    Row { name: &'a str },
    /// A line of a row.
    Item(Item<'a>),
    /// A line of a text, a file or an output.
    Piece(Piece<'a>),
}

#[derive(Clone, Copy)]
pub enum Item<'a> {
    Words(&'a str),
    Word(&'a str),
    File { name: &'a str },
    FailingLoad { number: u64 },
    FailingPut { number: u64, kept: usize },
    Bad { pattern: &'a str },
    Finds { name: &'a str, pattern: &'a str },
    Status(u8),
    Error(&'a str),
    Output,
}

/// What the line says.
pub fn line_of(line: &str) -> Result<Line<'_>, Flaw> {
    if line.is_empty() || line.starts_with('#') {
        return Ok(Line::Nothing);
    }
    let (key, rest) = cut(line);
    match key {
        "text" => Ok(Line::Text {
            name: name_of(rest)?,
        }),
        "row" => Ok(Line::Row {
            name: name_of(rest)?,
        }),
        "|" | ":" | "=" | "bytes" | "from" | "times" => Ok(Line::Piece(piece_of(key, rest)?)),
        _ => Ok(Line::Item(item_of(key, rest)?)),
    }
}

fn item_of<'a>(key: &'a str, rest: &'a str) -> Result<Item<'a>, Flaw> {
    match key {
        "words" => Ok(Item::Words(rest)),
        "word" => Ok(Item::Word(rest)),
        "file" => Ok(Item::File {
            name: name_of(rest)?,
        }),
        "failing" => failing_of(rest),
        "bad" => Ok(Item::Bad { pattern: rest }),
        "finds" => finds_of(rest),
        "status" => status_of(rest),
        "error" => Ok(Item::Error(rest)),
        "output" if rest.is_empty() => Ok(Item::Output),
        _ => Err(Flaw::Unknown),
    }
}

/// What stands before the first blank, and what stands behind it.
pub fn cut(text: &str) -> (&str, &str) {
    text.split_once(' ').unwrap_or((text, ""))
}

fn name_of(rest: &str) -> Result<&str, Flaw> {
    if rest.is_empty() {
        return Err(Flaw::NoName);
    }
    Ok(rest)
}

/// A number in decimal digits.
pub fn number_of(text: &str) -> Result<u64, Flaw> {
    match text.as_bytes() {
        [b'0'..=b'9', ..] => text.parse::<u64>().map_err(|_| Flaw::BadNumber),
        _ => Err(Flaw::BadNumber),
    }
}

/// `failing load NUMBER` or `failing put NUMBER keeps COUNT`
fn failing_of(rest: &str) -> Result<Item<'_>, Flaw> {
    let (call, rest) = cut(rest);
    let (number, rest) = cut(rest);
    let number = number_of(number)?;
    match (call, cut(rest)) {
        ("load", ("", "")) => Ok(Item::FailingLoad { number }),
        ("put", ("keeps", kept)) => Ok(Item::FailingPut {
            number,
            kept: number_of(kept)? as usize,
        }),
        _ => Err(Flaw::Unknown),
    }
}

/// `finds NAME PATTERN`
fn finds_of(rest: &str) -> Result<Item<'_>, Flaw> {
    let (name, pattern) = cut(rest);
    Ok(Item::Finds {
        name: name_of(name)?,
        pattern,
    })
}

fn status_of(rest: &str) -> Result<Item<'_>, Flaw> {
    let number = number_of(rest)?;
    if number > 255 {
        return Err(Flaw::BadNumber);
    }
    Ok(Item::Status(number as u8))
}
