//! The pieces that make the texts of a table.

ghost use Rattle.std.specs.Prelude.{◌<◌, IfSome};

use crate::flaw::Flaw;
use crate::line::{cut, number_of};
use std::alloc::{AllocError, Global};
use std::fs;
use std::rt::Files;

/// The most bytes that a text, a file or an output of a table may have.
const TEXT_LIMIT: u64 = 268_435_456;

/// A piece of a text, put a number of times.
#[derive(Clone, Copy)]
pub struct Piece<'a> {
    times: u64,
    part: Part<'a>,
}

#[derive(Clone, Copy)]
enum Part<'a> {
    /// A line, with the line feed at its end.
    Line(&'a str),
    /// The beginning of a line, or a further part of it.
    Open(&'a str),
    /// Bytes by their hexadecimal digits.
    Bytes(&'a str),
    /// The text with this name.
    Named(&'a str),
    /// The file at this path.
    File(&'a str),
}

/// A text, or a file, under its name.
pub type Named = (String, Vec<u8>);

/// The empty text of this name.
pub fn empty_text(alloc: Global, name: &str) -> Result<Named, AllocError> {
    Ok((String::from_str(alloc, name)?, Vec::new(alloc)))
}

pub fn piece_of<'a>(key: &'a str, rest: &'a str) -> Result<Piece<'a>, Flaw> {
    if key != "times" {
        return part_of(key, rest).map(|part| Piece { times: 1, part });
    }
    let (times, rest) = cut(rest);
    let times = number_of(times)?;
    let (key, rest) = cut(rest);
    part_of(key, rest).map(|part| Piece { times, part })
}

fn part_of<'a>(key: &'a str, rest: &'a str) -> Result<Part<'a>, Flaw> {
    match key {
        "|" => Ok(Part::Line(rest)),
        ":" => Ok(Part::Open(rest)),
        "bytes" => Ok(Part::Bytes(rest)),
        "=" => Ok(Part::Named(rest)),
        "from" => Ok(Part::File(rest)),
        _ => Err(Flaw::Unknown),
    }
}

impl Piece<'_> {
    /// Puts the piece behind the text.
    pub fn put<R: Files + AllocGlobal>(
        &self,
        rt: &R,
        texts: &[Named],
        text: &mut Vec<u8>,
    ) -> Result<(), Flaw> {
        let once = self.part.bytes(rt, texts)?;
        put_times(&once, self.times, text)
    }
}

impl Part<'_> {
    fn bytes<R: Files + AllocGlobal>(&self, rt: &R, texts: &[Named]) -> Result<Vec<u8>, Flaw> {
        let alloc = rt.alloc();
        match self {
            Part::Line(line) => {
                let mut bytes = line.as_bytes().to_vec(alloc)?;
                bytes.push(b'\n')?;
                Ok(bytes)
            }
            Part::Open(part) => Ok(part.as_bytes().to_vec(alloc)?),
            Part::Bytes(digits) => bytes_of(alloc, digits),
            Part::Named(name) => match find_text(texts, name) {
                Some(bytes) => Ok(bytes.to_vec(alloc)?),
                None => Err(Flaw::NoSuchText),
            },
            Part::File(path) => file_bytes(rt, path),
        }
    }
}

/// The bytes of the file at this path.
fn file_bytes<R: Files + AllocGlobal>(rt: &R, path: &str) -> Result<Vec<u8>, Flaw> {
    match fs::read(rt, path) {
        Ok(bytes) => Ok(bytes),
        Err(_) => Err(Flaw::NoSuchFile),
    }
}

/// The bytes of the text with this name.
pub fn find_text<'a>(texts: &'a [Named], name: &str) -> Option<&'a [u8]> {
    for (own_name, bytes) in texts {
        if own_name.as_str() == name {
            return Some(bytes.as_slice());
        }
    }
    None
}

fn put_times(once: &[u8], times: u64, text: &mut Vec<u8>) -> Result<(), Flaw> {
    let added = times.saturating_mul(once.len() as u64);
    let length = added.saturating_add(text.len() as u64);
    if length > TEXT_LIMIT {
        return Err(Flaw::TooLong);
    }
    match once {
        [] => Ok(()),
        // A file of as many zeros as the program's limit is made at once.
        [byte] => Ok(text.resize(length as usize, *byte)?),
        _ => put_each(once, times, text),
    }
}

fn put_each(once: &[u8], times: u64, text: &mut Vec<u8>) -> Result<(), Flaw> {
    for _ in 0..times {
        text.extend_from_slice(once)?;
    }
    Ok(())
}

fn bytes_of(alloc: Global, digits: &str) -> Result<Vec<u8>, Flaw> {
    let mut bytes = Vec::new(alloc);
    for pair in digits.split(' ') {
        bytes.push(byte_of(pair)?)?;
    }
    Ok(bytes)
}

fn byte_of(pair: &str) -> Result<u8, Flaw> {
    let [high, low] = pair.as_bytes() else {
        return Err(Flaw::BadBytes);
    };
    match (digit_of(*high), digit_of(*low)) {
        (Some(high), Some(low)) => Ok(high * 16 + low),
        _ => Err(Flaw::BadBytes),
    }
}

fn digit_of(byte: u8) -> Option<u8>
    ensures { IfSome result (λ digit. digit < 16) }
{
    if byte.is_ascii_digit() {
        return Some(byte - b'0');
    }
    if byte >= b'a' && byte <= b'f' {
        return Some(byte - b'a' + 10);
    }
    None
}
