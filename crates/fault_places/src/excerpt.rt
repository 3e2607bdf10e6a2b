//! A line of a file with a caret below a place in it.

ghost use Rattle.std.specs.Prelude.{◌≡◌, ◌≤◌, ◌++◌, length, map, take, drop, replicate, option_map, IfOk, OnOk, IfSome};
ghost use Rattle.fault_places.specs.Excerpts.{caret_below, fault_text, place_in, place_text, points, points_width, shown_byte, shown_line};

use crate::line::{is_blank, line_of};
use sn_width::NoMemory;
use std::alloc::Global;

/// The most bytes of a line that are shown.
pub const MOST_SHOWN: usize = 100;

/// The most of them that stand before the place.
pub const MOST_BEFORE: usize = 60;

/// The byte as it is shown: each blank as a space, and what is no printable ASCII as a question mark.
fn shown_byte(byte: u8) -> u8
    ensures { result ≡ shown_byte byte }
{
    if is_blank(byte) {
        b' '
    } else if 32 <= byte && byte < 127 {
        byte
    } else {
        b'?'
    }
}

fn put_shown(out: &mut Vec<u8>, bytes: &[u8]) -> Result<(), NoMemory>
    ensures { OnOk result (out.new.items ≡ out.old.items ++ map shown_byte bytes.now) }
{
    for byte in bytes {
        out.push(shown_byte(*byte))?;
    }
    Ok(())
}

fn put_blanks(out: &mut Vec<u8>, count: usize) -> Result<(), NoMemory>
    ensures { OnOk result (out.new.items ≡ out.old.items ++ replicate count 32) }
{
    for _ in 0..count {
        out.push(b' ')?;
    }
    Ok(())
}

/// Puts two points where something is left out.
fn put_points(out: &mut Vec<u8>, is_cut: bool) -> Result<(), NoMemory>
    ensures { OnOk result (out.new.items ≡ out.old.items ++ points is_cut) }
{
    if is_cut {
        out.push(b'.')?;
        out.push(b'.')?;
    }
    Ok(())
}

/// The bytes from the first that is shown on, as many as are shown.
fn window(line: &[u8], first: usize) -> &[u8]
    requires { first ≤ length line.now }
    ensures { result.now ≡ take MOST_SHOWN (drop first line.now) }
{
    let rest = line.split_at(first).1;
    if rest.len() <= MOST_SHOWN {
        rest
    } else {
        rest.split_at(MOST_SHOWN).0
    }
}

/// Puts the part of the line round the place, with points where the line goes on.
#[tactic(auto, unfolding(crate::specs::Excerpts::shown_line))]
fn put_line(out: &mut Vec<u8>, line: &[u8], at: usize) -> Result<(), NoMemory>
    requires { at ≤ length line.now }
    ensures { OnOk result (out.new.items ≡ out.old.items ++ shown_line line.now at) }
{
    let first = at.saturating_sub(MOST_BEFORE);
    put_points(out, 0 < first)?;
    put_shown(out, window(line, first))?;
    put_points(out, MOST_SHOWN < line.len() - first)?;
    out.push(b'\n')?;
    Ok(())
}

/// How wide the points are.
fn points_width(is_cut: bool) -> usize
    ensures { result ≡ points_width is_cut }
{
    if is_cut { 2 } else { 0 }
}

/// Puts a caret below the place.
#[tactic(auto, unfolding(crate::specs::Excerpts::caret_below))]
fn put_caret(out: &mut Vec<u8>, at: usize) -> Result<(), NoMemory>
    ensures { OnOk result (out.new.items ≡ out.old.items ++ caret_below at) }
{
    let first = at.saturating_sub(MOST_BEFORE);
    put_blanks(out, points_width(0 < first))?;
    put_blanks(out, at - first)?;
    out.push(b'^')?;
    Ok(())
}

/// Puts the name of the file, the line and the column.
#[tactic(auto, unfolding(crate::specs::Excerpts::place_text))]
fn put_place(
    alloc: Global,
    out: &mut Vec<u8>,
    name: &str,
    line: u64,
    column: u64,
) -> Result<(), NoMemory>
    ensures { OnOk result (out.new.items ≡ out.old.items ++ (map shown_byte name.now ++ place_text line column)) }
{
    put_shown(out, name.as_bytes())?;
    let place = format!(in alloc; ":{line}:{column}:\n")?;
    out.extend_from_slice(place.as_bytes())?;
    Ok(())
}

/// The place of a column, from 1, in the line; the line's end is one too. None where there is no such column.
fn place_in(line: &[u8], column: u64) -> Option<usize>
    ensures place { result ≡ place_in line.now column }
    ensures within { IfSome result (λ at. at ≤ length line.now) }
{
    if column == 0 {
        return None;
    }
    if (line.len() as u64) < column - 1 {
        return None;
    }
    Some((column - 1) as usize)
}

/// What is shown of a place in a file: its name, the line and the column, both from 1, columns in bytes; the line, or the
/// part of it round the place; and a caret below it. None where the file has no such place.
pub fn fault_text(
    alloc: Global,
    name: &str,
    bytes: &[u8],
    number: u64,
    column: u64,
) -> Result<Option<Vec<u8>>, NoMemory>
    ensures { IfOk result (λ text. option_map (λ t. t.items) text ≡ fault_text name.now bytes.now number column) }
{
    let Some(line) = line_of(bytes, number) else {
        return Ok(None);
    };
    let Some(at) = place_in(line, column) else {
        return Ok(None);
    };
    let mut out = Vec::new(alloc);
    put_place(alloc, &mut out, name, number, column)?;
    put_line(&mut out, line, at)?;
    put_caret(&mut out, at)?;
    Ok(Some(out))
}
