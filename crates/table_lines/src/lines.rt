//! Lines, and files that are read line by line.

ghost use Rattle.std.specs.Prelude.{◌≡◌, ◌<◌, [], ◌∷◌, length, ℕ, List, Result, IfSome, IfNone, OnErr};
ghost use Rattle.table_lines.specs.Lines.{lines, without_return};
ghost use Rattle.table_lines.specs.Reading.{Leaves, read_from};
ghost use Rattle.table_lines.specs.declared.fault.TableFault.{TableFault};

use crate::fault::TableFault;
use crate::pieces::{Separator, next_piece};

/// The bytes without a CR at their end.
fn without_return(line: &[u8]) -> &[u8]
    ensures { result.now ≡ without_return line.now }
{
    let Some((last, front)) = line.split_last() else {
        return line;
    };
    if *last == b'\r' {
        return front;
    }
    line
}

/// The first line, and what stands behind its line feed, if it has one.
fn next_line(bytes: &[u8]) -> (&[u8], Option<&[u8]>)
    ensures last { IfNone result.1 (lines bytes.now ≡ result.0.now ∷ []) }
    ensures more { IfSome result.1 (λ rest. lines bytes.now ≡ result.0.now ∷ lines rest.now) }
    ensures shorter { IfSome result.1 (λ rest. length rest.now < length bytes.now) }
{
    let (line, behind) = next_piece(bytes, Separator::LineFeed);
    match behind {
        Some(rest) => (without_return(line), Some(rest)),
        None => (line, None),
    }
}

/// A reader of lines, with what it has read so far as its state.
pub trait LineReader {
    /// What it makes of a line, by the line's number.
    ghost step: { Self → ℕ → List ℕ → Result Self TableFault };

    /// Reads a line. A refusal changes nothing.
    fn take(&mut self, line: u64, text: &[u8]) -> Result<(), TableFault>
        ensures leaves { Leaves (step self.old line text.now) result self.new }
        ensures kept { OnErr result (self.new ≡ self.old) };
}

/// Reads all lines of a text, up to the first that has a fault.
pub fn read_lines<R: LineReader>(bytes: &[u8], reader: &mut R) -> Result<(), TableFault>
    ensures { Leaves (read_from R.step 1 reader.old (lines bytes.now)) result reader.new }
{
    let mut left = bytes;
    let mut number: u64 = 1;
    loop {
        let (line, rest) = next_line(left);
        reader.take(number, line)?;
        let Some(rest) = rest else {
            return Ok(());
        };
        left = rest;
        number += 1;
    }
}
