//! What differs between how a run ended and how it was to end.

use crate::row::Ending;
use std::alloc::{AllocError, Global};

/// How many bytes are shown before the first that differs, and how many from it on.
const BEFORE: usize = 40;

const BEHIND: usize = 120;

/// A line for each part that differs.
pub fn differences(
    alloc: Global,
    wanted: &Ending,
    came: &Ending,
) -> Result<Vec<String>, AllocError> {
    let mut lines = Vec::new(alloc);
    if wanted.status != came.status {
        let (wanted, came) = (wanted.status, came.status);
        lines.push(format!(in alloc; "status: wanted {wanted}, came {came}")?)?;
    }
    if wanted.error.as_str() != came.error.as_str() {
        let (wanted, came) = (&wanted.error, &came.error);
        lines.push(format!(in alloc; "error: wanted {wanted:?}, came {came:?}")?)?;
    }
    if wanted.output.as_slice() != came.output.as_slice() {
        lines.push(output_line(alloc, &wanted.output, &came.output)?)?;
    }
    Ok(lines)
}

/// The line for outputs that differ.
fn output_line(alloc: Global, wanted: &[u8], came: &[u8]) -> Result<String, AllocError> {
    let at = common_length(wanted, came);
    let wanted = excerpt(alloc, wanted, at)?;
    let came = excerpt(alloc, came, at)?;
    format!(in alloc; "output from byte {at} on: wanted {wanted}, came {came}")
}

/// How many first bytes are the same.
fn common_length(a: &[u8], b: &[u8]) -> usize {
    a.iter().zip(b).take_while(|(x, y)| x == y).count()
}

/// What stands round the place, in quotes, with a sign for each line feed.
fn excerpt(alloc: Global, bytes: &[u8], at: usize) -> Result<String, AllocError> {
    let text = String::from_utf8_lossy(alloc, around(bytes, at))?;
    let text = text.replace(alloc, "\n", "\\n")?;
    format!(in alloc; "'{text}'")
}

/// The bytes shortly before the place, and those from it on.
fn around(bytes: &[u8], at: usize) -> &[u8] {
    let end = at.saturating_add(BEHIND).min(bytes.len());
    let start = at.saturating_sub(BEFORE).min(end);
    &bytes[start..end]
}
