//! A file that there is not.

use crate::statement::quoted_at;
use fault_places::fault_text;
use sefl_lex::tokens;
use sefl_reader::position;
use std::alloc::{AllocError, Global};

/// What is said of a file that the words name.
const OF_WORDS: &str = "a name is looked for from the folder in which the program runs";

/// What is said of a table's file.
const OF_JOB: &str =
    "the file of a table is looked for from the folder in which the program runs, not from that of the job";

/// What is shown of the place at which a job names a file, if it does.
fn naming(alloc: Global, job: &str, bytes: &[u8], name: &str) -> Option<Vec<u8>> {
    let text = str::from_utf8(bytes).ok()?;
    let tokens = tokens(alloc, text).ok()?;
    let at = quoted_at(text, &tokens, name)?;
    let (line, column) = position(bytes, at);
    fault_text(alloc, job, bytes, line, column).ok()?
}

fn with_place(alloc: Global, place: &[u8]) -> Option<String> {
    let place = str::from_utf8(place).ok()?;
    let said: Result<String, AllocError> = format!(in alloc; "{place}\n{OF_JOB}");
    said.ok()
}

/// What is said of a file that there is not: where a job names it, and where it is looked for.
pub(crate) fn absent_text(alloc: Global, job: &str, bytes: &[u8], name: &str) -> Option<String> {
    with_place(alloc, &naming(alloc, job, bytes, name)?)
}

/// The same of a file that the words name.
pub(crate) fn absent_word_text(alloc: Global) -> Option<String> {
    String::from_str(alloc, OF_WORDS).ok()
}
