//! What is said of a status for people: the lines that the program shows on standard error. Nothing is claimed of it.

use caller_edge::GivenFiles;
use command_runs::Status;
use fault_places::{is_plain, place_text, plain_text};
use fault_words::reason_text;
use regex_patterns::RegexPatterns;
use std::alloc::{AllocError, Global};

fn add_line(text: &mut Vec<u8>, line: &str) -> Result<(), AllocError> {
    text.extend_from_slice(line.as_bytes())?;
    text.push(b'\n')?;
    Ok(())
}

/// Adds the status itself, as a terminal may show it.
fn add_status(alloc: Global, text: &mut Vec<u8>, status: &Status) -> Result<(), AllocError> {
    if is_plain(status) {
        add_line(text, &status.to_string(alloc)?)
    } else {
        add_line(text, &plain_text(alloc, status)?)
    }
}

/// Adds the place that the status blames: the file, the line and the column, the line, and a caret below it.
fn add_place(
    alloc: Global,
    text: &mut Vec<u8>,
    words: &[String],
    status: &Status,
    folder: &mut GivenFiles,
) -> Result<(), AllocError> {
    let mut patterns = RegexPatterns::new();
    let Some(bytes) = place_text(alloc, words, status, folder, &mut patterns) else {
        return Ok(());
    };
    match str::from_utf8(&bytes) {
        Ok(place) => add_line(text, place),
        Err(_) => Ok(()),
    }
}

/// Adds what the status says in words.
fn add_reason(
    alloc: Global,
    text: &mut Vec<u8>,
    words: &[String],
    status: &Status,
    folder: &mut GivenFiles,
) -> Result<(), AllocError> {
    let mut patterns = RegexPatterns::new();
    match reason_text(alloc, words, status, folder, &mut patterns) {
        Some(reason) => add_line(text, &reason),
        None => Ok(()),
    }
}

fn add_all(
    alloc: Global,
    text: &mut Vec<u8>,
    words: &[String],
    status: &Status,
    folder: &mut GivenFiles,
) -> Result<(), AllocError> {
    add_status(alloc, text, status)?;
    add_place(alloc, text, words, status, folder)?;
    add_reason(alloc, text, words, status, folder)
}

/// What is said of the status of these words over these files; nothing of Done. For want of memory the rest is left out.
pub(crate) fn message_of(
    alloc: Global,
    words: &[String],
    status: &Status,
    folder: &mut GivenFiles,
) -> Vec<u8> {
    let mut text = Vec::new(alloc);
    match status {
        Status::Done => {}
        _ => {
            let _ = add_all(alloc, &mut text, words, status, folder);
        }
    }
    text
}
