//! Which place a status blames, and what is shown of it.

use crate::jobs::{blamed_job, names_job};
use crate::{Sought, fault_text, indent_of, line_of, own_number, statement_start};
use command_edge::load_text;
use command_runs::{Status, load_job};
use sefl_lex::tokens;
use sefl_reader::{position, read_job};
use sefl_syntax::{Job, is_filled};
use sn_edge::{Folder, Patterns};
use std::alloc::Global;

fn loaded<F: Folder>(alloc: Global, name: &str, folder: &mut F) -> Option<Vec<u8>> {
    load_text(alloc, name, folder).ok()
}

/// The first byte of a statement of a job's text.
pub fn statement_at(alloc: Global, bytes: &[u8], sought: Sought, number: u64) -> Option<u64> {
    let text = str::from_utf8(bytes).ok()?;
    let tokens = tokens(alloc, text).ok()?;
    statement_start(text, &tokens, sought, number)
}

/// What is shown of the line in which a statement of a job begins.
fn statement_text(
    alloc: Global,
    name: &str,
    bytes: &[u8],
    sought: Sought,
    number: u64,
) -> Option<Vec<u8>> {
    let at = statement_at(alloc, bytes, sought, number)?;
    let (line, column) = position(bytes, at);
    fault_text(alloc, name, bytes, line, column).ok()?
}

/// The number in the text of a job of the item that has this site in that job with code for its tables.
fn number_in_text<F: Folder>(
    alloc: Global,
    name: &str,
    job: &Job,
    site: u32,
    folder: &mut F,
) -> Option<u32> {
    let filled = load_job(alloc, name, folder).ok()?;
    let number = own_number(site, &job.net.nodes, &filled.net.nodes).ok();
    drop(filled);
    number
}

/// The number in the text of the item that has this site in the job with code for its tables.
pub fn item_number<F: Folder>(
    alloc: Global,
    name: &str,
    bytes: &[u8],
    site: u32,
    folder: &mut F,
) -> Option<u32> {
    let job = read_job(alloc, bytes).ok()?;
    let number = if is_filled(&job) {
        Some(site)
    } else {
        number_in_text(alloc, name, &job, site, folder)
    };
    drop(job);
    number
}

/// What is shown of an item of a job.
fn item_text<F: Folder>(alloc: Global, name: &str, site: u32, folder: &mut F) -> Option<Vec<u8>> {
    let bytes = loaded(alloc, name, folder)?;
    let number = item_number(alloc, name, &bytes, site, folder)?;
    statement_text(alloc, name, &bytes, Sought::Items, number as u64)
}

/// What is shown of a question of a job.
fn question_text<F: Folder>(
    alloc: Global,
    name: &str,
    number: u64,
    folder: &mut F,
) -> Option<Vec<u8>> {
    let bytes = loaded(alloc, name, folder)?;
    statement_text(alloc, name, &bytes, Sought::Questions, number)
}

/// What is shown of a line of a table's file, or of a Click configuration.
fn line_text<F: Folder>(alloc: Global, name: &str, line: u64, folder: &mut F) -> Option<Vec<u8>> {
    let bytes = loaded(alloc, name, folder)?;
    let column = indent_of(line_of(&bytes, line)?) as u64 + 1;
    fault_text(alloc, name, &bytes, line, column).ok()?
}

/// Whether the name leads to no folder but the current one and those in it, by its text.
fn is_within(name: &str) -> bool {
    !name.starts_with('/') && !name.split('/').any(|part| part == "..")
}

/// The name, the line and the column alone.
fn place_alone(alloc: Global, text: &[u8]) -> Option<Vec<u8>> {
    text.split(|byte| *byte == b'\n').next()?.to_vec(alloc).ok()
}

/// What is shown of a line of the file that is blamed as a table: the line itself, except where a job names a file elsewhere, since who wrote
/// the job may not be who may read that file.
fn table_text<F: Folder>(
    alloc: Global,
    words: &[String],
    name: &str,
    line: u64,
    folder: &mut F,
) -> Option<Vec<u8>> {
    let text = line_text(alloc, name, line, folder)?;
    let is_of_job = names_job(alloc, words).ok()?;
    if !is_of_job || is_within(name) {
        return Some(text);
    }
    place_alone(alloc, &text)
}

/// What is shown of a place in a job.
fn place_in_job<F: Folder>(
    alloc: Global,
    name: &str,
    line: u64,
    column: u64,
    folder: &mut F,
) -> Option<Vec<u8>> {
    let bytes = loaded(alloc, name, folder)?;
    fault_text(alloc, name, &bytes, line, column).ok()?
}

/// The place that a status blames: the file's name, the line and the column; the line; and a caret below it. The folder has the files as they
/// were loaded. None where the status blames no place of a text, where the file was not kept, and for want of memory.
pub fn place_text<F: Folder, P: Patterns>(
    alloc: Global,
    words: &[String],
    status: &Status,
    folder: &mut F,
    patterns: &mut P,
) -> Option<Vec<u8>> {
    match status {
        Status::Syntax { line, column, .. } => {
            let name = blamed_job(alloc, words, folder, patterns)?;
            place_in_job(alloc, name, *line, *column, folder)
        }
        Status::BadPattern { site } | Status::Refused { site, .. } => {
            let name = blamed_job(alloc, words, folder, patterns)?;
            item_text(alloc, name, site.0, folder)
        }
        Status::BadTable { name, line, .. } => {
            table_text(alloc, words, name.text(), *line, folder)
        }
        Status::BadAsk { number, .. } => {
            let name = blamed_job(alloc, words, folder, patterns)?;
            question_text(alloc, name, *number, folder)
        }
        _ => None,
    }
}
