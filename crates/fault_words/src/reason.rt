//! What is said below a status.

use crate::absent::{absent_text, absent_word_text};
use crate::expected::expected_text;
use crate::partial::of_partial;
use crate::port::port_text;
use crate::sentence::{of_refusal, of_syntax, sentence_of};
use crate::statement::words_from;
use crate::table::of_line;
use crate::usage::usage_text;
use command_edge::load_text;
use command_runs::{Status, load_job};
use fault_places::{Sought, blamed_job, item_number, statement_at};
use sefl_lex::tokens;
use sefl_syntax::NodeDecl;
use sn_edge::{Folder, Patterns};
use sn_width::NoMemory;
use std::alloc::Global;

fn fixed(alloc: Global, text: Option<&'static str>) -> Option<String> {
    String::from_str(alloc, text?).ok()
}

/// The words in which a job names a port that its node does not have.
fn port_in<F: Folder, P: Patterns>(
    alloc: Global,
    words: &[String],
    site: u32,
    folder: &mut F,
    patterns: &mut P,
) -> Option<String> {
    let name = blamed_job(alloc, words, folder, patterns)?;
    let bytes = load_text(alloc, name, folder).ok()?;
    let number = item_number(alloc, name, &bytes, site, folder)?;
    let at = statement_at(alloc, &bytes, Sought::Items, number as u64)?;
    let job = load_job(alloc, name, folder).ok()?;
    let said = port_at(alloc, &bytes, at, site, &job.net.nodes);
    drop(job);
    said
}

fn port_at(alloc: Global, bytes: &[u8], at: u64, site: u32, nodes: &[NodeDecl]) -> Option<String> {
    let text = str::from_utf8(bytes).ok()?;
    let tokens = tokens(alloc, text).ok()?;
    let words = words_from(alloc, text, &tokens, at).ok()?;
    port_text(alloc, &words, site, nodes)
}

fn expected_in<F: Folder, P: Patterns>(
    alloc: Global,
    words: &[String],
    folder: &mut F,
    patterns: &mut P,
) -> Result<Option<String>, NoMemory> {
    let Some(job) = blamed_job(alloc, words, folder, patterns) else {
        return Ok(None);
    };
    let Ok(bytes) = load_text(alloc, job, folder) else {
        return Ok(None);
    };
    expected_text(alloc, &bytes)
}

fn absent_in<F: Folder, P: Patterns>(
    alloc: Global,
    words: &[String],
    name: &str,
    folder: &mut F,
    patterns: &mut P,
) -> Option<String> {
    let job = blamed_job(alloc, words, folder, patterns)?;
    let bytes = load_text(alloc, job, folder).ok()?;
    absent_text(alloc, job, &bytes, name)
}

/// What a status says in words, for people: which word of the command line is wrong, and all commands; what may stand in a job's text; the rule
/// that an item breaks; and what to do. None where nothing is to be said, and for want of memory.
pub fn reason_text<F: Folder, P: Patterns>(
    alloc: Global,
    words: &[String],
    status: &Status,
    folder: &mut F,
    patterns: &mut P,
) -> Option<String> {
    match status {
        Status::Usage => usage_text(alloc, words).ok(),
        Status::NoFile { name } => match absent_in(alloc, words, name.text(), folder, patterns) {
            Some(text) => Some(text),
            None => absent_word_text(alloc),
        },
        Status::Syntax { kind: 5, .. } => match expected_in(alloc, words, folder, patterns) {
            Ok(Some(text)) => Some(text),
            Ok(None) => fixed(alloc, of_syntax(5)),
            Err(NoMemory) => None,
        },
        Status::Syntax { kind, .. } => fixed(alloc, of_syntax(*kind)),
        Status::Refused { site, kind: 3 } => match port_in(alloc, words, site.0, folder, patterns) {
            Some(text) => Some(text),
            None => fixed(alloc, of_refusal(3)),
        },
        Status::Refused { kind, .. } => fixed(alloc, of_refusal(*kind)),
        Status::BadTable { kind, .. } => fixed(alloc, of_line(alloc, words, *kind)),
        Status::Partial => fixed(alloc, of_partial(alloc, words)),
        _ => fixed(alloc, sentence_of(status)),
    }
}
