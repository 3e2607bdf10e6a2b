//! What is said where an exploration came to its limit of records.

use command_words::{Command, reading};
use std::alloc::Global;

/// The sentence of the command that the words give.
pub(crate) fn of_partial(alloc: Global, words: &[String]) -> Option<&'static str> {
    let Ok(Some(command)) = reading(alloc, words) else {
        return None;
    };
    match command {
        Command::Explore { .. } => Some(
            "what is written is right as far as it goes: for the rest raise `--limit`, or narrow the injection by `where` lines or given values",
        ),
        Command::Ask { .. } => Some(
            "the exploration ended at its limit of records; yes and no are right: for the rest raise `--limit`, or narrow the injection by `where` lines or given values",
        ),
        Command::Loops { .. } => Some(
            "the exploration ended at its limit of records, and more paths may be cut: raise `--limit`, or narrow the injection by `where` lines or given values",
        ),
        Command::Compare { .. } => Some(
            "an exploration ended at its limit of records, so nothing is known: raise `--limit`, narrow the injection by `where` lines or given values, or compare smaller parts",
        ),
        _ => None,
    }
}
