//! Texts as a terminal may show them: a name in a status may hold whatever the system allows in the name of a file, and a word of the command
//! line whatever was typed.

use command_runs::Status;
use std::alloc::{AllocError, Global};

/// Whether a character moves the cursor, ends a line, or turns the direction of the text: it is a control character, a separator of
/// lines or paragraphs, or one of the marks of direction (Unicode, Bidi_Control).
fn is_unseen(letter: char) -> bool {
    matches!(
        letter,
        '\u{0}'..='\u{1f}'
            | '\u{7f}'..='\u{9f}'
            | '\u{61c}'
            | '\u{200e}'..='\u{200f}'
            | '\u{2028}'..='\u{202e}'
            | '\u{2066}'..='\u{2069}'
    )
}

fn is_plain_text(text: &str) -> bool {
    !text.chars().any(is_unseen)
}

/// Whether the text of the status has printable characters alone.
pub fn is_plain(status: &Status) -> bool {
    match status {
        Status::NoFile { name } => is_plain_text(name.text()),
        Status::ReadFault { name } => is_plain_text(name.text()),
        Status::TooBig { name } => is_plain_text(name.text()),
        Status::BadTable { name, .. } => is_plain_text(name.text()),
        Status::BadReport { pointer, .. } => is_plain_text(pointer.text()),
        _ => true,
    }
}

/// The text with a question mark for each other character.
fn shown(alloc: Global, text: &str) -> Result<String, AllocError> {
    let mut plain = String::new(alloc);
    for letter in text.chars() {
        plain.push(if is_unseen(letter) { '?' } else { letter })?;
    }
    Ok(plain)
}

/// The text of the status, with a question mark for each other character.
pub fn plain_text(alloc: Global, status: &Status) -> Result<String, AllocError> {
    let text = status.to_string(alloc)?;
    shown(alloc, text.as_str())
}

/// The most characters of a word of the command line that are shown.
const MOST_LETTERS: usize = 100;

/// A word of the command line, with a question mark for each other character; of a long one its beginning and `..`.
pub fn plain_word(alloc: Global, word: &str) -> Result<String, AllocError> {
    let mut plain = String::new(alloc);
    let mut count: usize = 0;
    for letter in word.chars() {
        if MOST_LETTERS <= count {
            plain.push_str("..")?;
            return Ok(plain);
        }
        plain.push(if is_unseen(letter) { '?' } else { letter })?;
        count = count.saturating_add(1);
    }
    Ok(plain)
}
