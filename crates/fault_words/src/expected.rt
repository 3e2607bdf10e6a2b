//! What may stand at the place where the words of a text leave the grammar.

use crate::probe::{PROBES, Probe};
use sefl_grammar::{Finding, examine};
use sefl_lex::{LexFault, Token, tokens};
use sn_width::NoMemory;
use std::alloc::{AllocError, Global};

/// The most bytes of a text for which this is looked for: the text is read again for each word that is tried.
const MOST_BYTES: usize = 1_000_000;

/// The bytes before the place, to the end of the last token there.
fn before<'a>(bytes: &'a [u8], tokens: &[Token], place: usize) -> &'a [u8] {
    if place == 0 || tokens.len() < place {
        return &[];
    }
    let end = tokens[place - 1].end as usize;
    if bytes.len() < end {
        return bytes;
    }
    bytes.split_at(end).0
}

/// The bytes with a word behind them.
fn with_word(alloc: Global, bytes: &[u8], word: &str) -> Result<Vec<u8>, AllocError> {
    let mut out = Vec::new(alloc);
    out.extend_from_slice(bytes)?;
    out.push(b' ')?;
    out.extend_from_slice(word.as_bytes())?;
    Ok(out)
}

/// The number of the first token of a text that no job has there; None where there is none, and where the text has no tokens.
fn first_unexpected(alloc: Global, text: &str) -> Result<Option<usize>, NoMemory> {
    match tokens(alloc, text) {
        Ok(tokens) => match examine(alloc, text, &tokens)? {
            Finding::Unexpected { place } => Ok(Some(place)),
            _ => Ok(None),
        },
        Err(LexFault::NoMemory) => Err(NoMemory),
        Err(_) => Ok(None),
    }
}

/// Whether a word may stand behind the bytes, as the token of this number.
fn may_stand(alloc: Global, bytes: &[u8], place: usize, word: &str) -> Result<bool, NoMemory> {
    let tried = with_word(alloc, bytes, word)?;
    let Ok(text) = str::from_utf8(&tried) else {
        return Ok(true);
    };
    match first_unexpected(alloc, text)? {
        Some(found) => Ok(place < found),
        None => Ok(true),
    }
}

/// Puts what is said of a word.
fn put_probe(out: &mut Vec<String>, alloc: Global, probe: Probe) -> Result<(), AllocError> {
    let (word, says, _, _) = probe;
    let said = if says.is_empty() {
        format!(in alloc; "`{word}`")?
    } else {
        String::from_str(alloc, says)?
    };
    out.push(said)?;
    Ok(())
}

/// What may stand behind the bytes, as the token of this number.
fn all_expected(alloc: Global, bytes: &[u8], place: usize) -> Result<Vec<String>, NoMemory> {
    let mut out = Vec::new(alloc);
    let mut shown = 0;
    for probe in PROBES {
        if shown & probe.3 == 0 && may_stand(alloc, bytes, place, probe.0)? {
            shown |= probe.2;
            put_probe(&mut out, alloc, *probe)?;
        }
    }
    Ok(out)
}

/// What stands before the word of this index, of `count` words.
fn before_word(index: usize, count: usize) -> &'static str {
    if index == 0 {
        "expected "
    } else if index.saturating_add(1) == count {
        " or "
    } else {
        ", "
    }
}

/// The words with commas between them, and `or` before the last.
fn joined(alloc: Global, words: &[String]) -> Result<String, AllocError> {
    let mut out = String::new(alloc);
    for index in 0..words.len() {
        out.push_str(before_word(index, words.len()))?;
        out.push_str(words[index].as_str())?;
    }
    Ok(out)
}

/// What may stand where the words of a job's text leave the grammar. None where the text is a job's, or too large to look. After an `Err` nothing is
/// known: a word that was not tried for want of memory is not one that may not stand there.
pub(crate) fn expected_text(alloc: Global, bytes: &[u8]) -> Result<Option<String>, NoMemory> {
    if MOST_BYTES < bytes.len() {
        return Ok(None);
    }
    let Ok(text) = str::from_utf8(bytes) else {
        return Ok(None);
    };
    let tokens = match tokens(alloc, text) {
        Ok(tokens) => tokens,
        Err(LexFault::NoMemory) => return Err(NoMemory),
        Err(_) => return Ok(None),
    };
    let Finding::Unexpected { place } = examine(alloc, text, &tokens)? else {
        return Ok(None);
    };
    let words = all_expected(alloc, before(bytes, &tokens, place), place)?;
    if words.is_empty() {
        return Ok(None);
    }
    Ok(Some(joined(alloc, &words)?))
}
