//! The words of a statement of a job's text.

ghost use Rattle.std.specs.Prelude.{All};
ghost use Rattle.sefl_lex.specs.Reads.{IsTokenOf};

use sefl_lex::{Token, TokenKind, number_value, text_body, token_text};
use std::alloc::{AllocError, Global};

/// A word, with its value where it is a number.
#[derive(Clone, Copy)]
pub(crate) struct Word<'a> {
    pub(crate) text: &'a str,
    pub(crate) value: Option<u128>,
}

fn word_of<'a>(text: &'a str, token: Token) -> Word<'a>
    requires { IsTokenOf text.now token }
{
    let value = if token.kind == TokenKind::Number {
        Some(number_value(text, token))
    } else {
        None
    };
    Word {
        text: token_text(text, token),
        value,
    }
}

/// The words from the byte on, to the first that ends a statement or opens a block.
pub(crate) fn words_from<'a>(
    alloc: Global,
    text: &'a str,
    tokens: &[Token],
    at: u64,
) -> Result<Vec<Word<'a>>, AllocError>
    requires { All (IsTokenOf text.now) tokens.now }
{
    let mut words = Vec::new(alloc);
    for index in 0..tokens.len() {
        let token = tokens[index];
        if at <= token.start {
            let word = word_of(text, token);
            if word.text == ";" || word.text == "{" {
                return Ok(words);
            }
            words.push(word)?;
        }
    }
    Ok(words)
}

/// The first byte of the first text in quotes that is the name.
pub(crate) fn quoted_at(text: &str, tokens: &[Token], name: &str) -> Option<u64>
    requires { All (IsTokenOf text.now) tokens.now }
{
    for index in 0..tokens.len() {
        let token = tokens[index];
        if token.kind == TokenKind::Text && text_body(text, token) == name {
            return Some(token.start);
        }
    }
    None
}
