//! The arguments of an element, which commas separate, and their words.

ghost use Rattle.std.specs.Prelude.{◌≡◌, bytes_eq, option_map};
ghost use Rattle.table_lines.specs.Numbers.{at_most};
ghost use Rattle.table_lines.specs.Words.{words};
ghost use Rattle.click_model.specs.Arguments.{arguments, only, one, is_empty, number_to, mac_of};

use click_text::number;
use sefl_syntax::TableKind;
use table_lines::{Separator, address_of, next_piece, next_word};

pub(crate) fn is(word: &[u8], text: &str) -> bool
    ensures { result ≡ bytes_eq word.now text.now }
{
    word == text.as_bytes()
}

/// The word of the text, if it has one alone.
pub(crate) fn only(text: &[u8]) -> Option<&[u8]>
    ensures { option_map (λ word. word.now) result ≡ only (words text.now) }
{
    let (word, rest) = next_word(text)?;
    match next_word(rest) {
        Some(_) => None,
        None => Some(word),
    }
}

/// The word of the only argument, if it has one alone.
#[tactic(auto, using(crate::proofs::Pieces::not_one))]
pub(crate) fn one(text: &[u8]) -> Option<&[u8]>
    ensures { option_map (λ word. word.now) result ≡ one (arguments text.now) }
{
    let (argument, behind) = next_piece(text, Separator::Comma);
    match behind {
        Some(_) => None,
        None => only(argument),
    }
}

/// Whether there are no arguments.
#[tactic(auto, using(crate::proofs::Pieces::not_empty))]
pub(crate) fn is_empty(text: &[u8]) -> bool
    ensures { result ≡ is_empty (arguments text.now) }
{
    let (argument, behind) = next_piece(text, Separator::Comma);
    match behind {
        Some(_) => false,
        None => next_word(argument).is_none(),
    }
}

fn at_most(limit: u32, number: Option<u32>) -> Option<u32>
    ensures { result ≡ at_most limit number }
{
    let number = number?;
    if number <= limit { Some(number) } else { None }
}

/// The number, if it does not exceed the limit.
pub(crate) fn number_to(limit: u32, word: Option<&[u8]>) -> Option<u32>
    ensures { result ≡ number_to limit (option_map (λ word. word.now) word.entry) }
{
    match word {
        None => None,
        Some(word) => at_most(limit, number(word)),
    }
}

/// The address of an Ethernet interface (IEEE 802).
pub(crate) fn mac_of(word: Option<&[u8]>) -> Option<u64>
    ensures { result ≡ mac_of (option_map (λ word. word.now) word.entry) }
{
    match word {
        None => None,
        Some(word) => address_of(TableKind::Mac, word),
    }
}
