//! The patterns of arguments.

ghost use Rattle.std.specs.Prelude.{◌≡◌, [], map, option_map, IfOk};
ghost use Rattle.table_lines.specs.Words.{words};
ghost use Rattle.click_elements.specs.Classes.{seen_pattern};
ghost use Rattle.click_model.specs.Arguments.{arguments};
ghost use Rattle.click_model.specs.Patterns.{finished, primitives, pattern_of, patterns_from};

use crate::expect::{Expect, Heard, hear};
use click_elements::{Pattern, Primitive};
use sn_width::NoMemory;
use std::alloc::Global;
use table_lines::{Separator, next_piece, next_word};

/// The primitives, where a pattern may end.
fn finished(expect: Expect, primitives: Vec<Primitive>) -> Option<Pattern>
    ensures { option_map seen_pattern result ≡ finished expect primitives.items }
{
    match expect {
        Expect::First => None,
        Expect::Kind(_) => None,
        Expect::Host(_) => None,
        Expect::Net(_) => None,
        Expect::Port(_) => None,
        Expect::Proto => None,
        Expect::Protocol => None,
        Expect::Joint => Some(Pattern { primitives }),
    }
}

/// The pattern that the text is, if it is one.
pub(crate) fn pattern_of(alloc: Global, text: &[u8]) -> Result<Option<Pattern>, NoMemory>
    ensures { IfOk result (λ pattern. option_map seen_pattern pattern ≡ pattern_of (words text.now)) }
{
    let mut found = Vec::new(alloc);
    let mut expect = Expect::First;
    let mut left = text;
    loop {
        let Some((word, rest)) = next_word(left) else {
            return Ok(finished(expect, found));
        };
        match hear(expect, word) {
            Heard::Refused => return Ok(None),
            Heard::Goes(next) => expect = next,
            Heard::Puts(primitive) => {
                found.push(primitive)?;
                expect = Expect::Joint;
            }
        }
        left = rest;
    }
}

/// The patterns of arguments, if each is one.
pub(crate) fn patterns_of(alloc: Global, text: &[u8]) -> Result<Option<Vec<Pattern>>, NoMemory>
    ensures { IfOk result (λ patterns. option_map (λ patterns. map seen_pattern patterns.items) patterns
        ≡ patterns_from [] (arguments text.now)) }
{
    let mut patterns = Vec::new(alloc);
    let mut left = text;
    loop {
        let (argument, behind) = next_piece(left, Separator::Comma);
        let Some(pattern) = pattern_of(alloc, argument)? else {
            return Ok(None);
        };
        patterns.push(pattern)?;
        let Some(rest) = behind else {
            return Ok(Some(patterns));
        };
        left = rest;
    }
}
