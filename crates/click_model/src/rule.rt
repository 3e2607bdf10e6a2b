//! The rules of arguments.

ghost use Rattle.std.specs.Prelude.{◌≡◌, [], map, option_map, IfOk};
ghost use Rattle.table_lines.specs.Words.{words};
ghost use Rattle.click_elements.specs.Classes.{seen_rule};
ghost use Rattle.click_model.specs.Arguments.{arguments};
ghost use Rattle.click_model.specs.Patterns.{allows, rule_of, rules_from};

use crate::pattern::pattern_of;
use crate::words::is;
use click_elements::Rule;
use sn_width::NoMemory;
use std::alloc::Global;
use table_lines::{Separator, next_piece, next_word};

/// Whether packets that pass are let through.
fn allows(word: &[u8]) -> Option<bool>
    ensures { result ≡ allows word.now }
{
    if is(word, "allow") {
        Some(true)
    } else if is(word, "deny") || is(word, "drop") {
        Some(false)
    } else {
        None
    }
}

/// The rule that the text is, if it is one.
fn rule_of(alloc: Global, text: &[u8]) -> Result<Option<Rule>, NoMemory>
    ensures { IfOk result (λ rule. option_map seen_rule rule ≡ rule_of (words text.now)) }
{
    let Some((word, rest)) = next_word(text) else {
        return Ok(None);
    };
    let Some(allows) = allows(word) else {
        return Ok(None);
    };
    match pattern_of(alloc, rest)? {
        Some(pattern) => Ok(Some(Rule { allows, pattern })),
        None => Ok(None),
    }
}

/// The rules of arguments, if each is one.
pub(crate) fn rules_of(alloc: Global, text: &[u8]) -> Result<Option<Vec<Rule>>, NoMemory>
    ensures { IfOk result (λ rules. option_map (λ rules. map seen_rule rules.items) rules
        ≡ rules_from [] (arguments text.now)) }
{
    let mut rules = Vec::new(alloc);
    let mut left = text;
    loop {
        let (argument, behind) = next_piece(left, Separator::Comma);
        let Some(rule) = rule_of(alloc, argument)? else {
            return Ok(None);
        };
        rules.push(rule)?;
        let Some(rest) = behind else {
            return Ok(Some(rules));
        };
        left = rest;
    }
}
