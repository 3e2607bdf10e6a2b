//! What a line of a filter list's file says.

ghost use Rattle.std.specs.Prelude.{◌≡◌, IfSome};
ghost use Rattle.acl_rules.specs.Covers.{IsRule};
ghost use Rattle.acl_model.specs.Contents.{IsFine, action_of, content_of, rule_of, rule_or_bad, words_say};
ghost use Rattle.table_lines.specs.Words.{words};

use crate::field::{addresses_of, ports_of, protocol_of};
use acl_rules::Rule;
use table_lines::{before_comment, is_ascii, next_word};

/// What a line says.
#[derive(Clone, Copy)]
pub(crate) enum Content {
    /// Nothing, or a comment alone.
    Skipped,
    Bad,
    Rule(Rule),
}

/// Whether the packets of a rule are permitted.
fn action_of(word: &[u8]) -> Option<bool>
    ensures { result ≡ action_of word.now }
{
    if word == "permit".as_bytes() {
        return Some(true);
    }
    if word == "deny".as_bytes() {
        return Some(false);
    }
    None
}

/// The rule that six words say: whether it permits, the protocol, the source and destination addresses, the source and destination
/// ports.
fn rule_of(
    action: &[u8],
    protocol: &[u8],
    source: &[u8],
    destination: &[u8],
    from: &[u8],
    to: &[u8],
) -> Option<Rule>
    ensures value { result ≡ rule_of action.now protocol.now source.now destination.now from.now to.now }
    ensures fine { IfSome result IsRule }
{
    let permits = action_of(action)?;
    let protocol = protocol_of(protocol)?;
    let source = addresses_of(source)?;
    let destination = addresses_of(destination)?;
    let from = ports_of(from)?;
    let to = ports_of(to)?;
    Some(Rule {
        permits,
        ranges: [protocol, source, destination, from, to],
    })
}

fn rule_or_bad(rule: Option<Rule>) -> Content
    requires { IfSome rule IsRule }
    ensures value { result ≡ rule_or_bad rule }
    ensures fine { IsFine result }
{
    match rule {
        Some(rule) => Content::Rule(rule),
        None => Content::Bad,
    }
}

/// What the words of a line say.
fn words_say(line: &[u8]) -> Content
    ensures value { result ≡ words_say (words line.now) }
    ensures fine { IsFine result }
{
    let Some((action, rest)) = next_word(line) else {
        return Content::Skipped;
    };
    let Some((protocol, rest)) = next_word(rest) else {
        return Content::Bad;
    };
    let Some((source, rest)) = next_word(rest) else {
        return Content::Bad;
    };
    let Some((destination, rest)) = next_word(rest) else {
        return Content::Bad;
    };
    let Some((from, rest)) = next_word(rest) else {
        return Content::Bad;
    };
    let Some((to, rest)) = next_word(rest) else {
        return Content::Bad;
    };
    if next_word(rest).is_some() {
        return Content::Bad;
    }
    rule_or_bad(rule_of(action, protocol, source, destination, from, to))
}

/// What the line says.
pub(crate) fn content_of(line: &[u8]) -> Content
    ensures value { result ≡ content_of line.now }
    ensures fine { IsFine result }
{
    if !is_ascii(line) {
        return Content::Bad;
    }
    words_say(before_comment(line))
}
