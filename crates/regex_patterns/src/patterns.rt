//! Patterns by the crate `regex`.
ghost use Rattle.std.specs.Prelude.{◌≡◌, ◌≢◌, None, Some, IfOk, OnOk, IfSome, IfNone};
ghost use Rattle.std.specs.Option.{ForSome};
ghost use Rattle.regex.specs.Strings.{regex_source};
ghost use Rattle.regex_patterns.specs.Found.{IsByDefault, IsPattern, finds_match, IsFoundByRegex, refusals_after, search_answer};

use regex::{Error, Regex};
use sn_edge::{Found, Patterns, raise};
use std::alloc::{AllocError, Global};
use std::marker::Model;

/// Patterns that `regex` reads, each found where it has a match anywhere in the name. It tells which
/// patterns match, and not which are bad: `regex` also refuses a pattern that would grow too large.
/// The pattern that was compiled last is kept.
#[derive(Drop)]
pub struct RegexPatterns {
    kept: Option<Regex>,
    refusals: u64,
}

impl Model for RegexPatterns {
    ghost use Rattle.std.specs.Prelude.{ℕ};
    ghost use Rattle.std.specs.Option.{ForSome};
    ghost use Rattle.regex_patterns.specs.Found.{IsByDefault};

    ghost Value = { ℕ };

    ghost view = { λ p. p.refusals };

    ghost invariant = { λ p. ForSome p.kept IsByDefault };
}

impl RegexPatterns {
    /// No pattern is kept, and none was refused.
    pub fn new() -> RegexPatterns
        ensures { result ≡ 0 }
    {
        RegexPatterns {
            kept: None,
            refusals: 0,
        }
    }
}

impl Patterns for RegexPatterns {
    ghost told = { λ p. record { matches = Some finds_match; bad = None; refusals = p } };

    ghost find_gives = { λ old pattern name answer new. IsFoundByRegex pattern name answer × (new ≡ refusals_after old answer) };

    fn find(&mut self, alloc: Global, pattern: &str, name: &str) -> Found
        ensures answer { IsFoundByRegex pattern.now name.now result }
        ensures next { self.new ≡ refusals_after self.old result }
    {
        if let Some(regex) = compiled(&self.kept, pattern) {
            return answer_of(has_match(alloc, regex, name));
        }
        match Regex::new(alloc, pattern) {
            Ok(regex) => {
                let answer = answer_of(has_match(alloc, &regex, name));
                self.kept = Some(regex);
                answer
            }
            Err(Error::OutOfMemory) => Found::NoMemory,
            Err(_) => {
                if raise(&mut self.refusals) {
                    Found::Bad
                } else {
                    Found::NoMemory
                }
            }
        }
    }
}

// The kept pattern, where it is this one.
fn compiled<'a>(kept: &'a Option<Regex>, pattern: &str) -> Option<&'a Regex>
    ensures kept { IfSome result (λ regex. kept.now ≡ Some regex.now) }
    ensures source { IfSome result (λ regex. regex_source regex.now ≡ pattern.now) }
    ensures other { IfNone result (ForSome kept.now (λ regex. regex_source regex ≢ pattern.now)) }
{
    match kept {
        Some(regex) if regex.as_str() == pattern => Some(regex),
        _ => None,
    }
}

// Whether the pattern has a match anywhere in the name.
fn has_match(alloc: Global, regex: &Regex, name: &str) -> Result<bool, AllocError>
    requires { IsByDefault regex.now }
    ensures pattern { OnOk result (IsPattern (regex_source regex.now)) }
    ensures found { IfOk result (λ found. found ≡ finds_match (regex_source regex.now) name.now) }
{
    let mut matcher = regex.matcher(alloc)?;
    Ok(matcher.is_match(name))
}

// The answer of a search.
fn answer_of(found: Result<bool, AllocError>) -> Found
    ensures { result ≡ search_answer found }
{
    match found {
        Ok(true) => Found::Yes,
        Ok(false) => Found::No,
        Err(_) => Found::NoMemory,
    }
}
