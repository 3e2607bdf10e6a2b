//! Whether tokens are those of a job.

ghost use Rattle.std.specs.Prelude.{◌≡◌, reverse, All, IfOk};
ghost use Rattle.std.specs.List.{list_all};
ghost use Rattle.sefl_lex.specs.Reads.{IsTokenOf};
ghost use Rattle.sefl_grammar.specs.Automaton.{is_deep, may_end};
ghost use Rattle.sefl_grammar.specs.Words.{IsFound, finding_of, or_later, place_if, words_of};

use crate::behind::may_end;
use crate::depth::is_deep;
use crate::stack::take_token;
use crate::symbol::Symbol;
use sefl_lex::Token;
use sn_width::NoMemory;
use std::alloc::Global;

/// What the tokens of a text are, by the grammar of job texts.
#[derive(Clone, Copy, PartialEq, Eq)]
pub enum Finding {
    /// A job with at most 64 constructs open at once: blocks, brackets, parentheses and `not`s.
    Job,
    /// A job with more, where the token at this place opens the first that is too many.
    TooDeep { place: usize },
    /// No job: some job begins with the tokens before this place, and none with the token there, or
    /// the tokens end there.
    Unexpected { place: usize },
}

/// What the tokens of the text are.
pub fn examine(alloc: Global, text: &str, tokens: &[Token]) -> Result<Finding, NoMemory>
    requires { All (IsTokenOf text.now) tokens.now }
    ensures { IfOk result (IsFound (words_of text.now tokens.now)) }
{
    let mut stack = vec![in alloc; Symbol::Start]?;
    let mut deep = None;
    for place in 0..tokens.len() {
        if !take_token(&mut stack, text, tokens[place])? {
            return Ok(Finding::Unexpected { place });
        }
        deep = noted(deep, &stack, place);
    }
    Ok(found_at_end(&mut stack, deep, tokens.len()))
}

/// The first place after which too many constructs are open, with the one that was just read.
fn noted(deep: Option<usize>, stack: &[Symbol], place: usize) -> Option<usize>
    ensures { result ≡ or_later deep (place_if (is_deep (reverse stack.now)) place) }
{
    match deep {
        Some(place) => Some(place),
        None => is_deep(stack).then_some(place),
    }
}

/// What the tokens are, where all of them were taken.
fn found_at_end(stack: &mut Vec<Symbol>, deep: Option<usize>, count: usize) -> Finding
    ensures { result ≡ finding_of (list_all may_end (reverse stack.old.items)) deep count }
{
    if !may_all_end(stack) {
        return Finding::Unexpected { place: count };
    }
    match deep {
        Some(place) => Finding::TooDeep { place },
        None => Finding::Job,
    }
}

/// Whether nothing more has to come. The stack is used up.
fn may_all_end(stack: &mut Vec<Symbol>) -> bool
    ensures { result ≡ list_all may_end (reverse stack.old.items) }
{
    while let Some(symbol) = stack.pop() {
        if !may_end(symbol) {
            return false;
        }
    }
    true
}
