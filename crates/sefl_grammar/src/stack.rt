//! The stack of what is to come, the next symbol last.

ghost use Rattle.std.specs.Prelude.{◌≡◌, ◌++◌, reverse, IfOk, OnOk};
ghost use Rattle.sefl_lex.specs.Reads.{IsTokenOf};
ghost use Rattle.sefl_grammar.specs.Automaton.{step};
ghost use Rattle.sefl_grammar.specs.Words.{Takes, word_at};

use crate::behind::{behind, may_end};
use crate::symbol::Symbol;
use sefl_lex::Token;
use std::alloc::AllocError;

/// Puts the symbols on the stack, the first on top.
fn push_all(stack: &mut Vec<Symbol>, symbols: &[Symbol]) -> Result<(), AllocError>
    ensures { OnOk result (reverse stack.new.items ≡ symbols.now ++ reverse stack.old.items) }
{
    let mut left = symbols;
    while let [others @ .., last] = left {
        stack.push(*last)?;
        left = others;
    }
    Ok(())
}

/// Takes a token from what is to come; false where it may not come.
pub(crate) fn take_token(
    stack: &mut Vec<Symbol>,
    text: &str,
    token: Token,
) -> Result<bool, AllocError>
    requires { IsTokenOf text.now token }
    ensures { IfOk result (λ taken. Takes taken
        (step (reverse stack.old.items) (word_at text.now token)) (reverse stack.new.items)) }
{
    while let Some(symbol) = stack.pop() {
        if let Some(then) = behind(symbol, text, token) {
            push_all(stack, then)?;
            return Ok(true);
        }
        if !may_end(symbol) {
            return Ok(false);
        }
    }
    Ok(false)
}
