//! What is to come behind a word.

ghost use Rattle.std.specs.Prelude.{◌≡◌, map, option_copied};
ghost use Rattle.sefl_lex.specs.Words.{value_of};
ghost use Rattle.sefl_lex.specs.Reads.{IsTokenOf, word_of};
ghost use Rattle.sefl_lex.specs.declared.token.TokenKind.TheVariants.{Number as ANumber};
ghost use Rattle.sefl_grammar.specs.Table.{alternative_of};
ghost use Rattle.sefl_grammar.specs.Automaton.{behind, by_kind, find, may_end, named, numbered, quoted};
ghost use Rattle.sefl_grammar.specs.Words.{word_at};

use crate::same::is_same;
use crate::symbol::Symbol;
use crate::symbol::Symbol::*;
use crate::table::{Alternative, alternatives};
use crate::value::value_at;
use sefl_lex::{Token, TokenKind, token_text};

/// The most that a number of ports, or of a port, is.
const MOST_PORT: u128 = 4_294_967_295;

/// The most that an offset is.
const MOST_OFFSET: u128 = 1_048_576;

/// The most bits that a cell has.
const MOST_WIDTH: u128 = 128;

/// What is to come behind a token that stands first in the symbol's place; `None` where it may not.
pub(crate) fn behind(symbol: Symbol, text: &str, token: Token) -> Option<&'static [Symbol]>
    requires { IsTokenOf text.now token }
    ensures { option_copied result ≡ behind symbol (word_at text.now token) }
{
    match find(token_text(text, token), alternatives(symbol)) {
        Some(then) => Some(then),
        None => by_kind(symbol, text, token),
    }
}

/// Whether the symbol may stand for no token.
pub(crate) fn may_end(symbol: Symbol) -> bool
    ensures { result ≡ may_end symbol }
{
    matches!(symbol, SumTail | NotEnd | TestTail | Asks)
}

fn find(word: &str, table: &'static [Alternative]) -> Option<&'static [Symbol]>
    ensures { option_copied result ≡ find word.now (map alternative_of table.now) }
{
    for (first, then) in table {
        if is_same(word, first) {
            return Some(then);
        }
    }
    None
}

fn by_kind(symbol: Symbol, text: &str, token: Token) -> Option<&'static [Symbol]>
    requires { IsTokenOf text.now token }
    ensures { option_copied result ≡ by_kind symbol token.kind (value_of (word_of text.now token)) }
{
    match token.kind {
        TokenKind::Name => named(symbol),
        TokenKind::Number => numbered(symbol, value_for(symbol, text, token)),
        TokenKind::Text => quoted(symbol),
        TokenKind::Sign => None,
    }
}

/// The value of a number, where the symbol asks for it.
fn value_for(symbol: Symbol, text: &str, token: Token) -> u128
    requires token { IsTokenOf text.now token }
    requires number { token.kind ≡ ANumber }
    ensures { numbered symbol result ≡ numbered symbol (value_of (word_of text.now token)) }
{
    match symbol {
        Number => 0,
        Operand => 0,
        Value => 0,
        Test => 0,
        _ => value_at(text, token),
    }
}

fn named(symbol: Symbol) -> Option<&'static [Symbol]>
    ensures { option_copied result ≡ named symbol }
{
    match symbol {
        Name => Some(&[]),
        Addr => Some(&[AddrSign]),
        _ => None,
    }
}

fn numbered(symbol: Symbol, value: u128) -> Option<&'static [Symbol]>
    ensures { option_copied result ≡ numbered symbol value }
{
    match symbol {
        Number => Some(&[]),
        Port if value <= MOST_PORT => Some(&[]),
        Offset if value <= MOST_OFFSET => Some(&[]),
        Width if 1 <= value && value <= MOST_WIDTH => Some(&[]),
        Addr if value <= MOST_OFFSET => Some(&[]),
        Ports if value <= MOST_PORT => Some(&[MorePorts]),
        NodeBody if value <= MOST_PORT => Some(&[Arrow, Port, OpenBrace, Codes]),
        OldNodeBody if value <= MOST_PORT => Some(&[Arrow, Port, OpenBrace, OldCodes]),
        Operand => Some(&[]),
        Value => Some(&[SumTail]),
        Test => Some(&[SumTail, Relation]),
        _ => None,
    }
}

fn quoted(symbol: Symbol) -> Option<&'static [Symbol]>
    ensures { option_copied result ≡ quoted symbol }
{
    match symbol {
        Text => Some(&[]),
        _ => None,
    }
}
