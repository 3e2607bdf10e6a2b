//! How many constructs are open.

ghost use Rattle.std.specs.Prelude.{◌≡◌, reverse};
ghost use Rattle.sefl_grammar.specs.Automaton.{is_deep, is_open, open_count};

use crate::symbol::Symbol;

/// The most constructs that may be open at once.
const MOST_OPEN: usize = 64;

/// Whether more constructs are open than may be; the next symbol is the last.
#[tactic(auto, using(crate::proofs::Depths::open_count_le, crate::proofs::Depths::open_count_reverse))]
pub(crate) fn is_deep(stack: &[Symbol]) -> bool
    ensures { result ≡ is_deep (reverse stack.now) }
{
    stack.len() > MOST_OPEN && open_count(stack) > MOST_OPEN
}

fn open_count(stack: &[Symbol]) -> usize
    ensures { result ≡ open_count stack.now }
{
    let mut count = 0;
    for symbol in stack {
        if is_open(*symbol) {
            count += 1;
        }
    }
    count
}

fn is_open(symbol: Symbol) -> bool
    ensures { result ≡ is_open symbol }
{
    matches!(
        symbol,
        Symbol::Instrs
            | Symbol::OldInstrs
            | Symbol::CloseParenthesis
            | Symbol::CloseBracket
            | Symbol::NotEnd
    )
}
