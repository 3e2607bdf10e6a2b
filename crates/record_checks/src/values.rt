//! Values of packets against widths.

ghost use Rattle.std.specs.Prelude.{◌<◌, ◌↔◌, length, IsTrue};
ghost use Rattle.refutation_check.specs.Seen.{FitsAt};
ghost use Rattle.sefl_meaning.specs.Injected.{FitWidths};

use path_cond::PathCond;
use sn_width::{Num, SymId};

/// Whether the number is a value of the symbol's width.
fn fits(cond: &PathCond, symbol: u64, value: Num) -> bool
    requires { symbol < length cond.now.widths }
    ensures { IsTrue result ↔ FitsAt cond.now.widths symbol value }
{
    match cond.width(SymId(symbol)) {
        None => unreachable!(),
        Some(width) => value <= width.max(),
    }
}

/// Whether there is a value for each symbol of the condition, of its symbol's width. More values may follow.
pub(crate) fn fit_symbols(cond: &PathCond, values: &[Num]) -> bool
    ensures { IsTrue result ↔ FitWidths cond.now.widths values.now }
{
    if (values.len() as u64) < cond.symbols() {
        return false;
    }
    for symbol in 0..cond.symbols() {
        if !fits(cond, symbol, values[symbol as usize]) {
            return false;
        }
    }
    true
}
