//! Values of symbols; some are given by integers.

ghost use Rattle.std.specs.Prelude.{◌≡◌, drop, slice_set};
ghost use Rattle.path_solver.specs.Values.{value_of, with_integers};

use sn_width::{Num, SymId};

fn value_of(integer: i128) -> Num
    ensures { result ≡ value_of integer }
{
    if integer < 0 { 0 } else { integer as u128 }
}

/// Puts a value at a place, where there is one.
pub(crate) fn put(values: &mut Vec<Num>, place: usize, value: Num)
    ensures { values.new.items ≡ slice_set values.old.items place value }
{
    if place < values.len() {
        values[place] = value;
    }
}

/// Puts the integers, from the second on, in place of the values of the symbols, in order.
pub(crate) fn put_integers(values: &mut Vec<Num>, symbols: &[SymId], integers: &[i128])
    ensures { values.new.items ≡ with_integers values.old.items symbols.now (drop 1 integers.now) }
{
    for (index, symbol) in symbols.iter().enumerate() {
        if integers.len() <= index + 1 {
            return;
        }
        put(values, symbol.0 as usize, value_of(integers[index + 1]));
    }
}
