//! Which parts are those of a reduced term.

ghost use Rattle.std.specs.Prelude.{◌≡◌};
ghost use Rattle.lin_term.specs.Reduced.{are_reduced_from, is_coefficient, is_reduced};

use crate::parts::Part;
use sn_width::{Num, Width};

/// Whether the constant and the parts are those of a reduced term.
pub(crate) fn is_reduced(width: Width, constant: Num, parts: &[Part]) -> bool
    ensures { result ≡ is_reduced (record { width = width; constant = constant; parts = parts.now }) }
{
    constant <= width.max() && are_reduced(width, parts)
}

/// Whether the symbols ascend, and each has a coefficient of the width.
fn are_reduced(width: Width, parts: &[Part]) -> bool
    ensures { result ≡ are_reduced_from width 0 parts.now }
{
    // The least symbol that may come next.
    let mut next: u128 = 0;
    for (symbol, coefficient) in parts {
        let number = u128::from(symbol.0);
        if number < next || !is_coefficient(width, *coefficient) {
            return false;
        }
        next = number + 1;
    }
    true
}

/// Whether the number is of the width, and not 0.
fn is_coefficient(width: Width, number: Num) -> bool
    ensures { result ≡ is_coefficient width number }
{
    0 < number && number <= width.max()
}
