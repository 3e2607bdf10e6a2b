//! The plain truth of an atom, by the numbers of its symbols.

use crate::build::{Atom, Side};
use sn_width::{Num, Rel};

fn number_of(values: &[Num], id: u64) -> Num {
    values.get(id as usize).copied().unwrap_or(0)
}

/// The value of a side, where `max` is the greatest value of its width.
fn value_of(side: Side, values: &[Num], max: Num) -> Num {
    let value = match side {
        Side::Number(value) => value,
        Side::Symbol(id) => number_of(values, id),
        Side::Plus(id, value) => number_of(values, id).wrapping_add(value),
        Side::Both(first, second) => {
            number_of(values, first).wrapping_add(number_of(values, second))
        }
    };
    value & max
}

fn are_related(left: Num, rel: Rel, right: Num) -> bool {
    match rel {
        Rel::Eq => left == right,
        Rel::Ne => left != right,
        Rel::Lt => left < right,
        Rel::Le => left <= right,
        Rel::Gt => left > right,
        Rel::Ge => left >= right,
    }
}

/// Whether the atom is true at these values, where `max` is the greatest value of its width.
pub(crate) fn is_true(atom: Atom, values: &[Num], max: Num) -> bool {
    match atom {
        Atom::Truth(truth) => truth,
        Atom::Compare(left, rel, right) => are_related(
            value_of(left, values, max),
            rel,
            value_of(right, values, max),
        ),
    }
}
