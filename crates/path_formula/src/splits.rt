//! Whether a formula has cases.

ghost use Rattle.std.specs.Prelude.{◌↔◌, IsTrue};
ghost use Rattle.path_formula.specs.View.{view, views};
ghost use Rattle.path_formula.specs.Splits.{AtomCanSplit, CanSplit, EachCanSplit};

use crate::{AtomKind, Formula};
use sn_width::Width;

/// The widest atom that has cases and is not constant, in bits.
const WIDEST: u8 = 64;

fn atom_can_split(atom: AtomKind, left: Width, right: Width) -> bool
    ensures { IsTrue result ↔ AtomCanSplit atom left right }
{
    match atom {
        AtomKind::Constant => true,
        AtomKind::Single { .. } => left.bits() <= WIDEST && right == left,
        AtomKind::Pair => left.bits() <= WIDEST && right == left,
        AtomKind::Outside => false,
    }
}

/// Whether the formula has cases: each comparison and membership is constant, or it has at most 64 bits and compares a
/// symbol plus a constant with a constant or with another, or tests it.
#[cycle(split)]
pub fn can_split(formula: &Formula) -> bool
    ensures { IsTrue result ↔ CanSplit (view formula.now) }
{
    match formula {
        Formula::Truth(_) => true,
        Formula::Compare { left, right, .. } => {
            let atom = AtomKind::of_comparison(left, right);
            atom_can_split(atom, left.width(), right.width())
        }
        Formula::Member { value, ranges } => {
            let atom = AtomKind::of_membership(value);
            atom_can_split(atom, value.width(), ranges.width())
        }
        Formula::And(parts) => each_can_split(parts),
        Formula::Or(parts) => each_can_split(parts),
        Formula::Not(part) => can_split(part),
    }
}

#[cycle(split)]
fn each_can_split(parts: &Vec<Formula>) -> bool
    ensures { IsTrue result ↔ EachCanSplit (views parts.now.items) }
{
    for part in parts {
        if !can_split(part) {
            return false;
        }
    }
    true
}
