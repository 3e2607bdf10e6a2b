//! Whether one symbol decides a formula.

ghost use Rattle.std.specs.Prelude.{◌↔◌, IsTrue};
ghost use Rattle.path_formula.specs.Solutions.{AtomIsOver, IsOver, AreOver};
ghost use Rattle.path_formula.specs.View.{view, views};

use crate::atom::AtomKind;
use crate::formula::Formula;
use sn_width::{SymId, Width};

fn is_atom_over(atom: AtomKind, symbol: SymId, width: Width, left: Width, right: Width) -> bool
    ensures { IsTrue result ↔ AtomIsOver symbol width atom left right }
{
    match atom {
        AtomKind::Constant => true,
        AtomKind::Single { symbol: found } => found == symbol && left == width && right == width,
        AtomKind::Pair => false,
        AtomKind::Outside => false,
    }
}

#[cycle(over)]
pub(crate) fn is_over_of(formula: &Formula, symbol: SymId, width: Width) -> bool
    ensures { IsTrue result ↔ IsOver symbol width (view formula.now) }
{
    match formula {
        Formula::Truth(_) => true,
        Formula::Compare { left, right, .. } => {
            let atom = AtomKind::of_comparison(left, right);
            is_atom_over(atom, symbol, width, left.width(), right.width())
        }
        Formula::Member { value, ranges } => {
            let atom = AtomKind::of_membership(value);
            is_atom_over(atom, symbol, width, value.width(), ranges.width())
        }
        Formula::And(parts) => are_over(parts, symbol, width),
        Formula::Or(parts) => are_over(parts, symbol, width),
        Formula::Not(part) => is_over_of(part, symbol, width),
    }
}

#[cycle(over)]
fn are_over(parts: &Vec<Formula>, symbol: SymId, width: Width) -> bool
    ensures { IsTrue result ↔ AreOver symbol width (views parts.now.items) }
{
    for part in parts {
        if !is_over_of(part, symbol, width) {
            return false;
        }
    }
    true
}
