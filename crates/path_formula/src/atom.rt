//! Comparisons and memberships, by what they compare.

ghost use Rattle.std.specs.Prelude.{◌≡◌};
ghost use Rattle.path_formula.specs.Terms.{shape_of, same_term};

use lin_term::Term;
use sn_width::SymId;

/// The widest comparison of two symbols that is a pair, in bits.
pub const WIDEST_PAIR: u8 = 64;

/// The form of a term.
#[derive(Clone, Copy, PartialEq, Eq)]
pub enum Shape {
    /// A constant.
    Number,
    /// One symbol, whose coefficient is 1, plus a constant.
    Symbol { symbol: SymId },
    /// Any other term.
    Other,
}

impl Shape {
    /// The form of the term.
    pub fn of(term: &Term) -> Shape
        ensures { result ≡ shape_of term.now }
    {
        match (term.part(0), term.part(1)) {
            (None, _) => Shape::Number,
            (Some((symbol, 1)), None) => Shape::Symbol { symbol },
            _ => Shape::Other,
        }
    }
}

/// The kind of a comparison or a membership.
#[derive(Clone, Copy, PartialEq, Eq)]
pub enum AtomKind {
    /// Its truth does not go by the values of symbols: it has constants alone, or one term twice.
    Constant,
    /// A symbol plus a constant against a constant, on either side, or in a set.
    Single { symbol: SymId },
    /// A symbol plus a constant against a symbol plus a constant, of at most 64 bits.
    Pair,
    /// Any other.
    Outside,
}

impl AtomKind {
    ghost use Rattle.path_formula.specs.Atoms.{comparison_kind, membership_kind};

    /// The kind of a comparison of the two terms.
    pub fn of_comparison(left: &Term, right: &Term) -> AtomKind
        ensures { result ≡ comparison_kind left.now right.now }
    {
        if same_terms(left, right) {
            return AtomKind::Constant;
        }
        match (Shape::of(left), Shape::of(right)) {
            (Shape::Number, Shape::Number) => AtomKind::Constant,
            (Shape::Symbol { symbol }, Shape::Number) => AtomKind::Single { symbol },
            (Shape::Number, Shape::Symbol { symbol }) => AtomKind::Single { symbol },
            (Shape::Symbol { .. }, Shape::Symbol { .. }) => {
                if left.width().bits() <= WIDEST_PAIR {
                    AtomKind::Pair
                } else {
                    AtomKind::Outside
                }
            }
            _ => AtomKind::Outside,
        }
    }

    /// The kind of a membership of the term in a set.
    pub fn of_membership(term: &Term) -> AtomKind
        ensures { result ≡ membership_kind term.now }
    {
        match Shape::of(term) {
            Shape::Number => AtomKind::Constant,
            Shape::Symbol { symbol } => AtomKind::Single { symbol },
            Shape::Other => AtomKind::Outside,
        }
    }
}

/// Whether the two terms are the same.
fn same_terms(left: &Term, right: &Term) -> bool
    ensures { result ≡ same_term left.now right.now }
{
    left.same(right)
}
