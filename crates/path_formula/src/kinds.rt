//! The kind of a formula.

ghost use Rattle.std.specs.Prelude.{◌≡◌, ◌||◌};
ghost use Rattle.path_formula.specs.Kinds.{atoms_of, atoms_among, is_hard, is_inside_kind, is_outside_kind, is_simple_on, kind_of};
ghost use Rattle.path_formula.specs.Summaries.{symbols_with, blank, noted, noted_atom};
ghost use Rattle.path_formula.specs.View.{view, views};

use crate::atom::{AtomKind, WIDEST_PAIR};
use crate::formula::Formula;
use crate::truth::truth_of;
use sn_width::{SymId, Width};

/// What decides a formula.
#[derive(Clone, Copy, PartialEq, Eq)]
pub enum Kind {
    /// Nothing: it has this truth, whatever the values are.
    Constant(bool),
    /// The value of one symbol, which is compared with constants alone.
    Simple { symbol: SymId },
    /// Differences of the values of symbols of at most 64 bits.
    Inside,
    /// More than that.
    Outside,
}

impl Kind {
    /// Whether the formula is inside.
    pub fn is_inside(self) -> bool
        ensures { result ≡ is_inside_kind self }
    {
        match self {
            Kind::Constant(_) => false,
            Kind::Simple { .. } => false,
            Kind::Inside => true,
            Kind::Outside => false,
        }
    }

    /// Whether the formula is outside.
    pub fn is_outside(self) -> bool
        ensures { result ≡ is_outside_kind self }
    {
        match self {
            Kind::Constant(_) => false,
            Kind::Simple { .. } => false,
            Kind::Inside => false,
            Kind::Outside => true,
        }
    }

    /// Whether the formula is simple on the symbol.
    pub fn is_on(self, symbol: SymId) -> bool
        ensures { result ≡ is_simple_on symbol self }
    {
        match self {
            Kind::Simple { symbol: found } => found == symbol,
            Kind::Constant(_) => false,
            Kind::Inside => false,
            Kind::Outside => false,
        }
    }
}

/// What the atoms so far that are not constant are single on.
#[derive(Clone, Copy)]
pub(crate) enum Symbols {
    /// There is no such atom.
    Nothing,
    /// Each is single on this symbol.
    Only { symbol: SymId },
    /// They are single on several, or not all are single.
    More,
}

/// What the kind of a formula goes by, of the atoms so far.
#[derive(Clone, Copy)]
pub(crate) struct Summary {
    symbols: Symbols,
    /// An atom is outside, or not constant and wider than a pair may be.
    hard: bool,
}

impl Symbols {
    /// With one more atom.
    fn with(self, atom: AtomKind) -> Symbols
        ensures { result ≡ symbols_with self atom }
    {
        match (self, atom) {
            (symbols, AtomKind::Constant) => symbols,
            (Symbols::Nothing, AtomKind::Single { symbol }) => Symbols::Only { symbol },
            (Symbols::Only { symbol: first }, AtomKind::Single { symbol }) => {
                if first == symbol {
                    Symbols::Only { symbol: first }
                } else {
                    Symbols::More
                }
            }
            _ => Symbols::More,
        }
    }
}

impl Summary {
    fn new() -> Summary
        ensures { result ≡ blank }
    {
        Summary {
            symbols: Symbols::Nothing,
            hard: false,
        }
    }

    /// With one more atom.
    fn with(self, atom: AtomKind, width: Width) -> Summary
        ensures { result ≡ noted_atom self (atom, width) }
    {
        Summary {
            symbols: self.symbols.with(atom),
            hard: self.hard || is_hard_atom(atom, width),
        }
    }
}

fn is_hard_atom(atom: AtomKind, width: Width) -> bool
    ensures { result ≡ is_hard (atom, width) }
{
    match atom {
        AtomKind::Constant => false,
        AtomKind::Single { .. } => width.bits() > WIDEST_PAIR,
        AtomKind::Pair => width.bits() > WIDEST_PAIR,
        AtomKind::Outside => true,
    }
}

/// With the atoms of one more formula.
#[cycle(note)]
fn note(summary: Summary, formula: &Formula) -> Summary
    ensures { result ≡ noted summary (atoms_of (view formula.now)) }
{
    match formula {
        Formula::Truth(_) => summary,
        Formula::Compare { left, right, .. } => {
            summary.with(AtomKind::of_comparison(left, right), left.width())
        }
        Formula::Member { value, .. } => {
            summary.with(AtomKind::of_membership(value), value.width())
        }
        Formula::And(parts) => note_all(summary, parts),
        Formula::Or(parts) => note_all(summary, parts),
        Formula::Not(part) => note(summary, part),
    }
}

#[cycle(note)]
fn note_all(mut summary: Summary, parts: &Vec<Formula>) -> Summary
    ensures { result ≡ noted summary (atoms_among (views parts.now.items)) }
{
    for part in parts {
        summary = note(summary, part);
    }
    summary
}

/// The kind of the formula.
#[tactic(auto, using(crate::proofs::Noting::kind_among_noted))]
pub(crate) fn kind_of_formula(formula: &Formula) -> Kind
    ensures { result ≡ kind_of (view formula.now) }
{
    let summary = note(Summary::new(), formula);
    match summary.symbols {
        Symbols::Nothing => Kind::Constant(truth_of(formula, &[])),
        Symbols::Only { symbol } => Kind::Simple { symbol },
        Symbols::More => {
            if summary.hard {
                Kind::Outside
            } else {
                Kind::Inside
            }
        }
    }
}
