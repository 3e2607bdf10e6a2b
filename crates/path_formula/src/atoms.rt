//! The cases of comparisons and memberships.

ghost use Rattle.std.specs.Prelude.{◌≡◌, ◌≤◌, ◌<◌, ◌^◌, [], map, IfOk};
ghost use Rattle.path_formula.specs.Atoms.{comparison_kind, membership_kind};
ghost use Rattle.path_formula.specs.Formulas.{compared, belongs, truth_at};
ghost use Rattle.path_formula.specs.Solutions.{IsOver, agrees, alone};
ghost use Rattle.path_formula.specs.View.{view};
ghost use Rattle.path_formula.specs.Bounds.{lists_of};
ghost use Rattle.path_formula.specs.Cases.{constant_cases, range_case, single_cases, relation_with, cases_of};
ghost use Rattle.path_formula.specs.Splits.{AtomCanSplit};

use crate::pairs::{pair, regions_with};
use crate::sym_bound::SymBound;
use crate::{AtomKind, Formula, Shape};
use lin_term::Term;
use sn_ranges::Ranges;
use sn_width::{NoMemory, Num, Rel, SymId, Width};
use std::alloc::Global;

/// Whether the truth is `holds`.
pub(crate) fn agree(holds: bool, truth: bool) -> bool
    ensures { result ≡ agrees holds truth }
{
    if holds { truth } else { !truth }
}

/// The relation that holds exactly where this one has the truth `holds`.
pub(crate) fn relation(holds: bool, rel: Rel) -> Rel
    ensures { result ≡ relation_with holds rel }
{
    if holds {
        return rel;
    }
    match rel {
        Rel::Eq => Rel::Ne,
        Rel::Ne => Rel::Eq,
        Rel::Lt => Rel::Ge,
        Rel::Le => Rel::Gt,
        Rel::Gt => Rel::Le,
        Rel::Ge => Rel::Lt,
    }
}

/// One case without bounds where the truth is true, and none where it is false.
pub(crate) fn constant(alloc: Global, truth: bool) -> Result<Vec<Vec<SymBound>>, NoMemory>
    ensures { IfOk result (λ cases. lists_of cases.items ≡ constant_cases truth) }
{
    let mut cases = Vec::new(alloc);
    if truth {
        cases.push(Vec::new(alloc))?;
    }
    Ok(cases)
}

/// The symbol lies in the range.
fn within(alloc: Global, symbol: SymId, range: (Num, Num)) -> Result<Vec<SymBound>, NoMemory>
    requires first { range.0 < 2 ^ 64 }
    requires last { range.1 < 2 ^ 64 }
    ensures { IfOk result (λ case. case.items ≡ range_case symbol range) }
{
    let (first, last) = range;
    let lower = SymBound {
        plus: None,
        minus: Some(symbol),
        at_most: -(first as i128),
    };
    let upper = SymBound {
        plus: Some(symbol),
        minus: None,
        at_most: last as i128,
    };
    let mut case = Vec::with_capacity(alloc, 2)?;
    case.push(lower)?;
    case.push(upper)?;
    Ok(case)
}

/// A case for each range of the set, whose values are of at most 64 bits: the symbol lies in it.
pub fn range_cases(
    alloc: Global,
    symbol: SymId,
    set: &Ranges,
) -> Result<Vec<Vec<SymBound>>, NoMemory>
    requires { set.now.width ≤ 64 }
    ensures { IfOk result (λ cases. lists_of cases.items ≡ map (range_case symbol) set.now.pairs) }
{
    prove!(set.width().bits() <= 64);
    let mut cases = Vec::new(alloc);
    for index in 0..set.len() {
        let Some(range) = set.range(index) else {
            return Ok(cases);
        };
        cases.push(within(alloc, symbol, range)?)?;
    }
    Ok(cases)
}

/// The cases of an atom that is single on the symbol.
fn single(
    alloc: Global,
    atom: &Formula,
    symbol: SymId,
    width: Width,
    holds: bool,
) -> Result<Vec<Vec<SymBound>>, NoMemory>
    requires over { IsOver symbol width (view atom.now) }
    requires narrow { width ≤ 64 }
    ensures { IfOk result (λ cases. lists_of cases.items
        ≡ single_cases symbol width (λ x. agrees holds (truth_at (view atom.now) (alone symbol x)))) }
{
    let set = atom.solutions(alloc, symbol, width, holds)?;
    range_cases(alloc, symbol, &set)
}

/// The cases of the comparison that is this formula.
pub(crate) fn comparison(
    alloc: Global,
    atom: &Formula,
    rel: Rel,
    left: &Term,
    right: &Term,
    holds: bool,
) -> Result<Vec<Vec<SymBound>>, NoMemory>
    requires is { view atom.now ≡ compared rel left.now right.now }
    requires splits { AtomCanSplit (comparison_kind left.now right.now) left.now.width right.now.width }
    ensures { IfOk result (λ cases. lists_of cases.items ≡ cases_of (compared rel left.now right.now) holds) }
{
    match AtomKind::of_comparison(left, right) {
        AtomKind::Constant => constant(alloc, agree(holds, atom.truth(&[]))),
        AtomKind::Single { symbol } => single(alloc, atom, symbol, left.width(), holds),
        AtomKind::Pair => match (Shape::of(left), Shape::of(right)) {
            (Shape::Symbol { symbol: s }, Shape::Symbol { symbol: r }) => {
                pair(
                    alloc,
                    relation(holds, rel),
                    regions_with(s, left),
                    regions_with(r, right),
                )
            }
            _ => Ok(Vec::new(alloc)),
        },
        AtomKind::Outside => Ok(Vec::new(alloc)),
    }
}

/// The cases of the membership that is this formula.
pub(crate) fn membership(
    alloc: Global,
    atom: &Formula,
    value: &Term,
    set: &Ranges,
    holds: bool,
) -> Result<Vec<Vec<SymBound>>, NoMemory>
    requires is { view atom.now ≡ belongs value.now set.now }
    requires splits { AtomCanSplit (membership_kind value.now) value.now.width set.now.width }
    ensures { IfOk result (λ cases. lists_of cases.items ≡ cases_of (belongs value.now set.now) holds) }
{
    match AtomKind::of_membership(value) {
        AtomKind::Constant => constant(alloc, agree(holds, atom.truth(&[]))),
        AtomKind::Single { symbol } => single(alloc, atom, symbol, value.width(), holds),
        AtomKind::Pair => Ok(Vec::new(alloc)),
        AtomKind::Outside => Ok(Vec::new(alloc)),
    }
}
