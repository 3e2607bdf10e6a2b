//! What the tests build of plain rows: widths, terms, formulas and conditions.

ghost use Rattle.std.specs.Prelude.{◌≡◌, ◌≤◌, IsTrue};
ghost use Rattle.path_formula.specs.Typed.{IsTyped, TermIsTyped};
ghost use Rattle.path_formula.specs.View.{view as tree_of};

use lin_term::Term;
use path_cond::PathCond;
use path_formula::Formula;
use sn_ranges::Ranges;
use sn_width::{Num, Rel, SymId, Width};
use std::alloc::Global;
use std::process::Abort;

/// A side of a comparison.
#[derive(Clone, Copy)]
pub(crate) enum Side {
    Number(Num),
    Symbol(u64),
    /// A symbol plus a number.
    Plus(u64, Num),
    /// The sum of two symbols.
    Both(u64, u64),
}

/// A formula without parts.
#[derive(Clone, Copy)]
pub(crate) enum Atom {
    Truth(bool),
    Compare(Side, Rel, Side),
}

/// The width of `count` bits.
pub(crate) fn bits(count: u8) -> Width
    requires least { 1 ≤ count }
    requires most { count ≤ 128 }
    ensures { result ≡ count }
{
    match Width::new(count) {
        None => unreachable!(),
        Some(width) => width,
    }
}

/// The number, or the width's greatest value where that is less.
#[tactic(auto, using(std::proofs::lemmas::Nat::pow_pos))]
fn number(rt: &impl Abort, alloc: Global, width: Width, value: Num) -> Term
    ensures { result.width ≡ width }
{
    Term::of_const(alloc, width, value.min(width.max())).expect(rt, "memory")
}

fn symbol(rt: &impl Abort, alloc: Global, width: Width, id: u64) -> Term
    ensures { result.width ≡ width }
{
    Term::of_symbol(alloc, width, SymId(id)).expect(rt, "memory")
}

/// The symbol plus a term.
fn plus(rt: &impl Abort, alloc: Global, width: Width, id: u64, other: Term) -> Term
    requires { other.width ≡ width }
    ensures { result.width ≡ width }
{
    let symbol = symbol(rt, alloc, width, id);
    symbol.plus(alloc, &other).expect(rt, "memory")
}

/// The term of a side.
fn term(rt: &impl Abort, alloc: Global, width: Width, side: Side) -> Term
    ensures { result.width ≡ width }
{
    match side {
        Side::Number(value) => number(rt, alloc, width, value),
        Side::Symbol(id) => symbol(rt, alloc, width, id),
        Side::Plus(id, value) => {
            let other = number(rt, alloc, width, value);
            plus(rt, alloc, width, id, other)
        }
        Side::Both(first, second) => {
            let other = symbol(rt, alloc, width, second);
            plus(rt, alloc, width, first, other)
        }
    }
}

/// The formula of an atom.
pub(crate) fn formula(rt: &impl Abort, alloc: Global, width: Width, atom: Atom) -> Formula {
    match atom {
        Atom::Truth(truth) => Formula::Truth(truth),
        Atom::Compare(left, rel, right) => {
            let left = term(rt, alloc, width, left);
            let right = term(rt, alloc, width, right);
            Formula::Compare { rel, left, right }
        }
    }
}

/// Whether each symbol of the term, which has at most two, is one of the condition's, of the term's width.
fn is_term_of(cond: &PathCond, term: &Term) -> bool
    ensures { IsTrue result → TermIsTyped cond.now.widths term.now }
{
    for index in 0..3 {
        match term.part(index) {
            None => return true,
            Some((symbol, _)) => {
                if cond.width(symbol) != Some(term.width()) {
                    return false;
                }
            }
        }
    }
    false
}

fn is_comparison_of(cond: &PathCond, left: &Term, right: &Term) -> bool
    ensures same { IsTrue result → left.now.width ≡ right.now.width }
    ensures left { IsTrue result → TermIsTyped cond.now.widths left.now }
    ensures right { IsTrue result → TermIsTyped cond.now.widths right.now }
{
    if left.width() != right.width() {
        return false;
    }
    if !is_term_of(cond, left) {
        return false;
    }
    is_term_of(cond, right)
}

fn is_membership_of(cond: &PathCond, value: &Term, ranges: &Ranges) -> bool
    ensures same { IsTrue result → value.now.width ≡ ranges.now.width }
    ensures value { IsTrue result → TermIsTyped cond.now.widths value.now }
{
    if value.width() != ranges.width() {
        return false;
    }
    is_term_of(cond, value)
}

/// Whether the formula is a truth, or a comparison or a membership over the condition's symbols.
pub(crate) fn is_formula_of(cond: &PathCond, formula: &Formula) -> bool
    ensures { IsTrue result → IsTyped cond.now.widths (tree_of formula.now) }
{
    match formula {
        Formula::Truth(_) => true,
        Formula::Compare { left, right, .. } => is_comparison_of(cond, left, right),
        Formula::Member { value, ranges } => is_membership_of(cond, value, ranges),
        Formula::And(_) => false,
        Formula::Or(_) => false,
        Formula::Not(_) => false,
    }
}

/// The formula of an atom over the condition's symbols, which have this width.
pub(crate) fn formula_of(
    rt: &impl Abort,
    alloc: Global,
    cond: &PathCond,
    width: Width,
    atom: Atom,
) -> Formula
    ensures { IsTyped cond.now.widths (tree_of result) }
{
    let formula = formula(rt, alloc, width, atom);
    assert!(rt; is_formula_of(cond, &formula));
    formula
}

/// Drops the condition, which is proved once here and not in each caller.
pub(crate) fn let_go(_cond: PathCond) {}

/// The condition with the formula, which must have this truth.
pub(crate) fn with_formula(
    rt: &impl Abort,
    alloc: Global,
    cond: &PathCond,
    formula: Formula,
    holds: bool,
) -> PathCond
    requires { IsTyped cond.now.widths (tree_of formula) }
{
    cond.with(alloc, formula, holds).expect(rt, "memory")
}

/// The condition with the atom, which must have this truth.
pub(crate) fn with(
    rt: &impl Abort,
    alloc: Global,
    cond: PathCond,
    width: Width,
    atom: Atom,
    holds: bool,
) -> PathCond {
    let formula = formula_of(rt, alloc, &cond, width, atom);
    let next = with_formula(rt, alloc, &cond, formula, holds);
    let_go(cond);
    next
}

/// The bound on choices of cases where a test says no other.
const MOST_CHOICES: u64 = 4096;

/// `symbols` symbols of this width, of which at most `most` choices of cases are tried.
pub(crate) fn bounded(
    rt: &impl Abort,
    alloc: Global,
    width: Width,
    symbols: usize,
    most: u64,
) -> PathCond {
    let widths = vec![in alloc; width; symbols].expect(rt, "memory");
    PathCond::new(alloc, widths, most).expect(rt, "memory")
}

/// `symbols` symbols of this width.
pub(crate) fn free(rt: &impl Abort, alloc: Global, width: Width, symbols: usize) -> PathCond {
    bounded(rt, alloc, width, symbols, MOST_CHOICES)
}

/// `symbols` symbols of this width, and the atoms.
pub(crate) fn condition(
    rt: &impl Abort,
    alloc: Global,
    width: Width,
    symbols: usize,
    atoms: &[Atom],
) -> PathCond {
    let mut cond = free(rt, alloc, width, symbols);
    for atom in atoms {
        cond = with(rt, alloc, cond, width, *atom, true);
    }
    cond
}

/// That the two symbols differ.
pub(crate) fn differ(first: u64, second: u64) -> Atom {
    Atom::Compare(Side::Symbol(first), Rel::Ne, Side::Symbol(second))
}

/// Thirteen pairs of symbols of 8 bits that differ: 8,192 choices of cases, where at most `most` are tried.
pub(crate) fn thirteen_pairs(rt: &impl Abort, alloc: Global, most: u64) -> PathCond {
    let mut cond = bounded(rt, alloc, bits(8), 26, most);
    for pair in 0..13u64 {
        let atom = differ(2 * pair, 2 * pair + 1);
        cond = with(rt, alloc, cond, bits(8), atom, true);
    }
    cond
}

/// A symbol of 8 bits that differs from each of 64 others.
pub(crate) fn one_against_all(rt: &impl Abort, alloc: Global) -> PathCond {
    let mut cond = free(rt, alloc, bits(8), 65);
    for other in 1..65u64 {
        cond = with(rt, alloc, cond, bits(8), differ(0, other), true);
    }
    cond
}

/// Whether the set's ranges are these.
pub(crate) fn shows(set: &Ranges, ranges: &[(Num, Num)]) -> bool {
    for (index, range) in ranges.iter().enumerate() {
        if set.range(index) != Some(*range) {
            return false;
        }
    }
    set.len() == ranges.len()
}
