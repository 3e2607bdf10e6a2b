//! What the tests build of plain rows: widths, terms and formulas; and what a set is compared with.

ghost use Rattle.std.specs.Prelude.{◌≡◌, ◌≤◌};

use lin_term::Term;
use path_formula::Formula;
use sn_ranges::Ranges;
use sn_width::{Num, Rel, SymId, Width};
use std::alloc::Global;
use std::process::Abort;

/// A side of a comparison, or of a sum or a difference.
#[derive(Clone, Copy)]
pub(crate) enum Side {
    Number(Num),
    Symbol(u64),
    /// A symbol plus a number.
    Plus(u64, Num),
    /// The sum of two symbols.
    Both(u64, u64),
}

/// A formula without parts.
#[derive(Clone, Copy)]
pub(crate) enum Atom {
    Compare(Side, Rel, Side),
    /// The side lies between two numbers, or is one of them.
    Within(Side, Num, Num),
}

pub(crate) const RELS: [Rel; 6] = [Rel::Eq, Rel::Ne, Rel::Lt, Rel::Le, Rel::Gt, Rel::Ge];

/// The width of `count` bits.
pub(crate) fn bits(count: u8) -> Width
    requires least { 1 ≤ count }
    requires most { count ≤ 128 }
    ensures { result ≡ count }
{
    match Width::new(count) {
        None => unreachable!(),
        Some(width) => width,
    }
}

/// The number, or the width's greatest value where that is less.
#[tactic(auto, using(std::proofs::lemmas::Nat::pow_pos))]
fn number(rt: &impl Abort, alloc: Global, width: Width, value: Num) -> Term
    ensures { result.width ≡ width }
{
    Term::of_const(alloc, width, value.min(width.max())).expect(rt, "memory")
}

fn symbol(rt: &impl Abort, alloc: Global, width: Width, id: u64) -> Term
    ensures { result.width ≡ width }
{
    Term::of_symbol(alloc, width, SymId(id)).expect(rt, "memory")
}

/// The symbol plus a term.
fn plus(rt: &impl Abort, alloc: Global, width: Width, id: u64, other: Term) -> Term
    requires { other.width ≡ width }
    ensures { result.width ≡ width }
{
    let symbol = symbol(rt, alloc, width, id);
    symbol.plus(alloc, &other).expect(rt, "memory")
}

/// The term of a side.
pub(crate) fn term(rt: &impl Abort, alloc: Global, width: Width, side: Side) -> Term
    ensures { result.width ≡ width }
{
    match side {
        Side::Number(value) => number(rt, alloc, width, value),
        Side::Symbol(id) => symbol(rt, alloc, width, id),
        Side::Plus(id, value) => {
            let other = number(rt, alloc, width, value);
            plus(rt, alloc, width, id, other)
        }
        Side::Both(first, second) => {
            let other = symbol(rt, alloc, width, second);
            plus(rt, alloc, width, first, other)
        }
    }
}

/// The side lies between two numbers, or is one of them.
fn within(rt: &impl Abort, alloc: Global, width: Width, side: Side, ends: (Num, Num)) -> Formula {
    let ranges = Ranges::from_list(alloc, width, &[ends]).expect(rt, "ranges");
    let value = term(rt, alloc, width, side);
    Formula::member(alloc, value, ranges).expect(rt, "memory")
}

/// The formula of an atom.
pub(crate) fn formula(rt: &impl Abort, alloc: Global, width: Width, atom: Atom) -> Formula {
    match atom {
        Atom::Compare(left, rel, right) => {
            let left = term(rt, alloc, width, left);
            let right = term(rt, alloc, width, right);
            Formula::Compare { rel, left, right }
        }
        Atom::Within(side, first, last) => within(rt, alloc, width, side, (first, last)),
    }
}

/// Drops the formula, which is proved once here and not in each caller.
pub(crate) fn let_go(_formula: Formula) {}

/// Whether the set's ranges are these.
pub(crate) fn shows(set: &Ranges, ranges: &[(Num, Num)]) -> bool {
    for (index, range) in ranges.iter().enumerate() {
        if set.range(index) != Some(*range) {
            return false;
        }
    }
    set.len() == ranges.len()
}

/// Asserts that the numbers are the same.
pub(crate) fn same(rt: &impl Abort, found: Num, wanted: Num) {
    assert_eq!(rt; found, wanted);
}
