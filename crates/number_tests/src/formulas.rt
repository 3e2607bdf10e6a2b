//! Formulas, their kinds and their solutions.

use crate::build::Atom::*;
use crate::build::Side::*;
use crate::build::{Atom, RELS, Side, bits, formula, let_go, shows, term};
use path_formula::{AtomKind, Formula, Kind, Shape, laws};
use sn_ranges::Ranges;
use sn_width::{Num, Rel, SymId, Width};
use std::alloc::Global;
use std::process::Abort;

const X: Side = Symbol(0);

const NEXT: Side = Plus(0, 1);

const DOUBLED: Side = Both(0, 0);

const SINGLE: AtomKind = AtomKind::Single { symbol: SymId(0) };

const SIMPLE: Kind = Kind::Simple { symbol: SymId(0) };

/// Two sides, the kind of their comparison, and that of the formula that they are equal.
const COMPARISONS: &[(Side, Side, AtomKind, Kind)] = &[
    (NEXT, Number(5), SINGLE, SIMPLE),
    (Number(5), NEXT, SINGLE, SIMPLE),
    (
        Number(5),
        Number(5),
        AtomKind::Constant,
        Kind::Constant(true),
    ),
    (X, Symbol(1), AtomKind::Pair, Kind::Inside),
    (X, NEXT, AtomKind::Pair, Kind::Inside),
    (X, X, AtomKind::Constant, Kind::Constant(true)),
    (DOUBLED, DOUBLED, AtomKind::Constant, Kind::Constant(true)),
    (DOUBLED, Number(5), AtomKind::Outside, Kind::Outside),
    (DOUBLED, Number(2), AtomKind::Outside, Kind::Outside),
];

/// A side, its form, and the kind of its membership.
const MEMBERSHIPS: &[(Side, Shape, AtomKind)] = &[
    (NEXT, Shape::Symbol { symbol: SymId(0) }, SINGLE),
    (DOUBLED, Shape::Other, AtomKind::Outside),
    (Number(5), Shape::Number, AtomKind::Constant),
];

/// Asserts the kind of a comparison.
fn check_comparison(rt: &impl Abort, alloc: Global, left: Side, right: Side, kind: AtomKind) {
    let left = term(rt, alloc, bits(8), left);
    let right = term(rt, alloc, bits(8), right);
    assert!(rt; AtomKind::of_comparison(&left, &right) == kind);
}

/// Asserts the kind of a formula, which ends here.
fn check_kind(rt: &impl Abort, formula: Formula, kind: Kind) {
    assert!(rt; formula.kind() == kind);
    let_go(formula);
}

#[test]
fn comparisons_have_their_kinds(rt: HostRuntime) {
    for (left, right, of_atom, of_formula) in COMPARISONS {
        check_comparison(&rt, rt.alloc(), *left, *right, *of_atom);
        let equal = Compare(*left, Rel::Eq, *right);
        check_kind(&rt, formula(&rt, rt.alloc(), bits(8), equal), *of_formula);
    }
}

/// Asserts the form of a side, and the kind of its membership.
fn check_membership(rt: &impl Abort, alloc: Global, side: Side, shape: Shape, kind: AtomKind) {
    let term = term(rt, alloc, bits(8), side);
    assert!(rt; Shape::of(&term) == shape);
    assert!(rt; AtomKind::of_membership(&term) == kind);
}

#[test]
fn memberships_have_their_kinds(rt: HostRuntime) {
    for (side, shape, kind) in MEMBERSHIPS {
        check_membership(&rt, rt.alloc(), *side, *shape, *kind);
    }
}

/// The symbol is less than the number.
fn below(rt: &impl Abort, alloc: Global, width: Width, id: u64, bound: Num) -> Formula {
    formula(
        rt,
        alloc,
        width,
        Compare(Symbol(id), Rel::Lt, Number(bound)),
    )
}

fn push(rt: &impl Abort, parts: &mut Vec<Formula>, part: Formula) {
    parts.push(part).expect(rt, "memory");
}

/// Two formulas on symbol 0, and true.
fn on_one_symbol(rt: &impl Abort, alloc: Global) -> Formula {
    let mut parts = Vec::new(alloc);
    push(rt, &mut parts, below(rt, alloc, bits(8), 0, 5));
    push(rt, &mut parts, below(rt, alloc, bits(8), 0, 200));
    push(rt, &mut parts, Formula::Truth(true));
    Formula::And(parts)
}

fn negated(rt: &impl Abort, alloc: Global, part: Formula) -> Formula {
    Formula::Not(Box::new(alloc, part).expect(rt, "memory"))
}

fn either(rt: &impl Abort, alloc: Global, first: Formula, second: Formula) -> Formula {
    let mut parts = Vec::new(alloc);
    push(rt, &mut parts, first);
    push(rt, &mut parts, second);
    Formula::Or(parts)
}

/// The formula, whose kind this is.
fn of_kind(rt: &impl Abort, formula: Formula, kind: Kind) -> Formula {
    assert!(rt; formula.kind() == kind);
    formula
}

#[test]
fn formulas_of_one_symbol_are_simple(rt: HostRuntime) {
    let same = of_kind(&rt, on_one_symbol(&rt, rt.alloc()), SIMPLE);
    let not = of_kind(&rt, negated(&rt, rt.alloc(), same), SIMPLE);
    let second = below(&rt, rt.alloc(), bits(8), 1, 5);
    check_kind(&rt, either(&rt, rt.alloc(), not, second), Kind::Inside);
}

#[test]
fn none_of_no_parts_is_true(rt: HostRuntime) {
    let none = Formula::Or(Vec::new(rt.alloc()));
    assert!(rt; none.kind() == Kind::Constant(false));
    assert!(rt; !none.truth(&[]));
}

/// Asserts the kind of a copy, and that it is true where both symbols are 3, and not where the second is 4.
fn check_copy(rt: &impl Abort, alloc: Global, formula: &Formula, wanted: Kind) {
    let copy = formula.copy(alloc).expect(rt, "memory");
    assert!(rt; copy.truth(&[3, 3]) && !copy.truth(&[3, 4]));
    check_kind(rt, copy, wanted);
}

/// Asserts the kinds of formulas on each of two symbols.
fn check_either(rt: &impl Abort, alloc: Global, width: Width, wanted: Kind) {
    let first = of_kind(rt, below(rt, alloc, width, 0, 3), SIMPLE);
    let second = below(rt, alloc, width, 1, 4);
    let or = either(rt, alloc, first, second);
    check_copy(rt, alloc, &or, wanted);
    check_kind(rt, or, wanted);
}

/// Asserts the kinds of a comparison of two symbols, and of formulas on each.
fn check_pair(rt: &impl Abort, alloc: Global, width: Width, wanted: Kind) {
    let equal = Compare(Symbol(0), Rel::Eq, Symbol(1));
    check_kind(rt, formula(rt, alloc, width, equal), wanted);
    check_either(rt, alloc, width, wanted);
}

#[test]
fn wide_symbols_are_no_pairs(rt: HostRuntime) {
    for (count, kind) in [
        (64, Kind::Inside),
        (65, Kind::Outside),
        (128, Kind::Outside),
    ] {
        check_pair(&rt, rt.alloc(), bits(count), kind);
    }
}

/// Asserts the values of symbol 0, of 8 bits, for which the formula has the truth.
fn check_solutions(
    rt: &impl Abort,
    alloc: Global,
    formula: &Formula,
    holds: bool,
    ranges: &[(Num, Num)],
) {
    assert!(rt; formula.is_over(SymId(0), bits(8)));
    let set = formula
        .solutions(alloc, SymId(0), bits(8), holds)
        .expect(rt, "memory");
    assert!(rt; shows(&set, ranges));
}

/// Asserts that the formula is not over symbol 1, of 8 bits.
fn check_not_over(rt: &impl Abort, formula: &Formula) {
    assert!(rt; !formula.is_over(SymId(1), bits(8)));
}

#[test]
fn solutions_wrap(rt: HostRuntime) {
    let low = formula(&rt, rt.alloc(), bits(8), Compare(NEXT, Rel::Lt, Number(5)));
    check_not_over(&rt, &low);
    check_solutions(&rt, rt.alloc(), &low, true, &[(0, 3), (255, 255)]);
    check_solutions(&rt, rt.alloc(), &low, false, &[(4, 254)]);
    let_go(low);
}

/// An atom on a symbol of 3 bits, and its truth at each value.
type Tabled = (Atom, [bool; 8]);

/// The number that a side on the symbol is at a value of it.
fn number_at(side: Side, value: Num) -> Num {
    let number = match side {
        Number(number) => number,
        Symbol(_) => value,
        Plus(_, number) => value.wrapping_add(number),
        Both(_, _) => value.wrapping_add(value),
    };
    number & 7
}

fn is_true(atom: Atom, value: Num) -> bool {
    match atom {
        Compare(left, rel, right) => rel.holds(number_at(left, value), number_at(right, value)),
        Within(side, first, last) => {
            let number = number_at(side, value);
            first <= number && number <= last
        }
    }
}

fn tabled(atom: Atom) -> Tabled {
    let mut truths = [false; 8];
    for value in 0..8usize {
        truths[value] = is_true(atom, value as Num);
    }
    (atom, truths)
}

fn push_tabled(rt: &impl Abort, atoms: &mut Vec<Tabled>, atom: Atom) {
    atoms.push(tabled(atom)).expect(rt, "memory");
}

/// All comparisons of a symbol plus a constant with a constant on the right.
fn comparisons(rt: &impl Abort, alloc: Global) -> Vec<Tabled> {
    let mut atoms = Vec::new(alloc);
    for rel in RELS {
        for both in 0..64u8 {
            let left = Plus(0, Num::from(both / 8));
            let right = Number(Num::from(both % 8));
            push_tabled(rt, &mut atoms, Compare(left, rel, right));
        }
    }
    atoms
}

/// All memberships in one range, and the comparisons with the constant on the left.
fn other_atoms(rt: &impl Abort, alloc: Global) -> Vec<Tabled> {
    let mut atoms = Vec::new(alloc);
    for both in 0..64u8 {
        let right = Plus(0, Num::from(both / 8));
        let number = Num::from(both % 8);
        for rel in RELS {
            push_tabled(rt, &mut atoms, Compare(Number(number), rel, right));
        }
        for last in both % 8..8 {
            push_tabled(rt, &mut atoms, Within(right, number, Num::from(last)));
        }
    }
    atoms
}

/// Compares the members of a set with the truths at the eight values.
fn compare_set(rt: &impl Abort, set: &Ranges, truths: [bool; 8], holds: bool) {
    for value in 0..8usize {
        assert!(rt;
            set.has(value as Num) == (truths[value] == holds),
            "{value}"
        );
    }
    assert!(rt; !set.has(8));
}

/// Compares the numbers for which the formula has the truth with the truths at the eight values.
fn compare_solutions(
    rt: &impl Abort,
    alloc: Global,
    formula: &Formula,
    truths: [bool; 8],
    holds: bool,
) {
    assert!(rt; formula.is_over(SymId(0), bits(3)));
    let set = formula
        .solutions(alloc, SymId(0), bits(3), holds)
        .expect(rt, "memory");
    compare_set(rt, &set, truths, holds);
}

/// Compares the formula's solutions, for both truths, with the truths at the eight values.
fn compare(rt: &impl Abort, alloc: Global, formula: &Formula, truths: [bool; 8]) {
    compare_solutions(rt, alloc, formula, truths, true);
    compare_solutions(rt, alloc, formula, truths, false);
}

fn all_of(left: [bool; 8], right: [bool; 8]) -> [bool; 8] {
    let mut all = [false; 8];
    for value in 0..8usize {
        all[value] = left[value] && right[value];
    }
    all
}

fn any_of(left: [bool; 8], right: [bool; 8]) -> [bool; 8] {
    let mut all = [false; 8];
    for value in 0..8usize {
        all[value] = left[value] || right[value];
    }
    all
}

/// The two atoms.
fn two(rt: &impl Abort, alloc: Global, left: Atom, right: Atom) -> Formula {
    let mut parts = Vec::new(alloc);
    push(rt, &mut parts, formula(rt, alloc, bits(3), left));
    push(rt, &mut parts, formula(rt, alloc, bits(3), right));
    Formula::And(parts)
}

/// Any part of a formula, in place of all of them.
fn any_part(formula: Formula) -> Formula {
    match formula {
        Formula::And(parts) => Formula::Or(parts),
        _ => formula,
    }
}

fn compare_one(rt: &impl Abort, alloc: Global, atom: Tabled) {
    let formula = formula(rt, alloc, bits(3), atom.0);
    compare(rt, alloc, &formula, atom.1);
    let_go(formula);
}

/// Compares the solutions of both atoms, and of either.
fn compare_two(rt: &impl Abort, alloc: Global, left: Tabled, right: Tabled) {
    let and = two(rt, alloc, left.0, right.0);
    compare(rt, alloc, &and, all_of(left.1, right.1));
    let or = any_part(and);
    compare(rt, alloc, &or, any_of(left.1, right.1));
    let_go(or);
}

fn compare_others(rt: &impl Abort, alloc: Global) {
    for atom in &other_atoms(rt, alloc) {
        compare_one(rt, alloc, *atom);
    }
}

fn compare_all(rt: &impl Abort, alloc: Global, atoms: &[Tabled]) {
    for left in atoms {
        compare_one(rt, alloc, *left);
        for right in atoms {
            compare_two(rt, alloc, *left, *right);
        }
    }
}

#[test]
fn solutions_agree_with_plain_evaluation(rt: HostRuntime) {
    compare_others(&rt, rt.alloc());
    let atoms = comparisons(&rt, rt.alloc());
    compare_all(&rt, rt.alloc(), atoms.as_slice());
}

#[test]
fn laws_are_there_to_cite() {
    laws::a_constant_formula_has_one_truth();
    laws::a_simple_formula_goes_by_its_symbol();
    laws::a_simple_formula_may_stand_alone();
    laws::a_constant_formula_is_over_each_symbol();
    laws::a_simple_formula_is_over_its_symbol();
}
