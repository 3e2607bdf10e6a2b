//! Cases of formulas.

use crate::build::Atom::*;
use crate::build::Side::*;
use crate::build::{Atom, RELS, bits, formula, let_go};
use Plain::{Less, Lower, Upper};
use path_formula::{Formula, SymBound, can_split, case_count_of, case_laws, cases};
use sn_width::{Num, Rel, SymId};
use std::alloc::Global;
use std::process::Abort;

/// A bound on a symbol, on the opposite of one, or on symbol 0 less symbol 1.
enum Plain {
    Upper(u64, i128),
    Lower(u64, i128),
    Less(i128),
}

fn is_bound(found: &SymBound, plain: &Plain) -> bool {
    let (plus, minus, at_most) = match plain {
        Upper(id, at_most) => (Some(SymId(*id)), None, *at_most),
        Lower(id, at_most) => (None, Some(SymId(*id)), *at_most),
        Less(at_most) => (Some(SymId(0)), Some(SymId(1)), *at_most),
    };
    found.plus == plus && found.minus == minus && found.at_most == at_most
}

fn are_bounds(found: &[SymBound], plain: &[Plain]) -> bool {
    for (bound, wanted) in found.iter().zip(plain.iter()) {
        if !is_bound(bound, wanted) {
            return false;
        }
    }
    found.len() == plain.len()
}

/// Cases such that one is met where a formula has a truth.
type Cases = Vec<Vec<SymBound>>;

fn are_cases(found: &Cases, plain: &[&[Plain]]) -> bool {
    for (case, bounds) in found.iter().zip(plain.iter()) {
        if !are_bounds(case.as_slice(), bounds) {
            return false;
        }
    }
    found.len() == plain.len()
}

fn count(rt: &impl Abort, alloc: Global, formula: &Formula, holds: bool) -> u64 {
    assert!(rt; can_split(formula));
    case_count_of(alloc, formula, holds).expect(rt, "memory")
}

/// Asserts the number of cases of a formula.
fn check_number(rt: &impl Abort, alloc: Global, formula: &Formula, holds: bool, wanted: u64) {
    let count = count(rt, alloc, formula, holds);
    assert_eq!(rt; count, wanted);
}

/// The cases of a formula; the count says how many there are.
fn found(rt: &impl Abort, alloc: Global, formula: &Formula, holds: bool) -> Cases {
    assert!(rt; can_split(formula));
    let found = cases(alloc, formula, holds).expect(rt, "memory");
    check_number(rt, alloc, formula, holds, found.len() as u64);
    found
}

/// Atoms, and the cases in which each is true.
const TRUE: &[(Atom, &[&[Plain]])] = &[
    // a pair has a case for each choice of regions
    (
        Compare(Plus(0, 1), Rel::Lt, Plus(1, 2)),
        &[
            &[Upper(0, 254), Upper(1, 253), Less(0)],
            &[Upper(0, 254), Lower(1, -254), Less(-256)],
            &[Lower(0, -255), Upper(1, 253), Less(256)],
            &[Lower(0, -255), Lower(1, -254), Less(0)],
        ],
    ),
    // a single has a case for each range
    (
        Compare(Plus(0, 1), Rel::Lt, Number(5)),
        &[
            &[Lower(0, 0), Upper(0, 3)],
            &[Lower(0, -255), Upper(0, 255)],
        ],
    ),
];

/// Asserts the cases in which the formula is true.
fn check(rt: &impl Abort, alloc: Global, formula: &Formula, wanted: &[&[Plain]]) {
    let found = found(rt, alloc, formula, true);
    assert!(rt; are_cases(&found, wanted));
}

fn check_atom(rt: &impl Abort, alloc: Global, atom: Atom, wanted: &[&[Plain]]) {
    let formula = formula(rt, alloc, bits(8), atom);
    check(rt, alloc, &formula, wanted);
    let_go(formula);
}

#[test]
fn atoms_have_a_case_for_each_range_and_choice_of_regions(rt: HostRuntime) {
    for (atom, wanted) in TRUE {
        check_atom(&rt, rt.alloc(), *atom, wanted);
    }
}

/// Asserts the number of cases, as they are listed and as they are counted.
fn check_length(rt: &impl Abort, alloc: Global, formula: &Formula, holds: bool, length: usize) {
    let found = found(rt, alloc, formula, holds);
    assert_eq!(rt; found.len(), length);
}

/// Asserts the numbers of cases in which the formula is true, and in which it is false; it ends here.
fn check_lengths(rt: &impl Abort, alloc: Global, formula: Formula, lengths: (usize, usize)) {
    check_length(rt, alloc, &formula, true, lengths.0);
    check_length(rt, alloc, &formula, false, lengths.1);
    let_go(formula);
}

#[test]
fn pairs_that_differ_have_more_cases(rt: HostRuntime) {
    let differ = Compare(Plus(0, 1), Rel::Ne, Plus(1, 0));
    let formula = formula(&rt, rt.alloc(), bits(8), differ);
    check_lengths(&rt, rt.alloc(), formula, (4, 2));
}

fn negated(rt: &impl Abort, alloc: Global, part: Formula) -> Formula {
    Formula::Not(Box::new(alloc, part).expect(rt, "memory"))
}

#[test]
fn constants_have_a_case_where_they_hold(rt: HostRuntime) {
    let not = negated(&rt, rt.alloc(), Formula::Truth(true));
    check_lengths(&rt, rt.alloc(), not, (0, 1));
}

fn push(rt: &impl Abort, parts: &mut Vec<Formula>, part: Formula) {
    parts.push(part).expect(rt, "memory");
}

fn two(rt: &impl Abort, alloc: Global, first: Formula, second: Formula) -> Vec<Formula> {
    vec![in alloc; first, second].expect(rt, "memory")
}

/// The symbol is less than the number.
fn below(rt: &impl Abort, alloc: Global, id: u64, number: Num) -> Formula {
    let less = Compare(Symbol(id), Rel::Lt, Number(number));
    formula(rt, alloc, bits(8), less)
}

/// The symbol is less than the one number or the other.
fn below_either(rt: &impl Abort, alloc: Global, id: u64, numbers: (Num, Num)) -> Formula {
    let first = below(rt, alloc, id, numbers.0);
    let second = below(rt, alloc, id, numbers.1);
    Formula::Or(two(rt, alloc, first, second))
}

/// The cases of `x < 2` or `x < 3`, and `y < 4` or `y < 5`.
const CHOICES: &[&[Plain]] = &[
    &[Lower(0, 0), Upper(0, 1), Lower(1, 0), Upper(1, 3)],
    &[Lower(0, 0), Upper(0, 1), Lower(1, 0), Upper(1, 4)],
    &[Lower(0, 0), Upper(0, 2), Lower(1, 0), Upper(1, 3)],
    &[Lower(0, 0), Upper(0, 2), Lower(1, 0), Upper(1, 4)],
];

#[test]
fn choices_vary_the_last_member_fastest(rt: HostRuntime) {
    let x = below_either(&rt, rt.alloc(), 0, (2, 3));
    let y = below_either(&rt, rt.alloc(), 1, (4, 5));
    let both = Formula::And(two(&rt, rt.alloc(), x, y));
    check(&rt, rt.alloc(), &both, CHOICES);
    let_go(both);
}

#[test]
fn laws_are_there_to_cite() {
    case_laws::one_case_is_met_exactly_where_the_formula_has_the_truth();
}

/// Adds that two symbols differ.
fn push_differ(rt: &impl Abort, alloc: Global, parts: &mut Vec<Formula>) {
    let differ = Compare(Symbol(0), Rel::Ne, Symbol(1));
    push(rt, parts, formula(rt, alloc, bits(8), differ));
}

/// That two symbols differ, `times` times.
fn all_differ(rt: &impl Abort, alloc: Global, times: u32) -> Formula {
    let mut parts = Vec::new(alloc);
    for _ in 0..times {
        push_differ(rt, alloc, &mut parts);
    }
    Formula::And(parts)
}

const COUNTS: &[(u32, bool, u64)] = &[
    (13, true, 8192),
    (65, true, 18446744073709551615),
    (65, false, 65),
];

fn check_count(rt: &impl Abort, alloc: Global, times: u32, holds: bool, wanted: u64) {
    let formula = all_differ(rt, alloc, times);
    check_number(rt, alloc, &formula, holds, wanted);
    let_go(formula);
}

#[test]
fn counts_are_capped(rt: HostRuntime) {
    for (times, holds, wanted) in COUNTS {
        check_count(&rt, rt.alloc(), *times, *holds, *wanted);
    }
}

/// The value of a symbol, or 0.
fn value(symbol: Option<SymId>, values: &[u8]) -> i128 {
    match symbol {
        None => 0,
        Some(symbol) => i128::from(values.get(symbol.0 as usize).copied().unwrap_or(0)),
    }
}

fn is_met(case: &Vec<SymBound>, values: &[u8]) -> bool {
    for bound in case {
        let difference = value(bound.plus, values).saturating_sub(value(bound.minus, values));
        if difference > bound.at_most {
            return false;
        }
    }
    true
}

fn is_one_met(found: &Cases, values: &[u8]) -> bool {
    for case in found {
        if is_met(case, values) {
            return true;
        }
    }
    false
}

/// Whether, at all values of two symbols of 2 bits, a case is met exactly where the formula has the truth.
fn are_right(found: &Cases, formula: &Formula, holds: bool) -> bool {
    for both in 0..16u8 {
        let (x, y) = (both / 4, both % 4);
        let truth = formula.truth(&[Num::from(x), Num::from(y)]);
        if is_one_met(found, &[x, y]) != (truth == holds) {
            return false;
        }
    }
    true
}

/// Asserts that the cases of the formula are right.
fn check_cases(rt: &impl Abort, alloc: Global, formula: &Formula, holds: bool) {
    let found = found(rt, alloc, formula, holds);
    assert!(rt; are_right(&found, formula, holds));
}

/// Asserts that the cases of the atom are right, for both truths.
fn check_relation(rt: &impl Abort, alloc: Global, atom: Atom) {
    let formula = formula(rt, alloc, bits(2), atom);
    check_cases(rt, alloc, &formula, true);
    check_cases(rt, alloc, &formula, false);
    let_go(formula);
}

#[test]
fn cases_are_met_where_the_formula_is_true(rt: HostRuntime) {
    for rel in RELS {
        for both in 0..16u8 {
            let left = Plus(0, Num::from(both / 4));
            let right = Plus(1, Num::from(both % 4));
            check_relation(&rt, rt.alloc(), Compare(left, rel, right));
        }
    }
}
