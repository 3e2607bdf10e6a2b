//! Conditions over two symbols of 2 bits, compared with plain evaluation at all sixteen pairs of values.

ghost use Rattle.std.specs.Prelude.{ℕ, List, IfOk};
ghost use Rattle.path_formula.specs.Typed.{IsTyped};
ghost use Rattle.path_formula.specs.View.{view as tree_of};

use super::{decided, is_accepted};
use crate::build::Atom::*;
use crate::build::Side::*;
use crate::build::{Atom, Side, bits, formula_of, free, let_go, with, with_formula};
use crate::plain::is_true;
use path_cond::PathCond;
use path_formula::Formula;
use path_solver::Decided;
use sn_width::{NoMemory, Num, Rel};
use std::alloc::Global;
use std::process::Abort;

/// Each relation of each of these sides.
fn atoms_of(rt: &impl Abort, alloc: Global, all: &[(Side, Side)]) -> Vec<Atom> {
    let mut atoms = Vec::new(alloc);
    for (left, right) in all {
        for rel in [Rel::Eq, Rel::Ne, Rel::Lt, Rel::Le, Rel::Gt, Rel::Ge] {
            atoms.push(Compare(*left, rel, *right)).expect(rt, "memory");
        }
    }
    atoms
}

/// The values of the two symbols.
type Point = [Num; 2];

fn is_true_at(atom: Atom, at: Point) -> bool {
    is_true(atom, &at, 3)
}

/// How many conditions were met, and how many refuted.
#[derive(Drop)]
struct Tally {
    met: u32,
    refuted: u32,
}

fn check_tally(rt: &impl Abort, tally: &Tally, met: u32, refuted: u32) {
    assert_eq!(rt; tally.met, met);
    assert_eq!(rt; tally.refuted, refuted);
}

/// Counts the decision, and asserts that it is that of these least values, or of none.
fn count_found(
    rt: &impl Abort,
    alloc: Global,
    cond: &PathCond,
    found: &Decided,
    least: Option<Point>,
    tally: &mut Tally,
) {
    match found {
        Decided::Sat { values } => {
            tally.met = tally.met.wrapping_add(1);
            assert!(rt; is_point(values.as_slice(), least));
        }
        Decided::Unsat { refutation } => {
            tally.refuted = tally.refuted.wrapping_add(1);
            assert!(rt; least.is_none() && is_accepted(rt, alloc, refutation, cond));
        }
        Decided::Undecided { .. } => panic!(rt; "undecided"),
    }
}

/// The same of the decision of a condition, which ends here.
fn count(rt: &impl Abort, alloc: Global, cond: PathCond, least: Option<Point>, tally: &mut Tally) {
    let found = decided(alloc, &cond).expect(rt, "memory");
    count_found(rt, alloc, &cond, &found, least, tally);
    let_go(cond);
}

fn is_point(values: &[Num], point: Option<Point>) -> bool {
    match point {
        None => false,
        Some(at) => values == at.as_slice(),
    }
}

/// The values of a number below 16, in the order of words.
fn point_of(number: u8) -> Point {
    [Num::from(number / 4), Num::from(number % 4)]
}

fn are_true_at(atoms: &[Atom], at: Point) -> bool {
    for atom in atoms {
        if !is_true_at(*atom, at) {
            return false;
        }
    }
    true
}

/// The least values at which each of the atoms is true.
fn least_of_all(atoms: &[Atom]) -> Option<Point> {
    for number in 0..16u8 {
        let at = point_of(number);
        if are_true_at(atoms, at) {
            return Some(at);
        }
    }
    None
}

/// The condition with these atoms, over symbols of 2 bits.
fn with_atoms(rt: &impl Abort, alloc: Global, free: &PathCond, atoms: &[Atom]) -> PathCond {
    let mut cond = free.fork().expect(rt, "a copy");
    for atom in atoms {
        cond = with(rt, alloc, cond, bits(2), *atom, true);
    }
    cond
}

/// Asserts the decision of the condition of these atoms.
fn check_atoms(rt: &impl Abort, alloc: Global, free: &PathCond, atoms: &[Atom], tally: &mut Tally) {
    let cond = with_atoms(rt, alloc, free, atoms);
    count(rt, alloc, cond, least_of_all(atoms), tally);
}

/// Asserts the decision of each condition of one, two or three of the atoms.
fn check_all(rt: &impl Abort, alloc: Global, free: &PathCond, atoms: &[Atom], tally: &mut Tally) {
    for first in 0..atoms.len() {
        check_atoms(rt, alloc, free, &[atoms[first]], tally);
        for second in first..atoms.len() {
            check_atoms(rt, alloc, free, &[atoms[first], atoms[second]], tally);
            for third in second..atoms.len() {
                let three = [atoms[first], atoms[second], atoms[third]];
                check_atoms(rt, alloc, free, &three, tally);
            }
        }
    }
}

const FIVE: &[(Side, Side)] = &[
    (Symbol(0), Symbol(1)),
    (Plus(0, 3), Plus(1, 2)),
    (Plus(0, 1), Symbol(0)),
    (Plus(0, 2), Number(1)),
    (Symbol(1), Number(2)),
];

fn check_thirty(rt: &impl Abort, alloc: Global, free: &PathCond) {
    let atoms = atoms_of(rt, alloc, FIVE);
    let mut tally = Tally { met: 0, refuted: 0 };
    check_all(rt, alloc, free, atoms.as_slice(), &mut tally);
    check_tally(rt, &tally, 3_632, 1_823);
}

#[test]
fn each_condition_of_up_to_three_of_thirty_atoms(rt: HostRuntime) {
    let free = free(&rt, rt.alloc(), bits(2), 2);
    check_thirty(&rt, rt.alloc(), &free);
    let_go(free);
}

fn negated(alloc: Global, part: Formula) -> Result<Formula, NoMemory>
    ensures { IfOk result (λ f. (widths : List ℕ) → IsTyped widths (tree_of part) → IsTyped widths (tree_of f)) }
{
    Ok(Formula::Not(Box::new(alloc, part)?))
}

fn both(alloc: Global, first: Formula, second: Formula) -> Result<Formula, NoMemory>
    ensures { IfOk result (λ f. (widths : List ℕ) → IsTyped widths (tree_of first)
        → IsTyped widths (tree_of second) → IsTyped widths (tree_of f)) }
{
    Ok(Formula::And(vec![in alloc; first, second]?))
}

fn either(alloc: Global, first: Formula, second: Formula) -> Result<Formula, NoMemory>
    ensures { IfOk result (λ f. (widths : List ℕ) → IsTyped widths (tree_of first)
        → IsTyped widths (tree_of second) → IsTyped widths (tree_of f)) }
{
    Ok(Formula::Or(vec![in alloc; first, second]?))
}

/// The second atom and not the third.
fn inner(
    rt: &impl Abort,
    alloc: Global,
    free: &PathCond,
    atoms: [Atom; 3],
) -> Result<Formula, NoMemory>
    ensures { IfOk result (λ f. IsTyped free.now.widths (tree_of f)) }
{
    let third = formula_of(rt, alloc, free, bits(2), atoms[2]);
    let other = negated(alloc, third)?;
    let second = formula_of(rt, alloc, free, bits(2), atoms[1]);
    Ok(both(alloc, second, other)?)
}

/// The condition of one formula: the first atom, or the second and not the third.
fn of_compound(
    rt: &impl Abort,
    alloc: Global,
    free: &PathCond,
    atoms: [Atom; 3],
    holds: bool,
) -> Result<PathCond, NoMemory> {
    let inner = inner(rt, alloc, free, atoms)?;
    let first = formula_of(rt, alloc, free, bits(2), atoms[0]);
    let formula = either(alloc, first, inner)?;
    Ok(with_formula(rt, alloc, free, formula, holds))
}

/// The least values at which this formula has the truth.
fn least_of_compound(atoms: [Atom; 3], holds: bool) -> Option<Point> {
    for number in 0..16u8 {
        let at = point_of(number);
        let inner = is_true_at(atoms[1], at) && !is_true_at(atoms[2], at);
        if (is_true_at(atoms[0], at) || inner) == holds {
            return Some(at);
        }
    }
    None
}

/// Asserts the decision of the condition of such a formula.
fn check_compound(
    rt: &impl Abort,
    alloc: Global,
    free: &PathCond,
    atoms: [Atom; 3],
    holds: bool,
    tally: &mut Tally,
) {
    let cond = of_compound(rt, alloc, free, atoms, holds).expect(rt, "memory");
    count(rt, alloc, cond, least_of_compound(atoms, holds), tally);
}

/// Asserts the decisions of the conditions of such formulas of any three of the atoms.
fn check_compounds(
    rt: &impl Abort,
    alloc: Global,
    free: &PathCond,
    atoms: &[Atom],
    tally: &mut Tally,
) {
    for first in atoms {
        for second in atoms {
            for third in atoms {
                let all = [*first, *second, *third];
                check_compound(rt, alloc, free, all, true, tally);
                check_compound(rt, alloc, free, all, false, tally);
            }
        }
    }
}

const TWO: &[(Side, Side)] = &[(Plus(0, 3), Plus(1, 2)), (Plus(1, 2), Number(1))];

fn check_twelve(rt: &impl Abort, alloc: Global, free: &PathCond) {
    let atoms = atoms_of(rt, alloc, TWO);
    let mut tally = Tally { met: 0, refuted: 0 };
    check_compounds(rt, alloc, free, atoms.as_slice(), &mut tally);
    check_tally(rt, &tally, 3_382, 74);
}

#[test]
fn or_and_not_of_three_of_twelve_atoms(rt: HostRuntime) {
    let free = free(&rt, rt.alloc(), bits(2), 2);
    check_twelve(&rt, rt.alloc(), &free);
    let_go(free);
}
