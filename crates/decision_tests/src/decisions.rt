//! Decisions of conditions.

ghost use Rattle.std.specs.Prelude.{◌<◌};

mod small;

use crate::build::Atom::*;
use crate::build::Side::*;
use crate::build::{
    Atom, bits, bounded, condition, differ, free, let_go, one_against_all, thirteen_pairs, with,
};
use Wanted::{Cases, Coupled, Met, Outside, Refuted};
use interval_solver::Domains;
use path_cond::PathCond;
use path_solver::{Decided, decide};
use refutation_check::{Cause, Refutation, check};
use sn_width::{NoMemory, Num, Rel};
use std::alloc::Global;
use std::process::Abort;

/// What a decision is to be.
#[derive(Clone, Copy)]
pub(crate) enum Wanted<'a> {
    /// Met by these values.
    Met(&'a [Num]),
    /// Refuted, by steps that are accepted.
    Refuted,
    /// Left undecided by the formula of the pick, at these values.
    Outside(u32, &'a [Num]),
    /// Left undecided by this many coupled symbols.
    Coupled(u64),
    /// Left undecided by this many choices.
    Cases(u64),
}

fn decided(alloc: Global, cond: &PathCond) -> Result<Decided, NoMemory> {
    let domains = Domains::of(alloc, cond)?;
    decide(alloc, cond, &domains)
}

/// Whether the steps are accepted.
pub(crate) fn is_accepted(
    rt: &impl Abort,
    alloc: Global,
    refutation: &Refutation,
    cond: &PathCond,
) -> bool {
    check(alloc, refutation, cond).expect(rt, "memory")
}

fn is_cause(cause: &Cause, wanted: Wanted<'_>) -> bool {
    match (cause, wanted) {
        (Cause::Outside { pick, values }, Outside(place, numbers)) => {
            *pick == place && values.as_slice() == numbers
        }
        (Cause::Coupled { count }, Coupled(number)) => *count == number,
        (Cause::Cases { count }, Cases(number)) => *count == number,
        _ => false,
    }
}

fn is_met(values: &[Num], wanted: Wanted<'_>) -> bool {
    match wanted {
        Met(numbers) => values == numbers,
        _ => false,
    }
}

fn is_refuted(wanted: Wanted<'_>) -> bool {
    match wanted {
        Refuted => true,
        _ => false,
    }
}

/// Whether this is the decision, and where it is a refutation, whether its steps are accepted.
fn is_wanted(
    rt: &impl Abort,
    alloc: Global,
    cond: &PathCond,
    found: &Decided,
    wanted: Wanted<'_>,
) -> bool {
    match found {
        Decided::Sat { values } => is_met(values.as_slice(), wanted),
        Decided::Unsat { refutation } => {
            is_refuted(wanted) && is_accepted(rt, alloc, refutation, cond)
        }
        Decided::Undecided { cause } => is_cause(cause, wanted),
    }
}

/// Whether the condition is decided so.
fn is_decided(rt: &impl Abort, alloc: Global, cond: &PathCond, wanted: Wanted<'_>) -> bool {
    let found = decided(alloc, cond).expect(rt, "memory");
    is_wanted(rt, alloc, cond, &found, wanted)
}

/// A condition over symbols of a width, and what is decided of it.
struct Row {
    bits: u8,
    symbols: usize,
    atoms: &'static [Atom],
    decision: Wanted<'static>,
}

/// `x < 5`, on symbol 0.
const LOW: Atom = Compare(Symbol(0), Rel::Lt, Number(5));

/// `x != y`.
const APART: Atom = Compare(Symbol(0), Rel::Ne, Symbol(1));

/// `x < y`.
const LESS: Atom = Compare(Symbol(0), Rel::Lt, Symbol(1));

/// `x <= y`.
const AT_MOST: Atom = Compare(Symbol(0), Rel::Le, Symbol(1));

/// `y < z`.
const SECOND_LESS: Atom = Compare(Symbol(1), Rel::Lt, Symbol(2));

/// `x == y`.
const EQUAL: Atom = Compare(Symbol(0), Rel::Eq, Symbol(1));

const ORDERS: &[Row] = &[
    Row {
        bits: 32,
        symbols: 2,
        atoms: &[LESS],
        decision: Met(&[0, 1]),
    },
    Row {
        bits: 32,
        symbols: 2,
        atoms: &[LESS, Compare(Symbol(1), Rel::Lt, Symbol(0))],
        decision: Refuted,
    },
    // simple formulas come first
    Row {
        bits: 8,
        symbols: 2,
        atoms: &[LOW, Compare(Symbol(0), Rel::Gt, Number(9))],
        decision: Refuted,
    },
    Row {
        bits: 8,
        symbols: 2,
        atoms: &[LOW, APART],
        decision: Met(&[0, 1]),
    },
    Row {
        bits: 8,
        symbols: 2,
        atoms: &[LOW, APART, Compare(Symbol(0), Rel::Gt, Number(2))],
        decision: Met(&[3, 0]),
    },
    // orders in a row, met by raising each symbol past the one before
    Row {
        bits: 32,
        symbols: 3,
        atoms: &[SECOND_LESS, LESS],
        decision: Met(&[0, 1, 2]),
    },
    // a circle whose bounds sum to zero
    Row {
        bits: 32,
        symbols: 2,
        atoms: &[AT_MOST, Compare(Symbol(1), Rel::Le, Symbol(0))],
        decision: Met(&[0, 0]),
    },
    // a circle below zero, behind a symbol that is not in it
    Row {
        bits: 32,
        symbols: 3,
        atoms: &[SECOND_LESS, AT_MOST, Compare(Symbol(2), Rel::Le, Symbol(1))],
        decision: Refuted,
    },
    // from a least value to a greatest one
    Row {
        bits: 8,
        symbols: 3,
        atoms: &[SECOND_LESS, LESS, Compare(Symbol(2), Rel::Le, Number(1))],
        decision: Refuted,
    },
    Row {
        bits: 8,
        symbols: 2,
        atoms: &[LESS, Compare(Symbol(0), Rel::Ge, Number(255))],
        decision: Refuted,
    },
    // a value that is left out
    Row {
        bits: 8,
        symbols: 2,
        atoms: &[LESS, Compare(Symbol(1), Rel::Ne, Number(1))],
        decision: Met(&[0, 2]),
    },
    // sums wrap
    Row {
        bits: 8,
        symbols: 1,
        atoms: &[Compare(Plus(0, 1), Rel::Lt, Symbol(0))],
        decision: Met(&[255]),
    },
];

/// `x + y == 5`.
const FIVE: Atom = Compare(Both(0, 1), Rel::Eq, Number(5));

const HIGH: Num = 1 << 127;

const FIRST_HIGH: Atom = Compare(Symbol(0), Rel::Eq, Number(HIGH));

const SECOND_HIGH: Atom = Compare(Symbol(1), Rel::Eq, Number(HIGH));

const OUTSIDE: &[Row] = &[
    // sums of two
    Row {
        bits: 8,
        symbols: 2,
        atoms: &[FIVE],
        decision: Outside(0, &[0, 0]),
    },
    Row {
        bits: 8,
        symbols: 2,
        atoms: &[FIVE, Compare(Both(0, 1), Rel::Eq, Number(6))],
        decision: Outside(0, &[0, 0]),
    },
    // wide pairs
    Row {
        bits: 128,
        symbols: 2,
        atoms: &[EQUAL],
        decision: Met(&[0, 0]),
    },
    Row {
        bits: 128,
        symbols: 2,
        atoms: &[Compare(Symbol(0), Rel::Ge, Number(7)), EQUAL],
        decision: Outside(1, &[7, 0]),
    },
    // wide pairs whose values are fixed
    Row {
        bits: 128,
        symbols: 2,
        atoms: &[FIRST_HIGH, SECOND_HIGH, EQUAL],
        decision: Met(&[HIGH, HIGH]),
    },
    Row {
        bits: 128,
        symbols: 2,
        atoms: &[FIRST_HIGH, SECOND_HIGH, APART],
        decision: Outside(2, &[HIGH, HIGH]),
    },
];

/// Asserts the decision of a condition, which ends here.
pub(crate) fn check_decision(rt: &impl Abort, alloc: Global, cond: PathCond, wanted: Wanted<'_>) {
    assert!(rt; is_decided(rt, alloc, &cond, wanted));
    let_go(cond);
}

fn check_row(rt: &impl Abort, alloc: Global, row: &Row) {
    assert!(rt; 1 <= row.bits && row.bits <= 128);
    let cond = condition(rt, alloc, bits(row.bits), row.symbols, row.atoms);
    check_decision(rt, alloc, cond, row.decision);
}

fn check_rows(rt: &impl Abort, alloc: Global, rows: &[Row]) {
    for row in rows {
        check_row(rt, alloc, row);
    }
}

#[test]
fn orders_are_met_or_refuted(rt: HostRuntime) {
    check_rows(&rt, rt.alloc(), ORDERS);
}

#[test]
fn sums_of_two_and_wide_pairs_are_outside(rt: HostRuntime) {
    check_rows(&rt, rt.alloc(), OUTSIDE);
}

#[test]
fn too_many_choices(rt: HostRuntime) {
    let pairs = thirteen_pairs(&rt, rt.alloc(), 8191);
    check_decision(&rt, rt.alloc(), pairs, Cases(8192));
}

#[test]
fn as_many_choices_as_are_tried(rt: HostRuntime) {
    let least = [
        0, 1, 0, 1, 0, 1, 0, 1, 0, 1, 0, 1, 0, 1, 0, 1, 0, 1, 0, 1, 0, 1, 0, 1, 0, 1,
    ];
    let pairs = thirteen_pairs(&rt, rt.alloc(), 8192);
    check_decision(&rt, rt.alloc(), pairs, Met(&least));
    let pairs = thirteen_pairs(&rt, rt.alloc(), u64::MAX);
    check_decision(&rt, rt.alloc(), pairs, Met(&least));
}

#[test]
fn one_choice_is_always_tried(rt: HostRuntime) {
    let none = bounded(&rt, rt.alloc(), bits(8), 2, 0);
    check_decision(&rt, rt.alloc(), none, Met(&[0, 0]));
    let none = bounded(&rt, rt.alloc(), bits(8), 2, 0);
    let pair = with(&rt, rt.alloc(), none, bits(8), differ(0, 1), true);
    check_decision(&rt, rt.alloc(), pair, Cases(2));
}

#[test]
fn too_many_coupled_symbols(rt: HostRuntime) {
    let star = one_against_all(&rt, rt.alloc());
    check_decision(&rt, rt.alloc(), star, Coupled(65));
}

fn with_next(rt: &impl Abort, alloc: Global, cond: PathCond, step: u64, symbols: u64) -> PathCond
    requires { 0 < symbols }
{
    let atom = differ(step % symbols, step.wrapping_add(1) % symbols);
    with(rt, alloc, cond, bits(8), atom, true)
}

/// Twelve formulas that two of `symbols` symbols of 8 bits are unequal, the first of them in a circle.
fn circles(rt: &impl Abort, alloc: Global, symbols: u64) -> PathCond
    requires { 0 < symbols }
{
    let mut cond = free(rt, alloc, bits(8), symbols as usize);
    for step in 0..12u64 {
        cond = with_next(rt, alloc, cond, step, symbols);
    }
    cond
}

fn with_bit(rt: &impl Abort, alloc: Global, cond: PathCond, id: u64) -> PathCond {
    let low = Compare(Symbol(id), Rel::Le, Number(1));
    with(rt, alloc, cond, bits(8), low, true)
}

/// The same, with each symbol at most 1.
fn circles_of_bits(rt: &impl Abort, alloc: Global, symbols: u64) -> PathCond
    requires { 0 < symbols }
{
    let mut cond = circles(rt, alloc, symbols);
    for id in 0..symbols {
        cond = with_bit(rt, alloc, cond, id);
    }
    cond
}

const ALTERNATING: Wanted<'static> = Met(&[0, 1, 0, 1, 0, 1, 0, 1, 0, 1]);

#[test]
fn choices_over_ten_symbols_by_the_thousand(rt: HostRuntime) {
    let ten = circles(&rt, rt.alloc(), 10);
    check_decision(&rt, rt.alloc(), ten, ALTERNATING);
}

#[test]
fn choices_over_nine_bits_are_refuted(rt: HostRuntime) {
    let nine = circles_of_bits(&rt, rt.alloc(), 9);
    check_decision(&rt, rt.alloc(), nine, Refuted);
}
