//! Terms.

use crate::build::Side::{Number, Symbol};
use crate::build::{Side, bits, same, term};
use lin_term::Term;
use sn_width::{Num, SymId, Width};
use std::alloc::Global;
use std::process::Abort;

/// What is done to the term so far.
#[derive(Clone, Copy)]
enum Step {
    Add(Side),
    Take(Side),
}

/// A side, what is done to it, and the term that this makes.
struct Row {
    first: Side,
    steps: &'static [Step],
    constant: Num,
    parts: &'static [(u64, Num)],
    /// Whether this is the first side again.
    same: bool,
    /// The values at some numbers of the symbols.
    values: &'static [(&'static [Num], Num)],
}

const BYTES: &[Row] = &[
    Row {
        first: Symbol(0),
        steps: &[Step::Add(Symbol(0))],
        constant: 0,
        parts: &[(0, 2)],
        same: false,
        values: &[],
    },
    Row {
        first: Symbol(0),
        steps: &[Step::Add(Symbol(0)), Step::Take(Symbol(0))],
        constant: 0,
        parts: &[(0, 1)],
        same: true,
        values: &[],
    },
    Row {
        first: Symbol(0),
        steps: &[
            Step::Add(Symbol(0)),
            Step::Take(Symbol(0)),
            Step::Take(Symbol(0)),
        ],
        constant: 0,
        parts: &[],
        same: false,
        values: &[],
    },
    // 5 - 200 + 44, then 5 - 200 as symbol 3 is past the list, then 5 - 1000 + 0
    Row {
        first: Symbol(3),
        steps: &[Step::Take(Symbol(1)), Step::Add(Number(5))],
        constant: 5,
        parts: &[(1, 255), (3, 1)],
        same: false,
        values: &[
            (&[9, 200, 9, 44], 105),
            (&[9, 200], 61),
            (&[9, 1000, 9, 256], 29),
        ],
    },
];

const ONE_BIT: &[Row] = &[
    Row {
        first: Number(1),
        steps: &[Step::Add(Number(1))],
        constant: 0,
        parts: &[],
        same: false,
        values: &[],
    },
    Row {
        first: Symbol(0),
        steps: &[Step::Add(Symbol(0))],
        constant: 0,
        parts: &[],
        same: false,
        values: &[],
    },
    Row {
        first: Number(1),
        steps: &[Step::Take(Symbol(0))],
        constant: 1,
        parts: &[(0, 1)],
        same: false,
        values: &[(&[0], 1), (&[1], 0)],
    },
];

const LAST: u64 = u64::MAX;

const WIDE: &[Row] = &[
    Row {
        first: Symbol(LAST),
        steps: &[Step::Take(Symbol(LAST)), Step::Take(Number(1))],
        constant: 18446744073709551615,
        parts: &[],
        same: false,
        values: &[],
    },
    Row {
        first: Symbol(LAST),
        steps: &[
            Step::Take(Symbol(LAST)),
            Step::Take(Number(1)),
            Step::Add(Number(1)),
        ],
        constant: 0,
        parts: &[],
        same: false,
        values: &[],
    },
];

const WIDEST: &[Row] = &[Row {
    first: Number(0),
    steps: &[Step::Take(Symbol(0))],
    constant: 0,
    parts: &[(0, Num::MAX)],
    same: false,
    values: &[(&[Num::MAX], 1), (&[1], Num::MAX)],
}];

/// The term after a step.
fn after(rt: &impl Abort, alloc: Global, before: Term, step: Step) -> Term {
    match step {
        Step::Add(side) => {
            let other = term(rt, alloc, before.width(), side);
            before.plus(alloc, &other).expect(rt, "memory")
        }
        Step::Take(side) => {
            let other = term(rt, alloc, before.width(), side);
            before.minus(alloc, &other).expect(rt, "memory")
        }
    }
}

/// The term after all steps.
fn made(rt: &impl Abort, alloc: Global, width: Width, row: &Row) -> Term {
    let mut made = term(rt, alloc, width, row.first);
    for step in row.steps {
        made = after(rt, alloc, made, *step);
    }
    made
}

/// Whether the term's parts are these.
fn has_parts(term: &Term, parts: &[(u64, Num)]) -> bool {
    for (index, (symbol, coefficient)) in parts.iter().enumerate() {
        if term.part(index) != Some((SymId(*symbol), *coefficient)) {
            return false;
        }
    }
    term.part(parts.len()).is_none()
}

fn check_values(rt: &impl Abort, term: &Term, values: &[(&[Num], Num)]) {
    for (numbers, value) in values {
        same(rt, term.value(numbers), *value);
    }
}

fn check_term(rt: &impl Abort, width: Width, term: &Term, row: &Row) {
    assert!(rt; term.width() == width);
    same(rt, term.constant(), row.constant);
    assert!(rt; has_parts(term, row.parts));
    check_values(rt, term, row.values);
}

/// Asserts whether the term is that of the side.
fn check_same(rt: &impl Abort, alloc: Global, made: &Term, side: Side, same: bool) {
    let other = term(rt, alloc, made.width(), side);
    assert!(rt; made.same(&other) == same);
}

/// Asserts that a copy of the term is the same.
fn check_copy(rt: &impl Abort, alloc: Global, made: &Term) {
    let copy = made.copy(alloc).expect(rt, "memory");
    assert!(rt; copy.same(made));
}

/// The parts of the row.
fn parts_of(rt: &impl Abort, alloc: Global, row: &Row) -> Vec<(SymId, Num)> {
    let mut parts = Vec::new(alloc);
    for (symbol, coefficient) in row.parts {
        parts
            .push((SymId(*symbol), *coefficient))
            .expect(rt, "memory");
    }
    parts
}

/// Asserts that the row's parts are taken as those of the term.
fn check_of_parts(rt: &impl Abort, alloc: Global, made: &Term, row: &Row) {
    let parts = parts_of(rt, alloc, row);
    let term = Term::of_parts(made.width(), row.constant, parts).expect(rt, "a term");
    assert!(rt; term.same(made));
}

fn check_row(rt: &impl Abort, alloc: Global, width: Width, row: &Row) {
    let made = made(rt, alloc, width, row);
    check_term(rt, width, &made, row);
    check_of_parts(rt, alloc, &made, row);
    check_same(rt, alloc, &made, row.first, row.same);
    check_copy(rt, alloc, &made);
}

fn check_rows(rt: &impl Abort, alloc: Global, width: Width, rows: &[Row]) {
    for row in rows {
        check_row(rt, alloc, width, row);
    }
}

#[test]
fn sums_and_differences_wrap_at_each_width(rt: HostRuntime) {
    for (count, rows) in [(8, BYTES), (1, ONE_BIT), (64, WIDE), (128, WIDEST)] {
        check_rows(&rt, rt.alloc(), bits(count), rows);
    }
}
