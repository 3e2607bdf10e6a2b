//! Refutations, and causes of leaving a condition undecided.

use crate::build::Atom::*;
use crate::build::Side::*;
use crate::build::{Atom, bits, condition, free, let_go, one_against_all, thirteen_pairs, with};
use crate::decisions::is_accepted;
use Plain::{Cycle, Domain, Empty, Split};
use Why::{Cases, Coupled, Outside};
use path_cond::PathCond;
use refutation_check::{Cause, Listed, Refutation, Refute, copy_of, lawful};
use sn_width::{Num, Rel, SymId};
use std::alloc::Global;
use std::process::Abort;

/// A step of a refutation.
#[derive(Clone, Copy)]
enum Plain<'a> {
    Split(u32),
    Cycle(&'a [u32]),
    Empty(u64, &'a [u32]),
    Domain(u64),
}

fn listed(rt: &impl Abort, alloc: Global, numbers: &[u32]) -> Listed<u32> {
    Listed::from_vec(Vec::from_slice(alloc, numbers).expect(rt, "memory"))
}

fn step_of(rt: &impl Abort, alloc: Global, plain: Plain<'_>) -> Refute {
    match plain {
        Split(pick) => Refute::Split {
            pick,
            way: listed(rt, alloc, &[]),
        },
        Cycle(numbers) => Refute::Cycle {
            bounds: listed(rt, alloc, numbers),
        },
        Empty(id, numbers) => Refute::Empty {
            symbol: SymId(id),
            picks: listed(rt, alloc, numbers),
        },
        Domain(id) => Refute::Domain { symbol: SymId(id) },
    }
}

fn push(rt: &impl Abort, steps: &mut Vec<Refute>, step: Refute) {
    steps.push(step).expect(rt, "memory");
}

fn refutation_of(rt: &impl Abort, alloc: Global, plain: &[Plain<'_>]) -> Refutation {
    let mut steps = Vec::new(alloc);
    for step in plain {
        push(rt, &mut steps, step_of(rt, alloc, *step));
    }
    Listed::from_vec(steps)
}

/// A condition, and steps which are accepted or not.
struct Row {
    bits: u8,
    atoms: &'static [Atom],
    rows: &'static [(bool, &'static [Plain<'static>])],
}

/// `s < d`.
const LESS: Atom = Compare(Symbol(0), Rel::Lt, Symbol(1));

/// `d < s`.
const GREATER: Atom = Compare(Symbol(1), Rel::Lt, Symbol(0));

/// `x < 5` and `x > 9`.
const WITHOUT_VALUE: &[Atom] = &[
    Compare(Symbol(0), Rel::Lt, Number(5)),
    Compare(Symbol(0), Rel::Gt, Number(9)),
];

const ROWS: &[Row] = &[
    // a circle of orders
    Row {
        bits: 32,
        atoms: &[LESS, GREATER],
        rows: &[
            (true, &[Split(0), Split(1), Cycle(&[0, 1])]),
            // forged: a step is dropped, doubled or exchanged
            (false, &[]),
            (false, &[Split(0), Split(1)]),
            (false, &[Split(0), Cycle(&[0, 1])]),
            (false, &[Split(1), Cycle(&[0, 1])]),
            (false, &[Split(0), Split(0), Split(1), Cycle(&[0, 1])]),
            (false, &[Split(0), Split(1), Cycle(&[0, 1]), Cycle(&[0, 1])]),
            (false, &[Split(0), Cycle(&[0, 1]), Split(1)]),
            (false, &[Cycle(&[0, 1]), Split(0), Split(1)]),
            // a cycle is closed
            (true, &[Split(0), Split(1), Cycle(&[1, 0])]),
            (false, &[Split(0), Split(1), Cycle(&[0])]),
            (false, &[Split(0), Split(1), Cycle(&[])]),
            (false, &[Split(0), Split(1), Cycle(&[0, 2])]),
        ],
    },
    // a cycle is below zero
    Row {
        bits: 32,
        atoms: &[
            Compare(Symbol(0), Rel::Le, Symbol(1)),
            Compare(Symbol(1), Rel::Le, Symbol(0)),
        ],
        rows: &[(false, &[Split(0), Split(1), Cycle(&[0, 1])])],
    },
    // an empty domain is refuted by its formulas
    Row {
        bits: 128,
        atoms: WITHOUT_VALUE,
        rows: &[
            (true, &[Empty(0, &[1, 0])]),
            (false, &[Empty(0, &[0])]),
            (false, &[Empty(1, &[0, 1])]),
        ],
    },
    // a narrow domain may be divided, a wide one may not
    Row {
        bits: 64,
        atoms: WITHOUT_VALUE,
        rows: &[(true, &[Domain(0)])],
    },
    Row {
        bits: 65,
        atoms: WITHOUT_VALUE,
        rows: &[(false, &[Domain(0)])],
    },
];

fn copied(rt: &impl Abort, alloc: Global, plain: &[Plain<'_>]) -> Refutation {
    let refutation = refutation_of(rt, alloc, plain);
    copy_of(alloc, &refutation).expect(rt, "memory")
}

/// Whether a copy of the steps is accepted.
fn accepts(rt: &impl Abort, alloc: Global, cond: &PathCond, plain: &[Plain<'_>]) -> bool {
    let copy = copied(rt, alloc, plain);
    is_accepted(rt, alloc, &copy, cond)
}

fn check_steps(rt: &impl Abort, alloc: Global, cond: &PathCond, rows: &[(bool, &[Plain<'_>])]) {
    for (row, (wanted, plain)) in rows.iter().enumerate() {
        let accepts = accepts(rt, alloc, cond, plain);
        assert!(rt; accepts == *wanted, "row {row}");
    }
}

fn check_row(rt: &impl Abort, alloc: Global, row: &Row) {
    assert!(rt; 1 <= row.bits && row.bits <= 128);
    let cond = condition(rt, alloc, bits(row.bits), 2, row.atoms);
    check_steps(rt, alloc, &cond, row.rows);
    let_go(cond);
}

#[test]
fn refutations_are_accepted_where_each_step_is_right(rt: HostRuntime) {
    for row in ROWS {
        check_row(&rt, rt.alloc(), row);
    }
}

/// A cause of leaving a condition undecided.
#[derive(Clone, Copy)]
enum Why<'a> {
    Cases(u64),
    Coupled(u64),
    Outside(u32, &'a [Num]),
}

fn cause_of(rt: &impl Abort, alloc: Global, why: Why<'_>) -> Cause {
    match why {
        Cases(count) => Cause::Cases { count },
        Coupled(count) => Cause::Coupled { count },
        Outside(pick, values) => Cause::Outside {
            pick,
            values: Listed::from_vec(Vec::from_slice(alloc, values).expect(rt, "memory")),
        },
    }
}

/// A copy of the cause.
fn copied_cause(rt: &impl Abort, alloc: Global, why: Why<'_>) -> Cause {
    let cause = cause_of(rt, alloc, why);
    cause.copy(alloc).expect(rt, "memory")
}

/// Whether the cause may be given.
fn may_be_given(rt: &impl Abort, alloc: Global, cond: &PathCond, why: Why<'_>) -> bool {
    let cause = copied_cause(rt, alloc, why);
    lawful(alloc, &cause, cond).expect(rt, "memory")
}

/// Asserts which causes may be given, of a condition that ends here.
fn check_causes(rt: &impl Abort, alloc: Global, cond: PathCond, causes: &[(bool, Why<'_>)]) {
    for (row, (wanted, why)) in causes.iter().enumerate() {
        let found = may_be_given(rt, alloc, &cond, *why);
        assert!(rt; found == *wanted, "row {row}");
    }
    let_go(cond);
}

const CHOICES: &[(bool, Why<'static>)] = &[
    (true, Cases(8192)),
    (false, Cases(8191)),
    (false, Coupled(26)),
];

#[test]
fn a_cause_is_the_number_of_choices(rt: HostRuntime) {
    let cond = thirteen_pairs(&rt, rt.alloc(), 4096);
    check_causes(&rt, rt.alloc(), cond, CHOICES);
}

const SYMBOLS: &[(bool, Why<'static>)] = &[
    (true, Coupled(65)),
    (false, Coupled(66)),
    (true, Cases(u64::MAX)),
];

#[test]
fn a_cause_is_the_number_of_coupled_symbols(rt: HostRuntime) {
    let cond = one_against_all(&rt, rt.alloc());
    check_causes(&rt, rt.alloc(), cond, SYMBOLS);
}

/// Two symbols of 128 bits are equal, which is outside, and the first is more than 3.
const WIDE_PAIR: &[Atom] = &[
    Compare(Symbol(0), Rel::Gt, Number(3)),
    Compare(Symbol(0), Rel::Eq, Symbol(1)),
];

const BREAKS: &[(bool, Why<'static>)] = &[
    (true, Outside(1, &[4, 0])),
    (false, Outside(1, &[4, 4])),
    (false, Outside(1, &[0, 4])),
    (false, Outside(1, &[4])),
    (false, Outside(0, &[4, 0])),
];

#[test]
fn values_break_an_outside_formula(rt: HostRuntime) {
    let cond = condition(&rt, rt.alloc(), bits(128), 2, WIDE_PAIR);
    check_causes(&rt, rt.alloc(), cond, BREAKS);
}

fn with_atom(rt: &impl Abort, alloc: Global, cond: PathCond, atom: Atom) -> PathCond {
    with(rt, alloc, cond, bits(32), atom, true)
}

/// `count` times `s < d`.
fn often_less(rt: &impl Abort, alloc: Global, count: u32) -> PathCond {
    let mut cond = free(rt, alloc, bits(32), 2);
    for _ in 0..count {
        cond = with_atom(rt, alloc, cond, LESS);
    }
    cond
}

/// `count` times `s < d`, then `d < s`.
fn long_circle(rt: &impl Abort, alloc: Global, count: u32) -> PathCond {
    let cond = often_less(rt, alloc, count);
    with_atom(rt, alloc, cond, GREATER)
}

/// A split of each formula up to this pick, and a cycle of the first bound and the last.
fn long_refutation(rt: &impl Abort, alloc: Global, last: u32) -> Refutation {
    let mut steps = Vec::new(alloc);
    for pick in 0..last {
        push(rt, &mut steps, step_of(rt, alloc, Split(pick)));
    }
    push(rt, &mut steps, step_of(rt, alloc, Split(last)));
    push(rt, &mut steps, step_of(rt, alloc, Cycle(&[0, last])));
    Listed::from_vec(steps)
}

/// Asserts that such a refutation is accepted.
fn check_long(rt: &impl Abort, alloc: Global, cond: &PathCond, last: u32) {
    let refutation = long_refutation(rt, alloc, last);
    assert!(rt; is_accepted(rt, alloc, &refutation, cond));
}

#[test]
fn a_long_refutation_is_checked_fast(rt: HostRuntime) {
    let cond = long_circle(&rt, rt.alloc(), 20_000);
    check_long(&rt, rt.alloc(), &cond, 20_000);
    let_go(cond);
}
