//! Numbers of coupled symbols and of choices.

use crate::build::Atom::*;
use crate::build::Side::*;
use crate::build::{Atom, bits, condition, differ, free, let_go, thirteen_pairs, with};
use path_cond::{PathCond, case_count, coupled_symbols};
use sn_width::{Rel, SymId};
use std::alloc::Global;
use std::process::Abort;

fn assert_coupled(rt: &impl Abort, cond: &PathCond, coupled: u64) {
    assert_eq!(rt; cond.coupled_count(), coupled);
}

fn assert_cases(rt: &impl Abort, alloc: Global, cond: &PathCond, cases: u64) {
    let count = case_count(alloc, cond).expect(rt, "memory");
    assert_eq!(rt; count, cases);
}

fn check(rt: &impl Abort, alloc: Global, cond: PathCond, coupled: u64, cases: u64) {
    assert_coupled(rt, &cond, coupled);
    assert_cases(rt, alloc, &cond, cases);
    let_go(cond);
}

/// `symbol != 5`, whose solutions are two ranges.
fn in_two_ranges(id: u64) -> Atom {
    Compare(Symbol(id), Rel::Ne, Number(5))
}

/// With two formulas on the symbol; one couples it with symbol 999.
fn with_two(rt: &impl Abort, alloc: Global, cond: PathCond, id: u64) -> PathCond {
    let less = Compare(Symbol(id), Rel::Lt, Symbol(999));
    let next = with(rt, alloc, cond, bits(8), less, true);
    with(rt, alloc, next, bits(8), in_two_ranges(id), true)
}

/// 20,000 formulas on 1,000 symbols.
fn large(rt: &impl Abort, alloc: Global) -> PathCond {
    let mut cond = free(rt, alloc, bits(8), 1000);
    for place in 0..10_000u64 {
        cond = with_two(rt, alloc, cond, place % 999);
    }
    cond
}

#[test]
fn each_pair_that_differs_doubles_the_choices(rt: HostRuntime) {
    check(
        &rt,
        rt.alloc(),
        thirteen_pairs(&rt, rt.alloc(), 4096),
        26,
        8192,
    );
}

/// Of three symbols the last two differ, and the first two lie in two ranges each.
fn two_ranges(rt: &impl Abort, alloc: Global) -> PathCond {
    let atoms = [in_two_ranges(0), in_two_ranges(1), differ(2, 1)];
    condition(rt, alloc, bits(8), 3, &atoms)
}

fn assert_symbols(rt: &impl Abort, alloc: Global, cond: &PathCond, wanted: &[SymId]) {
    let symbols = coupled_symbols(alloc, cond).expect(rt, "memory");
    assert!(rt; symbols.as_slice() == wanted);
}

#[test]
fn ranges_of_coupled_symbols_alone_count(rt: HostRuntime) {
    let cond = two_ranges(&rt, rt.alloc());
    assert_symbols(&rt, rt.alloc(), &cond, &[SymId(1), SymId(2)]);
    check(&rt, rt.alloc(), cond, 2, 4);
}

#[test]
fn a_large_condition_is_counted_fast(rt: HostRuntime) {
    check(&rt, rt.alloc(), large(&rt, rt.alloc()), 1000, u64::MAX);
}
