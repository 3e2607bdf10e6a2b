//! Path conditions.

use crate::build::Atom::*;
use crate::build::Side::*;
use crate::build::{Atom, bits, condition, free, let_go, shows, with};
use path_cond::PathCond;
use path_formula::Kind;
use sn_width::{Num, Rel, SymId, Width};
use std::alloc::Global;
use std::process::Abort;

/// `x + 1 < 5`.
const NEXT_IS_LOW: Atom = Compare(Plus(0, 1), Rel::Lt, Number(5));

const SIMPLE: Kind = Kind::Simple { symbol: SymId(0) };

/// Whether the symbol is there and its domain has these ranges.
fn leaves(
    rt: &impl Abort,
    alloc: Global,
    cond: &PathCond,
    symbol: u64,
    ranges: &[(Num, Num)],
) -> bool {
    if symbol >= cond.symbols() {
        return false;
    }
    let set = cond.domain(alloc, SymId(symbol)).expect(rt, "memory");
    shows(&set, ranges)
}

/// `x + 1 < 5` and not `x < 2`.
fn narrowed(rt: &impl Abort, alloc: Global) -> PathCond {
    let one = condition(rt, alloc, bits(8), 2, &[NEXT_IS_LOW]);
    let below_two = Compare(Symbol(0), Rel::Lt, Number(2));
    with(rt, alloc, one, bits(8), below_two, false)
}

/// Asserts the domain of a symbol.
fn check_domain(
    rt: &impl Abort,
    alloc: Global,
    cond: &PathCond,
    symbol: u64,
    ranges: &[(Num, Num)],
) {
    assert!(rt; leaves(rt, alloc, cond, symbol, ranges));
}

#[test]
fn simple_formulas_narrow_a_domain(rt: HostRuntime) {
    let cond = condition(&rt, rt.alloc(), bits(8), 2, &[NEXT_IS_LOW]);
    check_domain(&rt, rt.alloc(), &cond, 0, &[(0, 3), (255, 255)]);
    check_domain(&rt, rt.alloc(), &cond, 1, &[(0, 255)]);
    let_go(cond);
}

/// Asserts whether the condition holds where symbol 0 is this value.
fn check_holds(rt: &impl Abort, cond: &PathCond, value: Num, holds: bool) {
    assert!(rt; cond.holds(&[value]) == holds, "{value}");
}

#[test]
fn formulas_may_be_to_be_false(rt: HostRuntime) {
    let cond = narrowed(&rt, rt.alloc());
    check_holds(&rt, &cond, 2, true);
    check_holds(&rt, &cond, 4, false);
    check_holds(&rt, &cond, 1, false);
    check_domain(&rt, rt.alloc(), &cond, 0, &[(2, 3), (255, 255)]);
    let_go(cond);
}

fn newest_pick(cond: &PathCond, id: u64) -> Option<u32> {
    cond.simple_picks(SymId(id))?.top().copied()
}

/// Whether the formula of the pick is simple on symbol 0, and must be false.
fn is_simple_and_false(cond: &PathCond, pick: u32) -> bool {
    match cond.entry(pick) {
        None => false,
        Some((formula, holds)) => formula.kind() == SIMPLE && !holds,
    }
}

fn check_length(rt: &impl Abort, cond: &PathCond, length: u64) {
    assert_eq!(rt; cond.len(), length);
}

fn check_picks(rt: &impl Abort, cond: &PathCond) {
    assert!(rt; newest_pick(cond, 0) == Some(1));
    assert!(rt; cond.simple_picks(SymId(1)).is_none());
    assert!(rt; is_simple_and_false(cond, 1));
    check_length(rt, cond, 2);
}

#[test]
fn simple_picks_are_kept(rt: HostRuntime) {
    let cond = narrowed(&rt, rt.alloc());
    check_picks(&rt, &cond);
    let_go(cond);
}

/// `true`, which must be true, then false, without symbols.
fn broken(rt: &impl Abort, alloc: Global) -> PathCond {
    let held = condition(rt, alloc, bits(1), 0, &[Truth(true)]);
    with(rt, alloc, held, bits(1), Truth(true), false)
}

/// A fork, with a symbol of 128 bits.
fn with_symbol(rt: &impl Abort, alloc: Global, cond: &PathCond) -> PathCond {
    let fork = cond.fork().expect(rt, "a copy");
    let next = fork.with_symbol(alloc, bits(128)).expect(rt, "memory");
    let_go(fork);
    next
}

fn broken_with_symbol(rt: &impl Abort, alloc: Global) -> PathCond {
    let cond = broken(rt, alloc);
    let next = with_symbol(rt, alloc, &cond);
    let_go(cond);
    next
}

fn has_width(cond: &PathCond, id: u64, width: Width) -> bool {
    match cond.width(SymId(id)) {
        None => false,
        Some(found) => found == width,
    }
}

fn check_broken(rt: &impl Abort, cond: &PathCond) {
    assert!(rt; cond.first_broken() == Some(1));
    assert!(rt; has_width(cond, 0, bits(128)));
    assert!(rt; cond.width(SymId(1)).is_none());
}

#[test]
fn the_first_broken_constant_is_kept(rt: HostRuntime) {
    let cond = broken_with_symbol(&rt, rt.alloc());
    check_broken(&rt, &cond);
    let_go(cond);
}

fn with_low_next(rt: &impl Abort, alloc: Global, cond: PathCond, id: u64) -> PathCond {
    let atom = Compare(Plus(id, 1), Rel::Lt, Number(5));
    with(rt, alloc, cond, bits(8), atom, true)
}

/// 100,000 formulas on two symbols.
fn large(rt: &impl Abort, alloc: Global) -> PathCond {
    let mut cond = free(rt, alloc, bits(8), 2);
    for pick in 0..100_000u64 {
        cond = with_low_next(rt, alloc, cond, pick % 2);
    }
    cond
}

fn fork_often(rt: &impl Abort, cond: &PathCond) {
    for _ in 0..1_000_000 {
        let_go(cond.fork().expect(rt, "a copy"));
    }
}

#[test]
fn forks_of_a_large_condition_are_cheap(rt: HostRuntime) {
    let cond = large(&rt, rt.alloc());
    fork_often(&rt, &cond);
    check_length(&rt, &cond, 100_000);
    check_domain(&rt, rt.alloc(), &cond, 1, &[(0, 3), (255, 255)]);
    let_go(cond);
}
